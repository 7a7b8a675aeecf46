//! The gate of a ramp meter at one node.
ghost use Rattle.std.specs.Prelude.{◌≡◌, ◌≤◌, true, false, MatchOption};
ghost use Rattle.merge.specs.Bounds.{allowed, cut_by};

/// At the clocks that are multiples of the period so many vehicles of the second leg may pass, and at
/// others none.
#[derive(Clone, Copy, PartialEq, Eq, Debug)]
pub struct Gate {
    rate: u16,
    period: u16,
    ghost rated: { (1 ≤ rate) × (rate ≤ 200) },
    ghost timed: { (1 ≤ period) × (period ≤ 63) },
}

impl Gate {
    /// A gate of a rate from 1 to 200 and a period from 1 to 63; none of others.
    pub fn new(rate: u16, period: u16) -> Option<Gate>
        ensures { MatchOption result (allowed rate period ≡ false) (λ g. (allowed rate period ≡ true) × (g.rate ≡ rate) × (g.period ≡ period)) }
    {
        if (1..=200).contains(&rate) && (1..=63).contains(&period) {
            Some(Gate { rate, period })
        } else {
            None
        }
    }

    /// How many of the second leg may pass at a clock, where the limit below is `l`.
    pub(crate) fn limit(&self, clock: u32, l: u16) -> u16
        ensures { result ≡ cut_by self.now.rate self.now.period clock l }
    {
        if clock.is_multiple_of(u32::from(self.period)) {
            self.rate.min(l)
        } else {
            0
        }
    }
}
