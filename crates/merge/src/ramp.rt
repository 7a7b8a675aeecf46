//! The rule `ramp`: the second leg, the ramp, goes first.
ghost use Rattle.std.specs.Prelude.{◌≡◌};
ghost use Rattle.merge.specs.Ramps.{ramp_split, ramp_meaning, RampFirst};
ghost use Rattle.merge.specs.Laws.{ramp_lawful};

use crate::question::Question;
use crate::rule::{MergeRule, NO_LIMIT};

/// The rule. It keeps nothing.
#[derive(Clone, Copy, PartialEq, Eq, Debug)]
pub struct Ramp;

/// The split that passes as many of the second leg as can.
pub fn ramp_split(q: Question) -> (u16, u16)
    ensures value { result ≡ ramp_split q }
    ensures law { RampFirst q result }
{
    let g2 = q.s2.min(q.r);
    (q.s1.min(q.r - g2), g2)
}

impl MergeRule for Ramp {
    ghost meaning = { λ _. ramp_meaning };

    ghost lawful = { λ x. ramp_lawful };

    fn limits(&self, _node: u16, _clock: u32) -> (u16, u16) {
        NO_LIMIT
    }

    fn split(&mut self, _node: u16, q: Question) -> (u16, u16) {
        ramp_split(q)
    }
}
