//! The rule `fair`: the legs share the places by their capacities.
ghost use Rattle.std.specs.Prelude.{◌≡◌, ◌≤◌};
ghost use Rattle.merge.specs.Sharing.{share1 as share_of, split_by, fair_split, fair_meaning, ByShares, Fairly};
ghost use Rattle.merge.specs.Laws.{fair_lawful};

use crate::question::Question;
use crate::rule::{MergeRule, NO_LIMIT};

/// The rule. It keeps nothing.
#[derive(Clone, Copy, PartialEq, Eq, Debug)]
pub struct Fair;

/// The first leg's share of `r` places, the fraction dropped; none if both capacities are 0.
fn share(r: u16, q1: u16, q2: u16) -> u16
    ensures value { result ≡ share_of r q1 q2 }
    ensures bound { result ≤ r }
{
    let (places, q1, q2) = (u32::from(r), u32::from(q1), u32::from(q2));
    if q1 + q2 == 0 {
        return 0;
    }
    (places * q1 / (q1 + q2)) as u16
}

/// The split where the first leg's share is `share1`, and the second's is the rest.
fn split_by(share1: u16, q: Question) -> (u16, u16)
    requires { share1 ≤ q.r }
    ensures value { result ≡ split_by share1 q }
    ensures law { ByShares share1 q result }
{
    let share2 = q.r - share1;
    if u32::from(q.s1) + u32::from(q.s2) <= u32::from(q.r) {
        (q.s1, q.s2)
    } else if q.s1 <= share1 {
        (q.s1, q.r - q.s1)
    } else if q.s2 <= share2 {
        (q.r - q.s2, q.s2)
    } else {
        (share1, share2)
    }
}

/// The split of the places by the legs' capacities.
pub fn fair_split(q: Question) -> (u16, u16)
    ensures value { result ≡ fair_split q }
    ensures law { Fairly q result }
{
    split_by(share(q.r, q.q1, q.q2), q)
}

impl MergeRule for Fair {
    ghost meaning = { λ _. fair_meaning };

    ghost lawful = { λ x. fair_lawful };

    fn limits(&self, _node: u16, _clock: u32) -> (u16, u16) {
        NO_LIMIT
    }

    fn split(&mut self, _node: u16, q: Question) -> (u16, u16) {
        fair_split(q)
    }
}
