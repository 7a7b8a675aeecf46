//! The rule `zip`: the legs pass one vehicle each in turn.
ghost use Rattle.std.specs.Prelude.{◌≡◌, ◌≤◌, cond};
ghost use Rattle.merge.specs.declared.alternate.Leg.TheVariants.{First};
ghost use Rattle.merge.specs.Turns.{other, in_order, own_part, own_last, zip_all, Zips, zip_meaning, turns_of, new_zip};
ghost use Rattle.merge.specs.Laws.{zip_lawful};

use crate::nodes::PerNode;
use crate::question::Question;
use crate::rule::{MergeRule, NO_LIMIT};

/// A leg of a merge.
#[derive(Clone, Copy, PartialEq, Eq, Debug)]
pub enum Leg {
    First,
    Second,
}

impl Leg {
    /// The leg that has the turn next.
    fn other(self) -> Leg
        ensures { result ≡ other self }
    {
        match self {
            Leg::First => Leg::Second,
            Leg::Second => Leg::First,
        }
    }

    /// What the first and the second leg have, told as what this leg and the other have. Done twice it
    /// is as it was.
    fn in_order(self, pair: (u16, u16)) -> (u16, u16)
        ensures { result ≡ in_order self pair }
    {
        match self {
            Leg::First => pair,
            Leg::Second => (pair.1, pair.0),
        }
    }
}

/// How many of each leg pass, and whose turn it is then.
#[derive(Clone, Copy, PartialEq, Eq, Debug)]
pub struct Zipped {
    pub g1: u16,
    pub g2: u16,
    pub turn: Leg,
}

/// How many pass of the leg with the turn, and whose turn it is then.
#[derive(Clone, Copy)]
struct OwnPart {
    passed: u16,
    turn: Leg,
}

/// What passes, as `n` vehicles do, of the leg with the turn, where it has `own` and the other `others`.
/// The turn changes as the leg passes the last of them.
fn own_part(turn: Leg, n: u16, own: u16, others: u16) -> OwnPart
    ensures part { result.passed ≡ own_part n own others }
    ensures turn { result.turn ≡ cond (own_last n own others) (other turn) turn }
    ensures bound { result.passed ≤ n }
{
    let half = n - n / 2;
    let (passed, last) = if own < half {
        (own, false)
    } else if others < n / 2 {
        (n - others, true)
    } else {
        (half, n % 2 == 1)
    };
    OwnPart {
        passed,
        turn: if last { turn.other() } else { turn },
    }
}

/// What passes as the legs alternate, and whose turn it is then: by numbers, without a step for each
/// vehicle.
pub fn zip_all(turn: Leg, q: Question) -> Zipped
    ensures value { result ≡ zip_all turn q }
    ensures law { Zips turn q result }
{
    let n = q.s1.saturating_add(q.s2).min(q.r);
    let (own, others) = turn.in_order((q.s1, q.s2));
    let part = own_part(turn, n, own, others);
    let (g1, g2) = turn.in_order((part.passed, n - part.passed));
    Zipped {
        g1,
        g2,
        turn: part.turn,
    }
}

/// The rule, with whose turn it is at each node. Elsewhere it answers as a new rule does, and keeps
/// nothing.
#[derive(Drop)]
pub struct Zip {
    turns: PerNode<Leg>,
}

impl Zip {
    /// A new rule: it is the first leg's turn everywhere.
    pub fn new() -> Zip
        ensures { zip_meaning (turns_of result.turns.at) ≡ new_zip }
    {
        Zip {
            turns: PerNode::all(Leg::First),
        }
    }
}

impl MergeRule for Zip {
    ghost meaning = { λ z. zip_meaning (turns_of z.turns.at) };

    ghost lawful = { λ x. zip_lawful (turns_of x.turns.at) };

    fn limits(&self, _node: u16, _clock: u32) -> (u16, u16) {
        NO_LIMIT
    }

    fn split(&mut self, node: u16, q: Question) -> (u16, u16) {
        let z = zip_all(self.turns.get_or(node, Leg::First), q);
        // Where there is no such node, nothing is kept.
        let _ = self.turns.set(node, z.turn);
        (z.g1, z.g2)
    }
}
