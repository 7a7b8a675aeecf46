//! The ramp meter, a layer over any rule: it holds the second leg back at the nodes that have a gate.
ghost use Rattle.std.specs.Prelude.{◌≡◌, []};
ghost use Rattle.merge.specs.Rules.{after};
ghost use Rattle.merge.specs.Metering.{gates_of, cut_to, passed_on, metered, Held};
ghost use Rattle.merge.specs.Meters.{metered_lawful};

use crate::gates::Gates;
use crate::question::Question;
use crate::rule::{MergeRule, ask_one};

/// The question with the second leg's vehicles cut to `l`.
fn cut_to(l: u16, q: Question) -> Question
    ensures { result ≡ cut_to l q }
{
    Question {
        s2: q.s2.min(l),
        ..q
    }
}

/// A rule under a ramp meter: at a node with a gate the second leg's limit is the gate's, or the rule's
/// own if that is less; every other limit is the rule's own. The rule is asked with no more of the
/// second leg than may pass.
#[derive(Drop)]
pub struct Meter<R> {
    below: R,
    gates: Gates,
}

impl<R: MergeRule> Meter<R> {
    /// A rule under a meter with these gates.
    pub fn over(below: R, gates: Gates) -> Meter<R>
        ensures rule { result.below ≡ below }
        ensures held { result.gates ≡ gates }
    {
        Meter { below, gates }
    }

    /// What the rule below is asked.
    fn passed_on(&self, node: u16, q: Question) -> Question
        ensures { result ≡ passed_on (gates_of self.now.gates) (R.MergeRule.meaning self.now.below).limits node q }
    {
        let (_, l2) = self.limits(node, q.clock);
        cut_to(l2, q)
    }
}

impl<R: MergeRule> MergeRule for Meter<R> {
    ghost meaning = { λ x. metered (gates_of x.gates) (R.MergeRule.meaning x.below) };

    ghost lawful = { λ x. metered_lawful (gates_of x.gates) (R.MergeRule.meaning x.below) (R.MergeRule.lawful x.below) };

    fn limits(&self, node: u16, clock: u32) -> (u16, u16) {
        let (l1, l2) = self.below.limits(node, clock);
        let gate = self.gates.gate(node);
        (l1, gate.map_or(l2, |g| g.limit(clock, l2)))
    }

    fn split(&mut self, node: u16, q: Question) -> (u16, u16) {
        let passed = self.passed_on(node, q);
        self.below.split(node, passed)
    }
}

/// Asks a metered rule once: its gate holds the second leg back.
pub fn metered_split<R: MergeRule>(rule: &mut Meter<R>, node: u16, q: Question) -> (u16, u16)
    ensures answers { result ≡ (metered (gates_of rule.old.gates) (R.MergeRule.meaning rule.old.below)).splits node [] q }
    ensures law { Held (gates_of rule.old.gates node) q.clock result.1 }
    ensures leaves { metered (gates_of rule.new.gates) (R.MergeRule.meaning rule.new.below) ≡ after (metered (gates_of rule.old.gates) (R.MergeRule.meaning rule.old.below)) node q }
{
    ask_one(rule, node, q)
}
