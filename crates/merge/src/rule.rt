//! What every merge rule answers for, whatever its type.
ghost use Rattle.std.specs.Prelude.{◌≡◌, []};
ghost use Rattle.merge.specs.Rules.{Meaning, after, Proper, Lawful};

use crate::question::Question;

/// The limits of a rule that has none.
pub const NO_LIMIT: (u16, u16) = (u16::MAX, u16::MAX);

/// A rule tells how many vehicles a node's legs may pass at a clock, and splits the places among them.
///
/// It answers by its meaning. One question at a node changes what the rule answers at that node from
/// then on, and at no other; to tell the limits changes nothing.
pub trait MergeRule {
    ghost meaning: { Self → Meaning };

    /// How many the first and the second leg may pass at most. It has no body of its own for the rules
    /// without limits: that they have none follows from each one's meaning.
    fn limits(&self, node: u16, clock: u32) -> (u16, u16)
        ensures { result ≡ (meaning self.now).limits node clock };

    /// How many of each leg pass.
    fn split(&mut self, node: u16, q: Question) -> (u16, u16)
        ensures answers { result ≡ (meaning self.old).splits node [] q }
        ensures leaves { meaning self.new ≡ after (meaning self.old) node q };

    ghost lawful: { (x : Self) → Lawful (meaning x) };
}

/// By the law, the split that a rule has to answer is proper.
fn answers_properly<R: MergeRule>(rule: &R, node: u16, q: Question)
    ensures { Proper ((R.MergeRule.meaning rule.now).limits node q.clock) q ((R.MergeRule.meaning rule.now).splits node [] q) }
{}

/// Asks any rule once; the split is proper.
pub fn ask_one<R: MergeRule>(rule: &mut R, node: u16, q: Question) -> (u16, u16)
    ensures answers { result ≡ (R.MergeRule.meaning rule.old).splits node [] q }
    ensures proper { Proper ((R.MergeRule.meaning rule.old).limits node q.clock) q result }
    ensures leaves { R.MergeRule.meaning rule.new ≡ after (R.MergeRule.meaning rule.old) node q }
{
    answers_properly(rule, node, q);
    rule.split(node, q)
}
