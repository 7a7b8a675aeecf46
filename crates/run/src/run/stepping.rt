// Stepping.
ghost use Rattle.std.specs.Prelude.{◌≡◌, Ok, Err};
ghost use Rattle.network.specs.Nets.{net_of};
ghost use Rattle.newell.specs.History.{step as stepping};
ghost use Rattle.newell.specs.Now.{Carries};
ghost use Rattle.run.specs.Stores.{view_in, reply_of, SteppedIn};

use super::Run;
use crate::store::Refusal;
use merge::MergeRule;
use newell::StepRow;

// The clock at which no step runs.
pub const LAST: u32 = 1_000_000;

impl<'a> Run<'a> {
    // One step under a rule; a row is filled for each link.
    pub fn step<R: MergeRule>(&mut self, rule: &mut R, rows: &mut [StepRow]) -> Result<(), Refusal>
        ensures carries { Carries (net_of self.old.store.net) (view_in self.old.store) (stepping (R.MergeRule.meaning rule.old) rows.old (reply_of result) (R.MergeRule.meaning rule.new) rows.new) (view_in self.new.store) }
        ensures net { self.new.store.net ≡ self.old.store.net }
        ensures same { self.new.store.yard.area.ghost_name ≡ self.old.store.yard.area.ghost_name }
        ensures left { elim result [ Ok u ↦ SteppedIn self.old.store (R.MergeRule.meaning rule.old) rows.old self.new.store (R.MergeRule.meaning rule.new) rows.new | Err e ↦ (self.new ≡ self.old) × (rule.new ≡ rule.old) × (rows.new ≡ rows.old) ] }
    {
        self.store.judge_step(rows.len())?;
        self.store.advance(rule, rows);
        Ok(())
    }
}
