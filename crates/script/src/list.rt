//! A list of calls, one after another.
ghost use Rattle.std.specs.Prelude.{◌≡◌, ℕ, ◌≤◌, length, Ok, Err, Option, Result, slice_index_or};
ghost use Rattle.network.specs.Nets.{net_of};
ghost use Rattle.newell.specs.History.{History};
ghost use Rattle.run.specs.Opens.{entries_for};
ghost use Rattle.run.specs.Stores.{view_in};
ghost use Rattle.run.specs.declared.store.Refusal.{Refusal as Why};
ghost use Rattle.script.specs.declared.call.Outcome.{Outcome};
ghost use Rattle.script.specs.Scripts.{Played, Promised, Declined};

use crate::call::{Answer, Call};
use crate::one::make_call;
use merge::MergeRule;
use network::Network;
use newell::{StepRow, Vehicle};
use run::{Refusal, Run};

/// Makes the calls on a run; each answer is left at its call's place.
pub fn play_on<R: MergeRule>(
    run: &mut Run,
    rule: &mut R,
    rows: &mut [StepRow],
    calls: &[Call],
    answers: &mut [Option<Answer>],
)
    requires { length calls.now ≤ length answers.old }
    ensures played { (h : History) × Played (net_of run.old.store.net) (R.MergeRule.meaning rule.old) rows.old (view_in run.old.store) calls.now answers.new (length calls.now) h (R.MergeRule.meaning rule.new) rows.new (view_in run.new.store) }
    ensures beyond { (k : ℕ) (d : Option (Result Outcome Why)) → length calls.now ≤ k → slice_index_or answers.new k d ≡ slice_index_or answers.old k d }
    ensures net { run.new.store.net ≡ run.old.store.net }
    ensures same { run.new.store.yard.area.ghost_name ≡ run.old.store.yard.area.ghost_name }
{
    // By the call's index, and not zipped with the places: the proof looks at all the answers so far,
    // which a zip would have lent out.
    for (i, call) in calls.iter().enumerate() {
        answers[i] = Some(make_call(run, rule, rows, *call));
    }
}

/// Opens a run over the network, and makes the calls on it; each answer is left at its call's place.
/// Where it refuses, everything is left as it was.
pub fn play<R: MergeRule>(
    net: Network,
    area: &mut [Vehicle],
    rule: &mut R,
    rows: &mut [StepRow],
    calls: &[Call],
    answers: &mut [Option<Answer>],
) -> Result<(), Refusal>
    ensures told { elim result [ Ok u ↦ Promised (net_of net) (R.MergeRule.meaning rule.old) rows.old calls.now answers.new (R.MergeRule.meaning rule.new) rows.new | Err q ↦ Declined (net_of net) (length area.old) (length calls.now) (length answers.old) q ] }
    ensures fits { elim result [ Ok u ↦ (length calls.now ≤ length answers.old) × (entries_for (net_of net) ≤ length area.old) | Err q ↦ Unit {0} ] }
    ensures beyond { (k : ℕ) (d : Option (Result Outcome Why)) → length calls.now ≤ k → slice_index_or answers.new k d ≡ slice_index_or answers.old k d }
    ensures kept { elim result [ Ok u ↦ Unit {0} | Err q ↦ (area.new ≡ area.old) × (rule.new ≡ rule.old) × (rows.new ≡ rows.old) × (answers.new ≡ answers.old) ] }
{
    if answers.len() < calls.len() {
        return Err(Refusal::FewRows);
    }
    Run::check(&net, area)?;
    let mut run = Run::make(net, area);
    play_on(&mut run, rule, rows, calls, answers);
    Ok(())
}
