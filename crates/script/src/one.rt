//! One call of a list.
ghost use Rattle.std.specs.Prelude.{◌≡◌};
ghost use Rattle.network.specs.Nets.{net_of};
ghost use Rattle.run.specs.Stores.{view_in};
ghost use Rattle.script.specs.Scripts.{Called};

use crate::call::{Answer, Call, Outcome};
use merge::MergeRule;
use newell::StepRow;
use run::Run;

/// Makes the call, and tells its answer.
pub fn make_call<R: MergeRule>(
    run: &mut Run,
    rule: &mut R,
    rows: &mut [StepRow],
    call: Call,
) -> Answer
    ensures called { Called (net_of run.old.store.net) (R.MergeRule.meaning rule.old) rows.old (view_in run.old.store) call result (R.MergeRule.meaning rule.new) rows.new (view_in run.new.store) }
    ensures net { run.new.store.net ≡ run.old.store.net }
    ensures same { run.new.store.yard.area.ghost_name ≡ run.old.store.yard.area.ghost_name }
{
    match call {
        Call::Book {
            entrance,
            exit,
            count,
        } => run.book(entrance, exit, count).map(|()| Outcome::Done),
        Call::Step => run.step(rule, rows).map(|()| Outcome::Done),
        Call::Link { number } => run.ask_link(number).map(|state| Outcome::Link { state }),
        Call::Entrance { node } => run
            .ask_entrance(node)
            .map(|count| Outcome::Waiting { count }),
        Call::Exit { node } => run.ask_exit(node).map(|count| Outcome::Gone { count }),
    }
}
