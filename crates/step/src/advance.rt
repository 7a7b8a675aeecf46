// The step itself.
ghost use Rattle.std.specs.Prelude.{◌≡◌, ℕ, ◌<◌, ◌≤◌, length};
ghost use Rattle.links.specs.Yards.{gauge_of, InRing};
ghost use Rattle.network.specs.Nets.{net_of};
ghost use Rattle.newell.specs.Now.{Reached};
ghost use Rattle.plan.specs.View.{view_of};
ghost use Rattle.step.specs.Steps.{Built, Advanced};

use crate::note::note_all;
use flow::shift::shift;
use flow::tick::Tick;
use links::Yard;
use merge::MergeRule;
use network::{LINKS, Network};
use newell::StepRow;
use plan::caps::take_caps;
use plan::nodes::plan;

// The step of a tick: how many leave each link, then the vehicles, then the readings and rows.
#[tactic(auto, using(plan::proofs::Facts::few_links))]
pub fn advance<R: MergeRule>(
    net: &Network,
    yard: &mut Yard,
    tick: Tick,
    rule: &mut R,
    rows: &mut [StepRow],
)
    requires built { Built (net_of net.now) yard.old }
    requires reached { Reached (net_of net.now) (view_of yard.old tick.clock) }
    requires rows { (net_of net.now).links ≤ length rows.old }
    ensures advanced { Advanced (net_of net.now) tick.clock yard.old (R.MergeRule.meaning rule.old) rows.old yard.new (R.MergeRule.meaning rule.new) rows.new }
    ensures same { yard.new.area.ghost_name ≡ yard.old.area.ghost_name }
    ensures built { Built (net_of net.now) yard.new }
    ensures ring { InRing yard.old → InRing yard.new }
    ensures idle { (i : ℕ) → (net_of net.now).links ≤ i → gauge_of yard.new i ≡ gauge_of yard.old i }
{
    // Three arrays and not one of records: each phase is lent for writing only the one that it fills.
    let mut takes = [0; LINKS];
    let mut outs = [0; LINKS];
    let mut times = [None; LINKS];
    take_caps(net, &yard.table, &mut takes);
    plan(rule, net, yard, tick.clock, &mut outs);
    shift(yard, net, &takes, &outs, tick, &mut times);
    note_all(yard, net.links(), &outs, &times, rows);
}
