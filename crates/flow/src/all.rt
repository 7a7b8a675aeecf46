// All links send.
ghost use Rattle.std.specs.Prelude.{◌≡◌, ℕ, ◌<◌, ◌≤◌, length, take as taken, None, slice_index, slice_index_or};
ghost use Rattle.newell.specs.History.{final};
ghost use Rattle.network.specs.Nets.{net_of};
ghost use Rattle.links.specs.Yards.{holds};
ghost use Rattle.flow.specs.Flows.{Sendable, SentAll, lasted};

use crate::pass::send;
use crate::tick::Tick;
use links::Yard;
use network::Network;

// Each link sends as many as `outs` says; `times` is told the travel time of the last of each.
pub(crate) fn send_all(
    yard: &mut Yard,
    net: &Network,
    outs: &[u16],
    t: Tick,
    times: &mut [Option<u32>],
)
    requires outs { (net_of net.now).links ≤ length outs.now }
    requires times { (net_of net.now).links ≤ length times.old }
    requires sendable { Sendable (net_of net.now) t.clock (λ i. slice_index outs.now i) yard.old }
    ensures sent { SentAll (net_of net.now) t.clock (λ i. slice_index outs.now i) (net_of net.now).links yard.old yard.new }
    ensures time { (i : ℕ) → i < (net_of net.now).links → slice_index_or times.new i None ≡ lasted t.clock (final (taken (slice_index outs.now i) (holds yard.old i))) }
    ensures beyond { (i : ℕ) → (net_of net.now).links ≤ i → slice_index_or times.new i None ≡ slice_index_or times.old i None }
{
    for (i, time) in times[..net.links()].iter_mut().enumerate() {
        // By place: a zip runs by the iterator, and nothing is known then of what was written through it.
        *time = send(yard, net, i, usize::from(outs[i]), t);
    }
}
