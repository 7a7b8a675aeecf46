// All the moves of a step.
ghost use Rattle.std.specs.Prelude.{◌≡◌, ℕ, ◌<◌, ◌≤◌, length, take as taken, None, slice_index, slice_index_or};
ghost use Rattle.newell.specs.History.{final};
ghost use Rattle.network.specs.Nets.{net_of};
ghost use Rattle.links.specs.Yards.{holds};
ghost use Rattle.flow.specs.Flows.{Shiftable, Shifted, lasted};

use crate::all::send_all;
use crate::pull::pull_all;
use crate::tick::Tick;
use links::Yard;
use network::Network;

// Those that wait come on, as many as `takes` says at most; then each link sends as many as `outs` says.
pub fn shift(
    yard: &mut Yard,
    net: &Network,
    takes: &[u16],
    outs: &[u16],
    t: Tick,
    times: &mut [Option<u32>],
)
    requires takes { (net_of net.now).links ≤ length takes.now }
    requires outs { (net_of net.now).links ≤ length outs.now }
    requires times { (net_of net.now).links ≤ length times.old }
    requires shiftable { Shiftable (net_of net.now) t.clock (λ i. slice_index takes.now i) (λ i. slice_index outs.now i) yard.old }
    ensures shifted { Shifted (net_of net.now) t.clock (λ i. slice_index takes.now i) (λ i. slice_index outs.now i) yard.old yard.new }
    ensures time { (i : ℕ) → i < (net_of net.now).links → slice_index_or times.new i None ≡ lasted t.clock (final (taken (slice_index outs.now i) (holds yard.old i))) }
    ensures beyond { (i : ℕ) → (net_of net.now).links ≤ i → slice_index_or times.new i None ≡ slice_index_or times.old i None }
{
    pull_all(yard, net.links(), takes, t);
    send_all(yard, net, outs, t, times);
}
