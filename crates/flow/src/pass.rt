// Vehicles that leave a link and come on the next one.
ghost use Rattle.std.specs.Prelude.{◌≡◌, ℕ, ◌+◌, ◌-◌, ◌<◌, ◌≤◌, ◌≢◌, [], ◌∷◌, length, take as taken, Some, slice_index_or};
ghost use Rattle.network.specs.Net.{next as next_of};
ghost use Rattle.newell.specs.History.{final};
ghost use Rattle.network.specs.Nets.{net_of};
ghost use Rattle.links.specs.Tables.{table_size, lane_count};
ghost use Rattle.links.specs.Yards.{holds, size_of};
ghost use Rattle.flow.specs.Flows.{going, Sent, leader, lasted};

use crate::coming::{go_on, last_time};
use crate::tick::Tick;
use links::{Side, Yard};
use network::Network;

// The first vehicle of the link `i` goes on.
fn pass_one(yard: &mut Yard, net: &Network, i: usize, t: Tick)
    requires link { i < (net_of net.now).links }
    requires some { 0 < length (holds yard.old i) }
    requires room { (j : ℕ) → next_of (net_of net.now) i (leader (holds yard.old i)).exit ≡ Some j → (j < table_size) × (j ≢ i) × (length (holds yard.old j) < size_of yard.old j) }
    ensures { Sent (net_of net.now) t.clock i (leader (holds yard.old i) ∷ []) yard.old yard.new }
{
    if let Some(v) = yard.take(Side::Road, i) {
        go_on(yard, net, i, v.exit, t);
    }
}

// The first `n` vehicles of the link `i` go on; tells the travel time of the last.
pub(crate) fn send(yard: &mut Yard, net: &Network, i: usize, n: usize, t: Tick) -> Option<u32>
    requires link { i < (net_of net.now).links }
    requires enough { n ≤ length (holds yard.old i) }
    requires past { (k : ℕ) → k < n → (slice_index_or (holds yard.old i) k (record { exit = 0; since = 0 })).since ≤ t.clock }
    requires room { (j : ℕ) → j < lane_count → j ≢ i → length (holds yard.old j) + length (going (net_of net.now) i j (taken n (holds yard.old i))) ≤ size_of yard.old j }
    ensures sent { Sent (net_of net.now) t.clock i (taken n (holds yard.old i)) yard.old yard.new }
    ensures time { result ≡ lasted t.clock (final (taken n (holds yard.old i))) }
{
    let last = last_time(yard, i, n, t);
    for _ in 0..n {
        pass_one(yard, net, i, t);
    }
    last
}
