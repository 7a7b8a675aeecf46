// A vehicle that comes on a link or leaves it.
ghost use Rattle.std.specs.Prelude.{◌≡◌, ℕ, ◌+◌, ◌-◌, ◌<◌, ◌≤◌, min as least, length, Some, slice_index_or};
ghost use Rattle.network.specs.Net.{next as next_of};
ghost use Rattle.network.specs.Nets.{net_of};
ghost use Rattle.links.specs.Tables.{table_size};
ghost use Rattle.links.specs.Yards.{holds};
ghost use Rattle.flow.specs.Flows.{nobody, time_of, arrived, Roomy, Came};

use crate::tick::Tick;
use links::{Side, Yard};
use network::Network;
use newell::Vehicle;

// A vehicle for the exit `x` that comes on a link in the step from `t`.
pub(crate) fn arriving(x: u8, t: Tick) -> Vehicle
    ensures { result ≡ arrived t.clock x }
{
    Vehicle {
        exit: x,
        since: t.next(),
    }
}

// How long a vehicle that leaves in the step from `t` was on its link.
fn time_on(v: Vehicle, t: Tick) -> u32
    requires past { v.since ≤ t.clock }
    ensures { result ≡ t.clock + 1 - v.since }
{
    t.next() - v.since
}

// How long the nth of a link was on it, where the first `n` leave in the step from `t`.
pub(crate) fn last_time(yard: &Yard, i: usize, n: usize, t: Tick) -> Option<u32>
    requires link { i < table_size }
    requires enough { n ≤ length (holds yard.now i) }
    requires past { (k : ℕ) → k < n → (slice_index_or (holds yard.now i) k nobody).since ≤ t.clock }
    ensures { result ≡ time_of t.clock n (holds yard.now i) }
{
    let last = n.checked_sub(1)?;
    let v = yard.look(Side::Road, i, last);
    Some(time_on(v, t))
}

// How many of those that wait come on.
pub(crate) fn coming(waiting: usize, take: u16) -> usize
    ensures { result ≡ least waiting take }
{
    waiting.min(usize::from(take))
}

// A vehicle for the exit `x` comes on the link `next`, if there is one.
fn come(yard: &mut Yard, next: Option<usize>, x: u8, t: Tick)
    requires room { Roomy next yard.old }
    ensures { Came next t.clock x yard.old yard.new }
{
    if let Some(j) = next {
        yard.push(Side::Road, j, arriving(x, t));
    }
}

// A vehicle for the exit `x` that has left the link `i` comes on the link after it.
pub(crate) fn go_on(yard: &mut Yard, net: &Network, i: usize, x: u8, t: Tick)
    requires link { i < (net_of net.now).links }
    requires room { Roomy (next_of (net_of net.now) i x) yard.old }
    ensures { Came (next_of (net_of net.now) i x) t.clock x yard.old yard.new }
{
    come(yard, net.next(i, x), x, t);
}
