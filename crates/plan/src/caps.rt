// What a link may send and may take in a step.
ghost use Rattle.std.specs.Prelude.{◌≡◌, ℕ, ◌+◌, ◌-◌, ◌<◌, ◌≤◌, length, slice_index};
ghost use Rattle.network.specs.Nets.{net_of};
ghost use Rattle.plan.specs.View.{sends_in, takes_in, ReadableIn};

use links::Table;
use network::Network;

// What the link `i` may send: those past their free steps, as many as its capacity lets by.
pub fn may_send(net: &Network, table: &Table, i: usize) -> u16
    requires here { i < (net_of net.now).links }
    requires safe { ReadableIn (net_of net.now) table.now i }
    ensures { result ≡ sends_in (net_of net.now) table.now i }
{
    let link = net.link(i);
    let ready = table.on(i, usize::from(link.free) - 1) - table.off(i, 0);
    ready.min(u32::from(link.capacity)) as u16
}

// What the link `i` may take: the storage that the wave has freed, as much as its capacity lets by.
pub fn may_take(net: &Network, table: &Table, i: usize) -> u16
    requires here { i < (net_of net.now).links }
    requires safe { ReadableIn (net_of net.now) table.now i }
    ensures { result ≡ takes_in (net_of net.now) table.now i }
{
    let link = net.link(i);
    let places = u64::from(table.off(i, usize::from(link.wave) - 1)) + u64::from(link.storage);
    let room = places - u64::from(table.on(i, 0));
    room.min(u64::from(link.capacity)) as u16
}

// What each link may take.
pub fn take_caps(net: &Network, table: &Table, takes: &mut [u16])
    requires safe { (i : ℕ) → i < (net_of net.now).links → ReadableIn (net_of net.now) table.now i }
    requires takes { (net_of net.now).links ≤ length takes.old }
    ensures { (i : ℕ) → i < (net_of net.now).links → slice_index takes.new i ≡ takes_in (net_of net.now) table.now i }
{
    for (i, take) in takes[..net.links()].iter_mut().enumerate() {
        *take = may_take(net, table, i);
    }
}
