// How the parts of the vehicle area are laid out: first one for each link, then one for those who
// wait for each link at an entrance.
ghost use Rattle.std.specs.Prelude.{◌≡◌, ◌+◌, ◌≤◌};
ghost use Rattle.network.specs.Nets.{net_of};
ghost use Rattle.run.specs.Opens.{road_size, queue_size, offset, entries_for, Fresh};

use line::Part;
use links::{LinkRecord, Table};
use network::{LINKS, Network, NodeKind};

// The slots that an entrance has.
pub const WAITING: usize = 500;

// How many slots the link `i` has.
fn road_size(net: &Network, i: usize) -> usize
    ensures told { result ≡ road_size (net_of net.now) i }
    ensures small { result ≤ 65535 }
{
    if i >= net.links() {
        return 0;
    }
    usize::from(net.link(i).storage)
}

// How many slots those have who wait for the link `i`.
fn queue_size(net: &Network, i: usize) -> usize
    ensures told { result ≡ queue_size (net_of net.now) i }
    ensures small { result ≤ 65535 }
{
    if i >= net.links() {
        return 0;
    }
    match net.kind(usize::from(net.link(i).from)) {
        NodeKind::Entrance { .. } => WAITING,
        _ => 0,
    }
}

// How many slots the links have.
fn road_places(net: &Network) -> usize
    ensures told { result ≡ offset (net_of net.now) 48 }
    ensures small { result ≤ 3145680 }
{
    (0..LINKS).map(|i| road_size(net, i)).sum()
}

// How many entries the vehicle area needs.
pub fn needed(net: &Network) -> usize
    ensures { result ≡ entries_for (net_of net.now) }
{
    let waiting: usize = (0..LINKS).map(|i| queue_size(net, i)).sum();
    road_places(net) + waiting
}

// The records of a run just opened.
pub fn lay(net: &Network) -> Table
    ensures { Fresh (net_of net.now) result }
{
    let mut links = [LinkRecord::new(Part::new(0, 0), Part::new(0, 0)); LINKS];
    let mut road = 0;
    let mut queue = road_places(net);
    for (i, link) in links.iter_mut().enumerate() {
        let size = road_size(net, i);
        let waits = queue_size(net, i);
        *link = LinkRecord::new(Part::new(road, size), Part::new(queue, waits));
        road += size;
        queue += waits;
    }
    Table::new(links)
}
