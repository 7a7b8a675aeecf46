// How a draft takes in its links.
ghost use Rattle.std.specs.Prelude.{◌≡◌, ◌<◌, ◌&&◌, Decides};
ghost use Rattle.network.specs.Layouts.{empty_layout};
ghost use Rattle.network.specs.Drafts.{Started, Added, Ranged, counted};

use super::{Draft, LinkFault};
use crate::layout::{LINKS, Layout, NODES, SPOTS};
use crate::link::Link;

// Whether a number is from 1 to `most`.
fn counts(x: u16, most: u16) -> bool
    ensures { result ≡ counted x most }
{
    (1..=most).contains(&x)
}

// Whether the ends of a link are nodes.
fn ends_fit(link: Link, nodes: u16) -> bool
    ensures { result ≡ (counted link.from nodes && counted link.to nodes) }
{
    counts(u16::from(link.from), nodes) && counts(u16::from(link.to), nodes)
}

// Whether the steps, the capacity and the storage of a link are in their ranges.
fn numbers_fit(link: Link) -> bool
    ensures { result ≡ (counted link.free 63 && (counted link.wave 63 && (counted link.capacity 200 && counted link.storage 2000))) }
{
    counts(u16::from(link.free), 63)
        && counts(u16::from(link.wave), 63)
        && counts(u16::from(link.capacity), 200)
        && counts(link.storage, 2000)
}

// Whether all numbers of a link are in their ranges.
fn in_range(link: Link, nodes: u16) -> bool
    ensures { Decides result (Ranged nodes link) }
{
    ends_fit(link, nodes) && numbers_fit(link)
}

// So many nodes, and no link.
pub(crate) fn empty_layout(nodes: usize) -> Layout
    ensures { result ≡ empty_layout nodes }
{
    let blank = Link {
        from: 0,
        to: 0,
        free: 0,
        wave: 0,
        capacity: 0,
        storage: 0,
    };
    Layout {
        nodes,
        count: 0,
        links: [blank; LINKS],
        kinds: [None; SPOTS],
        routes: [[None; SPOTS]; SPOTS],
    }
}

impl Draft {
    // So many nodes, and no link yet; none where the counts are out of range.
    pub fn new(nodes: u16, links: u16) -> Option<Draft>
        ensures { Started nodes links result }
    {
        let nodes = usize::from(nodes);
        let wanted = usize::from(links);
        if !(2..=NODES).contains(&nodes) || !(1..=LINKS).contains(&wanted) {
            return None;
        }
        let layout = empty_layout(nodes);
        Some(Draft { layout, wanted })
    }

    // One link more.
    pub fn add(&mut self, link: Link) -> Result<(), LinkFault>
        ensures { Added self.old link result self.new }
    {
        let i = self.layout.count;
        if i >= self.wanted {
            return Err(LinkFault::Many);
        }
        if !in_range(link, self.layout.nodes as u16) {
            return Err(LinkFault::Numbers);
        }
        if link.to <= link.from {
            return Err(LinkFault::Downward);
        }
        self.layout.links[i] = link;
        self.layout.count = i + 1;
        Ok(())
    }
}
