// How a network lies in memory.
use crate::kind::NodeKind;
use crate::link::Link;

// The most nodes and links that a network has.
pub const NODES: usize = 32;

pub const LINKS: usize = 48;

pub const SPOTS: usize = NODES + 1;

// Links by place, kinds by node, and by node and exit the place of the route row's link.
// Only the first `count` links are any: an array with its count, since the engine has no heap.
#[derive(Clone, Copy)]
pub struct Layout {
    pub nodes: usize,
    pub count: usize,
    pub links: [Link; LINKS],
    pub kinds: [Option<NodeKind>; SPOTS],
    pub routes: [[Option<u8>; SPOTS]; SPOTS],
}
