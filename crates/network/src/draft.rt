// A network as far as its links have come, and its invariant.
ghost use Rattle.network.specs.Begun.{Begun};

use crate::layout::Layout;

pub mod finish;
pub mod grow;

// The links so far, each within the rules, of as many as are wanted.
#[derive(Clone, Copy)]
pub struct Draft {
    layout: Layout,
    wanted: usize,
    ghost begun: { ∥ Begun layout wanted ∥₁ },
}

// Why a link is not taken.
#[derive(Clone, Copy, Debug, PartialEq)]
pub enum LinkFault {
    // all the links that are wanted are there
    Many,
    // a number is out of its range
    Numbers,
    // not from a lower to a higher node
    Downward,
}

// Why a draft is no network.
#[derive(Clone, Copy, Debug, PartialEq)]
pub enum NodeFault {
    // links are missing
    Missing,
    // the lowest node of no kind
    Odd { node: u16 },
}

// Why a route is not taken.
#[derive(Clone, Copy, Debug, PartialEq)]
pub enum RouteFault {
    // not from a diverge, to an exit, by a link that leaves the diverge
    Misfit,
    // the node and exit have one
    Second,
}
