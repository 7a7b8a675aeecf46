// The records of the links, and the area that their vehicles lie in.
ghost use Rattle.std.specs.Prelude.{length};
ghost use Rattle.links.specs.Tables.{Lies};

use crate::curve::Curve;
use line::Part;
use network::LINKS;
use newell::Vehicle;

// What is kept of a link: the vehicles on it, those that wait for it at its entrance, how many had
// come on and left at each of the last clocks, and the travel time of the last to leave.
#[derive(Clone, Copy)]
pub struct LinkRecord {
    pub road: Part,
    pub queue: Part,
    pub ons: Curve,
    pub offs: Curve,
    pub travel: Option<u32>,
}

// The records of all links, by place: an array for as many as a network may have, since the engine
// has no heap.
#[derive(Drop)]
pub struct Table {
    pub(crate) links: [LinkRecord; LINKS],
}

// The table, and the area that its lanes are parts of.
#[derive(Drop)]
pub struct Yard<'a> {
    pub area: &'a mut [Vehicle],
    pub table: Table,
    ghost laid: { ∥ Lies (length area.now) table ∥₁ },
}

// The vehicles on a link, or those that wait for it.
#[derive(Clone, Copy)]
pub enum Side {
    Road,
    Queue,
}
