// Records of a run just opened: no vehicles, all readings 0.
ghost use Rattle.std.specs.Prelude.{◌≡◌};
ghost use Rattle.links.specs.Tables.{fresh_curve, fresh_record};

use crate::curve::{Curve, READINGS};
use crate::records::{LinkRecord, Table};
use line::Part;
use network::LINKS;

impl Curve {
    // All readings 0.
    pub fn new() -> Curve
        ensures { result ≡ fresh_curve }
    {
        Curve {
            slots: [0; READINGS],
            oldest: 0,
        }
    }
}

impl LinkRecord {
    pub fn new(road: Part, queue: Part) -> LinkRecord
        ensures { result ≡ fresh_record road queue }
    {
        LinkRecord {
            road,
            queue,
            ons: Curve::new(),
            offs: Curve::new(),
            travel: None,
        }
    }
}

impl Table {
    pub fn new(links: [LinkRecord; LINKS]) -> Table
        ensures { result.links ≡ links }
    {
        Table { links }
    }
}
