// What a row says.
ghost use Rattle.std.specs.Prelude.{◌<◌};

use merge::Choice;
use network::Link;

// The counts of the `net` row, by which the rows behind it are read. A link's node fits a byte.
#[derive(Clone, Copy)]
pub struct Counts {
    pub nodes: u16,
    pub links: u16,
    ghost small: { nodes < 256 },
}

// A call as the file writes it: a booking, so many steps, or a look at all.
#[derive(Clone, Copy, Debug)]
pub enum CallRow {
    Book {
        entrance: u16,
        exit: u16,
        count: u16,
    },
    Step {
        count: u16,
    },
    Show,
}

// `Net` has its two numbers as they were read: `Counts` would want its fact of each row that is made.
#[derive(Clone, Copy)]
pub enum Row {
    Net { nodes: u16, links: u16 },
    Link { link: Link },
    Route { node: u16, exit: u16, link: u16 },
    Merge { rule: Choice },
    Meter { node: u16, rate: u16, period: u16 },
    Go,
    Call { call: CallRow },
}
