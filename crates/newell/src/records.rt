//! The records that the code of a run and its law share.
use std::fmt;

/// A vehicle on a link: the node of its exit, and the clock at which it came on the link.
#[derive(Clone, Copy, PartialEq, Eq, Default, Debug)]
pub struct Vehicle {
    pub exit: u8,
    pub since: u32,
}

/// What a step tells of a link: how many came on and how many left in it, and the travel time of the last that left.
#[derive(Clone, Copy, PartialEq, Eq, Default, Debug)]
pub struct StepRow {
    pub came: u32,
    pub left: u32,
    pub travel: Option<u32>,
}

/// What a question about a link tells: how many have come on and left so far, how many of them are past their free
/// steps, how many of those are still on the link, and the last step's travel time.
#[derive(Clone, Copy, PartialEq, Eq, Default, Debug)]
pub struct LinkState {
    pub on: u32,
    pub off: u32,
    pub arrived: u32,
    pub queue: u32,
    pub travel: Option<u32>,
}

/// The numbers in the order of the fields, a space between; a hyphen for no travel time. What is
/// printed is held to the programs' output, not proved.
impl fmt::Display for LinkState {
    fn fmt<W: fmt::Write>(&self, f: &mut fmt::Formatter<W>) -> fmt::Result {
        let LinkState {
            on,
            off,
            arrived,
            queue,
            travel,
        } = *self;
        write!(f, "{on} {off} {arrived} {queue} ")?;
        match travel {
            Some(time) => write!(f, "{time}"),
            None => f.write_str("-"),
        }
    }
}
