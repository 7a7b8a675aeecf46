// What a run holds, and why it says no.
use links::Yard;
use network::Network;

// No invariant of its own: the run has it, and what reads only network and clock asks nothing.
#[derive(Drop)]
pub struct Store<'a> {
    pub net: Network,
    pub yard: Yard<'a>,
    pub clock: u32,
}

// Each has the number that it prints.
#[derive(Clone, Copy, Debug, PartialEq)]
pub enum Refusal {
    // the vehicle area is too small
    SmallArea = 31,
    // no such entrance
    NoEntrance = 32,
    // no such exit
    NoExit = 33,
    // the pair is not served
    Unserved = 34,
    // the count is not 1 to 200
    BadCount = 35,
    // waiting and count come to over 500
    NoPlace = 36,
    // the clock is 1,000,000
    Late = 37,
    // no such link
    NoLink = 38,
    // fewer rows handed in than links
    FewRows = 39,
}
