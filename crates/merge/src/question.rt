//! What is asked of a rule at a merge.

/// At a clock: how many vehicles each leg may send, how many places there are, and the legs' capacities.
#[derive(Clone, Copy, PartialEq, Eq, Debug)]
pub struct Question {
    pub clock: u32,
    pub s1: u16,
    pub s2: u16,
    pub r: u16,
    pub q1: u16,
    pub q2: u16,
}
