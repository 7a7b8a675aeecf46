// A step of a run, in three phases: how many leave each link is planned, the vehicles move, and the
// new readings are noted.
#![tactic(auto)]

pub mod advance;
pub mod note;
