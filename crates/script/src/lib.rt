//! A whole list of calls on a run, each with a place for its answer.
#![tactic(auto)]

pub mod call;
pub mod list;
pub mod one;

pub use call::{Answer, Call, Outcome};
pub use list::play;
pub use one::make_call;
