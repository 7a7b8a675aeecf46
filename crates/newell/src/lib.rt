//! The law of the plain run, histories of calls, and what is promised of every run: the theorems, and the records that
//! the law shares with the code of a run.
#![tactic(auto)]

pub mod records;
pub mod theorems;

pub use records::{LinkState, StepRow, Vehicle};
