// The run's one table of link records, over the vehicle area that is lent to it.
#![tactic(auto)]

mod change;
mod curve;
mod fresh;
pub mod records;
mod yard;

pub use curve::{Curve, READINGS};
pub use records::{LinkRecord, Side, Table, Yard};
