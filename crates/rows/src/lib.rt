// The rows of a corridor file: their names, their order, their words and what they say.
#![tactic(auto)]

pub mod fault;
pub mod kind;
pub mod row;

pub use fault::RowFault;
pub use kind::{Kind, Stage, UnknownName};
pub use row::{CallRow, Counts, Row};
