//! How the vehicles that want to pass a merge share its places: merge rules, and a ramp meter over any of them.
#![tactic(auto)]

pub mod alternate;
pub mod cases;
pub mod choice;
pub mod fair;
pub mod gate;
pub mod gates;
pub mod meter;
pub mod nodes;
pub mod question;
pub mod ramp;
pub mod rule;

pub use alternate::Zip;
pub use choice::{Choice, Chosen};
pub use fair::Fair;
pub use gate::Gate;
pub use gates::Gates;
pub use meter::Meter;
pub use nodes::{NODES, NoNode};
pub use question::Question;
pub use ramp::Ramp;
pub use rule::{MergeRule, ask_one};
