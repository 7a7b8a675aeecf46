// The run: opening, booking, stepping and asking. Every public call takes the plain run on with it.
#![tactic(auto)]

pub mod calls;
pub mod open;
pub mod refusal;
pub mod run;
pub mod store;

pub use run::Run;
pub use store::{Refusal, Store};
