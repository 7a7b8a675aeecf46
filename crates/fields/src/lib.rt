// Reads a row: its name, and the words behind it.
#![tactic(auto)]

pub mod fields;
pub mod read;
pub mod rest;

pub use read::read_row;
