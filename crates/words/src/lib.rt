// The words of a corridor file: lines, words and numbers, with their places.
#![tactic(auto)]

pub mod fault;
mod line;
pub mod position;
pub mod shape;
pub mod word;

pub use fault::{Layer, Told, WordFault};
pub use position::Position;
pub use shape::Reader;
pub use word::{Word, number};
