//! A whole session: the bytes of a corridor file to printed lines.
#![tactic(auto)]

mod play;
mod show;
mod stop;

pub use play::play_file;
