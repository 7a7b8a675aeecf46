// Reads a corridor file: its network with the merge rule and the meters, then its calls.
#![tactic(auto)]

pub mod calls;
pub mod corridor;
pub mod fault;
mod head;
pub mod laws;
pub mod load;
mod take;

pub use calls::next_row;
pub use corridor::Corridor;
pub use fault::FileFault;
pub use load::read_network;
pub use rows::CallRow;
pub use words::Position;
