// The network: links, nodes and their kinds, routes, walks and served pairs.
#![tactic(auto)]

pub mod draft;
pub mod kind;
pub mod layout;
pub mod link;
pub mod network;
pub mod scan;

pub use draft::{Draft, LinkFault, NodeFault, RouteFault};
pub use kind::NodeKind;
pub use layout::{LINKS, NODES};
pub use link::Link;
pub use network::Network;
