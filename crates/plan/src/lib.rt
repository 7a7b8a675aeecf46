// How many leave each link in a step, node by node: readings are read, the rule is asked, and
// nothing else changes.
#![tactic(auto)]

pub mod caps;
pub mod nodes;
pub mod prefix;
mod scene;
