//! The gates of a ramp meter, at most one at each node.
ghost use Rattle.std.specs.Prelude.{◌≡◌, ◌↔◌, IsOk, IsTrue};
ghost use Rattle.merge.specs.States.{inside};
ghost use Rattle.merge.specs.Metering.{gates_of, no_gates, with_gate};

use crate::gate::Gate;
use crate::nodes::{NoNode, PerNode};

/// The gates of the nodes that have one.
#[derive(Clone, Copy)]
pub struct Gates {
    at: PerNode<Option<Gate>>,
}

impl Gates {
    /// No node has a gate.
    pub fn none() -> Gates
        ensures { gates_of result ≡ no_gates }
    {
        Gates {
            at: PerNode::all(None),
        }
    }

    /// Gives a node this gate; nothing changes if there is no such node.
    pub fn put(&mut self, node: u16, gate: Gate) -> Result<(), NoNode>
        ensures took { IsOk result ↔ IsTrue (inside node) }
        ensures holds { gates_of self.new ≡ with_gate (gates_of self.old) node gate }
    {
        self.at.set(node, Some(gate))
    }

    /// The gate of a node.
    pub fn gate(&self, node: u16) -> Option<Gate>
        ensures { result ≡ gates_of self.now node }
    {
        self.at.get_or(node, None)
    }
}
