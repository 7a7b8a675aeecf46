// How a draft becomes a network.
ghost use Rattle.std.specs.Prelude.{◌<◌};
ghost use Rattle.network.specs.Drafts.{Finished, AllKinds};

use super::{Draft, NodeFault};
use crate::kind::NodeKind;
use crate::layout::{Layout, SPOTS};
use crate::network::Network;
use crate::scan::kind_of;

impl Draft {
    // The kind of each node, or the lowest node of no kind.
    fn kinds(&self) -> Result<[Option<NodeKind>; SPOTS], NodeFault>
        ensures { AllKinds self.now.layout result }
    {
        let links = &self.layout.links[..self.layout.count];
        let mut kinds = [None; SPOTS];
        // Every spot is written: of one that is skipped the proof would lack what it held.
        for (n, kind) in kinds.iter_mut().enumerate() {
            *kind = if (1..=self.layout.nodes).contains(&n) {
                Some(kind_of(links, n).ok_or(NodeFault::Odd { node: n as u16 })?)
            } else {
                None
            };
        }
        Ok(kinds)
    }

    // The network of these links, where all are there and each node has a kind.
    pub fn finish(&self) -> Result<Network, NodeFault>
        ensures { Finished self.now result }
    {
        if self.layout.count < self.wanted {
            return Err(NodeFault::Missing);
        }
        let kinds = self.kinds()?;
        let layout = Layout {
            kinds,
            ..self.layout
        };
        Ok(Network { layout })
    }
}
