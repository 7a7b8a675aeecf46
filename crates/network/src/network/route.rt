// How a network takes in its routes.
ghost use Rattle.std.specs.Prelude.{◌≡◌, ◌-◌, ◌<◌, Some, Decides};
ghost use Rattle.network.specs.Nets.{net_of};
ghost use Rattle.network.specs.Drafts.{RouteFits, Routed, IsMerge, IsDiverge, Leaving, with_route};

use super::Network;
use crate::draft::RouteFault;
use crate::kind::NodeKind;

impl Network {
    // Whether a node is a merge.
    pub fn is_merge(&self, node: u16) -> bool
        ensures { Decides result (IsMerge (net_of self.now) node) }
    {
        matches!(self.node(usize::from(node)), Some(NodeKind::Merge { .. }))
    }

    // Whether a node is a diverge.
    fn is_diverge(&self, node: u16) -> bool
        ensures { Decides result (IsDiverge (net_of self.now) node) }
    {
        matches!(self.node(usize::from(node)), Some(NodeKind::Diverge { .. }))
    }

    // Whether the link of a number leaves a node.
    fn leaves(&self, link: u16, node: u16) -> bool
        ensures { Decides result (Leaving (net_of self.now) link node) }
    {
        let k = usize::from(link);
        (1..=self.layout.count).contains(&k) && u16::from(self.layout.links[k - 1].from) == node
    }

    // Whether a route leads from a diverge, to an exit, by a link that leaves the diverge.
    fn route_fits(&self, node: u16, exit: u16, link: u16) -> bool
        ensures { Decides result (RouteFits (net_of self.now) node exit link) }
    {
        self.is_diverge(node) && self.exit(usize::from(exit)).is_some() && self.leaves(link, node)
    }

    // Notes the link of a route.
    fn put_route(&mut self, node: u16, exit: u16, link: u16)
        requires { RouteFits (net_of self.old) node exit link }
        ensures { net_of self.new ≡ with_route (net_of self.old) node exit (link - 1) }
    {
        self.layout.routes[usize::from(node)][usize::from(exit)] = Some((link - 1) as u8);
    }

    // One route more.
    pub fn add_route(&mut self, node: u16, exit: u16, link: u16) -> Result<(), RouteFault>
        ensures { Routed self.old node exit link result self.new }
    {
        if !self.route_fits(node, exit, link) {
            return Err(RouteFault::Misfit);
        }
        if self.route(usize::from(node), exit as u8).is_some() {
            return Err(RouteFault::Second);
        }
        self.put_route(node, exit, link);
        Ok(())
    }
}
