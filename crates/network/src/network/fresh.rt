// The network that is there before any is read.
ghost use Rattle.std.specs.Prelude.{◌≡◌};
ghost use Rattle.network.specs.Nets.{net_of};
ghost use Rattle.network.specs.Drafts.{fresh_net, fresh_kinds};

use super::Network;
use crate::draft::grow::empty_layout;
use crate::kind::NodeKind;
use crate::layout::SPOTS;
use crate::link::Link;

// The kinds of nodes 1 and 2, joined by the link at place 0.
fn fresh_kinds() -> [Option<NodeKind>; SPOTS]
    ensures { result ≡ fresh_kinds }
{
    let mut kinds = [None; SPOTS];
    kinds[1] = Some(NodeKind::Entrance { to: 0 });
    kinds[2] = Some(NodeKind::Exit { from: 0 });
    kinds
}

impl Network {
    // Nodes 1 and 2 with one link, all its numbers 1.
    pub fn fresh() -> Network
        ensures { net_of result ≡ fresh_net }
    {
        let link = Link {
            from: 1,
            to: 2,
            free: 1,
            wave: 1,
            capacity: 1,
            storage: 1,
        };
        let mut layout = empty_layout(2);
        layout.links[0] = link;
        layout.count = 1;
        layout.kinds = fresh_kinds();
        Network { layout }
    }
}
