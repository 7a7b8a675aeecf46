// Takes in what a row of the head says, or tells the fault of a row that starts at `at`.
ghost use Rattle.std.specs.Prelude.{◌<◌, ◌≤◌};
ghost use Rattle.network.specs.Drafts.{draft_of, Ranged};
ghost use Rattle.reader.specs.Heads.{TakenLink, Closed, TakenRoute, TakenMeter};

use crate::fault::FileFault;
use merge::{Gate, Gates};
use network::{Draft, Link, Network, NodeFault, RouteFault};
use words::Position;

// Takes a link whose numbers are in range and for which there is room: the only fault left is that
// it runs backward.
pub(crate) fn add_link(draft: &mut Draft, link: Link, at: Position) -> Result<(), FileFault>
    requires room { (draft_of draft.old).links < draft.old.wanted }
    requires ranged { Ranged (draft_of draft.old).nodes link }
    ensures { TakenLink draft.old link at draft.new result }
{
    draft.add(link).map_err(|_| FileFault::Link { at })
}

// The network of the links, all of which are there.
pub(crate) fn close(draft: &Draft, at: Position) -> Result<Network, FileFault>
    requires { draft.now.wanted ≤ (draft_of draft.now).links }
    ensures { Closed draft.now at result }
{
    // map_err would need a closure that is told that one fault can't come.
    match draft.finish() {
        Ok(network) => Ok(network),
        Err(NodeFault::Odd { node }) => Err(FileFault::Node { at, node }),
        Err(NodeFault::Missing) => unreachable(),
    }
}

pub(crate) fn add_route(
    network: &mut Network,
    node: u16,
    exit: u16,
    link: u16,
    at: Position,
) -> Result<(), FileFault>
    ensures { TakenRoute network.old node exit link at network.new result }
{
    network
        .add_route(node, exit, link)
        .map_err(|fault| match fault {
            RouteFault::Misfit => FileFault::Route { at },
            RouteFault::Second => FileFault::Again { at },
        })
}

// Takes a meter whose numbers are in range.
pub(crate) fn add_meter(
    gates: &mut Gates,
    network: &Network,
    node: u16,
    rate: u16,
    period: u16,
    at: Position,
) -> Result<(), FileFault>
    requires node { (1 ≤ node) × (node ≤ 32) }
    requires rate { (1 ≤ rate) × (rate ≤ 200) }
    requires period { (1 ≤ period) × (period ≤ 63) }
    ensures { TakenMeter network.now gates.old node rate period at gates.new result }
{
    if gates.gate(node).is_some() {
        return Err(FileFault::Again { at });
    }
    if !network.is_merge(node) {
        return Err(FileFault::Meter { at });
    }
    let Some(gate) = Gate::new(rate, period) else {
        unreachable()
    };
    gates.put(node, gate).unwrap();
    Ok(())
}
