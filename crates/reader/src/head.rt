// Reads the head of a corridor file, from `net` to `go`, stage by stage.
ghost use Rattle.std.specs.Prelude.{◌≡◌, ◌<◌, ◌≤◌, None as Nothing};
ghost use Rattle.network.specs.Drafts.{bare_net, draft_of};
ghost use Rattle.network.specs.Nets.{net_of};
ghost use Rattle.rows.specs.declared.kind.Stage.TheVariants.{Links as AtLinks, Routes as AtRoutes, Meters as AtMeters};
ghost use Rattle.reader.specs.Heads.{NextRow, NextLink, Opening, Phase, Closing, bare, said};

use crate::fault::FileFault;
use crate::take::{add_link, add_meter, add_route, close};
use fields::read_row;
use merge::{Choice, Gates};
use network::{Draft, Network};
use rows::{Counts, Row, Stage};
use words::{Position, Reader};

// The row that stands next; the head does not end without one.
fn head_row(reader: &mut Reader, stage: Stage, counts: Counts) -> Result<Row, FileFault>
    ensures next { NextRow reader.old.file.now reader.old.at.place reader.old.at.line stage counts.nodes counts.links reader.new.at.place reader.new.at.line result }
    ensures kept { reader.new.file.now ≡ reader.old.file.now }
{
    if reader.at_end() {
        let at = reader.position();
        return Err(FileFault::End { at });
    }
    Ok(read_row(reader, stage, counts)?)
}

// The counts of the `net` row.
pub(crate) fn read_net(reader: &mut Reader) -> Result<Counts, FileFault>
    ensures opens { Opening reader.old.file.now reader.old.at.line reader.old.at.place reader.new.at.line reader.new.at.place result }
    ensures kept { reader.new.file.now ≡ reader.old.file.now }
{
    let none = Counts { nodes: 0, links: 0 };
    let Row::Net { nodes, links } = head_row(reader, Stage::Start, none)? else {
        unreachable()
    };
    Ok(Counts { nodes, links })
}

// Takes the link of the next `link` row, and tells where that starts.
fn next_link(reader: &mut Reader, counts: Counts, draft: &mut Draft) -> Result<Position, FileFault>
    requires room { (draft_of draft.old).links < draft.old.wanted }
    requires nodes { (draft_of draft.old).nodes ≡ counts.nodes }
    ensures next { NextLink reader.old.file.now reader.old.at counts.nodes counts.links draft.old draft.new reader.new.at result }
    ensures kept { reader.new.file.now ≡ reader.old.file.now }
{
    let start = reader.position();
    let Row::Link { link } = head_row(reader, Stage::Links, counts)? else {
        unreachable()
    };
    add_link(draft, link, start)?;
    Ok(start)
}

// The network of as many `link` rows as are wanted.
pub(crate) fn read_links(reader: &mut Reader, counts: Counts) -> Result<Network, FileFault>
    requires nodes { (2 ≤ counts.nodes) × (counts.nodes ≤ 32) }
    requires links { (1 ≤ counts.links) × (counts.links ≤ 48) }
    ensures goes { Phase reader.old.file.now reader.old.at.line reader.old.at.place AtLinks counts.nodes counts.links (bare (bare_net counts.nodes)) reader.new.at.line reader.new.at.place AtRoutes (λ n. bare (net_of n)) result }
    ensures kept { reader.new.file.now ≡ reader.old.file.now }
{
    let Some(mut draft) = Draft::new(counts.nodes, counts.links) else {
        unreachable()
    };
    for _ in 1..counts.links {
        next_link(reader, counts, &mut draft)?;
    }
    let last = next_link(reader, counts, &mut draft)?;
    close(&draft, last)
}

// The network with its routes, and the rule of the `merge` row.
pub(crate) fn read_routes(
    reader: &mut Reader,
    network: Network,
    counts: Counts,
) -> Result<(Network, Choice), FileFault>
    ensures goes { Phase reader.old.file.now reader.old.at.line reader.old.at.place AtRoutes counts.nodes counts.links (bare (net_of network)) reader.new.at.line reader.new.at.place AtMeters (λ x. said (net_of x.0) x.1 (λ n. Nothing)) result }
    ensures kept { reader.new.file.now ≡ reader.old.file.now }
{
    let mut grown = network;
    loop {
        let start = reader.position();
        match head_row(reader, Stage::Routes, counts)? {
            Row::Route { node, exit, link } => add_route(&mut grown, node, exit, link, start)?,
            Row::Merge { rule } => return Ok((grown, rule)),
            _ => unreachable(),
        }
    }
}

// The meters, and where `go` starts.
pub(crate) fn read_meters(
    reader: &mut Reader,
    network: &Network,
    counts: Counts,
) -> Result<(Gates, Position), FileFault>
    requires { counts.nodes ≤ 32 }
    ensures goes { Closing reader.old.file.now reader.old.at.line reader.old.at.place counts.nodes counts.links network.now reader.new.at.line reader.new.at.place result }
    ensures kept { reader.new.file.now ≡ reader.old.file.now }
{
    let mut gates = Gates::none();
    loop {
        let start = reader.position();
        match head_row(reader, Stage::Meters, counts)? {
            Row::Meter { node, rate, period } => {
                add_meter(&mut gates, network, node, rate, period, start)?
            }
            Row::Go => return Ok((gates, start)),
            _ => unreachable(),
        }
    }
}
