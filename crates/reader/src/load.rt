// Reads a network from a corridor file.
ghost use Rattle.std.specs.Prelude.{◌≡◌};
ghost use Rattle.reader.specs.Files.{ReadNetwork};

use crate::corridor::Corridor;
use crate::fault::FileFault;
use crate::head::{read_links, read_meters, read_net, read_routes};
use words::{Position, Reader};

// The most bytes that a file has.
pub const BYTES: usize = 65535;

// Reads up to and with `go`, and tells where that starts. A fault leaves the reader's place and the
// corridor as they were.
pub fn read_network(reader: &mut Reader, corridor: &mut Corridor) -> Result<Position, FileFault>
    ensures reads { ReadNetwork reader.old.file.now reader.old.at.line reader.old.at.place corridor.old corridor.new reader.new.at.line reader.new.at.place result }
    ensures kept { reader.new.file.now ≡ reader.old.file.now }
{
    if reader.len() > BYTES {
        return Err(FileFault::Long);
    }
    let mut ahead = *reader;
    let counts = read_net(&mut ahead)?;
    let bare = read_links(&mut ahead, counts)?;
    let (network, rule) = read_routes(&mut ahead, bare, counts)?;
    let (gates, go) = read_meters(&mut ahead, &network, counts)?;
    *reader = ahead;
    *corridor = Corridor {
        network,
        rule,
        gates,
    };
    Ok(go)
}
