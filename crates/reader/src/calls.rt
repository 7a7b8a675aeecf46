// Reads the calls of a corridor file, the rows behind `go`.
ghost use Rattle.std.specs.Prelude.{◌≡◌};
ghost use Rattle.reader.specs.Calls.{NextCall};

use crate::fault::FileFault;
use crate::load::BYTES;
use fields::read_row;
use rows::{CallRow, Counts, Row, Stage};
use words::Reader;

// The next call; none at the file's end. A fault leaves the reader's place as it was.
pub fn next_row(reader: &mut Reader) -> Result<Option<CallRow>, FileFault>
    ensures next { NextCall reader.old.file.now reader.old.at.line reader.old.at.place reader.new.at.line reader.new.at.place result }
    ensures kept { reader.new.file.now ≡ reader.old.file.now }
{
    if reader.len() > BYTES {
        return Err(FileFault::Long);
    }
    if reader.at_end() {
        return Ok(None);
    }
    let none = Counts { nodes: 0, links: 0 };
    match read_row(reader, Stage::Calls, none)? {
        Row::Call { call } => Ok(Some(call)),
        _ => unreachable(),
    }
}
