// Reads one row. That a reader keeps its file is a clause here and in the crate above: a type would be
// no plainer, since it can't say what a call leaves as it was.
ghost use Rattle.std.specs.Prelude.{◌≡◌};
ghost use Rattle.rows.specs.Reading.{ReadRow};
ghost use Rattle.words.specs.Tokens.{spot_of, at_of};
ghost use Rattle.fields.specs.Taking.{Checked};

use crate::fields::fields;
use crate::rest::Rest;
use rows::{Counts, Kind, Row, RowFault, Stage};
use words::{Reader, Word};

// The kind of a row that has this first word, stands in order and has its count of words.
fn checked(word: Word, stage: Stage, count: usize) -> Result<Kind, RowFault>
    ensures { Checked (spot_of word.entry).text stage count (at_of word.entry) result }
{
    let at = word.at();
    let kind = Kind::try_from(word.text()).map_err(|_| RowFault::Name { at })?;
    if !stage.allows(kind) {
        return Err(RowFault::Order { at });
    }
    if count != kind.words() {
        return Err(RowFault::Count { at });
    }
    Ok(kind)
}

// The row that stands next; its nodes and links are those that the `net` row counts. A fault leaves
// the reader where it was.
pub fn read_row(reader: &mut Reader, stage: Stage, counts: Counts) -> Result<Row, RowFault>
    ensures read { ReadRow reader.old.file.now reader.old.at.place reader.old.at.line stage counts.nodes counts.links reader.new.at.place reader.new.at.line result }
    ensures kept { reader.new.file.now ≡ reader.old.file.now }
{
    let end = reader.look()?;
    let count = reader.count();
    let mut words = *reader;
    let kind = checked(words.word(), stage, count)?;
    let row = fields(&mut Rest { words, end }, kind, counts)?;
    reader.next_line(end);
    Ok(row)
}
