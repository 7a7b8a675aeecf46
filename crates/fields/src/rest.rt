// The words of a row that are not read yet.
ghost use Rattle.std.specs.Prelude.{◌≡◌, ◌<◌, ◌≤◌, length};
ghost use Rattle.words.specs.Lines.{end_at};

use words::Reader;

pub mod take;

// The words that are left of a line with a line feed: those from the reader's place to the line's end.
#[derive(Clone, Copy)]
pub struct Rest<'a> {
    pub words: Reader<'a>,
    pub end: usize,
    ghost fed: { end < length words.file.now },
    ghost on: { words.at.place ≤ end → end_at words.file.now words.at.place ≡ end },
}
