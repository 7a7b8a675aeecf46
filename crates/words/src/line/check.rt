// What a line is, and what it may not have.
ghost use Rattle.std.specs.Prelude.{◌≡◌, ◌≤◌, length, Decides, MatchOption};
ghost use Rattle.words.specs.Lines.{end_at, words_at, Plain, Strange, Empty};
ghost use Rattle.words.specs.Tables.{First, Never};

use crate::line::Line;

// Where the line that starts at `from` ends: at its line feed, or at the file's end.
fn line_end(file: &[u8], from: usize) -> usize
    requires { from ≤ length file.now }
    ensures is { result ≡ end_at file.now from }
    ensures within { result ≤ length file.now }
{
    (from..file.len())
        .find(|&i| file[i] == b'\n')
        .unwrap_or(file.len())
}

// A byte of a line: a to z, 0 to 9 or a space.
fn is_plain(b: u8) -> bool
    ensures { Decides result (Plain b) }
{
    matches!(b, b'a'..=b'z' | b'0'..=b'9' | b' ')
}

impl<'a> Line<'a> {
    // The line that starts at `from`.
    pub(crate) fn new(file: &'a [u8], from: usize) -> Line<'a>
        requires { from ≤ length file.now }
        ensures { (result.file.now ≡ file.now) × (result.from ≡ from) }
    {
        let end = line_end(file, from);
        Line { file, from, end }
    }

    // Where it ends.
    pub(crate) fn end(&self) -> usize
        ensures { result ≡ self.now.end }
    {
        self.end
    }

    // The first byte that no line may have.
    pub(crate) fn strange_byte(&self) -> Option<usize>
        ensures { MatchOption result (Never (Strange self.now.file.now self.now.from self.now.end)) (λ q. First (Strange self.now.file.now self.now.from self.now.end) q) }
    {
        let Line { file, from, end } = *self;
        (from..end).find(|&i| !is_plain(file[i]))
    }

    // Whether an empty word would start at `i`: a word starts there, and ends there too.
    fn is_empty_at(&self, i: usize) -> bool
        requires { (self.now.from ≤ i) × (i ≤ self.now.end) }
        ensures { Decides result (Empty (words_at self.now.file.now self.now.from) i) }
    {
        let Line { file, from, end } = *self;
        // The end first: at most bytes no word ends, and there its start is not asked for.
        let ends = i == end || file[i] == b' ';
        ends && (i == from || file[i - 1] == b' ')
    }

    // Where the first empty word would start.
    pub(crate) fn empty_word(&self) -> Option<usize>
        ensures { MatchOption result (Never (Empty (words_at self.now.file.now self.now.from))) (λ q. First (Empty (words_at self.now.file.now self.now.from)) q) }
    {
        // The end by itself: the search is over the line's bytes alone then, and runs faster.
        let last = self.is_empty_at(self.end).then_some(self.end);
        (self.from..self.end)
            .find(|&i| self.is_empty_at(i))
            .or(last)
    }

    // How many words it has.
    pub(crate) fn words(&self) -> usize
        ensures { result ≡ length (words_at self.now.file.now self.now.from) }
    {
        let text = &self.file[self.from..self.end];
        // A sum goes over several bytes at once, a filter's count byte by byte.
        text.iter().map(|b| usize::from(*b == b' ')).sum::<usize>() + 1
    }
}
