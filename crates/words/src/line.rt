// A line of a file.
ghost use Rattle.std.specs.Prelude.{◌≡◌, ◌≤◌, length};
ghost use Rattle.words.specs.Lines.{end_at};

mod check;

// From its first place to its line feed, or to the file's end.
#[derive(Clone, Copy)]
pub(crate) struct Line<'a> {
    file: &'a [u8],
    from: usize,
    end: usize,
    ghost low: { from ≤ end },
    ghost within: { end ≤ length file.now },
    ghost whole: { end ≡ end_at file.now from },
}
