// Where a byte of the file stands.

// A line, counted from 1, and a place, a byte of the file counted from 0.
#[derive(Clone, Copy, Debug)]
pub struct Position {
    pub line: usize,
    pub place: usize,
}
