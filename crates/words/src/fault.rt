// What a reader of words refuses, and what any fault of a file tells.
ghost use Rattle.std.specs.Prelude.{◌≡◌};
ghost use Rattle.words.specs.Faults.{told, word_told};

use crate::position::Position;

// The layer that refuses: a word, a row, or the file as a whole.
#[derive(Clone, Copy, Debug, PartialEq)]
pub enum Layer {
    Word,
    Row,
    File,
}

// What a fault tells: its number, its line from 1, its place in bytes from 0, its layer, and the node
// that it is about, 0 where it is about none.
// The number, line 0 for the file as a whole and node 0 for none are the fixed format of refusals, and
// so are line and place as two numbers.
#[derive(Clone, Copy)]
pub struct Told {
    pub number: u8,
    pub line: usize,
    pub place: usize,
    pub layer: Layer,
    pub node: u16,
}

impl Told {
    // A fault of this layer that is about no node.
    pub fn new(layer: Layer, number: u8, at: Position) -> Told
        ensures { result ≡ told number at layer 0 }
    {
        Told {
            number,
            line: at.line,
            place: at.place,
            layer,
            node: 0,
        }
    }
}

// A fault of a word.
#[derive(Clone, Copy, Debug)]
pub enum WordFault {
    // a byte that no word has
    Byte { at: Position },
    // an empty word or line
    Empty { at: Position },
    // no line feed
    Feed { at: Position },
}

impl WordFault {
    pub fn told(&self) -> Told
        ensures { result ≡ word_told self.now }
    {
        // Each case's number stands in its arm: a case with a field has no discriminant to read.
        let (number, at) = match *self {
            WordFault::Byte { at } => (2, at),
            WordFault::Empty { at } => (3, at),
            WordFault::Feed { at } => (4, at),
        };
        Told::new(Layer::Word, number, at)
    }
}
