// What a reader of rows refuses.
ghost use Rattle.std.specs.Prelude.{◌≡◌};
ghost use Rattle.rows.specs.declared.fault.RowFault.TheVariants.{Word};
ghost use Rattle.rows.specs.Faults.{row_told};

use words::{Layer, Position, Told, WordFault};

// A fault of a row; a word's is kept whole.
#[derive(Clone, Copy, Debug)]
pub enum RowFault {
    Word { fault: WordFault },
    // no row has this name
    Name { at: Position },
    // the row is out of order
    Order { at: Position },
    // a wrong count of words
    Count { at: Position },
    // a word that is no number in range, or no rule's name
    Value { at: Position },
}

impl From<WordFault> for RowFault {
    ghost from_gives = { λ f r. r ≡ Word f };

    fn from(fault: WordFault) -> RowFault {
        RowFault::Word { fault }
    }
}

impl RowFault {
    pub fn told(&self) -> Told
        ensures { result ≡ row_told self.now }
    {
        // Each case's number stands in its arm: a case with a field has no discriminant to read.
        let (number, at) = match *self {
            RowFault::Word { fault } => return fault.told(),
            RowFault::Name { at } => (11, at),
            RowFault::Order { at } => (12, at),
            RowFault::Count { at } => (13, at),
            RowFault::Value { at } => (14, at),
        };
        Told::new(Layer::Row, number, at)
    }
}
