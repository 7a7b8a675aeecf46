// What a reader of networks refuses.
ghost use Rattle.std.specs.Prelude.{◌≡◌};
ghost use Rattle.reader.specs.Faults.{file_told};
ghost use Rattle.reader.specs.declared.fault.FileFault.TheVariants.{Row};

use rows::RowFault;
use words::{Layer, Position, Told};

// A fault of a file; a row's is kept whole.
#[derive(Clone, Copy, Debug)]
pub enum FileFault {
    // the file is over 65,535 bytes
    Long,
    Row { fault: RowFault },
    // the file ends before `go`
    End { at: Position },
    // a link not from a lower to a higher node
    Link { at: Position },
    // a node of no kind, after the last link row
    Node { at: Position, node: u16 },
    // a route not from a diverge, to an exit, by a link that leaves it
    Route { at: Position },
    // a second route for a node and exit, or meter at a node
    Again { at: Position },
    // a meter not at a merge
    Meter { at: Position },
}

impl From<RowFault> for FileFault {
    ghost from_gives = { λ f r. r ≡ Row f };

    fn from(fault: RowFault) -> FileFault {
        FileFault::Row { fault }
    }
}

impl FileFault {
    // All that the fault tells.
    pub fn told(&self) -> Told
        ensures { result ≡ file_told self.now }
    {
        // Each case's number stands in its arm: a case with a field has no discriminant to read.
        let (number, at) = match *self {
            FileFault::Row { fault } => return fault.told(),
            FileFault::Node { at, node } => {
                let told = Told::new(Layer::File, 22, at);
                return Told { node, ..told };
            }
            // The fixed format of refusals: line 0 is the file as a whole.
            FileFault::Long => (1, Position { line: 0, place: 0 }),
            FileFault::End { at } => (15, at),
            FileFault::Link { at } => (21, at),
            FileFault::Route { at } => (23, at),
            FileFault::Again { at } => (24, at),
            FileFault::Meter { at } => (25, at),
        };
        Told::new(Layer::File, number, at)
    }

    pub fn number(&self) -> u8
        ensures { result ≡ (file_told self.now).number }
    {
        self.told().number
    }

    // The line, from 1; 0 for the file as a whole.
    pub fn line(&self) -> usize
        ensures { result ≡ (file_told self.now).line }
    {
        self.told().line
    }

    // The place in bytes, from 0.
    pub fn place(&self) -> usize
        ensures { result ≡ (file_told self.now).place }
    {
        self.told().place
    }

    // The layer that refuses.
    pub fn layer(&self) -> Layer
        ensures { result ≡ (file_told self.now).layer }
    {
        self.told().layer
    }

    // The node of no kind; 0 in any other fault.
    pub fn node(&self) -> u16
        ensures { result ≡ (file_told self.now).node }
    {
        self.told().node
    }
}
