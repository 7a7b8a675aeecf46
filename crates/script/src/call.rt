//! Calls and answers as values.
use newell::LinkState;
use run::Refusal;

/// What may be asked of a run that is open.
#[derive(Clone, Copy, PartialEq, Eq, Debug)]
pub enum Call {
    Book {
        entrance: u16,
        exit: u16,
        count: u16,
    },
    Step,
    Link {
        number: u16,
    },
    Entrance {
        node: u16,
    },
    Exit {
        node: u16,
    },
}

/// What a call that was not refused came to.
#[derive(Clone, Copy, PartialEq, Eq, Debug)]
pub enum Outcome {
    Done,
    Link { state: LinkState },
    Waiting { count: usize },
    Gone { count: u32 },
}

/// What a call answered.
pub type Answer = Result<Outcome, Refusal>;
