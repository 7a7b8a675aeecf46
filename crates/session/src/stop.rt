//! Why a file, or one of its rows, is not done.
ghost use Rattle.std.specs.Prelude.{◌≡◌};
ghost use Rattle.run.specs.Stores.{number as number_of};

use reader::{FileFault, Position};
use run::Refusal;
use std::{fmt, io};

/// A refusal as it is printed: its number, and the line and place where it belongs.
#[derive(Clone, Copy)]
pub struct No {
    number: u8,
    at: Position,
}

impl No {
    /// What a run refused, told where the row starts that asked for it.
    pub fn at(refusal: Refusal, at: Position) -> No
        ensures number { result.number ≡ number_of refusal }
        ensures at { result.at ≡ at }
    {
        No {
            number: refusal.number(),
            at,
        }
    }
}

impl From<FileFault> for No {
    fn from(fault: FileFault) -> No {
        let told = fault.told();
        No {
            number: told.number,
            at: Position {
                line: told.line,
                place: told.place,
            },
        }
    }
}

impl fmt::Display for No {
    fn fmt<W: fmt::Write>(&self, f: &mut fmt::Formatter<W>) -> fmt::Result {
        let Position { line, place } = self.at;
        write!(f, "no {} {line} {place}", self.number)
    }
}

/// A refusal, which is printed, or an output that failed, which ends the program.
#[derive(Drop)]
pub enum Stop {
    Refused(No),
    Output(io::Error),
}

impl From<No> for Stop {
    fn from(no: No) -> Stop {
        Stop::Refused(no)
    }
}

impl From<FileFault> for Stop {
    fn from(fault: FileFault) -> Stop {
        Stop::Refused(fault.into())
    }
}

impl From<io::Error> for Stop {
    fn from(error: io::Error) -> Stop {
        Stop::Output(error)
    }
}
