//! The rule that a file names, and one of the three rules by that name.
ghost use Rattle.std.specs.Prelude.{◌≡◌};
ghost use Rattle.merge.specs.Choosing.{fresh_meaning, chosen_meaning};
ghost use Rattle.merge.specs.Laws.{chosen_lawful};

use crate::alternate::Zip;
use crate::fair::Fair;
use crate::question::Question;
use crate::ramp::Ramp;
use crate::rule::MergeRule;

/// A rule by its name.
#[derive(Clone, Copy, PartialEq, Eq, Debug)]
pub enum Choice {
    Fair,
    Ramp,
    Zip,
}

/// One of the three rules.
// An enum, and no boxed rule: the set is closed, and the engine has no heap.
#[derive(Drop)]
pub enum Chosen {
    ByFair(Fair),
    ByRamp(Ramp),
    ByZip(Zip),
}

impl Chosen {
    /// A new rule of that name.
    pub fn new(choice: Choice) -> Chosen
        ensures { chosen_meaning result ≡ fresh_meaning choice }
    {
        match choice {
            Choice::Fair => Chosen::ByFair(Fair),
            Choice::Ramp => Chosen::ByRamp(Ramp),
            Choice::Zip => Chosen::ByZip(Zip::new()),
        }
    }
}

impl MergeRule for Chosen {
    ghost meaning = { chosen_meaning };

    ghost lawful = { chosen_lawful };

    fn limits(&self, node: u16, clock: u32) -> (u16, u16) {
        match self {
            Chosen::ByFair(x) => x.limits(node, clock),
            Chosen::ByRamp(x) => x.limits(node, clock),
            Chosen::ByZip(x) => x.limits(node, clock),
        }
    }

    fn split(&mut self, node: u16, q: Question) -> (u16, u16) {
        match self {
            Chosen::ByFair(x) => x.split(node, q),
            Chosen::ByRamp(x) => x.split(node, q),
            Chosen::ByZip(x) => x.split(node, q),
        }
    }
}
