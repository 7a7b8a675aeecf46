// The numbers of the refusals.
ghost use Rattle.std.specs.Prelude.{◌≡◌};
ghost use Rattle.run.specs.Stores.{number as number_of};

use crate::store::Refusal;

impl Refusal {
    // The number that a refusal prints.
    pub fn number(&self) -> u8
        ensures { result ≡ number_of self.now }
    {
        *self as u8
    }
}
