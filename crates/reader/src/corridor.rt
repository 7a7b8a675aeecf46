// What the head of a corridor file says.
ghost use Rattle.std.specs.Prelude.{◌≡◌};
ghost use Rattle.reader.specs.Files.{said_of};
ghost use Rattle.reader.specs.Fresh.{fresh_said};

use merge::{Choice, Gates};
use network::Network;

// A network, the rule at its merges and the meters on its ramps.
#[derive(Clone, Copy)]
pub struct Corridor {
    pub network: Network,
    pub rule: Choice,
    pub gates: Gates,
}

impl Corridor {
    // The fresh network, under fair and without meters.
    pub fn fresh() -> Corridor
        ensures { said_of result ≡ fresh_said }
    {
        Corridor {
            network: Network::fresh(),
            rule: Choice::Fair,
            gates: Gates::none(),
        }
    }
}
