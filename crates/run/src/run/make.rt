// Opening: a check that answers the refusal or not, then a making that refuses nothing.
ghost use Rattle.std.specs.Prelude.{◌≡◌, ◌<◌, ◌≤◌, [], length, Ok, Err};
ghost use Rattle.network.specs.Nets.{net_of};
ghost use Rattle.newell.specs.Now.{Opened, Moment};
ghost use Rattle.run.specs.Opens.{entries_for};
ghost use Rattle.run.specs.Stores.{view_in};
ghost use Rattle.run.specs.declared.store.Refusal.TheVariants.{SmallArea};

use super::Run;
use crate::open::{lay, needed};
use crate::store::{Refusal, Store};
use links::Yard;
use network::Network;
use newell::Vehicle;

impl<'a> Run<'a> {
    // Whether a run over the network fits the area.
    pub fn check(net: &Network, area: &[Vehicle]) -> Result<(), Refusal>
        ensures { elim result [ Ok u ↦ entries_for (net_of net.now) ≤ length area.now | Err e ↦ (e ≡ SmallArea) × (length area.now < entries_for (net_of net.now)) ] }
    {
        if area.len() < needed(net) {
            return Err(Refusal::SmallArea);
        }
        Ok(())
    }

    // A run just opened, over an area that passed the check.
    pub fn make(net: Network, area: &'a mut [Vehicle]) -> Run<'a>
        requires { entries_for (net_of net) ≤ length area.old }
        ensures opened { Opened (net_of net) (view_in result.store) }
        ensures new { Moment (net_of net) [] (view_in result.store) }
        ensures net { result.store.net ≡ net }
        ensures area { result.store.yard.area.now ≡ area.old }
    {
        let table = lay(&net);
        let yard = Yard { area, table };
        Run {
            store: Store {
                net,
                yard,
                clock: 0,
            },
        }
    }
}
