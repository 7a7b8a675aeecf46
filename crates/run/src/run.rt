// The run's record and its invariant.
ghost use Rattle.links.specs.Yards.{InRing};
ghost use Rattle.network.specs.Nets.{net_of};
ghost use Rattle.newell.specs.Now.{Reached};
ghost use Rattle.run.specs.Stores.{view_in, BuiltIn};

use crate::store::Store;

pub mod ask;
pub mod book;
pub mod make;
pub mod stepping;

// Its yard is laid out for its network, the oldest reading of each curve lies in the curve's ring, and
// some calls led to what it holds.
#[derive(Drop)]
pub struct Run<'a> {
    store: Store<'a>,
    ghost built: { BuiltIn store },
    ghost ring: { InRing store.yard },
    ghost reached: { Reached (net_of store.net) (view_in store) },
}
