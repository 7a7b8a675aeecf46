// The network's record and its invariant.
ghost use Rattle.network.specs.Layouts.{Right};

use crate::layout::Layout;

pub mod ask;
pub mod fresh;
pub mod route;

// A network that exists keeps all the rules, so no later call checks them.
#[derive(Clone, Copy)]
pub struct Network {
    pub(crate) layout: Layout,
    ghost right: { ∥ Right layout ∥₁ },
}
