// The three questions.
ghost use Rattle.std.specs.Prelude.{◌≡◌};
ghost use Rattle.network.specs.Nets.{net_of};
ghost use Rattle.newell.specs.History.{ask_link as asking, ask_entrance as asking_in, ask_exit as asking_out};
ghost use Rattle.newell.specs.Now.{Carries};
ghost use Rattle.run.specs.Stores.{view_in, answer_of, LinkTold, EntranceTold, ExitTold};

use super::Run;
use crate::store::Refusal;
use newell::LinkState;

impl<'a> Run<'a> {
    // How many steps were accepted.
    pub fn clock(&self) -> u32
        ensures { result ≡ (view_in self.now.store).clock }
    {
        self.store.clock
    }

    // What the link of a number tells.
    pub fn ask_link(&self, number: u16) -> Result<LinkState, Refusal>
        ensures told { LinkTold (net_of self.now.store.net) (view_in self.now.store) number result }
        ensures carries { Carries (net_of self.now.store.net) (view_in self.now.store) (asking number (answer_of result)) (view_in self.now.store) }
    {
        match usize::from(number).checked_sub(1) {
            Some(i) if i < self.store.links() => Ok(self.store.tell(i)),
            _ => Err(Refusal::NoLink),
        }
    }

    // How many wait at the entrance `e`.
    pub fn ask_entrance(&self, e: u16) -> Result<usize, Refusal>
        ensures told { EntranceTold (net_of self.now.store.net) (view_in self.now.store) e result }
        ensures carries { Carries (net_of self.now.store.net) (view_in self.now.store) (asking_in e (answer_of result)) (view_in self.now.store) }
    {
        self.store.waiting(e)
    }

    // How many are gone at the exit `x`.
    pub fn ask_exit(&self, x: u16) -> Result<u32, Refusal>
        ensures told { ExitTold (net_of self.now.store.net) (view_in self.now.store) x result }
        ensures carries { Carries (net_of self.now.store.net) (view_in self.now.store) (asking_out x (answer_of result)) (view_in self.now.store) }
    {
        self.store.gone(x)
    }
}
