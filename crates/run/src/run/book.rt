// Booking.
ghost use Rattle.std.specs.Prelude.{◌≡◌, Ok, Err};
ghost use Rattle.network.specs.Nets.{net_of};
ghost use Rattle.newell.specs.History.{book as booking};
ghost use Rattle.newell.specs.Now.{Carries};
ghost use Rattle.run.specs.Stores.{view_in, reply_of, BookedIn};

use super::Run;
use crate::store::Refusal;

impl<'a> Run<'a> {
    // `count` vehicles wait at the entrance `e` for the exit `x`.
    pub fn book(&mut self, e: u16, x: u16, count: u16) -> Result<(), Refusal>
        ensures carries { Carries (net_of self.old.store.net) (view_in self.old.store) (booking e x count (reply_of result)) (view_in self.new.store) }
        ensures net { self.new.store.net ≡ self.old.store.net }
        ensures same { self.new.store.yard.area.ghost_name ≡ self.old.store.yard.area.ghost_name }
        ensures area { BookedIn self.old.store e x count result self.new.store }
        ensures kept { elim result [ Ok u ↦ Unit {0} | Err q ↦ self.new ≡ self.old ] }
    {
        let j = self.store.judge(e, x, count)?;
        self.store.queue_up(j, x as u8, usize::from(count));
        Ok(())
    }
}
