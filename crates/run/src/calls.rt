// What a store does for the calls of a run.
ghost use Rattle.std.specs.Prelude.{◌≡◌, ℕ, ◌+◌, ◌<◌, ◌≤◌, true, false, ◌⊎◌, length};
ghost use Rattle.links.specs.Yards.{holds, size_of, gauge_of, InRing};
ghost use Rattle.network.specs.Net.{Entrance as EntranceOf, Exit as ExitOf};
ghost use Rattle.network.specs.Nets.{net_of};
ghost use Rattle.newell.specs.History.{ask_entrance as asking_in, ask_exit as asking_out};
ghost use Rattle.newell.specs.Now.{Reached, Queued, state_now, Carries};
ghost use Rattle.step.specs.Steps.{Advanced};
ghost use Rattle.run.specs.Stores.{view_in, BuiltIn, FoundOr, Judged, StepJudged, EntranceTold, ExitTold, AreaBooked, answer_of};
ghost use Rattle.run.specs.declared.store.Refusal.TheVariants.{NoEntrance, NoExit};

use crate::run::stepping::LAST;
use crate::store::{Refusal, Store};
use flow::queue::queue_up;
use flow::tick::Tick;
use links::Side;
use merge::MergeRule;
use network::Network;
use newell::{LinkState, StepRow};
use step::advance::advance;

// The most that are booked at once.
pub const BOOKED: u16 = 200;

// Whether a booking may be of so many.
fn countable(n: u16) -> bool
    ensures yes { result ≡ true → (1 ≤ n) × (n ≤ 200) }
    ensures no { result ≡ false → (n < 1) ⊎ (200 < n) }
{
    (1..=BOOKED).contains(&n)
}

// Whether `n` more may wait where so many do. The 500 is `WAITING`, in numbers so that an edit of
// `WAITING` alone is refused.
fn place_for(waiting: usize, n: u16) -> bool
    requires { waiting ≤ 500 }
    ensures yes { result ≡ true → waiting + n ≤ 500 }
    ensures no { result ≡ false → 500 < waiting + n }
{
    waiting + usize::from(n) <= 500
}

// The checks of a step from a clock, with so many rows, in their order.
pub fn judge_step(net: &Network, clock: u32, rows: usize) -> Result<(), Refusal>
    ensures { StepJudged (net_of net.now) clock rows result }
{
    if rows < net.links() {
        return Err(Refusal::FewRows);
    }
    if clock >= LAST {
        return Err(Refusal::Late);
    }
    Ok(())
}

impl<'a> Store<'a> {
    // How many links the network has.
    pub fn links(&self) -> usize
        ensures { result ≡ (net_of self.now.net).links }
    {
        self.net.links()
    }

    // The checks of a step with so many rows, in their order.
    pub fn judge_step(&self, rows: usize) -> Result<(), Refusal>
        ensures { StepJudged (net_of self.now.net) self.now.clock rows result }
    {
        judge_step(&self.net, self.clock, rows)
    }

    // The step from the clock.
    pub fn advance<R: MergeRule>(&mut self, rule: &mut R, rows: &mut [StepRow])
        requires built { BuiltIn self.old }
        requires reached { Reached (net_of self.old.net) (view_in self.old) }
        requires early { self.old.clock < 1000000 }
        requires rows { (net_of self.old.net).links ≤ length rows.old }
        ensures advanced { Advanced (net_of self.old.net) self.old.clock self.old.yard (R.MergeRule.meaning rule.old) rows.old self.new.yard (R.MergeRule.meaning rule.new) rows.new }
        ensures clock { self.new.clock ≡ self.old.clock + 1 }
        ensures same { self.new.yard.area.ghost_name ≡ self.old.yard.area.ghost_name }
        ensures built { BuiltIn self.new }
        ensures ring { InRing self.old.yard → InRing self.new.yard }
        ensures idle { (i : ℕ) → (net_of self.old.net).links ≤ i → gauge_of self.new.yard i ≡ gauge_of self.old.yard i }
        ensures net { self.new.net ≡ self.old.net }
    {
        let tick = Tick::new(self.clock);
        advance(&self.net, &mut self.yard, tick, rule, rows);
        self.clock = tick.next();
    }

    // What a question about a link tells.
    pub fn tell(&self, i: usize) -> LinkState
        requires built { BuiltIn self.now }
        requires reached { Reached (net_of self.now.net) (view_in self.now) }
        requires here { i < (net_of self.now.net).links }
        ensures { result ≡ state_now (net_of self.now.net) (view_in self.now) i }
    {
        let free = usize::from(self.net.free(i));
        let on = self.yard.on(i, 0);
        let off = self.yard.off(i, 0);
        let arrived = self.yard.on(i, free);
        LinkState {
            on,
            off,
            arrived,
            queue: arrived - off,
            travel: self.yard.travel(i),
        }
    }

    // `n` vehicles for `x` wait for the link `j`.
    pub fn queue_up(&mut self, j: usize, x: u8, n: usize)
        requires built { BuiltIn self.old }
        requires link { j < (net_of self.old.net).links }
        requires room { length (holds self.old.yard (48 + j)) + n ≤ size_of self.old.yard (48 + j) }
        ensures queued { Queued (net_of self.old.net) (view_in self.old) j x n (view_in self.new) }
        ensures area { AreaBooked self.old.yard j x n self.new.yard }
        ensures same { self.new.yard.area.ghost_name ≡ self.old.yard.area.ghost_name }
        ensures built { BuiltIn self.new }
        ensures gauges { (i : ℕ) → gauge_of self.new.yard i ≡ gauge_of self.old.yard i }
        ensures net { self.new.net ≡ self.old.net }
    {
        queue_up(&mut self.yard, j, x, n);
    }

    // The link of the entrance `e`.
    fn entrance(&self, e: u16) -> Result<usize, Refusal>
        ensures { FoundOr NoEntrance (EntranceOf (net_of self.now.net) e) result }
    {
        self.net.entrance(usize::from(e)).ok_or(Refusal::NoEntrance)
    }

    // The link of the exit `x`.
    fn exit(&self, x: u16) -> Result<usize, Refusal>
        ensures { FoundOr NoExit (ExitOf (net_of self.now.net) x) result }
    {
        self.net.exit(usize::from(x)).ok_or(Refusal::NoExit)
    }

    // The checks of a booking, in their order; tells the entrance's link.
    pub fn judge(&self, e: u16, x: u16, n: u16) -> Result<usize, Refusal>
        requires { BuiltIn self.now }
        ensures { Judged (net_of self.now.net) (view_in self.now) e x n result }
    {
        let j = self.entrance(e)?;
        let i = self.exit(x)?;
        if !self.net.served(j, self.net.end(i)) {
            return Err(Refusal::Unserved);
        }
        if !countable(n) {
            return Err(Refusal::BadCount);
        }
        if !place_for(self.yard.count(Side::Queue, j), n) {
            return Err(Refusal::NoPlace);
        }
        Ok(j)
    }

    // How many wait at the entrance `e`.
    pub fn waiting(&self, e: u16) -> Result<usize, Refusal>
        requires { BuiltIn self.now }
        ensures told { EntranceTold (net_of self.now.net) (view_in self.now) e result }
        ensures carries { Carries (net_of self.now.net) (view_in self.now) (asking_in e (answer_of result)) (view_in self.now) }
    {
        let j = self.entrance(e)?;
        Ok(self.yard.count(Side::Queue, j))
    }

    // How many are gone at the exit `x`.
    #[tactic(auto, using(crate::proofs::Booking::exit_place))]
    pub fn gone(&self, x: u16) -> Result<u32, Refusal>
        requires { BuiltIn self.now }
        ensures told { ExitTold (net_of self.now.net) (view_in self.now) x result }
        ensures carries { Carries (net_of self.now.net) (view_in self.now) (asking_out x (answer_of result)) (view_in self.now) }
    {
        let i = self.exit(x)?;
        Ok(self.yard.off(i, 0))
    }
}
