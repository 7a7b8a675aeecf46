// What a plan reads: a network, a yard over it that can be planned, and the clock.
ghost use Rattle.std.specs.Prelude.{◌≡◌, ◌<◌};
ghost use Rattle.network.specs.Nets.{net_of};
ghost use Rattle.newell.specs.Now.{asks as posed};
ghost use Rattle.plan.specs.Plans.{Plannable};
ghost use Rattle.plan.specs.View.{view_of, sends_of, takes_of};

use crate::caps::{may_send, may_take};
use links::Yard;
use merge::Question;
use network::Network;

#[derive(Clone, Copy)]
pub(crate) struct Scene<'a> {
    pub(crate) net: &'a Network,
    pub(crate) yard: &'a Yard<'a>,
    pub(crate) clock: u32,
    ghost plannable: { Plannable (net_of net.now) yard.now },
}

impl<'a> Scene<'a> {
    // What the link `i` may send.
    pub(crate) fn sends(&self, i: usize) -> u16
        requires { i < (net_of self.now.net.now).links }
        ensures { result ≡ sends_of (net_of self.now.net.now) self.now.yard.now i }
    {
        may_send(self.net, &self.yard.table, i)
    }

    // What the link `j` may take.
    pub(crate) fn takes(&self, j: usize) -> u16
        requires { j < (net_of self.now.net.now).links }
        ensures { result ≡ takes_of (net_of self.now.net.now) self.now.yard.now j }
    {
        may_take(self.net, &self.yard.table, j)
    }

    // What a rule is asked at a merge of the links `i` and `i2` into `j`.
    pub(crate) fn question(&self, i: usize, i2: usize, j: usize) -> Question
        requires first { i < (net_of self.now.net.now).links }
        requires second { i2 < (net_of self.now.net.now).links }
        requires to { j < (net_of self.now.net.now).links }
        ensures { result ≡ posed (net_of self.now.net.now) (view_of self.now.yard.now self.now.clock) i i2 j }
    {
        Question {
            clock: self.clock,
            s1: self.sends(i),
            s2: self.sends(i2),
            r: self.takes(j),
            q1: u16::from(self.net.capacity(i)),
            q2: u16::from(self.net.capacity(i2)),
        }
    }
}
