// How many leave each link, by the kind of the node where it ends.
ghost use Rattle.std.specs.Prelude.{◌≡◌, ℕ, ◌≤◌, ◌≢◌, length, slice_index};
ghost use Rattle.network.specs.Nets.{net_of};
ghost use Rattle.newell.specs.Now.{Passes, AskedNow};
ghost use Rattle.plan.specs.View.{view_of};
ghost use Rattle.plan.specs.Plans.{AskedAt, Plannable};

use crate::prefix::prefix;
use crate::scene::Scene;
use links::Yard;
use merge::MergeRule;
use network::{Network, NodeKind};

impl<'a> Scene<'a> {
    // How many leave each link that enters the node `n`.
    fn plan_node<R: MergeRule>(&self, rule: &mut R, n: usize, outs: &mut [u16])
        requires least { 1 ≤ n }
        requires most { n ≤ (net_of self.now.net.now).nodes }
        requires outs { (net_of self.now.net.now).links ≤ length outs.old }
        ensures passes { Passes (net_of self.now.net.now) (view_of self.now.yard.now self.now.clock) (R.MergeRule.meaning rule.old) (λ i. slice_index outs.new i) n }
        ensures others { (i : ℕ) → ((net_of self.now.net.now).link i).to ≢ n → slice_index outs.new i ≡ slice_index outs.old i }
        ensures asked { AskedAt (net_of self.now.net.now) (view_of self.now.yard.now self.now.clock) n (R.MergeRule.meaning rule.old) (R.MergeRule.meaning rule.new) }
    {
        match self.net.kind(n) {
            NodeKind::Entrance { .. } => {}
            NodeKind::Exit { from } => outs[from] = self.sends(from),
            NodeKind::Mainline { from, to } => {
                outs[from] = self.sends(from).min(self.takes(to));
            }
            NodeKind::Merge { first, second, to } => {
                let question = self.question(first, second, to);
                let (a, b) = rule.split(n as u16, question);
                outs[first] = a;
                outs[second] = b;
            }
            NodeKind::Diverge {
                from,
                first,
                second,
            } => {
                outs[from] = prefix(self.net, self.yard, from, first, second);
            }
        }
    }
}

// How many leave each link in the step from `clock`; the rule is asked once at each merge. `outs` is
// any slice that is long enough, which an array's type would narrow.
pub fn plan<R: MergeRule>(rule: &mut R, net: &Network, yard: &Yard, clock: u32, outs: &mut [u16])
    requires plannable { Plannable (net_of net.now) yard.now }
    requires outs { (net_of net.now).links ≤ length outs.old }
    ensures passes { (n : ℕ) → Passes (net_of net.now) (view_of yard.now clock) (R.MergeRule.meaning rule.old) (λ i. slice_index outs.new i) n }
    ensures asked { AskedNow (net_of net.now) (view_of yard.now clock) (R.MergeRule.meaning rule.old) (R.MergeRule.meaning rule.new) }
{
    let scene = Scene { net, yard, clock };
    for n in 1..=net.nodes() {
        scene.plan_node(rule, n, outs);
    }
}
