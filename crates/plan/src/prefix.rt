// How many vehicles pass a diverge.
ghost use Rattle.std.specs.Prelude.{◌≡◌, ℕ, ◌+◌, ◌-◌, ◌<◌, ◌≤◌, true, false, ◌⊎◌, if◌then◌else◌};
ghost use Rattle.network.specs.Net.{is as leads};
ghost use Rattle.network.specs.Nets.{net_of};
ghost use Rattle.newell.specs.Plain.{Greatest};
ghost use Rattle.newell.specs.Now.{Fit};
ghost use Rattle.plan.specs.View.{view_of};
ghost use Rattle.plan.specs.Plans.{Plannable};

use crate::caps::{may_send, may_take};
use links::{Side, Yard};
use network::Network;

// 1 if a vehicle goes on to the link `j`.
fn goes(to: Option<usize>, j: usize) -> u16
    ensures { result ≡ (if leads to j then 1 else 0) }
{
    u16::from(to == Some(j))
}

// Whether `a` more find room on the one link, and `b` more on the other.
fn room_for(a: u16, room: u16, b: u16, room2: u16) -> bool
    ensures yes { result ≡ true → (a ≤ room) × (b ≤ room2) }
    ensures no { result ≡ false → (room < a) ⊎ (room2 < b) }
{
    a <= room && b <= room2
}

// How many pass from the link `i` to `j` and `j2`: counting stops at the first vehicle that finds
// its link full.
// It is the same at every clock, so it takes no scene. The loop is left by a label that yields how
// many, and not by `return`: a rule of the project.
#[tactic(auto, using(crate::proofs::Facts::few_links))]
pub fn prefix(net: &Network, yard: &Yard, i: usize, j: usize, j2: usize) -> u16
    requires plannable { Plannable (net_of net.now) yard.now }
    requires link { i < (net_of net.now).links }
    requires one { j < (net_of net.now).links }
    requires two { j2 < (net_of net.now).links }
    ensures { (t : ℕ) → Greatest (Fit (net_of net.now) (view_of yard.now t) i j j2) result }
{
    let sends = may_send(net, &yard.table, i);
    let room = may_take(net, &yard.table, j);
    let room2 = may_take(net, &yard.table, j2);
    let mut one = 0;
    let mut two = 0;
    'count: {
        for k in 0..sends {
            let v = yard.look(Side::Road, i, usize::from(k));
            let to = net.next(i, v.exit);
            let a = goes(to, j);
            let b = goes(to, j2);
            if !room_for(a, room - one, b, room2 - two) {
                break 'count k;
            }
            one += a;
            two += b;
        }
        sends
    }
}
