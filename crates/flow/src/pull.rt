// Vehicles that come from an entrance on its link.
ghost use Rattle.std.specs.Prelude.{ℕ, ◌+◌, ◌<◌, ◌≤◌, [], ◌∷◌, length, take as taken, slice_index};
ghost use Rattle.links.specs.Tables.{table_size};
ghost use Rattle.links.specs.Yards.{holds, size_of};
ghost use Rattle.flow.specs.Flows.{Pulled, PulledAll, leader};

use crate::coming::{arriving, coming};
use crate::tick::Tick;
use links::{Side, Yard};

// The first that waits for the link `j` comes on it.
fn pull_one(yard: &mut Yard, j: usize, t: Tick)
    requires link { j < table_size }
    requires some { 0 < length (holds yard.old (table_size + j)) }
    requires room { length (holds yard.old j) < size_of yard.old j }
    ensures { Pulled t.clock j (leader (holds yard.old (table_size + j)) ∷ []) yard.old yard.new }
{
    if let Some(v) = yard.take(Side::Queue, j) {
        yard.push(Side::Road, j, arriving(v.exit, t));
    }
}

// The first `n` that wait for the link `j` come on it.
fn pull(yard: &mut Yard, j: usize, n: usize, t: Tick)
    requires link { j < table_size }
    requires enough { n ≤ length (holds yard.old (table_size + j)) }
    requires room { length (holds yard.old j) + n ≤ size_of yard.old j }
    ensures { Pulled t.clock j (taken n (holds yard.old (table_size + j))) yard.old yard.new }
{
    for _ in 0..n {
        pull_one(yard, j, t);
    }
}

// Those that wait for the first `count` links come on them, as many as `takes` says at most.
pub(crate) fn pull_all(yard: &mut Yard, count: usize, takes: &[u16], t: Tick)
    requires few { count ≤ table_size }
    requires takes { count ≤ length takes.now }
    requires room { (j : ℕ) → j < count → length (holds yard.old j) + length (taken (slice_index takes.now j) (holds yard.old (table_size + j))) ≤ size_of yard.old j }
    ensures { PulledAll t.clock (λ j. slice_index takes.now j) count yard.old yard.new }
{
    for (j, &take) in takes[..count].iter().enumerate() {
        let waiting = yard.count(Side::Queue, j);
        let n = coming(waiting, take);
        pull(yard, j, n, t);
    }
}
