// Vehicles that are booked wait at their entrance.
ghost use Rattle.std.specs.Prelude.{◌≡◌, ◌+◌, ◌<◌, ◌≤◌, [], ◌∷◌, ◌++◌, length, replicate};
ghost use Rattle.line.specs.Spots.{wrote, written};
ghost use Rattle.links.specs.Tables.{table_size};
ghost use Rattle.links.specs.Yards.{holds, spots_of, size_of, Put};

use links::{Side, Yard};
use newell::Vehicle;

// One more for the exit `x` waits for the link `j`.
fn wait(yard: &mut Yard, j: usize, x: u8)
    requires link { j < table_size }
    requires room { length (holds yard.old (table_size + j)) < size_of yard.old (table_size + j) }
    ensures put { Put yard.old yard.new (table_size + j) (holds yard.old (table_size + j) ++ record { exit = x; since = 0 } ∷ []) }
    ensures spots { spots_of yard.new (table_size + j) ≡ wrote (spots_of yard.old (table_size + j)) (record { exit = x; since = 0 }) }
{
    yard.push(Side::Queue, j, Vehicle { exit: x, since: 0 });
}

// `n` vehicles for the exit `x` wait for the link `j`.
pub fn queue_up(yard: &mut Yard, j: usize, x: u8, n: usize)
    requires link { j < table_size }
    requires room { length (holds yard.old (table_size + j)) + n ≤ size_of yard.old (table_size + j) }
    ensures put { Put yard.old yard.new (table_size + j) (holds yard.old (table_size + j) ++ replicate n (record { exit = x; since = 0 })) }
    ensures spots { spots_of yard.new (table_size + j) ≡ written (spots_of yard.old (table_size + j)) (replicate n (record { exit = x; since = 0 })) }
{
    for _ in 0..n {
        wait(yard, j, x);
    }
}
