// The readings and rows that a step leaves.
ghost use Rattle.std.specs.Prelude.{◌≡◌, ℕ, ◌+◌, ◌-◌, ◌^◌, ◌<◌, ◌≤◌, ◌≢◌, length, None, slice_index, slice_index_or};
ghost use Rattle.links.specs.Yards.{holds, gauge_of};
ghost use Rattle.newell.specs.declared.records.StepRow.{StepRow as Line};
ghost use Rattle.plan.specs.View.{ons, offs};
ghost use Rattle.step.specs.Notes.{Written, Still};

use links::{Side, Yard};
use newell::StepRow;

// Notes the readings of the link `i`, from which `left` have gone and on which `count` are, and
// tells its row.
fn note_one(yard: &mut Yard, i: usize, left: u32, count: u32, time: Option<u32>) -> StepRow
    requires here { i < 48 }
    requires small { offs yard.old i 0 + left + count < 2 ^ 32 }
    requires more { ons yard.old i 0 ≤ offs yard.old i 0 + left + count }
    ensures written { Written (gauge_of yard.old i) left count time result (gauge_of yard.new i) }
    ensures others { (k : ℕ) → k ≢ i → gauge_of yard.new k ≡ gauge_of yard.old k }
    ensures still { Still yard.old yard.new }
{
    let off = yard.off(i, 0) + left;
    let on = off + count;
    let came = on - yard.on(i, 0);
    yard.note(i, on, off, time);
    StepRow {
        came,
        left,
        travel: time,
    }
}

// Notes the readings of the first `count` links, and fills a row for each.
pub fn note_all(
    yard: &mut Yard,
    count: usize,
    outs: &[u16],
    times: &[Option<u32>],
    rows: &mut [StepRow],
)
    requires few { count ≤ 48 }
    requires outs { count ≤ length outs.now }
    requires times { count ≤ length times.now }
    requires rows { count ≤ length rows.old }
    requires small { (i : ℕ) → i < count → (length (holds yard.old i) < 2 ^ 32) × (offs yard.old i 0 + slice_index outs.now i + length (holds yard.old i) < 2 ^ 32) }
    requires more { (i : ℕ) → i < count → ons yard.old i 0 ≤ offs yard.old i 0 + slice_index outs.now i + length (holds yard.old i) }
    ensures written { (i : ℕ) (d : Line) → i < count → Written (gauge_of yard.old i) (slice_index outs.now i) (length (holds yard.old i)) (slice_index_or times.now i None) (slice_index_or rows.new i d) (gauge_of yard.new i) }
    ensures others { (i : ℕ) → count ≤ i → gauge_of yard.new i ≡ gauge_of yard.old i }
    ensures beyond { (i : ℕ) (d : Line) → count ≤ i → slice_index_or rows.new i d ≡ slice_index_or rows.old i d }
    ensures still { Still yard.old yard.new }
{
    for (i, row) in rows[..count].iter_mut().enumerate() {
        let on_it = yard.count(Side::Road, i) as u32;
        // By place: a zip runs by the iterator, and nothing is known then of what was written through it.
        *row = note_one(yard, i, u32::from(outs[i]), on_it, times[i]);
    }
}
