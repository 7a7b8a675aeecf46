// Readings: the newest comes, the oldest goes, and each is told by how many clocks ago it was taken.
ghost use Rattle.std.specs.Prelude.{◌≡◌, ◌-◌, ◌≤◌, length};
ghost use Rattle.links.specs.Counts.{reading_count};

use line::Part;

// How many readings are kept of a curve.
pub const READINGS: usize = 64;

// The last readings, in a queue that has all the slots and is always full.
#[derive(Clone, Copy)]
pub struct Curve {
    pub slots: [u32; READINGS],
    pub oldest: usize,
    ghost wide: { length slots ≡ reading_count },
}

impl Curve {
    ghost use Rattle.links.specs.Readings.{head_of, back as ago, Next};

    // The queue of the readings. Only its head is kept: the rest of it is the same in all curves. A
    // head that has come to the end of the slots goes round to the first.
    fn queue(&self) -> Part
        ensures start { result.start ≡ 0 }
        ensures size { result.size ≡ reading_count }
        ensures head { result.head ≡ head_of self.now }
        ensures len { result.len ≡ reading_count }
    {
        Part {
            start: 0,
            size: READINGS,
            head: self.oldest % READINGS,
            len: READINGS,
        }
    }

    // The newest reading comes, the oldest goes.
    pub(crate) fn note(&mut self, x: u32)
        ensures { Next self.old x self.new }
    {
        let mut queue = self.queue();
        // The oldest is told to nobody.
        let _ = queue.take(&mut self.slots);
        queue.push(&mut self.slots, x).unwrap();
        self.oldest = queue.head;
    }

    // The reading of so many clocks ago.
    pub(crate) fn back(&self, k: usize) -> u32
        requires near { k ≤ 63 }
        ensures { result ≡ ago self.now k }
    {
        self.queue().look(&self.slots, READINGS - 1 - k)
    }
}
