// Queues in the parts of one area. For a push and a take the part is lent to a `Line`.
ghost use Rattle.std.specs.Prelude.{◌≡◌, ◌+◌, ◌-◌, ◌<◌, ◌≤◌, [], ◌∷◌, ◌++◌, length, if◌then◌else◌, is_ok, Some, nat_lt, slice_set};
ghost use Rattle.std.specs.List.{slice_get};
ghost use Rattle.line.specs.Ring.{held, slot_of, passed, first, rest};
ghost use Rattle.line.specs.Parts.{Sound, fresh, queue};

use super::work::slot;
use super::{Full, Line, Part};

impl Part {
    // A part with no entries.
    pub fn new(start: usize, size: usize) -> Part
        ensures { result ≡ fresh start size }
    {
        Part {
            start,
            size,
            head: 0,
            len: 0,
        }
    }

    // `Line::push` in the slots of the part. That the part lies in the area stays a clause, here and
    // below: the area is lent anew for each call, so the part's type can't name it.
    fn push_on<T: Copy>(&mut self, slots: &mut [T], x: T) -> Result<(), Full>
        requires wide { length slots.old ≡ self.old.size }
        requires sound { Sound self.old }
        ensures told { is_ok result ≡ nat_lt self.old.len self.old.size }
        ensures holds { held slots.new self.new.head self.new.len ≡ (if is_ok result then held slots.old self.old.head self.old.len ++ x ∷ [] else held slots.old self.old.head self.old.len) }
        ensures slots { slots.new ≡ (if is_ok result then slice_set slots.old (slot_of self.old.size self.old.head self.old.len) x else slots.old) }
        ensures start { self.new.start ≡ self.old.start }
        ensures size { self.new.size ≡ self.old.size }
        ensures head { self.new.head ≡ self.old.head }
        ensures len { self.new.len ≡ (if is_ok result then self.old.len + 1 else self.old.len) }
        ensures sound { Sound self.new }
    {
        let mut line = Line {
            slots,
            head: self.head,
            len: self.len,
        };
        let done = line.push(x);
        self.head = line.head;
        self.len = line.len;
        done
    }

    // One more entry; refused, with nothing changed, where the part is full.
    pub fn push<T: Copy>(&mut self, area: &mut [T], x: T) -> Result<(), Full>
        requires room { self.old.start + self.old.size ≤ length area.old }
        requires sound { Sound self.old }
        ensures told { is_ok result ≡ nat_lt self.old.len self.old.size }
        ensures holds { queue area.new self.new ≡ (if is_ok result then queue area.old self.old ++ x ∷ [] else queue area.old self.old) }
        ensures area { area.new ≡ (if is_ok result then slice_set area.old (self.old.start + slot_of self.old.size self.old.head self.old.len) x else area.old) }
        ensures start { self.new.start ≡ self.old.start }
        ensures size { self.new.size ≡ self.old.size }
        ensures head { self.new.head ≡ self.old.head }
        ensures len { self.new.len ≡ (if is_ok result then self.old.len + 1 else self.old.len) }
        ensures sound { Sound self.new }
    {
        self.push_on(&mut area[self.start..self.start + self.size], x)
    }

    // `Line::take` in the slots of the part.
    fn take_on<T: Copy>(&mut self, slots: &mut [T]) -> Option<T>
        requires wide { length slots.old ≡ self.old.size }
        requires sound { Sound self.old }
        ensures told { result ≡ first (held slots.old self.old.head self.old.len) }
        ensures holds { held slots.new self.new.head self.new.len ≡ rest (held slots.old self.old.head self.old.len) }
        ensures slots { slots.new ≡ slots.old }
        ensures start { self.new.start ≡ self.old.start }
        ensures size { self.new.size ≡ self.old.size }
        ensures head { self.new.head ≡ passed self.old.size self.old.head self.old.len }
        ensures len { self.new.len ≡ self.old.len - 1 }
        ensures sound { Sound self.new }
    {
        let mut line = Line {
            slots,
            head: self.head,
            len: self.len,
        };
        let oldest = line.take();
        self.head = line.head;
        self.len = line.len;
        oldest
    }

    // The oldest entry, which leaves; the area is as it was.
    pub fn take<T: Copy>(&mut self, area: &mut [T]) -> Option<T>
        requires room { self.old.start + self.old.size ≤ length area.old }
        requires sound { Sound self.old }
        ensures told { result ≡ first (queue area.old self.old) }
        ensures holds { queue area.new self.new ≡ rest (queue area.old self.old) }
        ensures area { area.new ≡ area.old }
        ensures start { self.new.start ≡ self.old.start }
        ensures size { self.new.size ≡ self.old.size }
        ensures head { self.new.head ≡ passed self.old.size self.old.head self.old.len }
        ensures len { self.new.len ≡ self.old.len - 1 }
        ensures sound { Sound self.new }
    {
        self.take_on(&mut area[self.start..self.start + self.size])
    }

    // The entry at a place, counted from the oldest; the area is only read.
    pub fn look<T: Copy>(&self, area: &[T], i: usize) -> T
        requires room { self.now.start + self.now.size ≤ length area.now }
        requires sound { Sound self.now }
        requires here { i < self.now.len }
        ensures { Some result ≡ slice_get (queue area.now self.now) i }
    {
        let slots = &area[self.start..self.start + self.size];
        slots[slot(self.size, self.head, i)]
    }
}
