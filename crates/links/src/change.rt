// Changes of the table.
ghost use Rattle.std.specs.Prelude.{◌≡◌, ◌<◌, ◌≤◌};
ghost use Rattle.std.specs.Fn.{FnOnceReturnsAtMut};
ghost use Rattle.links.specs.Readings.{back};
ghost use Rattle.links.specs.Tables.{table_size, record_at, lane_in, with_lane, lane_at, lane_no, Read, Changed, Marked};

use crate::records::{LinkRecord, Side, Table};
use line::Part;

impl LinkRecord {
    // One of its two lanes.
    fn lane(&self, side: Side) -> Part
        ensures { result ≡ lane_in self.now side }
    {
        match side {
            Side::Road => self.road,
            Side::Queue => self.queue,
        }
    }

    fn put_lane(&mut self, side: Side, lane: Part)
        ensures { self.new ≡ with_lane self.old side lane }
    {
        match side {
            Side::Road => self.road = lane,
            Side::Queue => self.queue = lane,
        }
    }

    fn note(&mut self, on: u32, off: u32, travel: Option<u32>)
        ensures { Read self.old on off travel self.new }
    {
        self.ons.note(on);
        self.offs.note(off);
        self.travel = travel;
    }
}

impl Table {
    // Every change of the table: one record is lent for it.
    pub fn change<R, F: FnOnce(&mut LinkRecord) -> R>(&mut self, i: usize, f: F) -> R
        requires here { i < table_size }
        requires ready { (link : _) → link.now ≡ record_at self.old i → F.pre f link }
        ensures here { FnOnceReturnsAtMut F.FnOnce f (record_at self.old i) result (record_at self.new i) }
        ensures rest { Changed self.old i self.new }
    {
        f(&mut self.links[i])
    }

    // One of the two lanes of a link.
    pub fn lane(&self, side: Side, i: usize) -> Part
        requires { i < table_size }
        ensures { result ≡ lane_at self.now (lane_no side i) }
    {
        self.links[i].lane(side)
    }

    // The lane is replaced.
    pub fn put_lane(&mut self, side: Side, i: usize, lane: Part)
        requires { i < table_size }
        ensures { Marked self.old (lane_no side i) lane self.new }
    {
        self.change(i, |link| link.put_lane(side, lane))
    }

    // The readings of a link are noted.
    pub fn note(&mut self, i: usize, on: u32, off: u32, travel: Option<u32>)
        requires { i < table_size }
        ensures here { Read (record_at self.old i) on off travel (record_at self.new i) }
        ensures rest { Changed self.old i self.new }
    {
        self.change(i, |link| link.note(on, off, travel))
    }

    // How many had come on a link so many clocks ago. This and `off` are two questions, each by its
    // name: one function with a flag would be no plainer.
    pub fn on(&self, i: usize, k: usize) -> u32
        requires here { i < table_size }
        requires near { k ≤ 63 }
        ensures { result ≡ back (record_at self.now i).ons k }
    {
        self.links[i].ons.back(k)
    }

    // How many had left a link so many clocks ago.
    pub fn off(&self, i: usize, k: usize) -> u32
        requires here { i < table_size }
        requires near { k ≤ 63 }
        ensures { result ≡ back (record_at self.now i).offs k }
    {
        self.links[i].offs.back(k)
    }

    // The travel time that was noted last.
    pub fn travel(&self, i: usize) -> Option<u32>
        requires { i < table_size }
        ensures { result ≡ (record_at self.now i).travel }
    {
        self.links[i].travel
    }
}
