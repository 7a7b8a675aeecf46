// What a yard does: vehicles come to a lane and leave it, readings are noted and told.
ghost use Rattle.std.specs.Prelude.{◌≡◌, ◌<◌, ◌≤◌, [], ◌∷◌, ◌++◌, length, slice_index_or};
ghost use Rattle.line.specs.Ring.{first, rest};
ghost use Rattle.line.specs.Spots.{wrote};
ghost use Rattle.links.specs.Readings.{back as ago};
ghost use Rattle.links.specs.Tables.{table_size, lane_no};
ghost use Rattle.links.specs.Yards.{holds, spots_of, size_of, gauge_of, Put, NotedAt};

use crate::records::{Side, Yard};
use newell::Vehicle;

impl<'a> Yard<'a> {
    // The first in a lane leaves it. A link is a number with its bound required, here and below: a
    // type for it would be made and taken apart at each call, and say no more.
    pub fn take(&mut self, side: Side, i: usize) -> Option<Vehicle>
        requires here { i < table_size }
        ensures told { result ≡ first (holds self.old (lane_no side i)) }
        ensures put { Put self.old self.new (lane_no side i) (rest (holds self.old (lane_no side i))) }
        ensures spots { spots_of self.new (lane_no side i) ≡ spots_of self.old (lane_no side i) }
        ensures same { self.new.area.ghost_name ≡ self.old.area.ghost_name }
    {
        let mut lane = self.table.lane(side, i);
        let v = lane.take(self.area);
        self.table.put_lane(side, i, lane);
        v
    }

    // One more at the end of a lane that has room.
    pub fn push(&mut self, side: Side, i: usize, v: Vehicle)
        requires here { i < table_size }
        requires room { length (holds self.old (lane_no side i)) < size_of self.old (lane_no side i) }
        ensures put { Put self.old self.new (lane_no side i) (holds self.old (lane_no side i) ++ v ∷ []) }
        ensures spots { spots_of self.new (lane_no side i) ≡ wrote (spots_of self.old (lane_no side i)) v }
        ensures same { self.new.area.ghost_name ≡ self.old.area.ghost_name }
    {
        let mut lane = self.table.lane(side, i);
        // There is room, as the clause asks, so the lane takes it.
        lane.push(self.area, v).unwrap();
        self.table.put_lane(side, i, lane);
    }

    // How many are in a lane.
    pub fn count(&self, side: Side, i: usize) -> usize
        requires here { i < table_size }
        ensures { result ≡ length (holds self.now (lane_no side i)) }
    {
        self.table.lane(side, i).len
    }

    // The one at a place of a lane, counted from the first.
    pub fn look(&self, side: Side, i: usize, q: usize) -> Vehicle
        requires here { i < table_size }
        requires some { q < length (holds self.now (lane_no side i)) }
        ensures { result ≡ slice_index_or (holds self.now (lane_no side i)) q (record { exit = 0; since = 0 }) }
    {
        let lane = self.table.lane(side, i);
        lane.look(self.area, q)
    }

    // How many had come on a link so many clocks ago.
    pub fn on(&self, i: usize, k: usize) -> u32
        requires here { i < table_size }
        requires near { k ≤ 63 }
        ensures { result ≡ ago (gauge_of self.now i).ons k }
    {
        self.table.on(i, k)
    }

    // How many had left a link so many clocks ago.
    pub fn off(&self, i: usize, k: usize) -> u32
        requires here { i < table_size }
        requires near { k ≤ 63 }
        ensures { result ≡ ago (gauge_of self.now i).offs k }
    {
        self.table.off(i, k)
    }

    // The travel time that was noted last.
    pub fn travel(&self, i: usize) -> Option<u32>
        requires { i < table_size }
        ensures { result ≡ (gauge_of self.now i).travel }
    {
        self.table.travel(i)
    }

    // The readings of one link are noted.
    pub fn note(&mut self, i: usize, on: u32, off: u32, travel: Option<u32>)
        requires here { i < table_size }
        ensures { NotedAt self.old i on off travel self.new }
    {
        self.table.note(i, on, off, travel);
    }
}
