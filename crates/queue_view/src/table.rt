//! The table of one queue: the units that stand, each with its store time, and how many of them consumers see. A unit is
//! added when its record is appended, and seen when the record is dispatched.

ghost use Rattle.std.specs.Prelude.{◌≡◌, ◌↔◌, ◌<◌, ◌≤◌, ◌+◌, ◌^◌, length, take, slice_get, Some, IfOk, OnOk, IsTrue};
ghost use Rattle.std.specs.List.Sorted.{IsNonDecreasingBy};
ghost use Rattle.queue_view.specs.Tables.{max_of, added_of, empty_table, with_room, with_unit, with_next_seen, cut_at};
ghost use Rattle.queue_view.specs.Searches.{first_from, store_in};
ghost use Rattle.queue_view.specs.Answers.{Answers, pulled_of, pulled_within};

use crate::bounds::{Start, asked, start_of};
use crate::examine::examine;
use crate::pulled::{NOT_YET, OUTSIDE, Pulled, code_of};
use crate::stored::StoredUnit;
use crate::tags::Tags;
use chunks::Chunks;
use mq_bytes::PLACE_END;
use record_codec::Unit;
use std::alloc::{AllocError, Global};
use std::marker::Model;

/// The units of a queue.
#[derive(Drop)]
pub struct QueueTable {
    topic: String,
    queue: u32,
    // How many units were removed: the offset of the first one.
    low: u64,
    units: Chunks<StoredUnit>,
    // How many of the units consumers see.
    seen: usize,
}

impl Model for QueueTable {
    ghost use Rattle.queue_view.specs.Tables.{Table};

    ghost Value = { Table };

    ghost use Rattle.queue_view.specs.Rooms.{table_of, IsTable};

    ghost view = { λ t. table_of t.topic t.queue t.low t.units t.seen };

    ghost invariant = { λ t. IsTable t.low t.units.items t.seen };
}

impl QueueTable {
    // No units, the first of which will have the offset `low`.
    pub(crate) fn new(
        alloc: Global,
        topic: &str,
        queue: u32,
        low: u64,
    ) -> Result<QueueTable, AllocError>
        requires { low ≤ 2 ^ 62 }
        ensures { IfOk result (λ t. t ≡ empty_table topic.now queue low t.spare) }
    {
        Ok(QueueTable {
            topic: String::from_str(alloc, topic)?,
            queue,
            low,
            units: Chunks::new(alloc),
            seen: 0,
        })
    }

    // Makes room for so many units more.
    pub(crate) fn reserve(&mut self, alloc: Global, additional: usize) -> Result<(), AllocError>
        requires { additional ≤ 1024 }
        ensures same { self.new ≡ with_room self.old self.new.spare }
        ensures spare { OnOk result (additional ≤ self.new.spare) }
        ensures kept { self.old.spare ≤ self.new.spare }
    {
        // No log has as many records.
        if self.added() >= PLACE_END {
            return Err(AllocError);
        }
        self.units.reserve(alloc, additional)
    }

    // Adds a unit, for which there is room. Consumers don't see it yet.
    pub(crate) fn add(&mut self, unit: Unit, store: u64)
        requires { 0 < self.old.spare }
        ensures added { self.new ≡ with_unit self.old unit store self.new.spare }
        ensures spare { self.old.spare ≤ self.new.spare + 1 }
    {
        self.units.push(StoredUnit { unit, store });
    }

    // Consumers see one unit more.
    pub(crate) fn see(&mut self)
        requires { self.old.seen < length self.old.units }
        ensures { self.new ≡ with_next_seen self.old }
    {
        self.seen += 1;
    }

    // The topic.
    pub(crate) fn topic(&self) -> &str
        ensures { result.now ≡ self.now.topic }
    {
        self.topic.as_str()
    }

    // The number of the queue.
    pub(crate) fn queue(&self) -> u32
        ensures { result ≡ self.now.queue }
    {
        self.queue
    }

    // The offset of the first unit.
    pub(crate) fn min(&self) -> u64
        ensures { result ≡ self.now.low }
    {
        self.low
    }

    // The offset after the last unit that consumers see.
    pub(crate) fn max(&self) -> u64
        ensures { result ≡ max_of self.now }
    {
        self.low + self.seen as u64
    }

    // The offset after the last unit.
    pub(crate) fn added(&self) -> u64
        ensures { result ≡ added_of self.now }
    {
        self.low + self.units.len() as u64
    }

    // Whether the unit at this index is this one, of a record that was stored at this time.
    pub(crate) fn is_at(&self, index: usize, unit: Unit, store: u64) -> bool
        ensures { IsTrue result ↔ (slice_get self.now.units index ≡ Some (record { unit = unit; store = store })) }
    {
        if index >= self.units.len() {
            return false;
        }
        let stored = self.units.at(index);
        stored.unit == unit && stored.store == store
    }

    // Removes the units below this offset.
    pub(crate) fn cut(&mut self, min: u64)
        requires low { self.old.low ≤ min }
        requires high { min ≤ max_of self.old }
        ensures { self.new ≡ cut_at self.old min }
    {
        let count = (min - self.low) as usize;
        self.units.cut(count);
        self.seen -= count;
        self.low = min;
    }

    // The offset of the first unit, of those that consumers see, that was stored at this time or later; else the maximum.
    pub(crate) fn search(&self, time: i64) -> u64
        requires { IsNonDecreasingBy store_in (take self.now.seen self.now.units) }
        ensures { result ≡ first_from time self.now }
    {
        let time = if time < 0 { 0 } else { time as u64 };
        self.low + self.units.search(self.seen, time) as u64
    }

    // What consumers are told who pull from this offset on.
    pub(crate) fn pull(
        &self,
        alloc: Global,
        from: i64,
        most: i32,
        tags: &Tags,
    ) -> Result<Pulled, AllocError>
        ensures { IfOk result (λ a. Answers (pulled_of self.now from most tags.now) a) }
    {
        let (min, max) = (self.low, self.max());
        match start_of(from, min, max) {
            Start::Within(offset) => self.pull_within(alloc, offset, asked(most), tags),
            Start::AtEnd(next) => Ok(Pulled {
                code: NOT_YET,
                next,
                min,
                max,
                units: Vec::new(alloc),
            }),
            Start::Outside(next) => Ok(Pulled {
                code: OUTSIDE,
                next,
                min,
                max,
                units: Vec::new(alloc),
            }),
        }
    }

    // The same, from an offset of a unit that they see.
    fn pull_within(
        &self,
        alloc: Global,
        from: u64,
        most: usize,
        tags: &Tags,
    ) -> Result<Pulled, AllocError>
        requires low { self.now.low ≤ from }
        requires high { from ≤ max_of self.now }
        ensures { IfOk result (λ a. Answers (pulled_within self.now from most tags.now) a) }
    {
        let start = (from - self.low) as usize;
        let examined = examine(alloc, &self.units, start, self.seen, most, tags)?;
        Ok(Pulled {
            code: code_of(examined.units.len()),
            next: from + examined.count as u64,
            min: self.low,
            max: self.max(),
            units: examined.units,
        })
    }
}
