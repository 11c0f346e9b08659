//! What is kept of a log, so that the next record can be placed, or told from one that doesn't follow: its end, how many
//! records it has, the last store time, and how many records each queue has. The records themselves stand on the disk alone.

ghost use Rattle.std.specs.Prelude.{◌≡◌, ◌↔◌, ◌+◌, ◌≤◌, ◌<◌, ◌^◌, IsTrue, List, ℕ};
ghost use Rattle.log_model.specs.Log.{IsSegmentSize};
ghost use Rattle.log_recovery.specs.Counts.{count_in};
ghost use Rattle.log_recovery.specs.Matches.{Matches};

use crate::counts::{QueueCounts, count_of, counts_of, set_count};
use log_model::{Base, is_admissible, names_earlier, next_place};
use record_codec::{BLANK_FRONT, Place, View};
use std::alloc::{AllocError, Global};
use std::collections::BTreeMap;

/// The greatest place where a record may end.
const LOG_MAX: u64 = 1 << 62;

/// The end of a log.
#[derive(Drop)]
pub struct LogTail {
    /// How many bytes a segment has.
    pub(crate) segment: u32,
    /// Where the last record ends.
    pub(crate) end: u64,
    /// How many records there are.
    pub(crate) records: u64,
    /// The store time of the last record, 0 where there is none. Milliseconds.
    pub(crate) stored: u64,
    /// How many records each queue has.
    pub(crate) counts: BTreeMap<String, QueueCounts>,
    // Where the counts of records that are added are kept.
    pub(crate) alloc: Global,
    pub(crate) ghost size: { (4096 ≤ segment) × (segment ≤ 2 ^ 30) },
    pub(crate) ghost low: { end ≤ 2 ^ 62 },
    pub(crate) ghost some: { records ≤ end },
    pub(crate) ghost time: { stored < 2 ^ 62 },
    pub(crate) ghost counted: { (topic : List ℕ) (queue : ℕ) → count_in counts topic queue ≤ records },
}

// The numbers of this record are those that records up to `end` leave for it.
fn is_match(segment: u32, end: u64, stored: u64, count: u64, halves: u64, view: &View<'_>) -> bool
    requires size { IsSegmentSize segment }
    requires low { end ≤ 2 ^ 62 }
    ensures { IsTrue result ↔ Matches segment end stored count halves view.now }
{
    let size = view.size();
    view.offset() == next_place(segment, end, size)
        && u64::from(size) + BLANK_FRONT <= u64::from(segment)
        && view.offset() + u64::from(size) <= LOG_MAX
        && view.queue_offset() == count
        && stored <= view.store()
        && is_admissible(segment, view)
        && names_earlier(view, halves)
}

impl LogTail {
    ghost use Rattle.std.specs.Prelude.{◌≡◌, ◌↔◌, ◌+◌, ◌<◌, ◌≤◌, ◌^◌, ◌++◌, IsTrue, max, List, ℕ, [], ◌∷◌, IfSome, IfOk, OnOk, OnErr};
    ghost use Rattle.std.specs.Option.{SomeIff};
    ghost use Rattle.record_codec.specs.Entry.{Entry};
    ghost use Rattle.record_codec.specs.Layout.{IsRecord};
    ghost use Rattle.log_model.specs.Bases.{Base as Removed, Geometry, geometry, no_base};
    ghost use Rattle.log_model.specs.Log.{Follows, IsSegmentSize, IsGeometry};
    ghost use Rattle.log_model.specs.Told.{base_of};
    ghost use Rattle.log_recovery.specs.Tails.{StandsFor, IsPlacedAt, ComesBehind};
    ghost use Rattle.log_recovery.specs.Places.{place_behind, HasRoom};

    /// The end of the empty log, in segments of so many bytes.
    pub fn new(alloc: Global, segment: u32) -> LogTail
        requires { IsSegmentSize segment }
        ensures segment { result.segment ≡ segment }
        ensures empty { StandsFor no_base result [] }
    {
        LogTail {
            segment,
            end: 0,
            records: 0,
            stored: 0,
            counts: BTreeMap::new(alloc),
            alloc,
        }
    }

    /// The end of a log without records that begins at this base.
    pub fn begin(alloc: Global, segment: u32, base: &Base) -> Result<LogTail, AllocError>
        requires { IsGeometry (geometry segment (base_of base.now)) }
        ensures segment { IfOk result (λ tail. tail.segment ≡ segment) }
        ensures empty { IfOk result (λ tail. StandsFor (base_of base.now) tail []) }
    {
        Ok(LogTail {
            segment,
            end: base.place,
            records: base.records,
            stored: 0,
            counts: counts_of(alloc, &base.queues)?,
            alloc,
        })
    }

    /// How many bytes a segment has.
    pub fn segment(&self) -> u32
        ensures value { result ≡ self.now.segment }
        ensures size { IsSegmentSize result }
    {
        self.segment
    }

    /// Where the last record ends; the base's place where there is none.
    pub fn end(&self) -> u64
        ensures value { result ≡ self.now.end }
        ensures low { result ≤ 2 ^ 62 }
    {
        self.end
    }

    /// How many records the log has, those before its base counted.
    pub fn records(&self) -> u64
        ensures { result ≡ self.now.records }
    {
        self.records
    }

    /// The same tail, for a log that goes on in segments of so many bytes: what it stands for doesn't depend on them.
    pub fn in_segments(mut self, segment: u32) -> LogTail
        requires { IsSegmentSize segment }
        ensures segment { result.segment ≡ segment }
        ensures end { result.end ≡ self.end }
        ensures stands { (base : Removed) (log : List Entry) → StandsFor base self log → StandsFor base result log }
    {
        self.segment = segment;
        self
    }

    /// The place of the next record, of `size` bytes. None where it would end past the greatest place that a log has.
    pub fn place(&self, topic: &str, queue: u32, size: u32, reading: u64) -> Option<Place>
        ensures place { (base : Removed) (log : List Entry) → StandsFor base self.now log
            → SomeIff result (HasRoom (geometry self.now.segment base) log size)
            (place_behind (geometry self.now.segment base) log topic.now queue size reading) }
        ensures behind { IfSome result (λ place. (self.now.end ≤ place.offset) × (place.offset ≤ self.now.end + self.now.segment)) }
        ensures low { IfSome result (λ place. place.offset + size ≤ 2 ^ 62) }
        ensures counted { IfSome result (λ place. place.queue_offset ≤ self.now.records) }
        ensures time { IfSome result (λ place. place.store ≡ max reading self.now.stored) }
    {
        let offset = next_place(self.segment, self.end, size);
        if offset + u64::from(size) > LOG_MAX {
            return None;
        }
        Some(Place {
            queue_offset: count_of(&self.counts, topic, queue),
            offset,
            store: reading.max(self.stored),
        })
    }

    /// Moves the end behind a record of `size` bytes at this place. At `Err` the tail stands for what it stood for.
    pub fn advance(
        &mut self,
        alloc: Global,
        topic: &str,
        queue: u32,
        place: &Place,
        size: u32,
    ) -> Result<(), AllocError>
        requires behind { self.old.end ≤ place.now.offset }
        requires some { 0 < size }
        requires low { place.now.offset + size ≤ 2 ^ 62 }
        requires time { place.now.store < 2 ^ 62 }
        requires counted { place.now.queue_offset ≤ self.old.records }
        ensures segment { self.new.segment ≡ self.old.segment }
        ensures end { OnOk result (self.new.end ≡ place.now.offset + size) }
        ensures stays { OnErr result (self.new.end ≡ self.old.end) }
        ensures moved { (base : Removed) (log : List Entry) (r : Entry) → StandsFor base self.old log
            → ComesBehind base log topic.now queue place.now → IsPlacedAt topic.now queue place.now size r
            → OnOk result (StandsFor base self.new (log ++ r ∷ [])) }
        ensures still { (base : Removed) (log : List Entry) → StandsFor base self.old log → OnErr result (StandsFor base self.new log) }
    {
        set_count(
            alloc,
            &mut self.counts,
            topic,
            queue,
            place.queue_offset + 1,
        )?;
        self.end = place.offset + u64::from(size);
        self.records += 1;
        self.stored = place.store;
        Ok(())
    }

    /// Whether this record may stand behind the log.
    pub fn is_next(&self, view: &View<'_>) -> bool
        requires { IsRecord view.now }
        ensures { (base : Removed) (log : List Entry) → StandsFor base self.now log
            → (IsTrue result ↔ Follows (geometry self.now.segment base) log view.now) }
    {
        let count = count_of(&self.counts, view.topic(), view.queue());
        let halves = count_of(&self.counts, "RMQ_SYS_TRANS_HALF_TOPIC", 0);
        is_match(self.segment, self.end, self.stored, count, halves, view)
    }

    /// Takes a record that follows the log, in segments of any size. At `Err` the tail stands for what it stood for.
    pub fn add(&mut self, view: &View<'_>) -> Result<(), AllocError>
        ensures segment { self.new.segment ≡ self.old.segment }
        ensures taken { (S : Geometry) (log : List Entry) → StandsFor S.base self.old log → Follows S log view.now
            → OnOk result (StandsFor S.base self.new (log ++ view.now ∷ [])) }
        ensures still { (base : Removed) (log : List Entry) → StandsFor base self.old log → OnErr result (StandsFor base self.new log) }
    {
        let place = Place {
            queue_offset: view.queue_offset(),
            offset: view.offset(),
            store: view.store(),
        };
        let size = view.size();

        // Each record that follows is behind the end, in a log that isn't too long.
        if place.offset < self.end
            || place.offset + u64::from(size) > LOG_MAX
            || place.queue_offset > self.records
        {
            return Ok(());
        }
        self.advance(self.alloc, view.topic(), view.queue(), &place, size)?;
        Ok(())
    }
}
