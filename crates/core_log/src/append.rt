//! An append, in two steps: first all that may take memory but the encoding, and then the record with its unit and its row.

ghost use Rattle.std.specs.Prelude.{◌≡◌, ◌<◌, ◌≤◌, ◌+◌, ◌^◌, ◌∷◌, ◌++◌, [], ℕ, List, length, slice_get, slice_set, Some, IfOk, OnOk, OnErr};
ghost use Rattle.record_codec.specs.Drafts.{draft_size, entry_of, IsEncodable};
ghost use Rattle.record_codec.specs.Layout.{IsRecord};
ghost use Rattle.record_codec.specs.Units.{unit_of};
ghost use Rattle.log_model.specs.Keys.{index_keys};
ghost use Rattle.log_model.specs.Log.{place_after};
ghost use Rattle.log_model.specs.Numbered.{Log, with_appended};
ghost use Rattle.pending_log.specs.Rows.{AreRowsOf};
ghost use Rattle.queue_view.specs.Added.{Added, added_to, AreTablesOf};
ghost use Rattle.queue_view.specs.Tables.{Table, added_of, number_of, with_unit};
ghost use Rattle.half_records.specs.declared.halves.Halves.{Halves};
ghost use Rattle.key_view.specs.Entries.{key_entries};
ghost use Rattle.level_records.specs.declared.levels.Levels.{Levels};
ghost use Rattle.broker_model.specs.State.{State};
ghost use Rattle.broker_model.specs.Step.{with_records};
ghost use Rattle.core_log.specs.Carries.{Stays};
ghost use Rattle.core_log.specs.Represents.{AreKeptFor, Represents};
ghost use Rattle.core_log.specs.Appends.{HasRoomFor, MayStand};

use crate::parts::Parts;
use key_view::RecordKeys;
use pending_log::Row;
use record_codec::{Draft, Place, Unit, tag_code};
use std::alloc::{AllocError, Global};

// The unit of the record of a draft at a place.
fn unit_at(draft: &Draft, place: &Place, size: u32) -> Unit
    requires size { size ≡ draft_size draft.now }
    requires low { place.now.store < 2 ^ 62 }
    ensures { result ≡ unit_of (entry_of draft.now place.now) }
{
    let tags = draft.props.get("TAGS");
    Unit {
        offset: place.offset,
        size,
        tag: tag_code(draft.topic.as_str(), tags, draft.queue, place.store),
    }
}

impl Parts {
    /// Makes room for the record of this draft, its keys included; the number of its queue's table, which is made where there is
    /// none. Nothing else changes, at `Err` either.
    pub fn make_ready(&mut self, alloc: Global, draft: &Draft) -> Result<u32, AllocError>
        ensures number { IfOk result (λ table. number_of self.new.queues draft.now.topic draft.now.queue ≡ Some table) }
        ensures room { IfOk result (λ table. HasRoomFor self.new table draft.now) }
        ensures others { self.new ≡ record self.old { rows = self.new.rows; queues = self.new.queues; keys = self.new.keys } }
        ensures stays { Stays self.old self.new }
    {
        self.keys
            .reserve(alloc, RecordKeys::of_draft(draft).count())?;
        self.rows.reserve(alloc, 1)?;
        self.queues
            .reserve(alloc, draft.topic.as_str(), draft.queue, 1)
    }

    /// Where the next record of a queue with this table stands, which has so many bytes and this store time.
    pub fn next_place(&self, table: u32, size: u32, store: u64) -> Place
        requires { table < length self.now.queues }
        ensures queue_offset { (t : Table) → slice_get self.entry.now.queues table ≡ Some t → result.queue_offset ≡ added_of t }
        ensures offset { result.offset ≡ place_after self.entry.now.pending.segment self.entry.now.pending.end size }
        ensures store { result.store ≡ store }
    {
        Place {
            queue_offset: self.queues.added(table),
            offset: self.pending.next_place(size),
            store,
        }
    }

    // The record of this draft, whose bytes are pending, has its unit, its keys and its row. Takes no memory.
    pub(crate) fn stand(&mut self, table: u32, draft: &Draft, place: &Place, size: u32)
        requires there { table < length self.old.queues }
        requires room { HasRoomFor self.old table draft.now }
        requires few { self.old.rows.first + length self.old.rows.items < 2 ^ 62 }
        requires size { size ≡ draft_size draft.now }
        requires low { place.now.store < 2 ^ 62 }
        ensures table { (t : Table) → slice_get self.old.queues table ≡ Some t → (k : ℕ) × (t.spare ≤ k + 1)
            × (self.new.queues ≡ slice_set self.old.queues table (with_unit t (unit_of (entry_of draft.now place.now)) place.now.store k)) }
        ensures records { (low : List ℕ → ℕ → ℕ) (added : List Added) (n : ℕ) (t : Table) → AreTablesOf low added n self.old.queues
            → n ≤ length added → slice_get self.old.queues table ≡ Some t
            → AreTablesOf low (added ++ added_to t (unit_of (entry_of draft.now place.now)) place.now.store ∷ []) n self.new.queues }
        ensures items { self.new.rows.items
            ≡ self.old.rows.items ++ record { place = place.now.offset; size = draft_size draft.now; table = table } ∷ [] }
        ensures first { self.new.rows.first ≡ self.old.rows.first }
        ensures spare { self.old.rows.spare ≤ self.new.rows.spare + 1 }
        ensures log { (log : Log) → AreRowsOf log self.old.rows
            → AreRowsOf (with_appended log (entry_of draft.now place.now ∷ [])) self.new.rows }
        ensures keys { (log : Log) → self.old.keys.entries ≡ key_entries log.records
            → self.new.keys.entries ≡ key_entries (with_appended log (entry_of draft.now place.now ∷ [])).records }
        ensures key_spare { self.old.keys.spare ≤ self.new.keys.spare + length (index_keys (entry_of draft.now place.now)) }
        ensures rest { self.new ≡ record self.old { queues = self.new.queues; rows = self.new.rows; keys = self.new.keys; now = place.now.store } }
    {
        self.queues
            .add(table, unit_at(draft, place, size), place.store);
        self.keys
            .add_all(RecordKeys::of_draft(draft), place.offset, place.store);
        self.rows.push(Row {
            place: place.offset,
            size,
            table,
        });
        self.now = place.store;
    }

    /// Appends the record of this draft at this place, the next one, of a queue that has this table. The tables of half and delayed
    /// messages are fed by the caller, behind it. At `Err` nothing changes.
    pub(crate) fn append(
        &mut self,
        table: u32,
        draft: &Draft,
        place: &Place,
        size: u32,
    ) -> Result<(), AllocError>
        requires some { (s : State) × Represents self.old s × MayStand s draft.now place.now }
        requires encodable { IsEncodable draft.now place.now }
        requires table { number_of self.old.queues draft.now.topic draft.now.queue ≡ Some table }
        requires room { HasRoomFor self.old table draft.now }
        requires size { size ≡ draft_size draft.now }
        requires short { length self.old.pending.bytes + size ≤ 67108864 }
        ensures appended { OnOk result ((s : State) (halves : Halves) (levels : Levels) → Represents self.old s
            → MayStand s draft.now place.now → (IsRecord (entry_of draft.now place.now)
            → AreKeptFor (with_appended s.log (entry_of draft.now place.now ∷ [])) s.dispatched halves levels)
            → Represents (record self.new { halves = halves; levels = levels })
            (with_records s place.now.store (entry_of draft.now place.now ∷ []))) }
        ensures plain { OnOk result ((s : State) → Represents self.old s → MayStand s draft.now place.now
            → (IsRecord (entry_of draft.now place.now)
            → AreKeptFor (with_appended s.log (entry_of draft.now place.now ∷ [])) s.dispatched self.old.halves self.old.levels)
            → Represents self.new (with_records s place.now.store (entry_of draft.now place.now ∷ []))) }
        ensures halves { self.new.halves ≡ self.old.halves }
        ensures levels { self.new.levels ≡ self.old.levels }
        ensures topics { self.new.topics ≡ self.old.topics }
        ensures same { OnErr result (self.new ≡ self.old) }
    {
        self.pending.append(draft, place)?;
        self.stand(table, draft, place, size);
        Ok(())
    }
}
