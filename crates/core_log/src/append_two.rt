//! Two records of one event: both are appended, or nothing changes.

ghost use Rattle.std.specs.Prelude.{◌≡◌, ◌≢◌, ◌≤◌, ◌+◌, ◌^◌, ◌∷◌, [], length, slice_get, Some, IfOk, OnOk, OnErr};
ghost use Rattle.record_codec.specs.Drafts.{draft_size, entry_of, IsEncodable};
ghost use Rattle.record_codec.specs.Entry.{Entry};
ghost use Rattle.record_codec.specs.Layout.{IsRecord};
ghost use Rattle.log_model.specs.Log.{place_after};
ghost use Rattle.log_model.specs.Numbered.{Log, next_records, with_appended};
ghost use Rattle.queue_view.specs.Tables.{Table, added_of, number_of};
ghost use Rattle.broker_model.specs.State.{State};
ghost use Rattle.broker_model.specs.Step.{with_records};
ghost use Rattle.core_log.specs.Carries.{Stays, RepresentsSome};
ghost use Rattle.core_log.specs.Represents.{Represents};
ghost use Rattle.core_log.specs.Rooms.{room_of};
ghost use Rattle.core_log.specs.declared.room.Room.TheVariants.{Free};
ghost use Rattle.core_log.specs.Settles.{IsSettling};
ghost use Rattle.core_log.specs.Appends.{MayStandBoth, HasRoomForTwo, SettlesAs};
ghost use Rattle.made_records.specs.Made.{IsOpOf};
ghost use Rattle.pending_log.specs.Parts.{appended};
ghost use Rattle.pending_log.specs.Pending.{IsPendingOf};

use crate::parts::Parts;
use key_view::RecordKeys;
use log_model::{OriginState, next_place};
use record_codec::{Draft, Place};
use std::alloc::{AllocError, Global};

/// A record that is to be appended: its draft, where it stands, its size, and the number of its queue's table.
#[derive(Clone, Copy)]
pub(crate) struct Next<'a> {
    pub(crate) draft: &'a Draft,
    pub(crate) place: Place,
    pub(crate) size: u32,
    pub(crate) table: u32,
}

impl Parts {
    /// Makes room for two records more, of the queues of these drafts, and tells where they stand at this time.
    pub(crate) fn make_two_ready<'a>(
        &mut self,
        alloc: Global,
        first: &'a Draft,
        second: &'a Draft,
        sizes: (u32, u32),
        store: u64,
    ) -> Result<(Next<'a>, Next<'a>), AllocError>
        requires some { RepresentsSome self.old }
        requires apart { first.now.topic ≢ second.now.topic }
        requires low { place_after self.old.pending.segment self.old.pending.end sizes.0 + sizes.0 ≤ 2 ^ 62 }
        ensures table { IfOk result (λ both. number_of self.new.queues first.now.topic first.now.queue ≡ Some both.0.table) }
        ensures table_too { IfOk result (λ both. number_of self.new.queues second.now.topic second.now.queue ≡ Some both.1.table) }
        ensures room { IfOk result (λ both. HasRoomForTwo self.new both.0.table both.1.table first.now second.now) }
        ensures drafts { IfOk result (λ both. (both.0.draft.now ≡ first.now) × (both.0.size ≡ sizes.0)
            × (both.1.draft.now ≡ second.now) × (both.1.size ≡ sizes.1)) }
        ensures first_place { IfOk result (λ both.
            ((t : Table) → slice_get self.new.queues both.0.table ≡ Some t → both.0.place.queue_offset ≡ added_of t)
            × (both.0.place.offset ≡ place_after self.new.pending.segment self.new.pending.end sizes.0) × (both.0.place.store ≡ store)) }
        ensures second_place { IfOk result (λ both.
            ((t : Table) → slice_get self.new.queues both.1.table ≡ Some t → both.1.place.queue_offset ≡ added_of t)
            × (both.1.place.offset ≡ place_after self.new.setup.segment (both.0.place.offset + sizes.0) sizes.1)
            × (both.1.place.store ≡ store)) }
        ensures others { self.new ≡ record self.old { rows = self.new.rows; queues = self.new.queues; keys = self.new.keys } }
        ensures stays { Stays self.old self.new }
    {
        let (one, other) = (RecordKeys::of_draft(first), RecordKeys::of_draft(second));
        let Some(keys) = one.count().checked_add(other.count()) else {
            return Err(AllocError);
        };
        self.keys.reserve(alloc, keys)?;
        self.rows.reserve(alloc, 2)?;
        let table = self
            .queues
            .reserve(alloc, first.topic.as_str(), first.queue, 1)?;
        let second_table = self
            .queues
            .reserve(alloc, second.topic.as_str(), second.queue, 1)?;
        let place = self.next_place(table, sizes.0, store);
        let second_place = Place {
            queue_offset: self.queues.added(second_table),
            offset: next_place(
                self.setup.segment,
                place.offset + u64::from(sizes.0),
                sizes.1,
            ),
            store,
        };
        Ok((
            Next {
                draft: first,
                place,
                size: sizes.0,
                table,
            },
            Next {
                draft: second,
                place: second_place,
                size: sizes.1,
                table: second_table,
            },
        ))
    }

    // Encodes both records. At `Err` nothing changes.
    fn encode_two(&mut self, first: &Next<'_>, second: &Next<'_>) -> Result<(), AllocError>
        requires first { IsEncodable first.now.draft.now first.now.place }
        requires second { IsEncodable second.now.draft.now second.now.place }
        requires next { first.now.place.offset
            ≡ place_after self.old.pending.segment self.old.pending.end (draft_size first.now.draft.now) }
        requires behind { second.now.place.offset ≡ place_after self.old.pending.segment
            (first.now.place.offset + draft_size first.now.draft.now) (draft_size second.now.draft.now) }
        requires low { first.now.place.offset + draft_size first.now.draft.now ≤ 2 ^ 62 }
        requires low_too { second.now.place.offset + draft_size second.now.draft.now ≤ 2 ^ 62 }
        requires room { length self.old.pending.bytes + draft_size first.now.draft.now + draft_size second.now.draft.now ≤ 67108864 }
        ensures both { OnOk result (self.new ≡ record self.old {
          pending = appended (appended self.old.pending
              (entry_of first.now.draft.now first.now.place)) (entry_of second.now.draft.now second.now.place);
        }) }
        ensures log { OnOk result ((log : Log) → IsPendingOf log self.old.pending → IsPendingOf (with_appended (with_appended log
            (entry_of first.now.draft.now first.now.place ∷ [])) (entry_of second.now.draft.now second.now.place ∷ [])) self.new.pending) }
        ensures log_first { OnOk result ((log : Log) → IsPendingOf log self.old.pending
            → IsPendingOf (with_appended log (entry_of first.now.draft.now first.now.place ∷ []))
            (appended self.old.pending (entry_of first.now.draft.now first.now.place))) }
        ensures first { OnOk result (IsRecord (entry_of first.now.draft.now first.now.place)) }
        ensures second { OnOk result (IsRecord (entry_of second.now.draft.now second.now.place)) }
        ensures same { OnErr result (self.new ≡ self.old) }
    {
        let before = self.pending.mark();
        self.pending.append(first.draft, &first.place)?;
        if let Err(fault) = self.pending.append(second.draft, &second.place) {
            self.pending.undo(before);
            return Err(fault);
        }
        Ok(())
    }

    /// Appends a copy of a half message of this origin, committed or discarded, and its op record. At `Err` nothing changes.
    pub(crate) fn append_copy_and_op(
        &mut self,
        alloc: Global,
        copy: &Next<'_>,
        op: &Next<'_>,
        origin: u64,
        how: OriginState,
    ) -> Result<(), AllocError>
        requires some { (s : State) × Represents self.old s
            × MayStandBoth s copy.now.draft.now copy.now.place op.now.draft.now op.now.place }
        requires encodable { IsEncodable copy.now.draft.now copy.now.place }
        requires encodable_too { IsEncodable op.now.draft.now op.now.place }
        requires table { number_of self.old.queues copy.now.draft.now.topic copy.now.draft.now.queue ≡ Some copy.now.table }
        requires table_too { number_of self.old.queues op.now.draft.now.topic op.now.draft.now.queue ≡ Some op.now.table }
        requires room { HasRoomForTwo self.old copy.now.table op.now.table copy.now.draft.now op.now.draft.now }
        requires size { copy.now.size ≡ draft_size copy.now.draft.now }
        requires size_too { op.now.size ≡ draft_size op.now.draft.now }
        requires short { length self.old.pending.bytes + draft_size copy.now.draft.now + draft_size op.now.draft.now ≤ 67108864 }
        requires copy { SettlesAs self.old.halves.view origin how (entry_of copy.now.draft.now copy.now.place) }
        requires op { IsOpOf origin (entry_of op.now.draft.now op.now.place) }
        ensures appended { OnOk result ((s : State) → Represents self.old s
            → MayStandBoth s copy.now.draft.now copy.now.place op.now.draft.now op.now.place
            → Represents self.new (with_records s copy.now.place.store
            (entry_of copy.now.draft.now copy.now.place ∷ entry_of op.now.draft.now op.now.place ∷ []))) }
        ensures same { OnErr result (self.new ≡ self.old) }
    {
        let number = self.rows.end();
        self.encode_two(copy, op)?;
        self.stand(copy.table, copy.draft, &copy.place, copy.size);
        self.stand(op.table, op.draft, &op.place, op.size);
        self.halves.settle(alloc, Some(origin), how, number);
        self.halves
            .settle(alloc, Some(origin), OriginState::RolledBack, number + 1);
        Ok(())
    }

    /// Appends a copy of a half message, committed or discarded, and the op record of its origin, at this time. There is room for
    /// them, whose sizes these are. At `Err` nothing changes that counts.
    pub fn append_both(
        &mut self,
        alloc: Global,
        now: u64,
        origin: u64,
        how: OriginState,
        copy: &Draft,
        op: &Draft,
        sizes: (u32, u32),
    ) -> Result<(), AllocError>
        requires some { (s : State) × (half : Entry) × Represents self.old s × IsSettling s now origin how half copy.now op.now }
        requires sizes { (sizes.0 ≡ draft_size copy.now) × (sizes.1 ≡ draft_size op.now) }
        requires room { (s : State) → Represents self.old s
            → room_of s (next_records s.setup.segment now s.log (copy.now ∷ op.now ∷ [])) ≡ Free }
        ensures appended { OnOk result ((s : State) (half : Entry) → Represents self.old s
            → IsSettling s now origin how half copy.now op.now
            → Represents self.new (with_records s now (next_records s.setup.segment now s.log (copy.now ∷ op.now ∷ [])))) }
        ensures stays { OnErr result (Stays self.old self.new) }
    {
        let (copy, op) = self.make_two_ready(alloc, copy, op, sizes, now)?;
        self.append_copy_and_op(alloc, &copy, &op, origin, how)
    }
}
