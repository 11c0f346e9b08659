//! The appends of one record that is more than a plain one: half and delayed messages, deliveries, and op records.

ghost use Rattle.std.specs.Prelude.{◌≡◌, ◌≤◌, ◌+◌, ◌-◌, ◌∷◌, [], length, Some, None, OnOk, OnErr};
ghost use Rattle.record_codec.specs.Drafts.{draft_size, entry_of, IsEncodable};
ghost use Rattle.made_records.specs.Made.{IsHalfOf, IsOpOf};
ghost use Rattle.queue_view.specs.Tables.{number_of};
ghost use Rattle.broker_model.specs.State.{State};
ghost use Rattle.broker_model.specs.Step.{with_records};
ghost use Rattle.core_log.specs.Carries.{Stays};
ghost use Rattle.core_log.specs.Represents.{Represents};
ghost use Rattle.core_log.specs.Appends.{HasRoomFor, MayStand, HasFewDelivered, IsMessage};
ghost use Rattle.core_log.specs.Stands.{IsKeptAs};
ghost use Rattle.core_log.specs.declared.kind.Kind.TheVariants.{Delayed};
ghost use Rattle.delay_view.specs.OfLog.{IsCopyOf, IsMessageOf};
ghost use Rattle.half_records.specs.OfLog.{IsKeptOf};
ghost use Rattle.half_records.specs.Tables.{HasRoomFor as HasRoomForHalf};
ghost use Rattle.level_records.specs.OfLog.{HasRoomFor as HasRoomForMessage};

use crate::kind::Kind;
use crate::parts::Parts;
use half_records::KeptHalf;
use log_model::OriginState;
use record_codec::{Draft, Place};
use record_copies::Whole;
use std::alloc::{AllocError, Global};

impl Parts {
    // Appends a delayed message of this level, which is kept whole. At `Err` nothing changes.
    fn append_whole(
        &mut self,
        table: u32,
        draft: &Draft,
        place: &Place,
        size: u32,
        level: u8,
        whole: Whole,
    ) -> Result<(), AllocError>
        requires some { (s : State) × Represents self.old s × MayStand s draft.now place.now }
        requires encodable { IsEncodable draft.now place.now }
        requires table { number_of self.old.queues draft.now.topic draft.now.queue ≡ Some table }
        requires room { HasRoomFor self.old table draft.now }
        requires size { size ≡ draft_size draft.now }
        requires short { length self.old.pending.bytes + size ≤ 67108864 }
        requires first { 1 ≤ level }
        requires last { level ≤ 18 }
        requires message { IsMessage (entry_of draft.now place.now) }
        requires delayed { IsMessageOf level (entry_of draft.now place.now) }
        requires whole { whole ≡ entry_of draft.now place.now }
        requires line { HasRoomForMessage self.old.levels (level - 1) }
        ensures appended { OnOk result ((s : State) → Represents self.old s → MayStand s draft.now place.now
            → Represents self.new (with_records s place.now.store (entry_of draft.now place.now ∷ []))) }
        ensures topics { self.new.topics ≡ self.old.topics }
        ensures same { OnErr result (self.new ≡ self.old) }
    {
        self.append(table, draft, place, size)?;
        self.levels
            .add(level, place.queue_offset, place.store, whole);
        Ok(())
    }

    // Appends a delayed message of this level. At `Err` nothing changes that counts.
    fn append_delayed(
        &mut self,
        alloc: Global,
        table: u32,
        draft: &Draft,
        place: &Place,
        size: u32,
        level: u8,
    ) -> Result<(), AllocError>
        requires some { (s : State) × Represents self.old s × MayStand s draft.now place.now }
        requires encodable { IsEncodable draft.now place.now }
        requires table { number_of self.old.queues draft.now.topic draft.now.queue ≡ Some table }
        requires room { HasRoomFor self.old table draft.now }
        requires size { size ≡ draft_size draft.now }
        requires short { length self.old.pending.bytes + size ≤ 67108864 }
        requires message { IsKeptAs (Delayed level) (entry_of draft.now place.now) }
        ensures appended { OnOk result ((s : State) → Represents self.old s → MayStand s draft.now place.now
            → Represents self.new (with_records s place.now.store (entry_of draft.now place.now ∷ []))) }
        ensures topics { self.new.topics ≡ self.old.topics }
        ensures stays { OnErr result (Stays self.old self.new) }
    {
        let whole = Whole::of(alloc, draft, place, size)?;
        self.levels.reserve(alloc, level)?;
        self.append_whole(table, draft, place, size, level, whole)
    }

    /// Appends a half message that names this origin or none, and of which this is kept. At `Err` nothing changes.
    pub fn append_half(
        &mut self,
        table: u32,
        draft: &Draft,
        place: &Place,
        size: u32,
        named: Option<u64>,
        kept: KeptHalf,
        whole: Whole,
    ) -> Result<(), AllocError>
        requires some { (s : State) × Represents self.old s × MayStand s draft.now place.now }
        requires encodable { IsEncodable draft.now place.now }
        requires table { number_of self.old.queues draft.now.topic draft.now.queue ≡ Some table }
        requires room { HasRoomFor self.old table draft.now }
        requires size { size ≡ draft_size draft.now }
        requires short { length self.old.pending.bytes + size ≤ 67108864 }
        requires half { IsHalfOf named (entry_of draft.now place.now) }
        requires kept { IsKeptOf self.old.halves.groups draft.now.props [] kept }
        requires whole { whole ≡ entry_of draft.now place.now }
        requires ready { HasRoomForHalf self.old.halves named kept }
        ensures appended { OnOk result ((s : State) → Represents self.old s → MayStand s draft.now place.now
            → Represents self.new (with_records s place.now.store (entry_of draft.now place.now ∷ []))) }
        ensures topics { self.new.topics ≡ self.old.topics }
        ensures same { OnErr result (self.new ≡ self.old) }
    {
        self.append(table, draft, place, size)?;
        self.halves
            .add(named, place.offset, place.store, kept, whole);
        Ok(())
    }

    // Appends a half message that is no renewal. At `Err` nothing changes that counts.
    fn append_origin(
        &mut self,
        alloc: Global,
        table: u32,
        draft: &Draft,
        place: &Place,
        size: u32,
    ) -> Result<(), AllocError>
        requires some { (s : State) × Represents self.old s × MayStand s draft.now place.now }
        requires encodable { IsEncodable draft.now place.now }
        requires table { number_of self.old.queues draft.now.topic draft.now.queue ≡ Some table }
        requires room { HasRoomFor self.old table draft.now }
        requires size { size ≡ draft_size draft.now }
        requires short { length self.old.pending.bytes + size ≤ 67108864 }
        requires half { IsHalfOf None (entry_of draft.now place.now) }
        ensures appended { OnOk result ((s : State) → Represents self.old s → MayStand s draft.now place.now
            → Represents self.new (with_records s place.now.store (entry_of draft.now place.now ∷ []))) }
        ensures topics { self.new.topics ≡ self.old.topics }
        ensures stays { OnErr result (Stays self.old self.new) }
    {
        let whole = Whole::of(alloc, draft, place, size)?;
        let kept = self.halves.make_ready(alloc, None, &draft.props)?;
        self.append_half(table, draft, place, size, None, kept, whole)
    }

    /// Appends the op record of this origin, which settles it. At `Err` nothing changes.
    pub fn append_op(
        &mut self,
        alloc: Global,
        table: u32,
        draft: &Draft,
        place: &Place,
        size: u32,
        origin: u64,
    ) -> Result<(), AllocError>
        requires some { (s : State) × Represents self.old s × MayStand s draft.now place.now }
        requires encodable { IsEncodable draft.now place.now }
        requires table { number_of self.old.queues draft.now.topic draft.now.queue ≡ Some table }
        requires room { HasRoomFor self.old table draft.now }
        requires size { size ≡ draft_size draft.now }
        requires short { length self.old.pending.bytes + size ≤ 67108864 }
        requires op { IsOpOf origin (entry_of draft.now place.now) }
        ensures appended { OnOk result ((s : State) → Represents self.old s → MayStand s draft.now place.now
            → Represents self.new (with_records s place.now.store (entry_of draft.now place.now ∷ []))) }
        ensures same { OnErr result (self.new ≡ self.old) }
    {
        let number = self.rows.end();
        self.append(table, draft, place, size)?;
        self.halves
            .settle(alloc, Some(origin), OriginState::RolledBack, number);
        Ok(())
    }

    /// Appends a message that is kept like this. At `Err` nothing changes that counts.
    pub fn append_message(
        &mut self,
        alloc: Global,
        table: u32,
        draft: &Draft,
        place: &Place,
        size: u32,
        kind: Kind,
    ) -> Result<(), AllocError>
        requires some { (s : State) × Represents self.old s × MayStand s draft.now place.now }
        requires encodable { IsEncodable draft.now place.now }
        requires table { number_of self.old.queues draft.now.topic draft.now.queue ≡ Some table }
        requires room { HasRoomFor self.old table draft.now }
        requires size { size ≡ draft_size draft.now }
        requires short { length self.old.pending.bytes + size ≤ 67108864 }
        requires kept { IsKeptAs kind (entry_of draft.now place.now) }
        ensures appended { OnOk result ((s : State) → Represents self.old s → MayStand s draft.now place.now
            → Represents self.new (with_records s place.now.store (entry_of draft.now place.now ∷ []))) }
        ensures topics { self.new.topics ≡ self.old.topics }
        ensures stays { OnErr result (Stays self.old self.new) }
    {
        match kind {
            Kind::Plain => self.append(table, draft, place, size),
            Kind::Delayed(level) => self.append_delayed(alloc, table, draft, place, size, level),
            Kind::Half => self.append_origin(alloc, table, draft, place, size),
        }
    }

    /// Appends the delivery of the next message of this level. At `Err` nothing changes.
    pub fn append_delivery(
        &mut self,
        table: u32,
        draft: &Draft,
        place: &Place,
        size: u32,
        level: u8,
    ) -> Result<(), AllocError>
        requires some { (s : State) × Represents self.old s × MayStand s draft.now place.now }
        requires encodable { IsEncodable draft.now place.now }
        requires table { number_of self.old.queues draft.now.topic draft.now.queue ≡ Some table }
        requires room { HasRoomFor self.old table draft.now }
        requires size { size ≡ draft_size draft.now }
        requires short { length self.old.pending.bytes + size ≤ 67108864 }
        requires first { 1 ≤ level }
        requires last { level ≤ 18 }
        requires message { IsMessage (entry_of draft.now place.now) }
        requires copy { IsCopyOf level (entry_of draft.now place.now) }
        requires few { HasFewDelivered self.old.levels level }
        ensures appended { OnOk result ((s : State) → Represents self.old s → MayStand s draft.now place.now
            → Represents self.new (with_records s place.now.store (entry_of draft.now place.now ∷ []))) }
        ensures same { OnErr result (self.new ≡ self.old) }
    {
        self.append(table, draft, place, size)?;
        self.levels.delivered(level);
        Ok(())
    }
}
