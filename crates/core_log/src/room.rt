//! Whether there is room for the records of an event: before the end of all places, and in the buffer.

ghost use Rattle.std.specs.Prelude.{◌≡◌, ◌+◌, ◌^◌, ◌∷◌, [], ℕ, nat_lt, IfOk, None};
ghost use Rattle.record_codec.specs.Drafts.{draft_fault, draft_size};
ghost use Rattle.record_codec.specs.declared.draft.Draft.{Draft as ADraft};
ghost use Rattle.log_model.specs.Numbered.{next_records};
ghost use Rattle.broker_model.specs.State.{State};
ghost use Rattle.core_log.specs.Carries.{RepresentsSome};
ghost use Rattle.core_log.specs.Represents.{Represents};
ghost use Rattle.core_log.specs.Rooms.{room_of, IsRefusal, IsOwnRefusal};

use crate::parts::Parts;
use broker_events::Said;
use log_model::next_place;
use record_codec::Draft;
use reply_fields::Reply;
use std::alloc::{AllocError, Global};

// Where the last record may end.
const PLACE_MAX: u64 = 1 << 62;

/// A record of this size at this place would end past all places.
pub fn is_past_end(place: u64, size: u32) -> bool
    ensures { result ≡ nat_lt (2 ^ 62) (place + size) }
{
    place > PLACE_MAX - u64::from(size)
}

/// The size of the record of a draft that fits into a segment.
pub fn size_of(draft: &Draft, segment: u32) -> u32
    requires { draft_fault segment draft.now ≡ None }
    ensures { result ≡ draft_size draft.now }
{
    match draft.check(segment) {
        Ok(size) => size,
        Err(_) => unreachable!(),
    }
}

/// Whether records find room.
#[derive(Clone, Copy)]
pub enum Room {
    /// They do.
    Free,
    /// One would end past all places.
    Past,
    /// They don't find any in the buffer, whose first record has this number.
    Full(u64),
}

impl Room {
    /// What a request is told that finds no room; `None` where it finds some.
    pub fn refuse(self, alloc: Global) -> Result<Option<Said>, AllocError>
        ensures { IfOk result (IsRefusal self) }
    {
        match self {
            Room::Free => Ok(None),
            Room::Past => Ok(Some(Said::Reply(Reply::plain(alloc, 14, "log end")?))),
            Room::Full(pending) => Ok(Some(Said::Full { pending })),
        }
    }

    /// What is said to a check that finds no room; `None` where it finds some.
    pub fn refuse_own(self) -> Option<Said>
        ensures { IsOwnRefusal self result }
    {
        match self {
            Room::Free => None,
            Room::Past => Some(Said::LogEnd),
            Room::Full(pending) => Some(Said::Full { pending }),
        }
    }
}

impl Parts {
    /// The room for a record of this size.
    pub fn room(&self, size: u32) -> Room
        requires some { RepresentsSome self.now }
        ensures { (s : State) (d : ADraft) (time : ℕ) → Represents self.entry.now s → size ≡ draft_size d
            → result ≡ room_of s (next_records s.setup.segment time s.log (d ∷ [])) }
    {
        if is_past_end(self.pending.next_place(size), size) {
            return Room::Past;
        }
        if self.pending.is_full(u64::from(size)) {
            return Room::Full(self.pending.flushed_count());
        }
        Room::Free
    }

    /// The room for two records of these sizes, one behind the other.
    pub fn room_for_two(&self, first: u32, second: u32) -> Room
        requires some { RepresentsSome self.now }
        ensures { (s : State) (d e : ADraft) (time : ℕ) → Represents self.entry.now s → first ≡ draft_size d → second ≡ draft_size e
            → result ≡ room_of s (next_records s.setup.segment time s.log (d ∷ e ∷ [])) }
    {
        let place = self.pending.next_place(first);
        if is_past_end(place, first) {
            return Room::Past;
        }
        let end = place + u64::from(first);
        if is_past_end(next_place(self.setup.segment, end, second), second) {
            return Room::Past;
        }
        if self.pending.is_full(u64::from(first) + u64::from(second)) {
            return Room::Full(self.pending.flushed_count());
        }
        Room::Free
    }
}
