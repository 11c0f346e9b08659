//! A delayed message is delivered, once its time has come: there is no place for its record, or no room in the buffer, or it is
//! appended.

ghost use Rattle.std.specs.Prelude.{◌≡◌, ◌<◌, ◌≤◌, ◌+◌, ◌^◌, max, length, Some, None, IfOk, OnErr};
ghost use Rattle.record_codec.specs.Entry.{Entry};
ghost use Rattle.record_codec.specs.Drafts.{draft_size};
ghost use Rattle.log_model.specs.Delays.{next_delayed};
ghost use Rattle.log_model.specs.Drafts.{delivery_draft as delivery_draft_of};
ghost use Rattle.log_model.specs.Log.{place_after};
ghost use Rattle.broker_model.specs.State.{State};
ghost use Rattle.broker_model.specs.Events as model;
ghost use Rattle.broker_events.specs.Steps.{Says};
ghost use Rattle.core_log.specs.Carries.{Carries, Stays, RepresentsSome};
ghost use Rattle.core_log.specs.Represents.{Represents};
ghost use Rattle.broker_core.specs.Delivers.{IsDue, IsDelivered, IsTurnOf, Delivers};

use broker_events::Said;
use core_log::{Parts, is_past_end, size_of};
use record_codec::Draft;
use record_copies::delivery_draft;
use std::alloc::{AllocError, Global};

// The delivery of the next message of a level, which has this number there.
fn delivery(parts: &Parts, alloc: Global, level: u8, count: u64) -> Result<Draft, AllocError>
    requires low { 1 ≤ level }
    requires high { level ≤ 18 }
    requires next { (s : State) × (r : Entry) × Represents parts.now s × (next_delayed s.log s.dispatched level ≡ Some r) }
    ensures { (s : State) (r : Entry) → Represents parts.entry.now s → next_delayed s.log s.dispatched level ≡ Some r
        → IfOk result (λ draft. draft ≡ delivery_draft_of s.setup.host level count r) }
{
    match parts.levels.next(level) {
        Some(whole) => delivery_draft(alloc, parts.setup.host, level, count, whole.copied(alloc)?),
        None => Err(AllocError),
    }
}

// Appends the delivery, for which there is room. At `Err` nothing changes.
fn append_delivered(
    parts: &mut Parts,
    alloc: Global,
    now: u64,
    level: u8,
    count: u64,
    draft: &Draft,
    size: u32,
) -> Result<Said, AllocError>
    requires due { (s : State) × (r : Entry) × Represents parts.old s × IsDue s now level count r draft.now }
    requires size { size ≡ draft_size draft.now }
    requires low { place_after parts.old.pending.segment parts.old.pending.end size + size ≤ 2 ^ 62 }
    requires short { length parts.old.pending.bytes + size ≤ 67108864 }
    ensures delivered { IfOk result (λ said. (s : State) (r : Entry) → Represents parts.old s → IsDue s now level count r draft.now
        → IsDelivered s now level count draft.now said parts.new) }
    ensures stays { OnErr result (Stays parts.old parts.new) }
{
    let table = parts.make_ready(alloc, draft)?;
    let place = parts.next_place(table, size, now);
    parts.append_delivery(table, draft, &place, size, level)?;
    Ok(Said::Delivered(Some((level, count))))
}

// Delivers the message that is due, by this draft. At `Err` nothing changes.
fn try_deliver(
    parts: &mut Parts,
    alloc: Global,
    now: u64,
    level: u8,
    count: u64,
    draft: &Draft,
) -> Result<Said, AllocError>
    requires due { (s : State) × (r : Entry) × Represents parts.old s × IsDue s now level count r draft.now }
    ensures delivered { IfOk result (λ said. (s : State) (r : Entry) → Represents parts.old s → IsDue s now level count r draft.now
        → IsDelivered s now level count draft.now said parts.new) }
    ensures stays { OnErr result (Stays parts.old parts.new) }
{
    let size = size_of(draft, parts.setup.segment);
    if is_past_end(parts.pending.next_place(size), size) {
        return Ok(Said::LogEnd);
    }
    if parts.pending.is_full(u64::from(size)) {
        return Ok(Said::Full {
            pending: parts.pending.flushed_count(),
        });
    }
    append_delivered(parts, alloc, now, level, count, draft, size)
}

// Delivers the next message of this level, which is due and has this number there. At `Err` nothing changes.
fn deliver_from(
    parts: &mut Parts,
    alloc: Global,
    now: u64,
    level: u8,
    count: u64,
) -> Result<Said, AllocError>
    requires low { 1 ≤ level }
    requires high { level ≤ 18 }
    requires due { (s : State) × Represents parts.old s × IsTurnOf s now level count }
    ensures delivered { IfOk result (λ said. (s : State) → Represents parts.old s → IsTurnOf s now level count
        → Delivers s now level count said parts.new) }
    ensures stays { OnErr result (Stays parts.old parts.new) }
{
    let draft = delivery(parts, alloc, level, count)?;
    try_deliver(parts, alloc, now, level, count, &draft)
}

/// Delivers the next message of the lowest level that is due at this reading of the clock, if one is. At `Err` nothing
/// changes.
pub(crate) fn deliver(parts: &mut Parts, alloc: Global, now: u64) -> Result<Said, AllocError>
    requires some { RepresentsSome parts.old }
    requires time { now < 2 ^ 62 }
    ensures carries { IfOk result (λ said. Carries parts.old (model.Deliver now) (Says said) parts.new) }
    ensures stays { OnErr result (Stays parts.old parts.new) }
{
    let moment = now.max(parts.now);
    match parts.levels.due(moment) {
        Some((level, count)) => deliver_from(parts, alloc, moment, level, count),
        None => {
            parts.now = moment;
            Ok(Said::Delivered(None))
        }
    }
}
