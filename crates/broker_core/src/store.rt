//! A message is stored: all that may take memory is done before anything changes.

ghost use Rattle.std.specs.Prelude.{◌≡◌, ◌<◌, ◌≤◌, ◌+◌, ◌^◌, ◌∷◌, [], length, max, pos, Some, IfOk, OnOk, OnErr, unwrap_or};
ghost use Rattle.record_codec.specs.Drafts.{draft_size, entry_of, IsEncodable};
ghost use Rattle.reply_fields.specs.Sent.{sent_fields};
ghost use Rattle.log_model.specs.Log.{place_after};
ghost use Rattle.queue_view.specs.Tables.{number_of};
ghost use Rattle.broker_model.specs.State.{State};
ghost use Rattle.broker_model.specs.Events as model;
ghost use Rattle.broker_model.specs.Step.{with_made, with_records};
ghost use Rattle.broker_model.specs.Answers.{append_answer};
ghost use Rattle.broker_events.specs.Replies.{IsReplyOf};
ghost use Rattle.broker_events.specs.Steps.{Says};
ghost use Rattle.core_log.specs.Carries.{Stays, RepresentsSome};
ghost use Rattle.core_log.specs.Represents.{Represents};
ghost use Rattle.core_log.specs.Appends.{HasRoomFor, MayStand};
ghost use Rattle.core_log.specs.Stands.{IsKeptAs, IsStorable};
ghost use Rattle.broker_core.specs.Stores.{IsStored, IsTarget};

use broker_events::Said;
use core_log::{Kind, Parts};
use made_records::waits;
use record_codec::{Draft, Place};
use reply_fields::{Reply, Sent};
use std::alloc::{AllocError, Global};

/// Where a message belongs, and how it is kept.
#[derive(Clone, Copy)]
pub(crate) struct Target<'a> {
    /// The topic that it is for, of clients, with its number of queues where it is known.
    pub(crate) topic: &'a str,
    pub(crate) known: Option<u32>,
    /// With how many queues the topic is made where it isn't known: 1 to 8.
    pub(crate) made: u32,
    /// The queue that it is for.
    pub(crate) queue: u32,
    pub(crate) kind: Kind,
}

// The reply to a send whose record stands there.
fn sent(alloc: Global, host: [u8; 8], place: Place, queue: u32) -> Reply
    ensures { result ≡ record { code = pos 0; remark = []; ext = sent_fields host place.offset queue place.queue_offset; body = [] } }
{
    let sent = Sent {
        host,
        place: place.offset,
        queue,
        queue_offset: place.queue_offset,
    };
    Reply::sent(alloc, sent)
}

/// The answer to a request that appends so many records: at once, or once the last of them is on the disk.
pub(crate) fn answer(parts: &Parts, waits: bool, reply: Reply, added: u64) -> Said
    requires some { RepresentsSome parts.now }
    requires added { 1 ≤ added }
    requires few { added ≤ 2 }
    ensures { (s : State) (told : model.Reply) → Represents parts.entry.now s → IsReplyOf reply told
        → Says result (append_answer s waits told added) }
{
    if parts.setup.sync && waits {
        Said::After {
            reply,
            number: parts.rows.end() + (added - 1),
            turn: parts.pending.turns(),
        }
    } else {
        Said::Reply(reply)
    }
}

// Appends the record of this draft, and makes the target's topic where it isn't known.
fn append_in(
    parts: &mut Parts,
    alloc: Global,
    target: &Target<'_>,
    table: u32,
    draft: &Draft,
    place: &Place,
    size: u32,
) -> Result<(), AllocError>
    requires some { (s : State) × Represents parts.old s × MayStand s draft.now place.now }
    requires encodable { IsEncodable draft.now place.now }
    requires kept { IsKeptAs target.now.kind (entry_of draft.now place.now) }
    requires target { IsTarget parts.old.topics target.now.topic.now target.now.known target.now.made }
    requires table { number_of parts.old.queues draft.now.topic draft.now.queue ≡ Some table }
    requires room { HasRoomFor parts.old table draft.now }
    requires size { size ≡ draft_size draft.now }
    requires short { length parts.old.pending.bytes + size ≤ 67108864 }
    ensures appended { OnOk result ((s : State) → Represents parts.old s → MayStand s draft.now place.now
        → Represents parts.new (with_records (with_made s target.now.topic.now (unwrap_or target.now.known target.now.made))
        place.now.store (entry_of draft.now place.now ∷ []))) }
    ensures stays { OnErr result (Stays parts.old parts.new) }
{
    if target.known.is_some() {
        return parts.append_message(alloc, table, draft, place, size, target.kind);
    }
    let name = String::from_str(alloc, target.topic)?;
    parts.topics.reserve()?;
    parts.append_message(alloc, table, draft, place, size, target.kind)?;
    parts.topics.make(name, target.made);
    Ok(())
}

/// Stores a message for which there is room. At `Err` nothing changes that counts.
pub(crate) fn store(
    parts: &mut Parts,
    alloc: Global,
    target: &Target<'_>,
    draft: &Draft,
    size: u32,
    now: u64,
) -> Result<Said, AllocError>
    requires some { RepresentsSome parts.old }
    requires storable { IsStorable parts.old.setup.segment target.now.kind draft.now }
    requires target { IsTarget parts.old.topics target.now.topic.now target.now.known target.now.made }
    requires size { size ≡ draft_size draft.now }
    requires low { place_after parts.old.pending.segment parts.old.pending.end size + size ≤ 2 ^ 62 }
    requires short { length parts.old.pending.bytes + size ≤ 67108864 }
    requires now { now < 2 ^ 62 }
    ensures stored { IfOk result (λ said. (s : State) → Represents parts.old s
        → IsStored s draft.now target.now.topic.now target.now.queue (unwrap_or target.now.known target.now.made) (max now s.now)
        said parts.new) }
    ensures stays { OnErr result (Stays parts.old parts.new) }
{
    let table = parts.make_ready(alloc, draft)?;
    let place = parts.next_place(table, size, now.max(parts.now));
    let reply = sent(alloc, draft.store_host, place, target.queue);
    let said = answer(parts, waits(&draft.props), reply, 1);
    match append_in(parts, alloc, target, table, draft, &place, size) {
        Ok(()) => Ok(said),
        Err(fault) => {
            drop(said);
            Err(fault)
        }
    }
}
