//! The offsets that consumer groups store for queues. A stored offset is at most the end of its queue, as consumers see it.

ghost use Rattle.std.specs.Prelude.{◌≡◌, ◌<◌, ◌^◌, Some, OnOk, OnErr, true};
ghost use Rattle.std.specs.Str.{IsUtf8};
ghost use Rattle.request_fields.specs.Clients.{IsName};
ghost use Rattle.record_codec.specs.Layout.{is_legal};
ghost use Rattle.request_fields.specs.declared.request.Request.TheVariants.{OffsetOf, SetOffset};
ghost use Rattle.broker_model.specs.State.{State};
ghost use Rattle.broker_model.specs.Step.{if_natural, pull_offset, stored};
ghost use Rattle.core_log.specs.Carries.{Stays, RepresentsSome};
ghost use Rattle.broker_core.specs.Asked.{CarriesAsked};
ghost use Rattle.core_log.specs.Represents.{Represents};

use crate::offsets::{max_of, refuses_queue, tell, told};
use crate::replies::stored_reply;
use broker_events::Said;
use core_log::Parts;
use reply_fields::Reply;
use request_fields::{OffsetFields, PullFields, SetOffsetFields};
use std::alloc::{AllocError, Global};

// The number, where it isn't negative.
fn natural(number: i64) -> Option<u64>
    ensures { result ≡ if_natural number }
{
    if number < 0 {
        None
    } else {
        Some(number as u64)
    }
}

// The offset that a pull stores besides, where bit 1 of its flag says so.
fn committed(asked: &PullFields) -> Option<u64>
    ensures { result ≡ pull_offset asked.now }
{
    if asked.sysflag.cast_unsigned() & 1 == 1 {
        natural(asked.commit)
    } else {
        None
    }
}

// Stores an offset of a group for a queue, at most the queue's end. At `Err` nothing changes.
fn store_offset(
    parts: &mut Parts,
    group: &str,
    topic: &str,
    queue: u32,
    offset: u64,
) -> Result<(), AllocError>
    requires group { IsName group.now }
    requires text { IsUtf8 group.now }
    requires queue { queue < 2 ^ 31 }
    ensures stored { OnOk result ((s : State) → Represents parts.old s → is_legal topic.now ≡ true
        → Represents parts.new (stored s group.now topic.now queue (Some offset))) }
    ensures stays { OnErr result (Stays parts.old parts.new) }
{
    let end = max_of(parts, topic, queue);
    parts
        .groups
        .set_offset(group, topic, queue, offset.min(end))
}

/// Stores the offset that a pull says besides, if it does. At `Err` nothing changes.
pub(crate) fn commit(parts: &mut Parts, asked: &PullFields) -> Result<(), AllocError>
    ensures stored { OnOk result ((s : State) → Represents parts.old s → is_legal asked.now.topic ≡ true
        → Represents parts.new (stored s asked.now.group asked.now.topic asked.now.queue (pull_offset asked.now))) }
    ensures stays { OnErr result (Stays parts.old parts.new) }
{
    match committed(asked) {
        Some(offset) => store_offset(
            parts,
            asked.group.as_str(),
            asked.topic.as_str(),
            asked.queue,
            offset,
        ),
        None => Ok(()),
    }
}

/// The offset that a group stored for a queue. At `Err` nothing changes.
pub(crate) fn stored_offset(
    parts: &mut Parts,
    alloc: Global,
    now: u64,
    asked: &OffsetFields,
) -> Result<Said, AllocError>
    requires some { RepresentsSome parts.old }
    requires time { now < 2 ^ 62 }
    ensures carries { CarriesAsked parts.old now (OffsetOf asked.now) result parts.new }
    ensures stays { OnErr result (Stays parts.old parts.new) }
{
    let topic = asked.topic.as_str();
    match refuses_queue(parts, topic, asked.queue) {
        Some(refused) => refused.said(alloc),
        None => {
            let stored = parts
                .groups
                .offset(asked.group.as_str(), topic, asked.queue);
            let reply = stored_reply(alloc, stored);
            tell(parts, now, reply)
        }
    }
}

/// Stores an offset of a group for a queue. At `Err` nothing changes.
pub(crate) fn set_offset(
    parts: &mut Parts,
    alloc: Global,
    now: u64,
    asked: &SetOffsetFields,
) -> Result<Said, AllocError>
    requires some { RepresentsSome parts.old }
    requires time { now < 2 ^ 62 }
    ensures carries { CarriesAsked parts.old now (SetOffset asked.now) result parts.new }
    ensures stays { OnErr result (Stays parts.old parts.new) }
{
    let topic = asked.topic.as_str();
    if let Some(refused) = refuses_queue(parts, topic, asked.queue) {
        return refused.said(alloc);
    }
    let reply = Reply::plain(alloc, 0, "")?;
    let group = asked.group.as_str();
    match store_offset(parts, group, topic, asked.queue, asked.offset) {
        Ok(()) => Ok(told(parts, now, reply)),
        Err(fault) => {
            drop(reply);
            Err(fault)
        }
    }
}
