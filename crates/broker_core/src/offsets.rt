//! The offsets of a queue, as consumers see it: its maximum, its minimum, and the first one of a time.

ghost use Rattle.std.specs.Prelude.{◌≡◌, ◌<◌, ◌^◌, ℕ, List, max, IfOk, OnOk, OnErr, Option, Some, None};
ghost use Rattle.log_model.specs.Numbered.{queue_max, queue_min};
ghost use Rattle.request_fields.specs.declared.request.Request.TheVariants.{MaxOffset, MinOffset, Search};
ghost use Rattle.broker_model.specs.State.{State, seen};
ghost use Rattle.broker_model.specs.Events as model;
ghost use Rattle.broker_model.specs.Refusals.{queue_count as queue_count_of, queue_refusal};
ghost use Rattle.broker_model.specs.Answers.{offset_at};
ghost use Rattle.broker_events.specs.Replies.{IsReplyOf, IsToldAs};
ghost use Rattle.broker_events.specs.Steps.{Says};
ghost use Rattle.core_log.specs.Carries.{Carries, Stays, RepresentsSome};
ghost use Rattle.core_log.specs.Represents.{Represents};
ghost use Rattle.broker_core.specs.Reads.{refusal_replies};

use crate::replies::{Refused, offset_reply};
use broker_events::Said;
use core_log::Parts;
use log_model::is_system_topic;
use reply_fields::Reply;
use request_fields::{QueueFields, SearchFields};
use std::alloc::{AllocError, Global};

// How many queues a topic has: those that the broker keeps for itself have fixed numbers.
fn queue_count(parts: &Parts, topic: &str) -> Option<u32>
    ensures { (s : State) → Represents parts.entry.now s → result ≡ queue_count_of s topic.now }
{
    if topic == "SCHEDULE_TOPIC_XXXX" {
        Some(18)
    } else if is_system_topic(topic) {
        Some(1)
    } else {
        parts.topics.find(topic)
    }
}

/// Why a request for this queue is refused, if it is.
pub(crate) fn refuses_queue(parts: &Parts, topic: &str, queue: u32) -> Option<Refused>
    ensures { (s : State) → Represents parts.entry.now s → queue_refusal s topic.now queue ≡ refusal_replies result }
{
    match queue_count(parts, topic) {
        None => Some(Refused::NoTopic),
        Some(count) if queue < count => None,
        Some(_) => Some(Refused::Queue),
    }
}

/// The reply is told, at this reading of the clock.
pub(crate) fn told(parts: &mut Parts, now: u64, reply: Reply) -> Said
    ensures told { (answer : model.Answer) → IsToldAs reply answer → Says result answer }
    ensures moved { parts.new ≡ record parts.old { now = max now parts.old.now } }
{
    parts.now = now.max(parts.now);
    Said::Reply(reply)
}

/// The same, if there is a reply. Where there is none nothing changes.
pub(crate) fn tell(
    parts: &mut Parts,
    now: u64,
    reply: Result<Reply, AllocError>,
) -> Result<Said, AllocError>
    ensures told { (told : model.Reply) → IfOk reply (λ made. IsReplyOf made told)
        → IfOk result (λ said. Says said (model.Replies told)) }
    ensures moved { OnOk result (parts.new ≡ record parts.old { now = max now parts.old.now }) }
    ensures same { OnErr result (parts.new ≡ parts.old) }
{
    match reply {
        Ok(reply) => Ok(told(parts, now, reply)),
        Err(fault) => Err(fault),
    }
}

/// The offset after the last record of a queue that consumers see.
pub(crate) fn max_of(parts: &Parts, topic: &str, queue: u32) -> u64
    ensures { (s : State) → Represents parts.entry.now s → result ≡ queue_max (seen s) topic.now queue }
{
    match parts.queues.find(topic, queue) {
        Some(table) => parts.queues.max(table),
        None => 0,
    }
}

// The offset of the first record of a queue that stands.
fn min_of(parts: &Parts, topic: &str, queue: u32) -> u64
    ensures { (s : State) → Represents parts.entry.now s → result ≡ queue_min (seen s) topic.now queue }
{
    match parts.queues.find(topic, queue) {
        Some(table) => parts.queues.min(table),
        None => 0,
    }
}

// The offset of the first record of a queue that was stored at this time or later, among those that consumers see, else
// the maximum.
fn first_at(parts: &Parts, topic: &str, queue: u32, time: i64) -> u64
    requires { RepresentsSome parts.now }
    ensures { (s : State) → Represents parts.entry.now s → result ≡ offset_at (seen s) topic.now queue time }
{
    match parts.queues.find(topic, queue) {
        Some(table) => parts.queues.search(table, time),
        None => 0,
    }
}

/// The offset after the last record of a queue that consumers see. At `Err` nothing changes.
pub(crate) fn max_offset(
    parts: &mut Parts,
    alloc: Global,
    now: u64,
    asked: &QueueFields,
) -> Result<Said, AllocError>
    requires some { RepresentsSome parts.old }
    requires time { now < 2 ^ 62 }
    ensures carries { (link : ℕ) (host : List ℕ) → IfOk result (λ said. Carries parts.old
        (model.Asks (record { link = link; host = host; now = now; request = MaxOffset asked.now })) (Says said) parts.new) }
    ensures stays { OnErr result (Stays parts.old parts.new) }
{
    let topic = asked.topic.as_str();
    match refuses_queue(parts, topic, asked.queue) {
        Some(refused) => refused.said(alloc),
        None => {
            let reply = offset_reply(alloc, max_of(parts, topic, asked.queue));
            tell(parts, now, reply)
        }
    }
}

/// The offset of the first record of a queue that stands. At `Err` nothing changes.
pub(crate) fn min_offset(
    parts: &mut Parts,
    alloc: Global,
    now: u64,
    asked: &QueueFields,
) -> Result<Said, AllocError>
    requires some { RepresentsSome parts.old }
    requires time { now < 2 ^ 62 }
    ensures carries { (link : ℕ) (host : List ℕ) → IfOk result (λ said. Carries parts.old
        (model.Asks (record { link = link; host = host; now = now; request = MinOffset asked.now })) (Says said) parts.new) }
    ensures stays { OnErr result (Stays parts.old parts.new) }
{
    let topic = asked.topic.as_str();
    match refuses_queue(parts, topic, asked.queue) {
        Some(refused) => refused.said(alloc),
        None => {
            let reply = offset_reply(alloc, min_of(parts, topic, asked.queue));
            tell(parts, now, reply)
        }
    }
}

/// The offset of the first record of a queue that was stored at a time, in milliseconds, or later. At `Err` nothing changes.
pub(crate) fn search(
    parts: &mut Parts,
    alloc: Global,
    now: u64,
    asked: &SearchFields,
) -> Result<Said, AllocError>
    requires some { RepresentsSome parts.old }
    requires time { now < 2 ^ 62 }
    ensures carries { (link : ℕ) (host : List ℕ) → IfOk result (λ said. Carries parts.old
        (model.Asks (record { link = link; host = host; now = now; request = Search asked.now })) (Says said) parts.new) }
    ensures stays { OnErr result (Stays parts.old parts.new) }
{
    let topic = asked.topic.as_str();
    match refuses_queue(parts, topic, asked.queue) {
        Some(refused) => refused.said(alloc),
        None => {
            let reply = offset_reply(alloc, first_at(parts, topic, asked.queue, asked.time));
            tell(parts, now, reply)
        }
    }
}
