//! A pull: which of a queue's records are told, and where they stand. No byte of a record is read for it.

ghost use Rattle.std.specs.Prelude.{◌≡◌, ◌<◌, ◌^◌, ◌==◌, ℕ, pos, List, map, slice_get, bit_and, IfOk, OnErr, Some, if◌then◌else◌};
ghost use Rattle.std.specs.Int.{w32, cast_unsigned};
ghost use Rattle.std.specs.Ordering.{int_eq};
ghost use Rattle.mq_outside.specs.Covers.{HasRange};
ghost use Rattle.record_codec.specs.Units.{unit_of};
ghost use Rattle.record_codec.specs.declared.unit.Unit.{Unit as QueueUnit};
ghost use Rattle.log_model.specs.Keys.{asked_number};
ghost use Rattle.log_model.specs.Numbered.{queue_min, records_of};
ghost use Rattle.log_model.specs.Pulls.{pulled as pulled_of_queue, takes};
ghost use Rattle.queue_view.specs.Answers.{Answers, this};
ghost use Rattle.queue_view.specs.Subscriptions.{tags_take};
ghost use Rattle.request_fields.specs.declared.request.Request.TheVariants.{Pull};
ghost use Rattle.broker_model.specs.State.{State, seen};
ghost use Rattle.broker_model.specs.Events as model;
ghost use Rattle.broker_model.specs.Refusals.{is_closed_topic, is_by_tags as is_by_tags_of, pull_refusal};
ghost use Rattle.broker_model.specs.Answers.{pulled_reply, pull_of, pull_words as pull_words_of};
ghost use Rattle.broker_model.specs.Clients.{heard_words as heard_words_of};
ghost use Rattle.broker_events.specs.Replies.{IsReplyOf};
ghost use Rattle.broker_events.specs.Steps.{Says};
ghost use Rattle.core_log.specs.Carries.{Carries, Stays, RepresentsSome};
ghost use Rattle.core_log.specs.Represents.{Represents};
ghost use Rattle.broker_core.specs.Reads.{refusal_replies, IsSliceAt, AreSlicesAt};

use crate::consumer_offsets::commit;
use crate::offsets::{refuses_queue, told};
use crate::replies::{Refused, pull_reply};
use broker_events::Said;
use core_log::Parts;
use mq_outside::FrozenRanges;
use queue_view::{NOT_YET, OUTSIDE, Pulled, Tags};
use record_codec::Unit;
use reply_fields::{Reply, Slice, StoredRange};
use request_fields::PullFields;
use std::alloc::{AllocError, Global};

// Nobody may pull from these topics: delayed messages, half messages, and what settles these.
fn is_closed(topic: &str) -> bool
    ensures { result ≡ is_closed_topic topic.now }
{
    topic == "SCHEDULE_TOPIC_XXXX"
        || topic == "RMQ_SYS_TRANS_HALF_TOPIC"
        || topic == "RMQ_SYS_TRANS_OP_HALF_TOPIC"
}

// Messages are chosen by tags, as is said or not.
fn is_by_tags(expression: &str) -> bool
    ensures { result ≡ is_by_tags_of expression.now }
{
    expression.is_empty() || expression == "TAG"
}

// The flag of a pull says that its own subscription counts.
fn has_subscription(asked: &PullFields) -> bool
    ensures { result ≡ (bit_and (cast_unsigned w32 asked.now.sysflag) 4 == 4) }
{
    asked.sysflag.cast_unsigned() & 4 == 4
}

// The code of a pull of a queue that has no records.
fn empty_code(from: i64) -> i32
    ensures { result ≡ pos (if int_eq from (pos 0) then 19 else 21) }
{
    if from == 0 { NOT_YET } else { OUTSIDE }
}

// The range where the record of a unit stands.
fn slice_of(stored: &FrozenRanges, unit: Unit) -> Result<Slice, AllocError>
    requires { HasRange stored.now.pieces.items unit.offset unit.size }
    ensures { IfOk result (λ slice. IsSliceAt stored.now slice unit) }
{
    let piece = stored.find(unit.offset, unit.size);
    let at = unit.offset - piece.base() - piece.from();
    Ok(Slice::Kept(StoredRange {
        piece: piece.share()?,
        at,
        len: unit.size,
    }))
}

/// The ranges where the records of these units stand.
pub(crate) fn slices_of(
    alloc: Global,
    stored: &FrozenRanges,
    units: &[Unit],
) -> Result<Vec<Slice>, AllocError>
    requires { (k : ℕ) (unit : QueueUnit) → slice_get units.now k ≡ Some unit
        → HasRange stored.now.pieces.items unit.offset unit.size }
    ensures { IfOk result (λ slices. AreSlicesAt stored.now slices.items units.now) }
{
    let mut slices = Vec::with_capacity(alloc, units.len())?;
    for unit in units {
        slices.push(slice_of(stored, *unit)?)?;
    }
    Ok(slices)
}

// Why a pull is refused, if it is.
fn refuses_pull(parts: &Parts, asked: &PullFields) -> Option<Refused>
    ensures { (s : State) → Represents parts.entry.now s → pull_refusal s asked.now ≡ refusal_replies result }
{
    let topic = asked.topic.as_str();
    if is_closed(topic) {
        return Some(Refused::Closed);
    }
    match refuses_queue(parts, topic, asked.queue) {
        Some(refused) => Some(refused),
        None if is_by_tags(asked.expression.as_str()) => None,
        None => Some(Refused::Expression),
    }
}

// What the last heartbeat of its group said of the topic of a pull.
fn heard_words<'a>(parts: &'a Parts, asked: &'a PullFields) -> &'a str
    ensures { (s : State) → Represents parts.entry.now s
        → result.now ≡ heard_words_of s.clients asked.entry.now.group asked.entry.now.topic }
{
    parts
        .clients
        .subscription(asked.group.as_str(), asked.topic.as_str())
}

// The words of a pull: its own where bit 4 of its flag says so, else what its group's last heartbeat said.
fn pull_words<'a>(parts: &'a Parts, asked: &'a PullFields) -> &'a str
    ensures { (s : State) → Represents parts.entry.now s → result.now ≡ pull_words_of s asked.entry.now }
{
    if has_subscription(asked) {
        asked.subscription.as_str()
    } else {
        heard_words(parts, asked)
    }
}

// The tags of a pull.
fn tags_of(parts: &Parts, alloc: Global, asked: &PullFields) -> Result<Tags, AllocError>
    ensures { (s : State) → Represents parts.entry.now s → IfOk result (λ tags. tags_take tags ≡ takes (pull_words_of s asked.now)) }
{
    Tags::read(alloc, pull_words(parts, asked))
}

// What a pull with these tags finds of a queue, as consumers see it.
fn found(
    parts: &Parts,
    alloc: Global,
    asked: &PullFields,
    tags: &Tags,
) -> Result<Pulled, AllocError>
    ensures { (s : State) → Represents parts.entry.now s → IfOk result (λ a. Answers (pulled_of_queue this
        (queue_min (seen s) asked.now.topic asked.now.queue) (map unit_of (records_of (seen s) asked.now.topic asked.now.queue))
        asked.now.from (asked_number 32 asked.now.most) (tags_take tags.now)) a) }
{
    match parts.queues.find(asked.topic.as_str(), asked.queue) {
        Some(table) => parts
            .queues
            .pull(alloc, table, asked.from, asked.most, tags),
        None => Ok(Pulled {
            code: empty_code(asked.from),
            next: 0,
            min: 0,
            max: 0,
            units: Vec::new(alloc),
        }),
    }
}

// The reply to a pull that isn't refused.
fn pulled(parts: &Parts, alloc: Global, asked: &PullFields) -> Result<Reply, AllocError>
    requires { RepresentsSome parts.now }
    ensures { (s : State) → Represents parts.entry.now s
        → IfOk result (λ reply. IsReplyOf reply (pulled_reply (pull_of s asked.now))) }
{
    let tags = tags_of(parts, alloc, asked)?;
    let found = found(parts, alloc, asked, &tags)?;
    let slices = slices_of(alloc, &parts.stored, found.units.as_slice())?;
    pull_reply(alloc, &found, slices)
}

/// The records of a queue that are pulled, with the queue's bounds and the offset from which to pull next. At `Err` nothing
/// changes.
pub(crate) fn pull(
    parts: &mut Parts,
    alloc: Global,
    now: u64,
    asked: &PullFields,
) -> Result<Said, AllocError>
    requires some { RepresentsSome parts.old }
    requires time { now < 2 ^ 62 }
    ensures carries { (link : ℕ) (host : List ℕ) → IfOk result (λ said. Carries parts.old
        (model.Asks (record { link = link; host = host; now = now; request = Pull asked.now })) (Says said) parts.new) }
    ensures stays { OnErr result (Stays parts.old parts.new) }
{
    match refuses_pull(parts, asked) {
        Some(refused) => refused.said(alloc),
        None => {
            let reply = pulled(parts, alloc, asked)?;
            match commit(parts, asked) {
                Ok(()) => Ok(told(parts, now, reply)),
                Err(fault) => {
                    drop(reply);
                    Err(fault)
                }
            }
        }
    }
}
