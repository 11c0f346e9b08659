//! The replies to requests that read.
//!
//! | code | remark         | fields | when                                    |
//! |-----:|----------------|--------|-----------------------------------------|
//! |    0 |                | offset | an offset was asked for                 |
//! |    0 |                | pull   | a pull found records                    |
//! |   19 |                | pull   | nothing stands at the asked offset yet  |
//! |   20 |                | pull   | the subscription takes none of those    |
//! |   21 |                | pull   | the asked offset lies outside the queue |
//! |   22 |                |        | the group stored no offset              |
//! |   16 | `system topic` |        | nobody may pull from this topic         |
//! |   17 | `no topic`     |        | the topic isn't known                   |
//! |    1 | `queue`        |        | the topic has no such queue             |
//! |    1 | `expression`   |        | messages are chosen by tags only        |
//!
//! An offset is the field `offset`; a pull has `maxOffset`, `minOffset`, `nextBeginOffset` and `suggestWhichBrokerId`, in decimal.

ghost use Rattle.std.specs.Prelude.{◌≡◌, ◌≤◌, ◌<◌, ◌^◌, [], IfOk, OnOk, FitsSigned};
ghost use Rattle.std.specs.Int.{w16};
ghost use Rattle.record_codec.specs.Entry.{Entry};
ghost use Rattle.record_codec.specs.Units.{unit_of};
ghost use Rattle.remoting_frame.specs.Head.{IsInOrder, pairs_size};
ghost use Rattle.log_model.specs.Pulls.{Pulled as PulledAs, pulled_as};
ghost use Rattle.queue_view.specs.Answers.{Answers};
ghost use Rattle.reply_fields.specs.Slices.{body_len};
ghost use Rattle.broker_model.specs.Events as model;
ghost use Rattle.broker_model.specs.Answers.{offset_reply as offset_reply_of, stored_reply as stored_reply_of};
ghost use Rattle.broker_model.specs.Answers.{pulled_reply as pulled_reply_of};
ghost use Rattle.broker_events.specs.Replies.{IsReplyOf, AreSlicesOf};
ghost use Rattle.broker_events.specs.Steps.{Says};
ghost use Rattle.broker_core.specs.Reads.{refusal_reply, offset_ext, pull_ext};

use broker_events::Said;
use mq_bytes::{Rows, Text};
use queue_view::Pulled;
use remoting_frame::Fields;
use reply_fields::{Ext, Reply, Slice};
use std::alloc::{AllocError, Global};

/// Why a request that reads is refused.
#[derive(Clone, Copy)]
pub(crate) enum Refused {
    /// Nobody may pull from this topic of the broker's own.
    Closed,
    /// The topic isn't known.
    NoTopic,
    /// The topic has no such queue.
    Queue,
    /// Messages are chosen by tags only.
    Expression,
}

impl Refused {
    /// What is said of this refusal.
    pub(crate) fn said(self, alloc: Global) -> Result<Said, AllocError>
        ensures { IfOk result (λ said. Says said (model.Replies (refusal_reply self))) }
    {
        let reply = match self {
            Refused::Closed => Reply::plain(alloc, 16, "system topic")?,
            Refused::NoTopic => Reply::plain(alloc, 17, "no topic")?,
            Refused::Queue => Reply::plain(alloc, 1, "queue")?,
            Refused::Expression => Reply::plain(alloc, 1, "expression")?,
        };
        Ok(Said::Reply(reply))
    }
}

// Room for the names and values of the fields of a pull.
const PULL_ROOM: usize = 128;

fn offset_fields(alloc: Global, offset: u64) -> Result<Fields, AllocError>
    ensures fields { IfOk result (λ fields. fields ≡ offset_ext offset) }
    ensures ordered { IfOk result IsInOrder }
    ensures short { IfOk result (λ fields. pairs_size fields ≤ 200) }
{
    let mut fields = Fields::new(alloc);
    fields.push_number("offset", offset)?;
    Ok(fields)
}

/// The reply that tells an offset of a queue.
pub(crate) fn offset_reply(alloc: Global, offset: u64) -> Result<Reply, AllocError>
    ensures { IfOk result (λ reply. IsReplyOf reply (offset_reply_of offset)) }
{
    let fields = offset_fields(alloc, offset)?;
    Ok(Reply {
        code: 0,
        remark: Text::of(String::new(alloc)),
        ext: Ext::of(fields),
        body: Rows::of(Vec::new(alloc)),
    })
}

/// The reply that tells an offset that a group stored, or that it stored none.
pub(crate) fn stored_reply(alloc: Global, offset: Option<u64>) -> Result<Reply, AllocError>
    ensures { IfOk result (λ reply. IsReplyOf reply (stored_reply_of offset)) }
{
    match offset {
        Some(offset) => offset_reply(alloc, offset),
        None => Reply::plain(alloc, 22, ""),
    }
}

// Appends the fields of a pull to no fields.
fn fill_pull(fields: &mut Fields, max: u64, min: u64, next: u64) -> Result<(), AllocError>
    requires { fields.old ≡ [] }
    ensures { OnOk result (fields.new ≡ pull_ext max min next) }
{
    fields.push_number("maxOffset", max)?;
    fields.push_number("minOffset", min)?;
    fields.push_number("nextBeginOffset", next)?;
    fields.push("suggestWhichBrokerId", "0")?;
    Ok(())
}

fn pull_fields(alloc: Global, max: u64, min: u64, next: u64) -> Result<Fields, AllocError>
    ensures fields { IfOk result (λ fields. fields ≡ pull_ext max min next) }
    ensures ordered { IfOk result IsInOrder }
    ensures short { IfOk result (λ fields. pairs_size fields ≤ 200) }
{
    let mut fields = Fields::with_room(alloc, 4, PULL_ROOM)?;
    fill_pull(&mut fields, max, min, next)?;
    Ok(fields)
}

/// The reply to a pull that was answered like this, where the records stand in these slices.
pub(crate) fn pull_reply(
    alloc: Global,
    pulled: &Pulled,
    slices: Vec<Slice>,
) -> Result<Reply, AllocError>
    requires code { FitsSigned w16 pulled.now.code }
    requires within { body_len slices.items < 2 ^ 30 }
    ensures { (told : PulledAs Entry) → Answers (pulled_as unit_of told) pulled.now → AreSlicesOf slices.items told.taken
        → IfOk result (λ reply. IsReplyOf reply (pulled_reply_of told)) }
{
    let fields = pull_fields(alloc, pulled.max, pulled.min, pulled.next)?;
    Ok(Reply {
        code: pulled.code,
        remark: Text::of(String::new(alloc)),
        ext: Ext::of(fields),
        body: Rows::of(slices),
    })
}
