//! A send of a message, plain, delayed or a half message: the rows that refuse it, the end of all places, the full buffer, or the
//! record.

ghost use Rattle.std.specs.Prelude.{◌<◌, ◌^◌, max, IfOk, OnErr, unwrap_or};
ghost use Rattle.request_fields.specs.declared.request.Request.TheVariants.{Send};
ghost use Rattle.broker_model.specs.State.{State};
ghost use Rattle.core_log.specs.Represents.{Represents};
ghost use Rattle.broker_core.specs.Stores.{IsSent, IsTarget};
ghost use Rattle.core_log.specs.Stands.{IsStorable};
ghost use Rattle.core_log.specs.Carries.{Stays, RepresentsSome};
ghost use Rattle.broker_core.specs.Asked.{CarriesRequest};

use crate::send_kind::{kept_draft, kind_of};
use crate::store::{Target, store};
use broker_events::Said;
use core_log::{Parts, is_past_end, size_of};
use made_records::{made_queues, plain_draft, queue_named, refusal_of};
use record_codec::Draft;
use reply_fields::Reply;
use request_fields::SendFields;
use std::alloc::{AllocError, Global};

// Stores a message, unless its record would end past all places, or the buffer has no room for it. At `Err` nothing changes that
// counts.
fn try_store(
    parts: &mut Parts,
    alloc: Global,
    target: &Target<'_>,
    draft: &Draft,
    now: u64,
) -> Result<Said, AllocError>
    requires some { RepresentsSome parts.old }
    requires storable { IsStorable parts.old.setup.segment target.now.kind draft.now }
    requires target { IsTarget parts.old.topics target.now.topic.now target.now.known target.now.made }
    requires now { now < 2 ^ 62 }
    ensures sent { IfOk result (λ said. (s : State) → Represents parts.old s
        → IsSent s draft.now target.now.topic.now target.now.queue (unwrap_or target.now.known target.now.made) (max now s.now)
        said parts.new) }
    ensures stays { OnErr result (Stays parts.old parts.new) }
{
    let size = size_of(draft, parts.setup.segment);
    if is_past_end(parts.pending.next_place(size), size) {
        return Ok(Said::Reply(Reply::plain(alloc, 14, "log end")?));
    }
    if parts.pending.is_full(u64::from(size)) {
        return Ok(Said::Full {
            pending: parts.pending.flushed_count(),
        });
    }
    store(parts, alloc, target, draft, size, now)
}

/// Answers a send. At `Err` nothing changes that counts.
pub(crate) fn send(
    parts: &mut Parts,
    alloc: Global,
    host: [u8; 8],
    now: u64,
    send: &SendFields,
) -> Result<Said, AllocError>
    requires some { RepresentsSome parts.old }
    requires now { now < 2 ^ 62 }
    ensures carries { IfOk result (λ said. CarriesRequest parts.old host now (Send send.now) said parts.new) }
    ensures stays { OnErr result (Stays parts.old parts.new) }
{
    let known = parts.topics.find(send.topic.as_str());
    if let Some(refusal) = refusal_of(send, parts.setup.segment, known) {
        return Ok(Said::Reply(refusal.reply(alloc)?));
    }
    let target = Target {
        topic: send.topic.as_str(),
        known,
        made: made_queues(send.default_queues),
        queue: queue_named(send.queue),
        kind: kind_of(send),
    };
    let message = plain_draft(alloc, send, host, parts.setup.host)?;
    let draft = kept_draft(alloc, target.kind, send.group.as_str(), message)?;
    try_store(parts, alloc, &target, &draft, now)
}
