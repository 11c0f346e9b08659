//! A client of a consumer group has queues for itself. The locks expire by the readings of the clock that the requests came at,
//! which don't go by the log: a message that was stored by a clock far ahead keeps no lock.

ghost use Rattle.std.specs.Prelude.{◌≡◌, ◌<◌, ◌≤◌, ◌^◌, ◌∷◌, [], length, All, IfOk, OnErr};
ghost use Rattle.request_fields.specs.declared.request.Request.TheVariants.{Lock, Unlock};
ghost use Rattle.reply_fields.specs.Slices.{body_len};
ghost use Rattle.reply_fields.specs.declared.slice.Slice.TheVariants.{Held};
ghost use Rattle.reply_fields.specs.Granted.{HasShortNames, granted_text};
ghost use Rattle.broker_events.specs.Replies.{IsLockReply};
ghost use Rattle.core_log.specs.Carries.{Stays, RepresentsSome};
ghost use Rattle.broker_core.specs.Asked.{CarriesAsked};

use crate::offsets::told;
use broker_events::Said;
use bytes::Bytes;
use core_log::Parts;
use mq_bytes::{Rows, Text};
use reply_fields::{Ext, Reply, Slice, granted_body};
use request_fields::{LockFields, QueueName};
use std::alloc::{AllocError, Global};

// The body of the reply to a request for locks.
fn lock_slices(alloc: Global, granted: &[QueueName]) -> Result<Rows<Slice>, AllocError>
    requires names { All HasShortNames granted.now }
    requires few { length granted.now ≤ 4096 }
    ensures body { IfOk result (λ body. body ≡ Held (granted_text granted.now) ∷ []) }
    ensures short { IfOk result (λ body. body_len body < 2 ^ 30) }
{
    let text = Bytes::from_vec(granted_body(alloc, granted)?)?;
    let slices = vec![in alloc; Slice::Held(text)]?;
    Ok(Rows::of(slices))
}

// The reply that tells which queues a client got.
#[tactic(auto, using(reply_fields::proofs::ReplyLemmas::none_in_order))]
fn lock_reply(alloc: Global, granted: &[QueueName]) -> Result<Reply, AllocError>
    requires names { All HasShortNames granted.now }
    requires few { length granted.now ≤ 4096 }
    ensures { IfOk result (λ reply. IsLockReply reply granted.now) }
{
    let body = lock_slices(alloc, granted)?;
    Ok(Reply {
        code: 0,
        remark: Text::of(String::new(alloc)),
        ext: Ext::none(alloc),
        body,
    })
}

/// A client gets those of the queues that no other client of its group has at the reading `now`. At `Err` nothing changes.
pub(crate) fn lock_queues(
    parts: &mut Parts,
    alloc: Global,
    now: u64,
    asked: &LockFields,
) -> Result<Said, AllocError>
    requires some { RepresentsSome parts.old }
    requires time { now < 2 ^ 62 }
    ensures carries { CarriesAsked parts.old now (Lock asked.now) result parts.new }
    ensures stays { OnErr result (Stays parts.old parts.new) }
{
    let group = asked.group.as_str();
    let client = asked.client.as_str();
    let granted = parts
        .groups
        .granted(group, client, asked.queues.as_slice(), now)?;
    let reply = lock_reply(alloc, granted.as_slice())?;
    match parts.groups.lock(group, client, granted.as_slice(), now) {
        Ok(()) => Ok(told(parts, now, reply)),
        Err(fault) => {
            drop(reply);
            Err(fault)
        }
    }
}

/// Those of the queues that the client has are free then. At `Err` nothing changes.
pub(crate) fn unlock_queues(
    parts: &mut Parts,
    alloc: Global,
    now: u64,
    asked: &LockFields,
) -> Result<Said, AllocError>
    requires some { RepresentsSome parts.old }
    requires time { now < 2 ^ 62 }
    ensures carries { CarriesAsked parts.old now (Unlock asked.now) result parts.new }
    ensures stays { OnErr result (Stays parts.old parts.new) }
{
    let reply = Reply::plain(alloc, 0, "")?;
    parts.groups.unlock_batch(
        asked.group.as_str(),
        asked.client.as_str(),
        asked.queues.as_slice(),
    );
    Ok(told(parts, now, reply))
}
