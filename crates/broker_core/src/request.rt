//! Requests, each by its own call.

ghost use Rattle.std.specs.Prelude.{◌≡◌, ◌<◌, ◌^◌, true, IfOk, OnErr};
ghost use Rattle.broker_model.specs.Events as model;
ghost use Rattle.broker_events.specs.Served.{is_served};
ghost use Rattle.broker_events.specs.Steps.{Says};
ghost use Rattle.core_log.specs.Carries.{Carries, Stays, RepresentsSome};

use crate::consumer_offsets::{set_offset, stored_offset};
use crate::heartbeats::unregister;
use crate::offsets::{max_offset, min_offset, search};
use crate::pull::pull;
use crate::query::query;
use crate::queue_locks::{lock_queues, unlock_queues};
use crate::topic::make_topic;
use crate::verdict::end_transaction;
use crate::view::view;
use broker_events::Said;
use core_log::Parts;
use request_fields::Request;
use std::alloc::{AllocError, Global};

/// A request that is served, on this link and from this host, at this reading of the clock in milliseconds. At `Err` nothing changes.
pub(crate) fn request(
    parts: &mut Parts,
    alloc: Global,
    link: u32,
    host: &[u8; 8],
    now: u64,
    request: &Request,
) -> Result<Said, AllocError>
    requires some { RepresentsSome parts.old }
    requires time { now < 2 ^ 62 }
    requires served { is_served request.now ≡ true }
    ensures carries { IfOk result (λ said. Carries parts.old
        (model.Asks (record { link = link; host = host.now; now = now; request = request.now })) (Says said) parts.new) }
    ensures stays { OnErr result (Stays parts.old parts.new) }
{
    match request {
        Request::Send(send) => crate::send::send(parts, alloc, *host, now, send),
        Request::Pull(asked) => pull(parts, alloc, now, asked),
        Request::OffsetOf(asked) => stored_offset(parts, alloc, now, asked),
        Request::SetOffset(asked) => set_offset(parts, alloc, now, asked),
        Request::MakeTopic(fields) => make_topic(parts, alloc, *host, now, fields),
        Request::Search(asked) => search(parts, alloc, now, asked),
        Request::MaxOffset(asked) => max_offset(parts, alloc, now, asked),
        Request::MinOffset(asked) => min_offset(parts, alloc, now, asked),
        Request::Beat(beat) => crate::heartbeats::beat(parts, alloc, link, now, beat),
        Request::Unregister(asked) => unregister(parts, alloc, now, asked),
        Request::Lock(asked) => lock_queues(parts, alloc, now, asked),
        Request::Unlock(asked) => unlock_queues(parts, alloc, now, asked),
        Request::EndTransaction(end) => end_transaction(parts, alloc, now, end),
        Request::Query(asked) => query(parts, alloc, now, asked),
        Request::ViewById(asked) => view(parts, alloc, now, asked),
    }
}
