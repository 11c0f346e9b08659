//! A query by id: the record that begins at a place, where consumers see it.
//!
//! | code | when                                                                      |
//! |-----:|---------------------------------------------------------------------------|
//! |    0 | a record begins there                                                     |
//! |   22 | none does, as in the middle of one; or consumers don't see it yet         |

ghost use Rattle.std.specs.Prelude.{◌≡◌, ◌<◌, ◌^◌, [], ℕ, List, option_to_list, IfOk, OnErr};
ghost use Rattle.reply_fields.specs.Slices.{body_len};
ghost use Rattle.request_fields.specs.declared.request.Request.TheVariants.{ViewById};
ghost use Rattle.broker_model.specs.State.{State, seen};
ghost use Rattle.broker_model.specs.Events as model;
ghost use Rattle.broker_model.specs.Answers.{found_reply, viewed as viewed_of};
ghost use Rattle.broker_events.specs.Replies.{IsReplyOf, AreSlicesOf};
ghost use Rattle.broker_events.specs.Steps.{Says};
ghost use Rattle.core_log.specs.Carries.{Carries, Stays, RepresentsSome};
ghost use Rattle.core_log.specs.Represents.{Represents};
ghost use Rattle.broker_core.specs.Queries.{bare_units};

use crate::offsets::tell;
use crate::pull::slices_of;
use crate::query::{found, unit_in};
use broker_events::Said;
use core_log::Parts;
use record_codec::Unit;
use remoting_frame::Fields;
use reply_fields::{Reply, Slice};
use request_fields::ViewFields;
use std::alloc::{AllocError, Global};

// Where the record stands that begins at this place, if there is one and consumers see it.
fn unit_seen(parts: &Parts, place: u64) -> Option<Unit>
    requires { RepresentsSome parts.now }
    ensures { (s : State) → Represents parts.entry.now s → option_to_list result ≡ bare_units (viewed_of (seen s).records place) }
{
    let number = parts.rows.find(place)?;
    if number >= parts.dispatched {
        return None;
    }
    Some(unit_in(&parts.rows.at(number)))
}

// The record that begins at this place, or none.
fn viewed(parts: &Parts, alloc: Global, place: u64) -> Result<Vec<Slice>, AllocError>
    requires { RepresentsSome parts.now }
    ensures found { (s : State) → Represents parts.entry.now s
        → IfOk result (λ slices. AreSlicesOf slices.items (viewed_of (seen s).records place)) }
    ensures within { IfOk result (λ slices. body_len slices.items < 2 ^ 30) }
{
    match unit_seen(parts, place) {
        Some(unit) => slices_of(alloc, &parts.stored, &[unit]),
        None => Ok(Vec::new(alloc)),
    }
}

// The reply to a query by id.
fn view_reply(parts: &Parts, alloc: Global, place: u64) -> Result<Reply, AllocError>
    requires { RepresentsSome parts.now }
    ensures { (s : State) → Represents parts.entry.now s
        → IfOk result (λ reply. IsReplyOf reply (found_reply [] (viewed_of (seen s).records place))) }
{
    let slices = viewed(parts, alloc, place)?;
    found(alloc, Fields::new(alloc), slices)
}

/// The record that begins at a place. At `Err` nothing changes.
pub(crate) fn view(
    parts: &mut Parts,
    alloc: Global,
    now: u64,
    asked: &ViewFields,
) -> Result<Said, AllocError>
    requires some { RepresentsSome parts.old }
    requires time { now < 2 ^ 62 }
    ensures carries { (link : ℕ) (host : List ℕ) → IfOk result (λ said. Carries parts.old
        (model.Asks (record { link = link; host = host; now = now; request = ViewById asked.now })) (Says said) parts.new) }
    ensures stays { OnErr result (Stays parts.old parts.new) }
{
    let reply = view_reply(parts, alloc, asked.offset);
    tell(parts, now, reply)
}
