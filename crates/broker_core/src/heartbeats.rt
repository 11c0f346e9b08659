//! Clients are heard, and leave groups.

ghost use Rattle.std.specs.Prelude.{◌≡◌, ◌<◌, ◌^◌, ℕ, List, IfOk, OnErr};
ghost use Rattle.request_fields.specs.declared.request.Request.TheVariants.{Beat, Unregister};
ghost use Rattle.broker_model.specs.Events as model;
ghost use Rattle.broker_events.specs.Steps.{Says};
ghost use Rattle.core_log.specs.Carries.{Carries, Stays, RepresentsSome};
ghost use Rattle.core_log.specs.Shows.{shown_of};
ghost use Rattle.broker_core.specs.Asked.{CarriesAsked};

use crate::offsets::told;
use broker_events::Said;
use core_log::Parts;
use reply_fields::Reply;
use request_fields::{Heartbeat, UnregisterFields};
use std::alloc::{AllocError, Global};

/// A client is heard on this link, with what its groups subscribe to. At `Err` nothing changes.
pub(crate) fn beat(
    parts: &mut Parts,
    alloc: Global,
    link: u32,
    now: u64,
    beat: &Heartbeat,
) -> Result<Said, AllocError>
    requires some { RepresentsSome parts.old }
    requires time { now < 2 ^ 62 }
    ensures carries { (host : List ℕ) → IfOk result (λ said. Carries parts.old
        (model.Asks (record { link = link; host = host; now = now; request = Beat beat.now })) (Says said) parts.new) }
    ensures stays { OnErr result (Stays parts.old parts.new) }
{
    let reply = Reply::plain(alloc, 0, "")?;
    match parts.clients.heartbeat(link, beat) {
        Ok(()) => Ok(told(parts, now, reply)),
        Err(fault) => {
            drop(reply);
            Err(fault)
        }
    }
}

/// A client leaves a producer group and a consumer group. At `Err` nothing changes.
pub(crate) fn unregister(
    parts: &mut Parts,
    alloc: Global,
    now: u64,
    asked: &UnregisterFields,
) -> Result<Said, AllocError>
    requires some { RepresentsSome parts.old }
    requires time { now < 2 ^ 62 }
    ensures carries { CarriesAsked parts.old now (Unregister asked.now) result parts.new }
    ensures stays { OnErr result (Stays parts.old parts.new) }
{
    let reply = Reply::plain(alloc, 0, "")?;
    parts.clients.unregister(
        asked.client.as_str(),
        asked.producer.as_str(),
        asked.consumer.as_str(),
    );
    Ok(told(parts, now, reply))
}

/// A link ended: the clients that were last heard on it are gone. Takes no memory.
pub(crate) fn leave(parts: &mut Parts, link: u32)
    requires some { RepresentsSome parts.old }
    ensures carries { Carries parts.old (model.Leave link) (λ answer. answer ≡ model.Done) parts.new }
    ensures shown { shown_of parts.new ≡ shown_of parts.old }
{
    parts.clients.leave(link);
}
