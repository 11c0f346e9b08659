//! One request of the generator, given to the broker.

ghost use Rattle.std.specs.Prelude.{◌≡◌, ◌<◌, ◌^◌, true};
ghost use Rattle.broker_events.specs.Served.{is_served as is_served_of};
ghost use Rattle.worker_turns.specs.Acts.{IsFree};
ghost use Rattle.gen_run.specs.Asks.{Asks, asked_at};

use broker_events::{Calls, Event, Said};
use reply_fields::Reply;
use request_fields::Request;
use std::alloc::{AllocError, Global};

// Where all requests come from: 127.0.0.1, port 0.
const BORN_HOST: [u8; 8] = [127, 0, 0, 1, 0, 0, 0, 0];

/// Gives the request to the broker at this time, in milliseconds. Answers the reply. `Err` where memory ran out, and where the
/// broker has no reply at once: no request of the generator waits for the disk, and its rounds leave room for each.
pub(crate) fn ask<C: Calls>(
    alloc: Global,
    calls: &mut C,
    now: u64,
    request: Request,
) -> Result<Reply, AllocError>
    requires now { now < 2 ^ 62 }
    requires served { is_served_of request ≡ true }
    ensures asked { Asks C.makes (asked_at now request) calls.old result calls.new }
    ensures free { IsFree (C.has_key calls.old) (C.shown calls.old) → IsFree (C.has_key calls.new) (C.shown calls.new) }
{
    let event = Event::Request {
        link: 0,
        host: BORN_HOST,
        now,
        request,
    };
    let said = calls.call(alloc, &event);
    drop(event);
    match said {
        Ok(Said::Reply(reply)) => Ok(reply),
        Ok(said) => {
            drop(said);
            Err(AllocError)
        }
        Err(fault) => Err(fault),
    }
}
