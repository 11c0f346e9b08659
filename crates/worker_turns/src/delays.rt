//! A delay turn: delayed messages that are due are delivered.

ghost use Rattle.std.specs.Prelude.{◌<◌, ◌^◌};
ghost use Rattle.broker_events.specs.Makes.{Makes};
ghost use Rattle.worker_turns.specs.Acts.{IsFree};
ghost use Rattle.worker_turns.specs.Delays.{Delivers, HasDelivered};

use broker_events::{Calls, Event, Said};
use std::alloc::{AllocError, Global};

// Makes one delivery, if a message is due. Answers whether one was made.
fn deliver<C: Calls>(alloc: Global, calls: &mut C, now: u64) -> Result<bool, AllocError>
    requires now { now < 2 ^ 62 }
    ensures made { Delivers C.makes now calls.old result calls.new }
    ensures free { IsFree (C.has_key calls.old) (C.shown calls.old) → IsFree (C.has_key calls.new) (C.shown calls.new) }
{
    let event = Event::Deliver { now };
    let said = calls.call(alloc, &event);
    drop(event);
    match said {
        Ok(Said::Delivered(delivered)) => Ok(delivered.is_some()),
        Ok(said) => {
            drop(said);
            Ok(false)
        }
        Err(fault) => Err(fault),
    }
}

/// Delivers the delayed messages that are due at this reading of the clock, in milliseconds: until none is, the pending bytes are
/// full, or the log is at its end. Answers how many were delivered. At `Err`, which is want of memory, what was delivered stands.
pub fn delay_turn<C: Calls>(alloc: Global, calls: &mut C, now: u64) -> Result<u32, AllocError>
    requires now { now < 2 ^ 62 }

    // The steps that it made: no other than these deliveries.
    ensures made { HasDelivered C.makes now calls.old result calls.new }

    // Who has the key with no batch out still does.
    ensures free { IsFree (C.has_key calls.old) (C.shown calls.old) → IsFree (C.has_key calls.new) (C.shown calls.new) }
{
    for count in 0..u32::MAX {
        match deliver(alloc, calls, now) {
            Ok(true) => {}
            Ok(false) => return Ok(count),
            Err(fault) => return Err(fault),
        }
    }
    Ok(u32::MAX)
}
