//! The clock of the machine.

ghost use Rattle.std.specs.Prelude.{◌≡◌, ◌<◌, ◌^◌, [], IfOk};

use crate::clock::Clock;
use crate::faults::Failed;
use mq_bytes::PLACE_END;
use std::rt;
use std::time::{SystemTime, UNIX_EPOCH};

/// The wall clock of the system `R`. A time before 1970, or 2^62 milliseconds or more after it, is a failure.
#[derive(Drop)]
pub struct MachineClock<R: rt::Clock + Drop> {
    rt: R,
    faults: u64,
}

// Milliseconds since 1970.
fn millis_of(rt: &impl rt::Clock) -> Result<u64, Failed>
    ensures small { IfOk result (λ millis. millis < 2 ^ 62) }
{
    let Ok(time) = SystemTime::now(rt) else {
        return Err(Failed);
    };
    let Ok(since) = time.duration_since(UNIX_EPOCH) else {
        return Err(Failed);
    };
    match u64::try_from(since.as_millis()) {
        Ok(millis) if millis < PLACE_END => Ok(millis),
        _ => Err(Failed),
    }
}

impl<R: rt::Clock + Drop> MachineClock<R> {
    /// The clock of this runtime.
    pub fn new(rt: R) -> MachineClock<R>
        ensures { result.faults ≡ 0 }
    {
        MachineClock { rt, faults: 0 }
    }
}

impl<R: rt::Clock + Drop> Clock for MachineClock<R> {
    ghost tells = { ⊥ };

    ghost readings = { λ _. [] };

    ghost faults = { λ s. s.faults };

    fn now(&mut self) -> Result<u64, Failed> {
        match millis_of(&self.rt) {
            Ok(now) => Ok(now),
            Err(Failed) => {
                self.faults = self.faults.saturating_add(1);
                Err(Failed)
            }
        }
    }
}
