//! What is outside a loop: what tells which of its links are ready, a clock, and the door, which one loop has.

ghost use Rattle.std.specs.Prelude.{◌≡◌, ◌<◌, ◌^◌, ◌++◌, ◌∷◌, [], IfOk, OnErr};
ghost use Rattle.event_loops.specs.Causes.{CountsLoop, CountsPoll, Grow, end_of_poll, loop_faults};

use crate::entrance::Entrance;
use crate::event_loop::LoopEnd;
use mq_outside::{Clock, DiskFault, Failed};
use mq_peers::{Event, Ready};

/// The token of the door.
pub(crate) const DOOR: u32 = u32::MAX;

/// What a loop asks: which of its links are ready, what time it is, and, where it has the door, who comes in.
#[derive(Drop)]
pub struct Outside<P: Ready + Drop, K: Clock + Drop> {
    pub ready: P,
    pub clock: K,
    /// One loop has the door.
    pub entrance: Option<Entrance<P>>,
}

// How a loop ends where its readiness fails.
fn end_of(fault: DiskFault) -> LoopEnd
    ensures { result ≡ end_of_poll fault }
{
    match fault {
        DiskFault::Failed => LoopEnd::Poll,
        DiskFault::Memory => LoopEnd::Memory,
    }
}

/// Has the door reported from now on, as a loop awaits it. The door is open.
pub fn watch_door<P: Ready>(ready: &mut P, door: &mut P::Door) -> Result<(), LoopEnd>
    ensures same { door.new ≡ door.old }
    ensures cause { CountsPoll result (P.faults ready.old) (P.faults ready.new) }
{
    match ready.register_door(door, DOOR) {
        Ok(()) => Ok(()),
        Err(fault) => Err(end_of(fault)),
    }
}

impl<P: Ready + Drop, K: Clock + Drop> Outside<P, K> {
    // What the clock says.
    pub(crate) fn now(&mut self) -> Result<u64, LoopEnd>
        ensures small { IfOk result (λ now. now < 2 ^ 62) }
        ensures gave { K.tells → IfOk result (λ now. K.readings self.new.clock ≡ K.readings self.old.clock ++ now ∷ []) }
        ensures entrance { self.new.entrance ≡ self.old.entrance }
        ensures still { K.tells → OnErr result (K.readings self.new.clock ≡ K.readings self.old.clock) }
        ensures cause { CountsLoop result (loop_faults P.faults P.Door.faults K.faults self.old)
            (loop_faults P.faults P.Door.faults K.faults self.new) }
    {
        match self.clock.now() {
            Ok(now) => Ok(now),
            Err(Failed) => Err(LoopEnd::Clock),
        }
    }

    // Reports the link under this token from now on. Answers whether it does.
    pub(crate) fn register(&mut self, link: &mut P::Link, token: u32) -> bool
        ensures same { link.new ≡ link.old }
        ensures clock { self.new.clock ≡ self.old.clock }
        ensures entrance { self.new.entrance ≡ self.old.entrance }
        ensures grow { Grow (loop_faults P.faults P.Door.faults K.faults self.old)
            (loop_faults P.faults P.Door.faults K.faults self.new) }
    {
        self.ready.register(link, token).is_ok()
    }

    // Waits for reports, so many milliseconds at most.
    pub(crate) fn wait(
        &mut self,
        timeout: Option<u64>,
        events: &mut Vec<Event>,
    ) -> Result<(), LoopEnd>
        ensures clock { self.new.clock ≡ self.old.clock }
        ensures entrance { self.new.entrance ≡ self.old.entrance }
        ensures cause { CountsLoop result (loop_faults P.faults P.Door.faults K.faults self.old)
            (loop_faults P.faults P.Door.faults K.faults self.new) }
    {
        match self.ready.wait(timeout, events) {
            Ok(()) => Ok(()),
            Err(fault) => Err(end_of(fault)),
        }
    }
}
