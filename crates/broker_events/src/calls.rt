//! Who makes events happen: a broker alone, or a caller of many on a shared one. Code that is generic over `Calls` says which
//! steps it made, and is proved once for both.

ghost use Rattle.std.specs.Prelude.{◌≡◌, IfOk, OnErr, Option};
ghost use Rattle.broker_events.specs.declared.event.Event.{Event as AnEvent};
ghost use Rattle.broker_events.specs.declared.said.Said.{Said as ASaid};
ghost use Rattle.broker_events.specs.Steps.{IsAnswerTo, IsKeyed, MayTakeMemory, said_in};
ghost use Rattle.broker_events.specs.Shown.{Shown, Accepts, moved};

use crate::event::Event;
use crate::said::Said;
use std::alloc::{AllocError, Global};

/// An object that makes steps of the broker.
pub trait Calls {
    // One step: the object before, the event, what was said (nothing where memory ran out), and the object after.
    ghost makes: { Self → AnEvent → Option ASaid → Self → Type 0 };

    // The object may take batches and end flush turns.
    ghost has_key: { Self → Type 0 };

    // What an object with the key shows: the end of the flushed records, and the batch that is out.
    ghost shown: { Self → Shown };

    /// Makes one step. It runs out of memory only at a request and at `Take`, and changes nothing then.
    fn call(&mut self, alloc: Global, event: &Event) -> Result<Said, AllocError>
        requires key { IsKeyed event.now → has_key self.old }
        requires accepted { Accepts (shown self.old) event.now }
        ensures makes { makes self.old event.now (said_in result) self.new }
        ensures answer { IfOk result (IsAnswerTo event.now) }
        ensures memory { OnErr result (MayTakeMemory event.now) };

    // No step takes the key away.
    ghost key_stays: { (x : Self) (event : AnEvent) (said : Option ASaid) (y : Self) → makes x event said y → has_key x → has_key y };

    // Who has the key sees what is shown change by its own steps alone.
    ghost shown_moves: { (x : Self) (event : AnEvent) (said : Option ASaid) (y : Self) → makes x event said y → has_key x
        → shown y ≡ moved (shown x) event said };
}
