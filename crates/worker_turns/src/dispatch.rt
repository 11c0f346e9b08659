//! A dispatch: consumers see flushed records more.

ghost use Rattle.std.specs.Prelude.{[], ◌∷◌, Some};
ghost use Rattle.broker_events.specs.Makes.{Makes};
ghost use Rattle.broker_events.specs.declared.event.Event.TheVariants.{Dispatch};
ghost use Rattle.broker_events.specs.declared.said.Said.TheVariants.{Moved};

use broker_events::{Calls, Event, Said};
use std::alloc::Global;

/// Makes one dispatch of at most so many records. Answers the number of records that consumers see. It takes no memory.
pub fn dispatch_turn<C: Calls>(alloc: Global, calls: &mut C, most: u32) -> u64
    ensures { Makes C.makes calls.old ((Dispatch most, Some (Moved result)) ∷ []) calls.new }
{
    let event = Event::Dispatch { most };
    let said = calls.call(alloc, &event);
    drop(event);
    match said {
        Ok(Said::Moved(number)) => number,
        Ok(_) | Err(_) => unreachable!(),
    }
}
