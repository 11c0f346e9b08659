//! What the core answers to an event.

ghost use Rattle.std.specs.Prelude.{◌≡◌, true, Option, None};
ghost use Rattle.broker_events.specs.Shown.{Shown, Accepts, moved};
ghost use Rattle.broker_events.specs.declared.said.Said.{Said as ASaid};
ghost use Rattle.core_log.specs.Shows.{shown_of};

use crate::events::{What, event_of};
use crate::words::put_said;
use broker_core::Alone;
use broker_events::{Calls, Event, is_served};
use std::alloc::Global;
use std::test::Fail;

// The event is none of a flush turn, and the core answers it.
fn is_answered(event: &Event) -> bool
    ensures accepted { result ≡ true → (shown : Shown) → Accepts shown event.now }
    ensures stays { result ≡ true → (shown : Shown) (what : Option ASaid) → moved shown event.now what ≡ shown }
{
    match event {
        Event::Request { now, request, .. } => *now < 1 << 62 && is_served(request),
        Event::Deliver { now } | Event::Check { now } => *now < 1 << 62,
        Event::Look { .. } | Event::Dispatch { .. } | Event::Leave { .. } => true,
        Event::Take | Event::Flushed(_) | Event::FlushFailed { .. } => false,
    }
}

// What the core says to an event that it answers.
fn give(alloc: Global, alone: &mut Alone, event: &Event) -> Result<String, Fail>
    requires accepted { (shown : Shown) → Accepts shown event.now }
    requires stays { (shown : Shown) (what : Option ASaid) → moved shown event.now what ≡ shown }
    requires none_out { (shown_of alone.old.core).out ≡ None }
    ensures none_out { (shown_of alone.new.core).out ≡ None }
{
    let mut words = String::new(alloc);
    let said = alone.call(alloc, event)?;
    let put = put_said(&mut words, &said);
    drop(said);
    put?;
    Ok(words)
}

// The same, where it answers it.
fn told(alloc: Global, alone: &mut Alone, event: &Event) -> Result<String, Fail>
    requires none_out { (shown_of alone.old.core).out ≡ None }
    ensures none_out { (shown_of alone.new.core).out ≡ None }
{
    if !is_answered(event) {
        return Err(Fail::from("the core doesn't answer it"));
    }
    give(alloc, alone, event)
}

/// What the core says to this at this reading of the clock, in words.
pub(crate) fn tell(alloc: Global, alone: &mut Alone, now: u64, what: &What) -> Result<String, Fail>
    requires none_out { (shown_of alone.old.core).out ≡ None }
    ensures none_out { (shown_of alone.new.core).out ≡ None }
{
    let event = event_of(alloc, now, what)?;
    let words = told(alloc, alone, &event);
    drop(event);
    words
}
