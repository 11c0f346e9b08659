//! A broker over an empty log, a message to send to it, and the number in what it says.

ghost use Rattle.std.specs.Prelude.{◌≡◌, None, IfSome, IsTrue};
ghost use Rattle.broker_events.specs.Shown.{Shown, Accepts};
ghost use Rattle.broker_events.specs.Steps.{IsKeyed};
ghost use Rattle.core_log.specs.Shows.{shown_of};

use broker_core::{Alone, Core};
use broker_events::{Calls, Event, Said, Setup, is_served};
use core_log::{Loaded, no_pieces};
use mq_bytes::Rows;
use remoting_frame::{Form, Frame, Header};
use request_fields::Request;
use spine::SpinePass;
use std::alloc::{AllocError, Global};
use std::sync::Wait;

const SETUP: Setup = Setup {
    segment: 1 << 20,
    host: [127, 0, 0, 1, 0, 0, 42, 159],
    sync: true,
};

// Of a message with no body for the queue 0 of a topic that is made with it.
const HEADER: &str =
    "{\"code\":10,\"opaque\":1,\"extFields\":{\"producerGroup\":\"G\",\"topic\":\"T\",\
\"defaultTopic\":\"TBW102\",\"defaultTopicQueueNums\":\"4\",\"queueId\":\"0\",\"sysFlag\":\"0\",\
\"bornTimestamp\":\"0\",\"flag\":\"0\",\"properties\":\"\"}}";

/// A broker over an empty log; none where memory runs out.
pub(crate) fn empty(alloc: Global) -> Option<Core>
    ensures { IfSome result (λ core. (shown_of core).out ≡ None) }
{
    match Loaded::new(alloc) {
        Ok(loaded) => Some(Core::open(alloc, SETUP, loaded, no_pieces(alloc))),
        Err(_) => None,
    }
}

fn frame(alloc: Global) -> Option<Frame> {
    match Header::read(alloc, Form::Json, HEADER.as_bytes()) {
        Ok(header) => Some(Frame {
            at: 0,
            form: Form::Json,
            header,
            body: Rows::of(Vec::new(alloc)),
        }),
        Err(_) => None,
    }
}

fn request(alloc: Global) -> Option<Request> {
    let frame = frame(alloc)?;
    Request::read(alloc, frame).ok()
}

/// The message, which each caller sends.
pub(crate) fn message(alloc: Global) -> Option<Event> {
    let request = request(alloc)?;
    Some(Event::Request {
        link: 0,
        host: [127, 0, 0, 1, 0, 0, 0, 1],
        now: 1 << 40,
        request,
    })
}

// Whether it may be given by any caller, at any time.
fn may_always(event: &Event) -> bool
    ensures accepted { IsTrue result → (shown : Shown) → Accepts shown event.now }
    ensures plain { IsTrue result → IsKeyed event.now → ⊥ }
{
    match event {
        Event::Request {
            link: _,
            host: _,
            now,
            request,
        } => *now < 1 << 62 && is_served(request),
        _ => false,
    }
}

// The number of the record that was sent, or how many records the batch has that was taken.
fn number_of(said: &Said) -> Option<u64> {
    match said {
        Said::After {
            reply: _,
            number,
            turn: _,
        } => Some(*number),
        Said::Batch(Some(batch)) => Some(batch.count),
        _ => None,
    }
}

fn number_in(answer: Result<Said, AllocError>) -> Option<u64> {
    let said = answer.ok()?;
    let number = number_of(&said);
    drop(said);
    number
}

/// Sends it, and answers the number of its record, if it has become one that waits for the disk.
pub(crate) fn send<R: Wait>(
    alloc: Global,
    calls: &mut SpinePass<'_, R>,
    event: &Event,
) -> Option<u64>
    ensures { calls.new.spine.now ≡ calls.old.spine.now }
{
    if !may_always(event) {
        return None;
    }
    number_in(calls.call(alloc, event))
}

/// How many records wait for the disk, if any does.
pub(crate) fn pending(alloc: Global, core: Core) -> Option<u64> {
    let mut alone = Alone::new(core);
    let count = number_in(alone.call(alloc, &Event::Take));
    drop(alone);
    count
}
