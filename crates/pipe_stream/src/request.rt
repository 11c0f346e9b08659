//! Serves one request: it is given to the broker, its record is flushed where the answer waits for it, and it is answered.

ghost use Rattle.std.specs.Prelude.{◌≡◌, ◌<◌, ◌^◌, ℕ, [], Some, None};
ghost use Rattle.log_model.specs.Stored.{StaysOutside};
ghost use Rattle.segment_files.specs.Turn.{IsInside};
ghost use Rattle.remoting_frame.specs.declared.frame.Frame.{Frame};
ghost use Rattle.session.specs.Hearing.{IsHeard};
ghost use Rattle.pipe_stream.specs.declared.answer.Answer.{Answer as AnAnswer};
ghost use Rattle.worker_turns.specs.Acts.{IsFree, place_of, view_of, change_of};
ghost use Rattle.pipe_stream.specs.Telling.{CountsTelling};
ghost use Rattle.pipe_stream.specs.Serving.{Answers, AsksFirst, AnswersHeard, ServesAt, sides_of, point_of, point_at};

use crate::answer::Answer;
use crate::asking::give_request;
use crate::looking::flush_and_look;
use crate::stop::{Stop, stop_of};
use crate::telling::{tell, write_asks};
use broker_events::Calls;
use group_flush::Flusher;
use mq_outside::{Disk, Reader, Sink};
use reply_fields::Reply;
use session::{Awaits, Caller, Heard};
use std::alloc::Global;
use worker_turns::{due_asks, flush_and_dispatch};

// Tells a reply that waits for nothing. What it appended is flushed behind it.
#[tactic(auto, using(log_model::proofs::OutsideLemmas::outside_start))]
fn tell_at_once<C: Calls, D: Disk, R: Reader, K: Sink>(
    alloc: Global,
    calls: &mut C,
    flusher: &mut Flusher,
    disk: &mut D,
    reader: &mut R,
    buffer: &mut Vec<u8>,
    sink: &mut K,
    caller: Caller,
    reply: Reply,
) -> Result<(), Stop>
    requires free { IsFree (C.has_key calls.old) (C.shown calls.old) }
    requires inside { D.tells → IsInside flusher.old.file.base flusher.old.file.offset (D.state disk.old) }
    ensures answered { (answer : AnAnswer) → answer ≡ record { reply = reply; awaits = None }
        → Answers (sides_of C.makes R.gives (view_of D.tells D.state D.faults D.syncs) K.tells (Unit {0})) caller answer result
        (change_of calls.old (point_of (place_of flusher.old.file disk.old)
        (R.faults reader.old) (K.taken sink.old) [])
        calls.new (point_of (place_of flusher.new.file disk.new)
        (R.faults reader.new) (K.taken sink.new) [])) }
    ensures free { IsFree (C.has_key calls.new) (C.shown calls.new) }
    ensures inside { D.tells → IsInside flusher.new.file.base flusher.new.file.offset (D.state disk.new) }
    ensures outside { D.tells → StaysOutside (D.state disk.old) (D.state disk.new) }
    ensures cause { CountsTelling result (K.faults sink.old) (K.faults sink.new) }
{
    match tell(alloc, caller, reply, reader, buffer, sink) {
        Err(stop) => Err(stop),
        Ok(()) => match flush_and_dispatch(alloc, calls, flusher, disk) {
            Ok(()) => Ok(()),
            Err(broken) => Err(stop_of(broken)),
        },
    }
}

// Tells a reply once flush turns were made, by what became of its record.
#[tactic(auto, using(log_model::proofs::OutsideLemmas::outside_start))]
fn tell_behind<C: Calls, D: Disk, R: Reader, K: Sink>(
    alloc: Global,
    calls: &mut C,
    flusher: &mut Flusher,
    disk: &mut D,
    reader: &mut R,
    buffer: &mut Vec<u8>,
    sink: &mut K,
    caller: Caller,
    reply: Reply,
    awaits: Awaits,
) -> Result<(), Stop>
    requires free { IsFree (C.has_key calls.old) (C.shown calls.old) }
    requires inside { D.tells → IsInside flusher.old.file.base flusher.old.file.offset (D.state disk.old) }
    ensures answered { (answer : AnAnswer) → answer ≡ record { reply = reply; awaits = Some awaits }
        → Answers (sides_of C.makes R.gives (view_of D.tells D.state D.faults D.syncs) K.tells (Unit {0})) caller answer result
        (change_of calls.old (point_of (place_of flusher.old.file disk.old)
        (R.faults reader.old) (K.taken sink.old) [])
        calls.new (point_of (place_of flusher.new.file disk.new)
        (R.faults reader.new) (K.taken sink.new) [])) }
    ensures free { IsFree (C.has_key calls.new) (C.shown calls.new) }
    ensures inside { D.tells → IsInside flusher.new.file.base flusher.new.file.offset (D.state disk.new) }
    ensures outside { D.tells → StaysOutside (D.state disk.old) (D.state disk.new) }
    ensures cause { CountsTelling result (K.faults sink.old) (K.faults sink.new) }
{
    match flush_and_look(alloc, calls, flusher, disk, reply, awaits) {
        Err(broken) => Err(stop_of(broken)),
        Ok(told) => tell(alloc, caller, told, reader, buffer, sink),
    }
}

// Tells an answer.
#[tactic(auto, using(log_model::proofs::OutsideLemmas::outside_start))]
fn answer_request<C: Calls, D: Disk, R: Reader, K: Sink>(
    alloc: Global,
    calls: &mut C,
    flusher: &mut Flusher,
    disk: &mut D,
    reader: &mut R,
    buffer: &mut Vec<u8>,
    sink: &mut K,
    caller: Caller,
    answer: Answer,
) -> Result<(), Stop>
    requires free { IsFree (C.has_key calls.old) (C.shown calls.old) }
    requires inside { D.tells → IsInside flusher.old.file.base flusher.old.file.offset (D.state disk.old) }
    ensures answered { Answers (sides_of C.makes R.gives (view_of D.tells D.state D.faults D.syncs) K.tells (Unit {0})) caller answer result
        (change_of calls.old (point_of (place_of flusher.old.file disk.old)
        (R.faults reader.old) (K.taken sink.old) [])
        calls.new (point_of (place_of flusher.new.file disk.new)
        (R.faults reader.new) (K.taken sink.new) [])) }
    ensures free { IsFree (C.has_key calls.new) (C.shown calls.new) }
    ensures inside { D.tells → IsInside flusher.new.file.base flusher.new.file.offset (D.state disk.new) }
    ensures outside { D.tells → StaysOutside (D.state disk.old) (D.state disk.new) }
    ensures cause { CountsTelling result (K.faults sink.old) (K.faults sink.new) }
{
    let Answer { reply, awaits } = answer;
    match awaits {
        None => tell_at_once(
            alloc, calls, flusher, disk, reader, buffer, sink, caller, reply,
        ),
        Some(awaits) => tell_behind(
            alloc, calls, flusher, disk, reader, buffer, sink, caller, reply, awaits,
        ),
    }
}

// Does what is due at this reading of the clock, and flushes it. Writes the check-backs that come of it.
#[tactic(auto, using(log_model::proofs::OutsideLemmas::outside_start))]
pub(crate) fn ask_due<C: Calls, D: Disk, K: Sink>(
    alloc: Global,
    calls: &mut C,
    flusher: &mut Flusher,
    disk: &mut D,
    asked: &mut u32,
    buffer: &mut Vec<u8>,
    sink: &mut K,
    now: u64,
) -> Result<(), Stop>
    requires now { now < 2 ^ 62 }
    requires free { IsFree (C.has_key calls.old) (C.shown calls.old) }
    requires inside { D.tells → IsInside flusher.old.file.base flusher.old.file.offset (D.state disk.old) }
    ensures asked { (reads : ℕ) → AsksFirst C.makes (view_of D.tells D.state D.faults D.syncs) K.tells now result
        (change_of calls.old (point_at (place_of flusher.old.file disk.old) reads (K.taken sink.old) [] asked.old)
        calls.new (point_at (place_of flusher.new.file disk.new) reads (K.taken sink.new) [] asked.new)) }
    ensures free { IsFree (C.has_key calls.new) (C.shown calls.new) }
    ensures inside { D.tells → IsInside flusher.new.file.base flusher.new.file.offset (D.state disk.new) }
    ensures outside { D.tells → StaysOutside (D.state disk.old) (D.state disk.new) }
    ensures cause { CountsTelling result (K.faults sink.old) (K.faults sink.new) }
{
    match due_asks(alloc, calls, flusher, disk, now) {
        Err(broken) => Err(stop_of(broken)),
        Ok(asks) => write_asks(alloc, asks.as_slice(), asked, buffer, sink),
    }
}

// Gives the request to the broker and tells its answer.
#[tactic(auto, using(log_model::proofs::OutsideLemmas::outside_start))]
fn answer_heard<C: Calls, D: Disk, R: Reader, K: Sink>(
    alloc: Global,
    calls: &mut C,
    flusher: &mut Flusher,
    disk: &mut D,
    reader: &mut R,
    buffer: &mut Vec<u8>,
    sink: &mut K,
    now: u64,
    heard: Heard,
) -> Result<(), Stop>
    requires now { now < 2 ^ 62 }
    requires free { IsFree (C.has_key calls.old) (C.shown calls.old) }
    requires inside { D.tells → IsInside flusher.old.file.base flusher.old.file.offset (D.state disk.old) }
    ensures answered { (frame : Frame) → IsHeard heard frame
        → AnswersHeard (sides_of C.makes R.gives (view_of D.tells D.state D.faults D.syncs) K.tells (Unit {0})) frame now result
        (change_of calls.old (point_of (place_of flusher.old.file disk.old)
        (R.faults reader.old) (K.taken sink.old) [])
        calls.new (point_of (place_of flusher.new.file disk.new)
        (R.faults reader.new) (K.taken sink.new) [])) }
    ensures free { IsFree (C.has_key calls.new) (C.shown calls.new) }
    ensures inside { D.tells → IsInside flusher.new.file.base flusher.new.file.offset (D.state disk.new) }
    ensures outside { D.tells → StaysOutside (D.state disk.old) (D.state disk.new) }
    ensures cause { CountsTelling result (K.faults sink.old) (K.faults sink.new) }
{
    let caller = heard.caller();
    let Heard {
        form: _,
        code,
        opaque: _,
        one_way: _,
        request,
    } = heard;
    match give_request(alloc, calls, flusher, disk, now, code, request) {
        Err(broken) => Err(stop_of(broken)),
        Ok(answer) => answer_request(
            alloc, calls, flusher, disk, reader, buffer, sink, caller, answer,
        ),
    }
}

/// Serves a request at this reading of the clock, in milliseconds. What is due then is delivered and checked, what is still pending
/// flushed, and the check-backs that come of it are written before.
#[tactic(auto, using(log_model::proofs::OutsideLemmas::outside_start))]
pub(crate) fn serve_at<C: Calls, D: Disk, R: Reader, K: Sink>(
    alloc: Global,
    calls: &mut C,
    flusher: &mut Flusher,
    disk: &mut D,
    reader: &mut R,
    asked: &mut u32,
    buffer: &mut Vec<u8>,
    sink: &mut K,
    now: u64,
    heard: Heard,
) -> Result<(), Stop>
    requires now { now < 2 ^ 62 }
    requires free { IsFree (C.has_key calls.old) (C.shown calls.old) }
    requires inside { D.tells → IsInside flusher.old.file.base flusher.old.file.offset (D.state disk.old) }
    ensures served { (frame : Frame) → IsHeard heard frame
        → ServesAt (sides_of C.makes R.gives (view_of D.tells D.state D.faults D.syncs) K.tells (Unit {0})) frame now result
        (change_of calls.old (point_at (place_of flusher.old.file disk.old)
        (R.faults reader.old) (K.taken sink.old) [] asked.old)
        calls.new (point_at (place_of flusher.new.file disk.new)
        (R.faults reader.new) (K.taken sink.new) [] asked.new)) }
    ensures free { IsFree (C.has_key calls.new) (C.shown calls.new) }
    ensures inside { D.tells → IsInside flusher.new.file.base flusher.new.file.offset (D.state disk.new) }
    ensures outside { D.tells → StaysOutside (D.state disk.old) (D.state disk.new) }
    ensures cause { CountsTelling result (K.faults sink.old) (K.faults sink.new) }
{
    match ask_due(alloc, calls, flusher, disk, asked, buffer, sink, now) {
        Err(stop) => Err(stop),
        Ok(()) => answer_heard(
            alloc, calls, flusher, disk, reader, buffer, sink, now, heard,
        ),
    }
}
