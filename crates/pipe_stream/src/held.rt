//! Serves the requests among the frames that are held.

ghost use Rattle.std.specs.Prelude.{◌≡◌, ◌∷◌, [], false};
ghost use Rattle.remoting_frame.specs.declared.frame.Frame.{Frame};
ghost use Rattle.log_model.specs.Stored.{StaysOutside};
ghost use Rattle.segment_files.specs.Turn.{IsInside};
ghost use Rattle.session.specs.Hearing.{IsHeard, is_response};
ghost use Rattle.worker_turns.specs.Acts.{IsFree, place_of, view_of, change_of};
ghost use Rattle.pipe_stream.specs.Serving.{Serves, sides_of, point_at};
ghost use Rattle.pipe_stream.specs.Piping.{halt_of as halt_of_fault, CountsStop, CountsHalt, NextHeard, ServesHeld};
ghost use Rattle.pipe_stream.specs.Telling.{fault_counts};

use crate::request::serve_at;
use crate::stop::{Halt, Stop};
use broker_events::Calls;
use group_flush::Flusher;
use mq_outside::{Clock, Disk, Reader, Sink};
use remoting_frame::FrameFault;
use session::{Heard, Talk};
use std::alloc::Global;

fn halt_of(fault: FrameFault) -> Halt
    ensures { result ≡ halt_of_fault fault }
{
    match fault {
        FrameFault::BadLength(at) | FrameFault::BadForm(at) | FrameFault::BadHeader(at) => {
            Halt::BadFrame(at)
        }
        FrameFault::Memory => Halt::Stopped(Stop::Memory),
    }
}

// The next request, or `None` where no whole one is held.
fn next_heard(alloc: Global, talk: &mut Talk) -> Result<Option<Heard>, Halt>
    ensures { NextHeard talk.old.cutter result talk.new.cutter }
{
    match talk.next(alloc) {
        Ok(heard) => Ok(heard),
        Err(fault) => Err(halt_of(fault)),
    }
}

// Serves a request at the reading of the clock that is taken for it.
#[tactic(auto, using(log_model::proofs::OutsideLemmas::outside_start))]
fn serve_heard<C: Calls, D: Disk, R: Reader, K: Sink, T: Clock>(
    alloc: Global,
    calls: &mut C,
    flusher: &mut Flusher,
    disk: &mut D,
    reader: &mut R,
    asked: &mut u32,
    buffer: &mut Vec<u8>,
    sink: &mut K,
    clock: &mut T,
    heard: Heard,
) -> Result<(), Stop>
    requires free { IsFree (C.has_key calls.old) (C.shown calls.old) }
    requires inside { D.tells → IsInside flusher.old.file.base flusher.old.file.offset (D.state disk.old) }
    ensures served { (frame : Frame) → IsHeard heard frame → is_response frame.header ≡ false
        → Serves (sides_of C.makes R.gives (view_of D.tells D.state D.faults D.syncs) K.tells T.tells) result (frame ∷ [])
        (change_of calls.old (point_at (place_of flusher.old.file disk.old)
        (R.faults reader.old) (K.taken sink.old) (T.readings clock.old) asked.old)
        calls.new (point_at (place_of flusher.new.file disk.new)
        (R.faults reader.new) (K.taken sink.new) (T.readings clock.new) asked.new)) }
    ensures cause { CountsStop result (fault_counts (K.faults sink.old) (K.faults sink.new))
        (fault_counts (T.faults clock.old) (T.faults clock.new)) }
    ensures free { IsFree (C.has_key calls.new) (C.shown calls.new) }
    ensures inside { D.tells → IsInside flusher.new.file.base flusher.new.file.offset (D.state disk.new) }
    ensures outside { D.tells → StaysOutside (D.state disk.old) (D.state disk.new) }
{
    let Ok(now) = clock.now() else {
        return Err(Stop::Clock);
    };
    serve_at(
        alloc, calls, flusher, disk, reader, asked, buffer, sink, now, heard,
    )
}

/// Serves the requests among the frames that are held, up to one that isn't whole.
#[tactic(auto, using(log_model::proofs::OutsideLemmas::outside_start))]
pub(crate) fn serve_held<C: Calls, D: Disk, R: Reader, K: Sink, T: Clock>(
    alloc: Global,
    talk: &mut Talk,
    calls: &mut C,
    flusher: &mut Flusher,
    disk: &mut D,
    reader: &mut R,
    asked: &mut u32,
    buffer: &mut Vec<u8>,
    sink: &mut K,
    clock: &mut T,
) -> Result<(), Halt>
    requires free { IsFree (C.has_key calls.old) (C.shown calls.old) }
    requires inside { D.tells → IsInside flusher.old.file.base flusher.old.file.offset (D.state disk.old) }
    ensures served { ServesHeld (sides_of C.makes R.gives (view_of D.tells D.state D.faults D.syncs) K.tells T.tells) result
        talk.old.cutter talk.new.cutter
        (change_of calls.old (point_at (place_of flusher.old.file disk.old)
        (R.faults reader.old) (K.taken sink.old) (T.readings clock.old) asked.old)
        calls.new (point_at (place_of flusher.new.file disk.new)
        (R.faults reader.new) (K.taken sink.new) (T.readings clock.new) asked.new)) }
    ensures cause { CountsHalt result (fault_counts (K.faults sink.old) (K.faults sink.new))
        (fault_counts (T.faults clock.old) (T.faults clock.new)) }
    ensures free { IsFree (C.has_key calls.new) (C.shown calls.new) }
    ensures inside { D.tells → IsInside flusher.new.file.base flusher.new.file.offset (D.state disk.new) }
    ensures outside { D.tells → StaysOutside (D.state disk.old) (D.state disk.new) }
{
    loop {
        let heard = match next_heard(alloc, talk) {
            Err(halt) => return Err(halt),
            Ok(None) => return Ok(()),
            Ok(Some(heard)) => heard,
        };
        match serve_heard(
            alloc, calls, flusher, disk, reader, asked, buffer, sink, clock, heard,
        ) {
            Err(stop) => return Err(Halt::Stopped(stop)),
            Ok(()) => {}
        }
    }
}
