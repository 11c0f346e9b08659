//! The last turns, once the source has no more.

ghost use Rattle.log_model.specs.Stored.{StaysOutside};
ghost use Rattle.segment_files.specs.Turn.{IsInside};
ghost use Rattle.worker_turns.specs.Acts.{IsFree, place_of, view_of, change_of};
ghost use Rattle.pipe_stream.specs.Piping.{Closes, CountsClosing};
ghost use Rattle.pipe_stream.specs.Serving.{point_at};
ghost use Rattle.pipe_stream.specs.Telling.{fault_counts};

use crate::request::ask_due;
use crate::stop::{Halt, Stop};
use broker_events::Calls;
use group_flush::Flusher;
use mq_outside::{Clock, Disk, Sink};
use std::alloc::Global;

/// Delivers and checks what is due at one more reading of the clock, flushes what is pending, and writes the check-backs that come of
/// it.
#[tactic(auto, using(log_model::proofs::OutsideLemmas::outside_start))]
pub(crate) fn close<C: Calls, D: Disk, K: Sink, T: Clock>(
    alloc: Global,
    calls: &mut C,
    flusher: &mut Flusher,
    disk: &mut D,
    asked: &mut u32,
    buffer: &mut Vec<u8>,
    sink: &mut K,
    clock: &mut T,
) -> Result<(), Halt>
    requires free { IsFree (C.has_key calls.old) (C.shown calls.old) }
    requires inside { D.tells → IsInside flusher.old.file.base flusher.old.file.offset (D.state disk.old) }
    ensures closed { Closes C.makes (view_of D.tells D.state D.faults D.syncs) K.tells T.tells result
        (change_of calls.old (point_at (place_of flusher.old.file disk.old) 0 (K.taken sink.old) (T.readings clock.old) asked.old)
        calls.new (point_at (place_of flusher.new.file disk.new) 0 (K.taken sink.new) (T.readings clock.new) asked.new)) }
    ensures cause { CountsClosing result (fault_counts (K.faults sink.old) (K.faults sink.new))
        (fault_counts (T.faults clock.old) (T.faults clock.new)) }
    ensures free { IsFree (C.has_key calls.new) (C.shown calls.new) }
    ensures inside { D.tells → IsInside flusher.new.file.base flusher.new.file.offset (D.state disk.new) }
    ensures outside { D.tells → StaysOutside (D.state disk.old) (D.state disk.new) }
{
    let Ok(now) = clock.now() else {
        return Err(Halt::Stopped(Stop::Clock));
    };
    match ask_due(alloc, calls, flusher, disk, asked, buffer, sink, now) {
        Ok(()) => Ok(()),
        Err(stop) => Err(Halt::Stopped(stop)),
    }
}
