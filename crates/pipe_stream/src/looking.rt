//! What is told of a request whose record has to be on the disk first.

ghost use Rattle.std.specs.Prelude.{Some};
ghost use Rattle.log_model.specs.Stored.{StaysOutside};
ghost use Rattle.segment_files.specs.Turn.{IsInside};
ghost use Rattle.broker_events.specs.declared.event.Event.TheVariants.{Look};
ghost use Rattle.broker_events.specs.declared.said.Said.TheVariants as said;
ghost use Rattle.worker_turns.specs.Acts.{IsFree, Acted, place_of, view_of, change_of};
ghost use Rattle.pipe_stream.specs.Asking.{Looks, Tells};

use broker_events::{Awaited, Calls};
use group_flush::Flusher;
use mq_outside::Disk;
use reply_fields::Reply;
use session::{Awaits, look, not_flushed};
use std::alloc::Global;
use worker_turns::{Broken, flush_and_dispatch};

// One look at the record.
fn look_at<C: Calls>(alloc: Global, calls: &mut C, awaits: Awaits) -> Awaited
    requires free { IsFree (C.has_key calls.old) (C.shown calls.old) }
    ensures made { C.makes calls.old (Look awaits.number awaits.turn) (Some (said.Awaited result)) calls.new }
    ensures free { IsFree (C.has_key calls.new) (C.shown calls.new) }
{
    look(alloc, calls, awaits)
}

// The reply, by what became of the record. A record that is pending still, without a turn that failed, was left so for want of
// memory.
fn tell(alloc: Global, what: Awaited, reply: Reply) -> Result<Reply, Broken>
    ensures { Tells what reply result }
{
    match what {
        Awaited::Flushed => Ok(reply),
        Awaited::Failed { count } => match not_flushed(alloc, reply, count) {
            Ok(told) => Ok(told),
            Err(_) => Err(Broken::Memory),
        },
        Awaited::NotYet => Err(Broken::Memory),
    }
}

/// Makes flush turns until nothing is pending or one fails, and tells what became of the record.
#[tactic(auto, using(log_model::proofs::OutsideLemmas::outside_start))]
pub fn flush_and_look<C: Calls, D: Disk>(
    alloc: Global,
    calls: &mut C,
    flusher: &mut Flusher,
    disk: &mut D,
    reply: Reply,
    awaits: Awaits,
) -> Result<Reply, Broken>
    requires free { IsFree (C.has_key calls.old) (C.shown calls.old) }
    requires inside { D.tells → IsInside flusher.old.file.base flusher.old.file.offset (D.state disk.old) }
    ensures acted { Acted C.makes (view_of D.tells D.state D.faults D.syncs) (Looks reply awaits result)
        (change_of calls.old (place_of flusher.old.file disk.old)
        calls.new (place_of flusher.new.file disk.new)) }
    ensures free { IsFree (C.has_key calls.new) (C.shown calls.new) }
    ensures inside { D.tells → IsInside flusher.new.file.base flusher.new.file.offset (D.state disk.new) }
    ensures outside { D.tells → StaysOutside (D.state disk.old) (D.state disk.new) }
{
    match flush_and_dispatch(alloc, calls, flusher, disk) {
        Err(fault) => Err(fault),
        Ok(()) => {
            let what = look_at(alloc, calls, awaits);
            tell(alloc, what, reply)
        }
    }
}
