//! Flush turns, one after another, until nothing is pending or one failed.

ghost use Rattle.std.specs.Prelude.{◌≡◌, ◌≢◌};
ghost use Rattle.log_model.specs.Stored.{StaysOutside};
ghost use Rattle.segment_files.specs.Turn.{IsInside};
ghost use Rattle.worker_turns.specs.Turns.{CountsEnd, TakesFrom};
ghost use Rattle.worker_turns.specs.Acts.{IsFree, Acted, place_of, view_of, change_of};
ghost use Rattle.worker_turns.specs.Turning.{IsTurn, AreAllTurns, AllTurnsDispatched, IsDispatch, CountsAll};

use crate::broken::Broken;
use crate::dispatch::dispatch_turn;
use crate::flush::{FlushEnd, flush_turn};
use broker_events::Calls;
use group_flush::Flusher;
use mq_outside::Disk;
use std::alloc::Global;

/// One flush turn.
pub fn turn<C: Calls, D: Disk>(
    alloc: Global,
    calls: &mut C,
    flusher: &mut Flusher,
    disk: &mut D,
) -> FlushEnd
    requires free { IsFree (C.has_key calls.old) (C.shown calls.old) }
    requires inside { D.tells → IsInside flusher.old.file.base flusher.old.file.offset (D.state disk.old) }
    ensures acted { Acted C.makes (view_of D.tells D.state D.faults D.syncs) (IsTurn result)
        (change_of calls.old (place_of flusher.old.file disk.old)
        calls.new (place_of flusher.new.file disk.new)) }
    ensures free { IsFree (C.has_key calls.new) (C.shown calls.new) }
    ensures inside { D.tells → IsInside flusher.new.file.base flusher.new.file.offset (D.state disk.new) }
    ensures outside { D.tells → StaysOutside (D.state disk.old) (D.state disk.new) }
    ensures placed { TakesFrom C.makes calls.old flusher.old.file → result ≢ FlushEnd.Misplaced }
    ensures cause { CountsEnd result (D.faults disk.old) (D.faults disk.new) }
{
    flush_turn(alloc, calls, flusher, disk)
}

/// Makes flush turns until nothing is pending, or one fails: then its count of the disk's faults is answered.
#[tactic(auto, using(log_model::proofs::OutsideLemmas::outside_start))]
pub fn flush_all<C: Calls, D: Disk>(
    alloc: Global,
    calls: &mut C,
    flusher: &mut Flusher,
    disk: &mut D,
) -> Result<Option<u64>, Broken>
    requires free { IsFree (C.has_key calls.old) (C.shown calls.old) }
    requires inside { D.tells → IsInside flusher.old.file.base flusher.old.file.offset (D.state disk.old) }
    ensures acted { Acted C.makes (view_of D.tells D.state D.faults D.syncs) (AreAllTurns result)
        (change_of calls.old (place_of flusher.old.file disk.old)
        calls.new (place_of flusher.new.file disk.new)) }
    ensures free { IsFree (C.has_key calls.new) (C.shown calls.new) }
    ensures inside { D.tells → IsInside flusher.new.file.base flusher.new.file.offset (D.state disk.new) }
    ensures outside { D.tells → StaysOutside (D.state disk.old) (D.state disk.new) }
    ensures cause { CountsAll result (D.faults disk.old) (D.faults disk.new) }
{
    for _i in 0..u64::MAX {
        match turn(alloc, calls, flusher, disk) {
            FlushEnd::Idle => return Ok(None),
            FlushEnd::Failed(count) => return Ok(Some(count)),
            FlushEnd::Misplaced => return Err(Broken::Misplaced),
            FlushEnd::Memory => return Err(Broken::Memory),
            FlushEnd::Done => {}
        }
    }
    Err(Broken::Memory)
}

// Consumers see what is flushed.
fn dispatch<C: Calls>(alloc: Global, calls: &mut C)
    requires free { IsFree (C.has_key calls.old) (C.shown calls.old) }
    ensures acted { IsDispatch C.makes calls.old calls.new }
    ensures free { IsFree (C.has_key calls.new) (C.shown calls.new) }
{
    dispatch_turn(alloc, calls, u32::MAX);
}

/// Makes flush turns until nothing is pending or one fails, and then consumers see what is flushed.
#[tactic(auto, using(log_model::proofs::OutsideLemmas::outside_start))]
pub fn flush_and_dispatch<C: Calls, D: Disk>(
    alloc: Global,
    calls: &mut C,
    flusher: &mut Flusher,
    disk: &mut D,
) -> Result<(), Broken>
    requires free { IsFree (C.has_key calls.old) (C.shown calls.old) }
    requires inside { D.tells → IsInside flusher.old.file.base flusher.old.file.offset (D.state disk.old) }
    ensures acted { Acted C.makes (view_of D.tells D.state D.faults D.syncs) (AllTurnsDispatched result)
        (change_of calls.old (place_of flusher.old.file disk.old)
        calls.new (place_of flusher.new.file disk.new)) }
    ensures free { IsFree (C.has_key calls.new) (C.shown calls.new) }
    ensures inside { D.tells → IsInside flusher.new.file.base flusher.new.file.offset (D.state disk.new) }
    ensures outside { D.tells → StaysOutside (D.state disk.old) (D.state disk.new) }
{
    match flush_all(alloc, calls, flusher, disk) {
        Err(fault) => Err(fault),
        Ok(_failed) => {
            dispatch(alloc, calls);
            Ok(())
        }
    }
}
