//! A flush turn: the batch that is pending is taken, written and synced, and then its records are flushed. Where the disk
//! fails they are pending again.

ghost use Rattle.std.specs.Prelude.{◌≡◌, ◌≢◌, Some, None, IfOk, OnErr};
ghost use Rattle.log_model.specs.Batches.{IsReceiptFor};
ghost use Rattle.log_model.specs.Stored.{StaysOutside};
ghost use Rattle.segment_files.specs.Turn.{IsInside, growing};
ghost use Rattle.broker_events.specs.Shown.{IsOut};
ghost use Rattle.broker_events.specs.declared.event.Event.TheVariants.{Take, Flushed, FlushFailed};
ghost use Rattle.broker_events.specs.declared.said.Said.TheVariants as said;
ghost use Rattle.worker_turns.specs.Turns.{TakesFrom, Writes, HasEnded, WroteNone, CountsEnd, synced_log};

use broker_events::{Calls, Event, Said};
use group_flush::Flusher;
use log_model::{Batch, Receipt};
use mq_outside::Disk;
use std::alloc::{AllocError, Global};

/// How a flush turn ended.
#[derive(Clone, Copy, Debug, PartialEq, Eq)]
pub enum FlushEnd {
    /// Nothing was pending.
    Idle,
    /// The batch is on the disk.
    Done,
    /// The disk failed, and counts so many faults. The records are pending still.
    Failed(u64),
    /// The batch doesn't begin where the flusher writes, so nothing was written. The records are pending still.
    Misplaced,
    /// Memory ran out before anything was taken.
    Memory,
}

// Takes the batch that is pending, if there is one.
fn take<C: Calls>(alloc: Global, calls: &mut C) -> Result<Option<Batch>, AllocError>
    requires { C.has_key calls.old }
    ensures batch { IfOk result (λ batch. C.makes calls.old Take (Some (said.Batch batch)) calls.new) }
    ensures memory { OnErr result (C.makes calls.old Take None calls.new) }
{
    let event = Event::Take;
    let said = calls.call(alloc, &event);
    drop(event);
    match said {
        Ok(Said::Batch(batch)) => Ok(batch),
        Ok(_) => unreachable!(),
        Err(fault) => Err(fault),
    }
}

// Tells that the batch that is out is on the disk.
fn tell_flushed<C: Calls>(alloc: Global, calls: &mut C, receipt: Receipt)
    requires key { C.has_key calls.old }
    requires out { IsOut (C.shown calls.old).out (λ batch. IsReceiptFor batch receipt) }
    ensures { C.makes calls.old (Flushed receipt) (Some said.Done) calls.new }
{
    let event = Event::Flushed(receipt);
    let said = calls.call(alloc, &event);
    drop(event);
    match said {
        Ok(said) => drop(said),
        Err(_) => unreachable!(),
    }
}

// Tells that it is not.
fn tell_failed<C: Calls>(alloc: Global, calls: &mut C, count: u64)
    requires key { C.has_key calls.old }
    requires out { IsOut (C.shown calls.old).out (λ batch. Unit {0}) }
    ensures { C.makes calls.old (FlushFailed count) (Some said.Done) calls.new }
{
    let event = Event::FlushFailed { count };
    let said = calls.call(alloc, &event);
    drop(event);
    match said {
        Ok(said) => drop(said),
        Err(_) => unreachable!(),
    }
}

/// One flush turn: takes the batch that is pending, writes and syncs it, and tells how that ended. Only `Take` takes memory.
pub fn flush_turn<C: Calls, D: Disk>(
    alloc: Global,
    calls: &mut C,
    flusher: &mut Flusher,
    disk: &mut D,
) -> FlushEnd
    requires key { C.has_key calls.old }
    requires none_out { (C.shown calls.old).out ≡ None }
    requires inside { D.tells → IsInside flusher.old.file.base flusher.old.file.offset (D.state disk.old) }

    // The steps that it made, and what its batch did to the disk.
    ensures ended { HasEnded C.makes
        (Writes D.tells (synced_log (growing flusher.old.file (D.state disk.old)) (D.syncs disk.old))
        (synced_log (growing flusher.new.file (D.state disk.new)) (D.syncs disk.new)))
        calls.old result calls.new }
    ensures rests { WroteNone result → (flusher.new ≡ flusher.old) × (disk.new ≡ disk.old) }
    ensures outside { D.tells → StaysOutside (D.state disk.old) (D.state disk.new) }

    // It can be made again.
    ensures key { C.has_key calls.new }
    ensures none_out { (C.shown calls.new).out ≡ None }
    ensures inside { D.tells → IsInside flusher.new.file.base flusher.new.file.offset (D.state disk.new) }

    // No batch is misplaced where each that can be taken is written from its place on.
    ensures placed { TakesFrom C.makes calls.old flusher.old.file → result ≢ FlushEnd.Misplaced }

    // It fails with the disk's count of faults, and only where that rose.
    ensures cause { CountsEnd result (D.faults disk.old) (D.faults disk.new) }
{
    let batch = match take(alloc, calls) {
        Ok(Some(batch)) => batch,
        Ok(None) => return FlushEnd::Idle,
        Err(_) => return FlushEnd::Memory,
    };
    if !flusher.goes_to(&batch) {
        tell_failed(alloc, calls, disk.fault_count());
        return FlushEnd::Misplaced;
    }
    match flusher.turn(disk, batch) {
        Ok(receipt) => {
            tell_flushed(alloc, calls, receipt);
            FlushEnd::Done
        }
        Err(fault) => {
            tell_failed(alloc, calls, fault.count);
            FlushEnd::Failed(fault.count)
        }
    }
}
