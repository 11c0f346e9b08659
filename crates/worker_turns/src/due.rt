//! What is due at a reading of the clock: deliveries and checks, flush turns behind them, and the asks that may be told then.

ghost use Rattle.std.specs.Prelude.{◌≡◌, ◌<◌, ◌^◌};
ghost use Rattle.log_model.specs.Stored.{StaysOutside};
ghost use Rattle.segment_files.specs.Turn.{IsInside};
ghost use Rattle.worker_turns.specs.Acts.{IsFree, Acted, place_of, view_of, change_of};
ghost use Rattle.worker_turns.specs.Due.{AreDelayActs, AreCheckActs, DueTurns, DueAsks, LooksFor};

use crate::broken::Broken;
use crate::checks::{check_turn, ripe_asks};
use crate::delays::delay_turn;
use crate::turning::flush_and_dispatch;
use broker_events::Calls;
use group_flush::Flusher;
use mq_outside::Disk;
use reply_fields::Ask;
use std::alloc::{AllocError, Global};

// Delivers what is due. The disk stays as it is.
fn deliver_due<C: Calls, D: Disk>(
    alloc: Global,
    calls: &mut C,
    flusher: &Flusher,
    disk: &D,
    now: u64,
) -> Result<u32, AllocError>
    requires now { now < 2 ^ 62 }
    requires free { IsFree (C.has_key calls.old) (C.shown calls.old) }
    ensures acted { Acted C.makes (view_of D.tells D.state D.faults D.syncs) (AreDelayActs now result)
        (change_of calls.old (place_of flusher.now.file disk.now)
        calls.new (place_of flusher.now.file disk.now)) }
    ensures free { IsFree (C.has_key calls.new) (C.shown calls.new) }
{
    delay_turn(alloc, calls, now)
}

// Checks the origins that are due. The disk stays as it is.
fn check_due<C: Calls, D: Disk>(
    alloc: Global,
    calls: &mut C,
    flusher: &Flusher,
    disk: &D,
    now: u64,
    held: &mut Vec<(u64, Ask)>,
) -> Result<u32, AllocError>
    requires now { now < 2 ^ 62 }
    requires free { IsFree (C.has_key calls.old) (C.shown calls.old) }
    ensures acted { Acted C.makes (view_of D.tells D.state D.faults D.syncs) (AreCheckActs now held.old.items result held.new.items)
        (change_of calls.old (place_of flusher.now.file disk.now)
        calls.new (place_of flusher.now.file disk.now)) }
    ensures free { IsFree (C.has_key calls.new) (C.shown calls.new) }
{
    check_turn(alloc, calls, now, held)
}

/// Delivers what is due at this reading of the clock, in milliseconds, checks the half messages that are due, makes flush turns until
/// nothing is pending or one fails, and then consumers see what is flushed. What found no room among the pending bytes is left to the
/// next call. Who is to be asked is held, with the number of the record that has to be on the disk first.
#[tactic(auto, using(log_model::proofs::OutsideLemmas::outside_start))]
pub fn due_turns<C: Calls, D: Disk>(
    alloc: Global,
    calls: &mut C,
    flusher: &mut Flusher,
    disk: &mut D,
    now: u64,
    held: &mut Vec<(u64, Ask)>,
) -> Result<(), Broken>
    requires now { now < 2 ^ 62 }
    requires free { IsFree (C.has_key calls.old) (C.shown calls.old) }
    requires inside { D.tells → IsInside flusher.old.file.base flusher.old.file.offset (D.state disk.old) }
    ensures acted { Acted C.makes (view_of D.tells D.state D.faults D.syncs) (DueTurns now held.old.items result held.new.items)
        (change_of calls.old (place_of flusher.old.file disk.old)
        calls.new (place_of flusher.new.file disk.new)) }
    ensures free { IsFree (C.has_key calls.new) (C.shown calls.new) }
    ensures inside { D.tells → IsInside flusher.new.file.base flusher.new.file.offset (D.state disk.new) }
    ensures outside { D.tells → StaysOutside (D.state disk.old) (D.state disk.new) }
{
    let Ok(_delivered) = deliver_due(alloc, calls, flusher, disk, now) else {
        return Err(Broken::Memory);
    };
    let Ok(_checked) = check_due(alloc, calls, flusher, disk, now, held) else {
        return Err(Broken::Memory);
    };
    flush_and_dispatch(alloc, calls, flusher, disk)
}

// Hands out the asks whose records are on the disk, and drops the others. The disk stays as it is.
fn hand_out<C: Calls, D: Disk>(
    alloc: Global,
    calls: &mut C,
    flusher: &Flusher,
    disk: &D,
    held: Vec<(u64, Ask)>,
) -> Result<Vec<Ask>, Broken>
    requires free { IsFree (C.has_key calls.old) (C.shown calls.old) }
    ensures acted { Acted C.makes (view_of D.tells D.state D.faults D.syncs) (LooksFor held.items result (λ asks. asks.items))
        (change_of calls.old (place_of flusher.now.file disk.now)
        calls.new (place_of flusher.now.file disk.now)) }
    ensures free { IsFree (C.has_key calls.new) (C.shown calls.new) }
{
    let mut held = held;
    let mut ripe = Vec::new(alloc);
    match ripe_asks(alloc, calls, &mut held, &mut ripe) {
        Ok(()) => Ok(ripe),
        Err(_) => Err(Broken::Memory),
    }
}

/// Does what is due at this reading of the clock, in milliseconds, and flushes it. Answers who is to be asked about half messages,
/// where the records of these checks are on the disk; the other asks are dropped.
#[tactic(auto, using(log_model::proofs::OutsideLemmas::outside_start))]
pub fn due_asks<C: Calls, D: Disk>(
    alloc: Global,
    calls: &mut C,
    flusher: &mut Flusher,
    disk: &mut D,
    now: u64,
) -> Result<Vec<Ask>, Broken>
    requires now { now < 2 ^ 62 }
    requires free { IsFree (C.has_key calls.old) (C.shown calls.old) }
    requires inside { D.tells → IsInside flusher.old.file.base flusher.old.file.offset (D.state disk.old) }
    ensures acted { Acted C.makes (view_of D.tells D.state D.faults D.syncs) (DueAsks now result (λ asks. asks.items))
        (change_of calls.old (place_of flusher.old.file disk.old)
        calls.new (place_of flusher.new.file disk.new)) }
    ensures free { IsFree (C.has_key calls.new) (C.shown calls.new) }
    ensures inside { D.tells → IsInside flusher.new.file.base flusher.new.file.offset (D.state disk.new) }
    ensures outside { D.tells → StaysOutside (D.state disk.old) (D.state disk.new) }
{
    let mut held = Vec::new(alloc);
    match due_turns(alloc, calls, flusher, disk, now, &mut held) {
        Err(fault) => Err(fault),
        Ok(()) => hand_out(alloc, calls, flusher, disk, held),
    }
}
