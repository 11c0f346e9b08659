//! A round of the worker: what is due happens, all that is pending is flushed, and consumers see it.

ghost use Rattle.std.specs.Prelude.{◌≡◌, ◌≢◌, ◌<◌, ◌-◌, ◌^◌, ◌⊎◌, true, false};
ghost use Rattle.log_model.specs.Stored.{StaysOutside};
ghost use Rattle.segment_files.specs.Turn.{IsInside};
ghost use Rattle.worker_turns.specs.Acts.{IsFree, Acted, place_of, view_of, change_of};
ghost use Rattle.gen_run.specs.Rounds.{MakesRound, CountsStop};

use crate::stop::Stop;
use broker_events::Calls;
use group_flush::Flusher;
use mq_outside::Disk;
use std::alloc::Global;
use worker_turns::due_turns;

// Whether a flush turn failed meanwhile, by the disk's counts. The greatest count stays, so it tells of no failure: then each turn
// counts as one that failed.
fn has_missed(before: u64, after: u64) -> bool
    ensures missed { result ≡ true → (before ≡ 2 ^ 64 - 1) ⊎ (after ≢ before) }
    ensures none { result ≡ false → (after ≡ before) × (before < 2 ^ 64 - 1) }
    ensures fits { after < 2 ^ 64 }
{
    before == u64::MAX || after != before
}

/// Delivers what is due at this time, in milliseconds, checks the half messages that are due, makes flush turns until nothing is
/// pending, and then consumers see all that is flushed. `Err(Disk)`: a flush turn failed.
#[tactic(auto, using(log_model::proofs::OutsideLemmas::outside_start))]
pub(crate) fn round<C: Calls, D: Disk>(
    alloc: Global,
    calls: &mut C,
    flusher: &mut Flusher,
    disk: &mut D,
    now: u64,
) -> Result<(), Stop>
    requires now { now < 2 ^ 62 }
    requires free { IsFree (C.has_key calls.old) (C.shown calls.old) }
    requires inside { D.tells → IsInside flusher.old.file.base flusher.old.file.offset (D.state disk.old) }
    ensures acted { Acted C.makes (view_of D.tells D.state D.faults D.syncs) (MakesRound now result)
        (change_of calls.old (place_of flusher.old.file disk.old)
        calls.new (place_of flusher.new.file disk.new)) }
    ensures free { IsFree (C.has_key calls.new) (C.shown calls.new) }
    ensures inside { D.tells → IsInside flusher.new.file.base flusher.new.file.offset (D.state disk.new) }
    ensures outside { D.tells → StaysOutside (D.state disk.old) (D.state disk.new) }
    ensures cause { CountsStop result (D.faults disk.old) (D.faults disk.new) }
{
    let before = disk.fault_count();
    let mut held = Vec::new(alloc);
    let Ok(()) = due_turns(alloc, calls, flusher, disk, now, &mut held) else {
        return Err(Stop::Memory);
    };
    if has_missed(before, disk.fault_count()) {
        return Err(Stop::Disk);
    }
    Ok(())
}
