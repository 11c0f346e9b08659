//! Recovery of the log's files.

ghost use Rattle.std.specs.Prelude.{◌≡◌, [], ◌+◌, ◌*◌, ◌/◌, ◌%◌, ◌^◌, ◌≤◌, List, ℕ, IfOk};
ghost use Rattle.mq_outside.specs.Disk.{EachImage, Rests};
ghost use Rattle.record_codec.specs.Entry.{Entry};
ghost use Rattle.log_model.specs.Bases.{geometry};
ghost use Rattle.log_model.specs.Told.{base_of};
ghost use Rattle.log_model.specs.Log.{IsGeometry};
ghost use Rattle.log_model.specs.Store.{Keeps, IsDamagedAt, IsHonest, StoresLog};
ghost use Rattle.log_model.specs.Stored.{stored, StaysOutside};
ghost use Rattle.segment_files.specs.Turn.{IsInside};
ghost use Rattle.log_recovery.specs.Recovered.{Kept, Handed, HasKept, Recovered, IsCutTo, IsSettled};
ghost use Rattle.log_recovery.specs.Recovered.{StaysFlushed, OnDamage, OnMemory, CountsRecoverFault};

use crate::fault::RecoverFault;
use crate::scan::read_log;
use crate::settle::settle;
use crate::visitor::Visit;
use log_model::Base;
use mq_outside::Disk;
use std::alloc::Global;

/// Recovers the log from its files: hands each kept record to `each`, cuts off what stands behind them, and answers the
/// physical offset where they end.
///
/// At `Err` the log isn't open. It may be recovered again, with a visitor that has no records yet. What was flushed still
/// stands, at `Failed` too, where some of what stood behind the kept records may be gone. At `Damaged` and at `Memory`
/// nothing was changed.
pub fn recover<D: Disk, V: Visit>(
    alloc: Global,
    disk: &mut D,
    segment: u32,
    base: &Base,
    each: &mut V,
) -> Result<u64, RecoverFault>
    requires size { IsGeometry (geometry segment (base_of base.now)) }

    // Whatever the disk tells, what was handed on is a log.
    ensures handed { V.stands (base_of base.now) each.old []
        → IfOk result (Handed (geometry segment (base_of base.now)) (V.stands (base_of base.now) each.new)) }

    // What is kept of any files, and when they are damaged.
    ensures kept { D.tells → IfOk result (Kept (geometry segment (base_of base.now)) (D.state disk.old).reads
        (V.stands (base_of base.now) each.old) (V.stands (base_of base.now) each.new)) }
    ensures low { IfOk result (λ end. end ≤ 2 ^ 62) }
    ensures reads { D.tells → IfOk result (λ end. (records : List Entry)
        → Keeps (geometry segment (base_of base.now)) records (D.state disk.old).reads
        → HasKept (geometry segment (base_of base.now)) records (D.state disk.new).reads) }
    ensures inside { D.tells → IfOk result (λ end. IsInside (end / segment * segment) (end % segment) (D.state disk.new)) }
    ensures damaged { D.tells → OnDamage result (IsDamagedAt (geometry segment (base_of base.now)) (D.state disk.old).reads) }
    ensures untouched { D.tells → OnDamage result (λ place name. Rests (D.state disk.old) (D.state disk.new)) }
    ensures untouched_memory { D.tells → OnMemory result (Rests (D.state disk.old) (D.state disk.new)) }

    // A crash afterwards leaves the kept records and nothing behind them.
    ensures exact { D.tells → IsSettled (D.state disk.old) → IfOk result (λ end. (records : List Entry)
        → Keeps (geometry segment (base_of base.now)) records (D.state disk.old).reads
        → EachImage (IsCutTo (geometry segment (base_of base.now)) records (D.state disk.old).reads) (D.state disk.new)) }

    // A disk that stores a log, and is read honestly: a prefix is kept, and is stored.
    ensures ours { D.tells → (log : List Entry) (flushed : ℕ)
        → StoresLog (geometry segment (base_of base.now)) log flushed (D.state disk.old)
        → IsHonest (geometry segment (base_of base.now)) log flushed (D.state disk.old).reads
        → IfOk result (Recovered (stored (geometry segment (base_of base.now)) log flushed) (V.stands (base_of base.now) each.old)
        (V.stands (base_of base.now) each.new) (D.state disk.new)) }

    // Whatever the answer, what was flushed stays, at each moment, and so do files outside the log's folder.
    ensures flushed { D.tells → StaysFlushed (geometry segment (base_of base.now)) (D.state disk.old) (D.state disk.new) }
    ensures outside { D.tells → StaysOutside (D.state disk.old) (D.state disk.new) }
    ensures cause { CountsRecoverFault result (D.faults disk.old) (D.faults disk.new) }
    ensures syncs { D.syncs disk.new ≤ D.syncs disk.old + 1 }
{
    let log = read_log(alloc, disk, segment, base, each)?;
    settle(disk, segment, log.count, log.end)?;
    Ok(log.end)
}
