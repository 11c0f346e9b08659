//! Reading of the log's files, as recovery reads them, with nothing changed.

ghost use Rattle.std.specs.Prelude.{◌≡◌, [], ◌^◌, ◌≤◌, IfOk};
ghost use Rattle.mq_outside.specs.Disk.{Rests};
ghost use Rattle.log_model.specs.Bases.{geometry};
ghost use Rattle.log_model.specs.Told.{base_of};
ghost use Rattle.log_model.specs.Log.{IsGeometry};
ghost use Rattle.log_model.specs.Store.{IsDamagedAt};
ghost use Rattle.log_recovery.specs.Recovered.{Kept, Handed, OnDamage, CountsRecoverFault};
ghost use Rattle.log_recovery.specs.Visits.{GoesOn, IsGiven, OnStop};

use crate::fault::RecoverFault;
use crate::scan::read_log;
use crate::visitor::Visit;
use log_model::Base;
use mq_outside::Disk;
use std::alloc::Global;

/// Reads the log's files: hands each record that recovery would keep to `each`, in the order of the log, and answers the
/// physical offset where they end. Nothing is changed.
///
/// At `Damaged` and at `Failed` the records before were handed on, and at `Memory` too, unless `each` took no more.
pub fn read_kept<D: Disk, V: Visit>(
    alloc: Global,
    disk: &mut D,
    segment: u32,
    base: &Base,
    each: &mut V,
) -> Result<u64, RecoverFault>
    requires size { IsGeometry (geometry segment (base_of base.now)) }

    // Whatever the disk tells, what was handed on is a log.
    ensures handed { V.stands (base_of base.now) each.old []
        → IfOk result (Handed (geometry segment (base_of base.now)) (V.stands (base_of base.now) each.new)) }
    ensures went { (first : V) → V.goes first [] each.old
        → IfOk result (Handed (geometry segment (base_of base.now)) (GoesOn V.Visit first each.new)) }
    ensures stopped { (first : V) → V.goes first [] each.old
        → OnStop result (IsGiven (geometry segment (base_of base.now)) (GoesOn V.Visit first each.new)) (V.fails first each.new) }

    // What is kept of any files, and when they are damaged.
    ensures kept { D.tells → IfOk result (Kept (geometry segment (base_of base.now)) (D.state disk.old).reads
        (V.stands (base_of base.now) each.old) (V.stands (base_of base.now) each.new)) }
    ensures kept_on { D.tells → (first : V) → IfOk result (Kept (geometry segment (base_of base.now)) (D.state disk.old).reads
        (GoesOn V.Visit first each.old) (GoesOn V.Visit first each.new)) }
    ensures low { IfOk result (λ end. end ≤ 2 ^ 62) }
    ensures damaged { D.tells → OnDamage result (IsDamagedAt (geometry segment (base_of base.now)) (D.state disk.old).reads) }

    // The disk rests, whatever the answer.
    ensures rests { D.tells → Rests (D.state disk.old) (D.state disk.new) }
    ensures cause { CountsRecoverFault result (D.faults disk.old) (D.faults disk.new) }
    ensures syncs { D.syncs disk.new ≡ D.syncs disk.old }
{
    let log = read_log(alloc, disk, segment, base, each)?;
    Ok(log.end)
}
