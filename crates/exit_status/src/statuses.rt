//! The statuses of a run's end that `pipe` and `serve` have alike.

ghost use Rattle.std.specs.Prelude.{◌≡◌, ◌≢◌};
ghost use Rattle.store_open.specs.Statuses.{FitsTable};
ghost use Rattle.exit_status.specs.Statuses.{StatusKept, StatusTellsConfig, StatusTellsFault};

use config_store::ConfigFault;
use log_recovery::RecoverFault;
use mq_bytes::Text;
use mq_outside::DiskFault;
use std::alloc::Global;
use store_open::Status;

/// The status of a log that could not be recovered: 8 with the place and the file of its damage, 5 where the disk failed, 7 out of
/// memory.
pub fn status_of_fault(alloc: Global, fault: RecoverFault) -> Status
    ensures tells { StatusTellsFault result fault }
    // Neither the arguments nor another's store are reported so.
    ensures others { (result.code ≢ 1) × (result.code ≢ 6) }
    ensures table { FitsTable result }
{
    match fault {
        RecoverFault::Damaged(place, name) => Status::damaged(place, name),
        RecoverFault::Failed => Status::plain(alloc, 5),
        RecoverFault::Memory => Status::plain(alloc, 7),
    }
}

/// The status of kept files that could not be loaded: 8 with the name of the one that isn't of its form, 10 `keep` where the keep
/// failed, 7 out of memory.
pub fn status_of_config(alloc: Global, fault: ConfigFault) -> Status
    ensures tells { StatusTellsConfig result fault }
    ensures others { (result.code ≢ 1) × (result.code ≢ 6) }
    ensures table { FitsTable result }
{
    match fault {
        ConfigFault::BadText(name) => match String::from_str(alloc, name) {
            Ok(name) => Status::damaged(0, Text::of(name)),
            Err(_) => Status::plain(alloc, 7),
        },
        ConfigFault::Failed => Status::named(alloc, 10, "keep"),
        ConfigFault::Memory => Status::plain(alloc, 7),
    }
}

/// The status behind the last replacement of the kept files, of a run with this status so far: out of memory comes before all else,
/// and that the keep failed is reported where nothing else is.
pub fn status_kept(alloc: Global, status: Status, kept: Result<(), DiskFault>) -> Status
    requires table { FitsTable status }
    ensures tells { StatusKept result status kept }
    ensures others { (status.code ≢ 1) × (status.code ≢ 6) → (result.code ≢ 1) × (result.code ≢ 6) }
    ensures table { FitsTable result }
{
    match kept {
        Ok(()) => status,
        Err(DiskFault::Memory) => Status::plain(alloc, 7),
        Err(DiskFault::Failed) => {
            if status.code == 0 {
                Status::named(alloc, 10, "keep")
            } else {
                status
            }
        }
    }
}
