//! Why a log was not recovered.

ghost use Rattle.std.specs.Prelude.{◌≡◌};
ghost use Rattle.log_recovery.specs.declared.fault.RecoverFault.TheVariants as told;
ghost use Rattle.log_recovery.specs.Faults.{fault_of};

use mq_bytes::Text;
use mq_outside::{DiskFault, Failed};
use std::alloc::AllocError;

/// Why a log was not recovered.
#[derive(Debug, Drop)]
pub enum RecoverFault {
    /// The files are damaged at this physical offset, in the file of this path. They are in order before it. Nothing was changed.
    Damaged(u64, Text),
    /// The disk failed. Its count of faults rose in this call. What was flushed still stands.
    Failed,
    /// There was no memory, or the visitor had none. Nothing was changed.
    Memory,
}

impl From<Failed> for RecoverFault {
    ghost from_gives = { λ _ e. e ≡ told.Failed };

    fn from(_e: Failed) -> RecoverFault {
        RecoverFault::Failed
    }
}

impl From<AllocError> for RecoverFault {
    ghost from_gives = { λ _ e. e ≡ told.Memory };

    fn from(_e: AllocError) -> RecoverFault {
        RecoverFault::Memory
    }
}

impl From<DiskFault> for RecoverFault {
    ghost from_gives = { λ fault e. e ≡ fault_of fault };

    fn from(e: DiskFault) -> RecoverFault {
        match e {
            DiskFault::Failed => RecoverFault::Failed,
            DiskFault::Memory => RecoverFault::Memory,
        }
    }
}
