//! Small texts that are replaced whole: the format of the store and its configuration.

ghost use Rattle.std.specs.Prelude.{◌≡◌, ℕ, Some, IfOk, OnOk};
ghost use Rattle.std.specs.Option.{option_map};
ghost use Rattle.mq_outside.specs.Counts.{CountsDiskFault};
ghost use Rattle.mq_outside.specs.Files.{Same, At, OldOrNew};
ghost use Rattle.mq_outside.specs.Disk.{DiskState, Moves, IsDurable, IsCrashImage};

use crate::faults::DiskFault;
use std::alloc::Global;

/// A keep of small named texts. What it holds is said where `tells` holds; of a real keep nothing is said.
pub trait Keep {
    /// That it tells what it holds.
    ghost tells: { Type 0 };

    /// What it tells: what is loaded, the moment, and the crash images of each moment.
    ghost state: { Self → DiskState };

    /// How often it failed.
    ghost faults: { Self → ℕ };

    /// The bytes that were last put under this name, `None` where there are none.
    fn load(&mut self, alloc: Global, name: &str) -> Result<Option<Vec<u8>>, DiskFault>
        ensures bytes { tells → IfOk result (λ bytes. option_map (λ v. v.items) bytes ≡ (state self.old).reads name.now) }
        ensures moves { tells → Moves Same (state self.old) (state self.new) }
        ensures cause { CountsDiskFault result (faults self.old) (faults self.new) };

    /// Puts these bytes under the name. After a failure, or a crash inside the call, the old bytes are there or the new.
    fn replace(&mut self, alloc: Global, name: &str, bytes: &[u8]) -> Result<(), DiskFault>
        ensures done { tells → OnOk result ((state self.new).reads name.now ≡ Some bytes.now) }
        ensures durable { tells → OnOk result (IsDurable name.now (state self.new)) }
        ensures moves { tells → Moves (At name.now (OldOrNew bytes.now)) (state self.old) (state self.new) }
        ensures cause { CountsDiskFault result (faults self.old) (faults self.new) };

    /// What is loaded is itself what a crash may leave.
    ghost reads_is_image: { (keep : Self) → tells → IsCrashImage (state keep) (state keep).reads };
}
