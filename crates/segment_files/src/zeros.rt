//! The zeros that are written ahead, behind the last batch: the next batches grow no file, and their syncs cost less.

ghost use Rattle.std.specs.Prelude.{◌≡◌, ◌-◌, ◌<◌, ◌≤◌, ◌^◌, ℕ, length, replicate, OnOk};
ghost use Rattle.mq_outside.specs.Counts.{CountsFailure};
ghost use Rattle.mq_outside.specs.Disk.{EachImage, Throughout};
ghost use Rattle.mq_outside.specs.Files.{bytes_of};
ghost use Rattle.log_model.specs.Bases.{Geometry};
ghost use Rattle.log_model.specs.Segments.{Shape, IsLogFile};
ghost use Rattle.log_model.specs.Store.{Stands};
ghost use Rattle.log_model.specs.Stored.{StaysOutside};
ghost use Rattle.segment_files.specs.Turn.{HasZeros, IsBehind};

use mq_outside::{Disk, Failed};

/// Writes zeros over what is there, from one offset up to another, in pieces of `zeros`. They aren't synced.
pub fn write_zeros<D: Disk>(
    disk: &mut D,
    name: &str,
    at: u64,
    to: u64,
    zeros: &[u8],
) -> Result<(), Failed>
    requires some { 0 < length zeros.now }
    requires zeros { zeros.now ≡ replicate (length zeros.now) 0 }
    requires ordered { at ≤ to }
    requires inside { D.tells → at ≤ length (bytes_of (D.state disk.old).reads name.now) }
    ensures written { D.tells → OnOk result (HasZeros name.now at (to - at) (D.state disk.old) (D.state disk.new)) }
    ensures any_moment { D.tells → (S : Geometry) (shape : Shape) (reach : ℕ) → IsBehind S shape name.now at → to ≤ reach
        → EachImage (Stands S shape reach) (D.state disk.old) → Throughout (D.state disk.old) (D.state disk.new) (Stands S shape reach) }
    ensures outside { D.tells → IsLogFile name.now → StaysOutside (D.state disk.old) (D.state disk.new) }
    ensures inside { D.tells → at ≤ length (bytes_of (D.state disk.new).reads name.now) }
    ensures cause { CountsFailure result (D.faults disk.old) (D.faults disk.new) }
    ensures syncs { D.syncs disk.new ≡ D.syncs disk.old }
{
    let mut done = at;
    while done < to {
        let piece = (to - done).min(zeros.len() as u64);
        disk.write_at(name, done, &zeros[..piece as usize])?;
        done += piece;
    }
    Ok(())
}
