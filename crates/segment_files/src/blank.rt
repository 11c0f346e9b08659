//! The blank that fills a segment behind its records, written in pieces with no memory taken.
//!
//! | at | bytes    | field |                                                |
//! |---:|---------:|-------|------------------------------------------------|
//! |  0 |        4 | size  | of the whole blank, up to the segment's end    |
//! |  4 |        4 | magic | 0xCBD43194                                     |
//! |  8 | size - 8 | zeros |                                                |

ghost use Rattle.std.specs.Prelude.{◌≡◌, ◌+◌, ◌<◌, ◌≤◌, ◌^◌, List, ℕ, length, replicate, Some, OnOk};
ghost use Rattle.mq_outside.specs.Counts.{CountsFailure};
ghost use Rattle.mq_outside.specs.Files.{bytes_of, overwritten};
ghost use Rattle.mq_outside.specs.Disk.{EachImage, Throughout};
ghost use Rattle.log_model.specs.Bases.{Geometry};
ghost use Rattle.log_model.specs.Segments.{Shape, blank_of, IsLogFile};
ghost use Rattle.log_model.specs.Store.{Stands};
ghost use Rattle.log_model.specs.Stored.{StaysOutside};
ghost use Rattle.segment_files.specs.Turn.{IsBehind};

use mq_outside::{Disk, Failed};
use record_codec::{BLANK_FRONT, blank_front};

/// Writes a blank of `size` bytes over what is there, the zeros of it in pieces of `zeros`. It isn't synced.
pub fn write_blank<D: Disk>(
    disk: &mut D,
    name: &str,
    at: u64,
    size: u32,
    zeros: &[u8],
) -> Result<(), Failed>
    requires some { 0 < length zeros.now }
    requires zeros { zeros.now ≡ replicate (length zeros.now) 0 }
    requires room { at < 2 ^ 63 }
    requires inside { D.tells → at ≤ length (bytes_of (D.state disk.old).reads name.now) }
    ensures written { D.tells → OnOk result ((D.state disk.new).reads name.now
        ≡ Some (overwritten at (blank_of size) (bytes_of (D.state disk.old).reads name.now))) }
    ensures fresh { D.tells → OnOk result ((D.state disk.new).fresh name.now at (length (blank_of size))) }
    ensures any_moment { D.tells → (S : Geometry) (shape : Shape) (reach : ℕ) → IsBehind S shape name.now at
        → at + length (blank_of size) ≤ reach
        → EachImage (Stands S shape reach) (D.state disk.old) → Throughout (D.state disk.old) (D.state disk.new) (Stands S shape reach) }
    ensures outside { D.tells → IsLogFile name.now → StaysOutside (D.state disk.old) (D.state disk.new) }
    ensures inside { D.tells → at ≤ length (bytes_of (D.state disk.new).reads name.now) }
    ensures cause { CountsFailure result (D.faults disk.old) (D.faults disk.new) }
    ensures syncs { D.syncs disk.new ≡ D.syncs disk.old }
{
    disk.write_at(name, at, &blank_front(size))?;
    let end = u64::from(size);
    let mut done = BLANK_FRONT;
    while done < end {
        let piece = (end - done).min(zeros.len() as u64);
        disk.write_at(name, at + done, &zeros[..piece as usize])?;
        done += piece;
    }
    Ok(())
}
