//! Makes the kept records the whole log: no file stands behind theirs, and nothing behind the last of them.
//!
//! The files behind go first, the last of them before those in front of it, and only then the cut is made: else a crash could
//! leave a file behind one that has lost its end. A file that was removed before may come back by a crash until its removal is
//! done once more.

ghost use Rattle.std.specs.Prelude.{◌≡◌, ◌+◌, ◌-◌, ◌*◌, ◌/◌, ◌%◌, ◌^◌, ◌<◌, ◌≤◌, ℕ, max, length, take, OnOk};
ghost use Rattle.mq_bytes.specs.Names.{log_file};
ghost use Rattle.mq_outside.specs.Counts.{CountsFailure};
ghost use Rattle.mq_outside.specs.Disk.{EachImage};
ghost use Rattle.mq_outside.specs.Files.{bytes_of};
ghost use Rattle.log_model.specs.Bases.{whole};
ghost use Rattle.log_model.specs.Log.{IsSegmentSize};
ghost use Rattle.log_model.specs.Segments.{segment_file};
ghost use Rattle.log_recovery.specs.Settle.{Turns, IsPruned, IsGone, IsCut, CutsTo, Settles, IsSettledAt};

use mq_bytes::LogFile;
use mq_outside::{Disk, Failed};

// Removes the files of the segments behind segment `kept`, up to segment `top`.
fn remove_behind<D: Disk>(disk: &mut D, segment: u32, kept: u64, top: u64) -> Result<(), Failed>
    requires ordered { kept ≤ top }
    requires low { top * segment < 2 ^ 64 }
    ensures turns { D.tells → Turns (IsPruned segment kept top) (D.state disk.old) (D.state disk.new) }
    ensures gone { D.tells → OnOk result (EachImage (IsGone segment kept top) (D.state disk.new)) }
    ensures cause { CountsFailure result (D.faults disk.old) (D.faults disk.new) }
    ensures syncs { D.syncs disk.new ≡ D.syncs disk.old }
{
    for i in 0..top - kept {
        let file = LogFile::of((top - i) * u64::from(segment));
        disk.remove(file.as_str())?;
    }
    Ok(())
}

// Cuts the file where it is longer.
fn shorten<D: Disk>(disk: &mut D, name: &str, len: u64) -> Result<(), Failed>
    requires within { D.tells → len ≤ length (bytes_of (D.state disk.old).reads name.now) }
    ensures turns { D.tells → Turns (IsCut name.now len) (D.state disk.old) (D.state disk.new) }
    ensures cut { D.tells → OnOk result (bytes_of (D.state disk.new).reads name.now
        ≡ take len (bytes_of (D.state disk.old).reads name.now)) }
    ensures cause { CountsFailure result (D.faults disk.old) (D.faults disk.new) }
    ensures syncs { D.syncs disk.new ≡ D.syncs disk.old }
{
    let long = disk.len(name)?;
    if long <= len {
        return Ok(());
    }
    disk.cut(name, len)?;
    Ok(())
}

// Cuts the file that begins at this base where it is longer, and writes its end again and syncs it.
fn cut_last<D: Disk>(disk: &mut D, base: u64, len: u64) -> Result<(), Failed>
    requires within { D.tells → len ≤ length (bytes_of (D.state disk.old).reads (log_file base)) }
    ensures turns { D.tells → Turns (IsCut (log_file base) len) (D.state disk.old) (D.state disk.new) }
    ensures cut { D.tells → OnOk result (EachImage (CutsTo (log_file base) len (D.state disk.old).reads) (D.state disk.new)) }
    ensures cause { CountsFailure result (D.faults disk.old) (D.faults disk.new) }
    ensures syncs { D.syncs disk.new ≤ D.syncs disk.old + 1 }
{
    let file = LogFile::of(base);
    let name = file.as_str();
    shorten(disk, name, len)?;
    // The cut goes to the disk with it. A sync alone may answer Ok although an earlier process failed to sync its last bytes,
    // and then later records would stand behind a hole.
    disk.renew(name)?;
    Ok(())
}

// Removes the files behind segment `kept`, up to segment `top`, and cuts its file to this length.
fn settle_at<D: Disk>(
    disk: &mut D,
    segment: u32,
    kept: u64,
    top: u64,
    len: u64,
) -> Result<(), Failed>
    requires some { 0 < segment }
    requires ordered { kept ≤ top }
    requires low { top * segment < 2 ^ 64 }
    requires base { kept * segment < 2 ^ 64 }
    requires within { D.tells → len ≤ length (bytes_of (D.state disk.old).reads (segment_file (whole segment) kept)) }
    ensures settles { D.tells → Settles segment kept top len (D.state disk.old) (D.state disk.new) }
    ensures settled { D.tells → OnOk result (EachImage (IsSettledAt segment kept top len (D.state disk.old)) (D.state disk.new)) }
    ensures cause { CountsFailure result (D.faults disk.old) (D.faults disk.new) }
    ensures syncs { D.syncs disk.new ≤ D.syncs disk.old + 1 }
{
    remove_behind(disk, segment, kept, top)?;
    cut_last(disk, kept * u64::from(segment), len)?;
    Ok(())
}

/// Makes the records up to `end` the whole log, of which so many files were read.
pub(crate) fn settle<D: Disk>(
    disk: &mut D,
    segment: u32,
    count: u64,
    end: u64,
) -> Result<(), Failed>
    requires size { IsSegmentSize segment }
    requires low { end ≤ 2 ^ 62 }
    requires count { (k : ℕ) → k < count → k * segment < 2 ^ 63 }
    requires within { D.tells → end % segment ≤ length (bytes_of (D.state disk.old).reads (segment_file (whole segment) (end / segment))) }
    ensures settles { D.tells → Settles segment (end / segment) (max (end / segment + 1) (count - 1)) (end % segment) (D.state disk.old)
        (D.state disk.new) }
    ensures settled { D.tells → OnOk result (EachImage (IsSettledAt segment (end / segment) (max (end / segment + 1) (count - 1))
        (end % segment) (D.state disk.old)) (D.state disk.new)) }
    ensures cause { CountsFailure result (D.faults disk.old) (D.faults disk.new) }
    ensures syncs { D.syncs disk.new ≤ D.syncs disk.old + 1 }
{
    let len = end % u64::from(segment);
    let kept = end / u64::from(segment);
    let top = (kept + 1).max(count.saturating_sub(1));
    settle_at(disk, segment, kept, top, len)?;
    Ok(())
}
