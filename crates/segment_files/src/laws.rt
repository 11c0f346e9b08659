//! What holds of a log that is open for batches. No call is made: the clauses speak of the definitions.

ghost use Rattle.std.specs.Prelude.{◌≡◌, ◌-◌, ◌≤◌, ◌++◌, ℕ, List};
ghost use Rattle.mq_outside.specs.Disk.{EachImage};
ghost use Rattle.record_codec.specs.Entry.{Entry};
ghost use Rattle.log_model.specs.Batches.{IsBatchOf};
ghost use Rattle.log_model.specs.Log.{IsWellFormed};
ghost use Rattle.log_model.specs.Segments.{shape_of};
ghost use Rattle.log_model.specs.Store.{StoresAt};
ghost use Rattle.log_model.specs.Stored.{Stored, HasFirst, LogStays, flushed_of, with_more};
ghost use Rattle.segment_files.specs.Turn.{GoesToEnd, GoesToPlace, IsInside, IsPlaced, IsReady, growing};

use crate::last_file::LastFile;
use log_model::Batch;
use mq_outside::Disk;

/// A log that was recovered, or made, is open for batches where it ends, and the next bytes go inside its file.
pub fn a_stored_log_is_ready<D: Disk>(file: &LastFile, disk: &D)
    ensures ready { (it : Stored) (reach : ℕ) → GoesToEnd it file.now → file.now.ahead ≤ it.geometry.size → reach ≤ it.geometry.size
        → StoresAt it.geometry it.log it.flushed (shape_of it.geometry (flushed_of it)) reach (D.state disk.now)
        → IsReady it (reach - file.now.offset) (growing file.now (D.state disk.now)) }
    ensures inside { D.tells → (it : Stored) (behind : ℕ) → IsReady it behind (growing file.now (D.state disk.now))
        → IsInside file.now.base file.now.offset (D.state disk.now) }
    ensures placed { (it : Stored) (behind : ℕ) → IsReady it behind (growing file.now (D.state disk.now)) → IsPlaced it file.now }
{}

/// A crash of a log that is open for batches leaves at least its flushed records.
pub fn a_ready_log_has_its_records<D: Disk>(file: &LastFile, disk: &D)
    ensures { (it : Stored) (behind : ℕ) → IsReady it behind (growing file.now (D.state disk.now))
        → EachImage (HasFirst it.geometry it.log it.flushed) (D.state disk.now) }
{}

/// It stays open for batches where records are appended, and where other files of the disk are changed.
pub fn a_ready_log_stays_ready<D: Disk>(file: &LastFile, old: &D, new: &D)
    ensures longer { (it : Stored) (more : List Entry) (behind : ℕ) → IsWellFormed it.geometry (it.log ++ more)
        → IsReady it behind (growing file.now (D.state old.now)) → IsReady (with_more more it) behind (growing file.now (D.state old.now)) }
    ensures other_files { (it : Stored) (behind : ℕ) → LogStays (D.state old.now) (D.state new.now)
        → IsReady it behind (growing file.now (D.state old.now)) → IsReady it behind (growing file.now (D.state new.now)) }
    ensures inside { LogStays (D.state old.now) (D.state new.now) → IsInside file.now.base file.now.offset (D.state old.now)
        → IsInside file.now.base file.now.offset (D.state new.now) }
{}

/// A batch that comes next in a log is written from its place on, where the next bytes go to the end of its flushed records.
pub fn a_batch_goes_to_its_place(file: &LastFile, batch: &Batch)
    ensures { (it : Stored) → IsWellFormed it.geometry it.log → IsBatchOf it.geometry it.log it.flushed batch.now → IsPlaced it file.now
        → GoesToPlace file.now batch.now }
{}
