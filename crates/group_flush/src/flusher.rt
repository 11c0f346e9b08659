//! The flusher: it makes one turn after another, on the disk that each turn is given.
//!
//! A turn takes no lock, waits for nobody and takes no memory. What it wrote may be acknowledged after it answered Ok, and
//! never before.

ghost use Rattle.std.specs.Prelude.{◌≡◌, ◌+◌, ◌<◌, ◌≤◌, ◌^◌, ℕ, length, true, IfErr, OnOk};
ghost use Rattle.mq_outside.specs.Counts.{Counted, CountsFailure};
ghost use Rattle.log_model.specs.Batches.{IsBatchOf};
ghost use Rattle.log_model.specs.Log.{IsWellFormed};
ghost use Rattle.log_model.specs.Stored.{Stored, StaysOutside};
ghost use Rattle.segment_files.specs.Turn.{IsInside, CanTurn, HasTurned, IsPlaced, GoesToPlace};
ghost use Rattle.segment_files.specs.Turn.{PlacesOn, MovesOn, growing, opens_segment, syncs_of};

use log_model::{Batch, Receipt};
use mq_outside::{Disk, Failed};
use segment_files::LastFile;

/// The disk failed in this turn.
#[derive(Clone, Copy, Debug, PartialEq, Eq)]
pub struct FlushFault {
    /// How often the disk has failed by now.
    pub count: u64,
}

/// Where the next turn writes.
#[derive(Clone, Copy)]
pub struct Flusher {
    file: LastFile,
}

impl Flusher {
    /// A flusher that writes from the end of this file on.
    pub fn new(file: LastFile) -> Flusher
        ensures { result.file ≡ file }
    {
        Flusher { file }
    }

    /// The same flusher, but it writes zeros behind the batches, in segments of so many bytes.
    pub fn with_zeros(self, segment: u32) -> Flusher
        ensures place { (result.file.base ≡ self.file.base) × (result.file.offset ≡ self.file.offset) }
        ensures ahead { result.file.ahead ≡ segment }
    {
        Flusher {
            file: self.file.with_zeros(segment),
        }
    }

    /// Whether the next turn writes the batch from its place on.
    pub fn goes_to(&self, batch: &Batch) -> bool
        ensures yes { result ≡ true → GoesToPlace self.now.file batch.now }
        ensures no { GoesToPlace self.now.file batch.now → result ≡ true }
    {
        self.file.goes_to(batch)
    }

    /// Writes a batch behind the flushed records and syncs it. At `Err` the log is stored as before, and the next batch begins
    /// at the same place: the same one, or a longer one. It is to be given the same disk at each turn.
    pub fn turn<D: Disk>(&mut self, disk: &mut D, batch: Batch) -> Result<Receipt, FlushFault>
        requires room { self.old.file.offset + length batch.bytes < 2 ^ 63 }
        requires inside { D.tells → IsInside self.old.file.base self.old.file.offset (D.state disk.old) }

        // What it does to each log that is open there and of which this is the next batch. Files outside the log's folder stay.
        ensures turned { D.tells → (it : Stored) (behind : ℕ) → CanTurn it behind batch (growing self.old.file (D.state disk.old))
            → HasTurned it behind batch result (growing self.old.file (D.state disk.old)) (growing self.new.file (D.state disk.new)) }
        ensures outside { D.tells → StaysOutside (D.state disk.old) (D.state disk.new) }

        // Where the next bytes go: at Ok to the end of the batch, whatever the disk tells.
        ensures places { (it : Stored) → IsWellFormed it.geometry it.log → IsBatchOf it.geometry it.log it.flushed batch
            → IsPlaced it self.old.file
            → PlacesOn it batch result self.new.file }
        ensures moves { MovesOn D.tells batch result self.old.file self.new.file }
        ensures inside { D.tells → IsInside self.new.file.base self.new.file.offset (D.state disk.new) }

        // An Ok has synced the batch, and the blank before it. A fault is the disk's, and tells how often it has failed.
        ensures cause { CountsFailure result (D.faults disk.old) (D.faults disk.new) }
        ensures count { IfErr result (λ fault. fault.count ≡ D.faults disk.new) }
        ensures synced { OnOk result (Counted (syncs_of (opens_segment self.old.file batch)) (D.syncs disk.old) (D.syncs disk.new)) }
        ensures syncs { D.syncs disk.new ≤ D.syncs disk.old + syncs_of (opens_segment self.old.file batch) }
    {
        match self.file.write_batch(disk, batch) {
            Ok(receipt) => Ok(receipt),
            Err(Failed) => Err(FlushFault {
                count: disk.fault_count(),
            }),
        }
    }
}
