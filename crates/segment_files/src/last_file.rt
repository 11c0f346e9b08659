//! The log's last file, which grows, over a disk of the caller.
//!
//! A turn writes a batch behind the records that are flushed, and syncs the file. Where the batch opens a new segment the
//! blank comes first, and it is synced before the new file is made: else a crash could leave a new file behind a segment
//! that has no end. After a fault the same batch is written again at the same place. A blank that was synced stays.
//!
//! Where zeros are written ahead, a batch that isn't long and ends past them has zeros written behind it, up to the next multiple
//! of 256 KiB in the file and at most to the segment's end. The one sync stores both. The next batches lie on these zeros: they
//! grow no file, so that their syncs have only bytes to store. Zeros are no record and no blank: recovery ends before them.

ghost use Rattle.std.specs.Prelude.{◌≡◌, true, false, ◌+◌, ◌-◌, ◌*◌, ◌/◌, ◌%◌, ◌<◌, ◌≤◌, ◌^◌, max};
ghost use Rattle.std.specs.Prelude.{List, ℕ, length, take, drop, Some, OnOk, OnErr, IfOk, IfSome};
ghost use Rattle.mq_outside.specs.Counts.{Counted, CountsFailure};
ghost use Rattle.mq_outside.specs.Disk.{EachImage, Throughout};
ghost use Rattle.mq_outside.specs.Files.{bytes_of};
ghost use Rattle.mq_outside.specs.Pieces.{HasPiece};
ghost use Rattle.record_codec.specs.Entry.{Entry};
ghost use Rattle.log_model.specs.Bases.{Geometry};
ghost use Rattle.log_model.specs.Batches.{IsBatchOf};
ghost use Rattle.log_model.specs.Log.{IsWellFormed};
ghost use Rattle.log_model.specs.Segments.{Shape, IsLogFile, added, opened, used, segment_start, shape_of};
ghost use Rattle.log_model.specs.Store.{IsBatch, Stands};
ghost use Rattle.log_model.specs.Stored.{Stored, StaysOutside, HasRecords, stored};
ghost use Rattle.segment_files.specs.Turn.{IsInside, IsBehind, WritesAt, HasZeros, Opens, CanTurn, HasTurned, IsPlaced};
ghost use Rattle.segment_files.specs.Turn.{GoesToPlace, PlacesOn, MovesOn, growing, opens_segment, is_due, shape_behind};
ghost use Rattle.segment_files.specs.Turn.{base_behind, unless_opened, syncs_of, zeros_to};

use crate::blank::write_blank;
use crate::zeros::write_zeros;
use bytes::Bytes;
use log_model::{Batch, Receipt};
use mq_bytes::LogFile;
use mq_outside::{Disk, Failed, Frozen};

// So many zeros are written at once.
const ZEROS: usize = 4096;

// Zeros are written ahead up to a multiple of so many bytes.
const STEP: u64 = 1 << 18;

// No zeros are written behind a batch of more bytes: they would cost more than they save.
const BATCH_MAX: usize = 1 << 16;

/// The last file of a log, and where the next bytes go.
#[derive(Clone, Copy)]
pub struct LastFile {
    // Where the file begins in the log, and the offset in it behind what is flushed.
    base: u64,
    offset: u64,
    // Zeros are written ahead up to this offset of each file at most: a segment's size, or 0 where none are.
    ahead: u64,
    // Behind a batch that ends up to this offset no zeros are written: they stand there, or the disk failed at them.
    zeroed: u64,
}

impl LastFile {
    /// The file where a log ends, in segments of so many bytes.
    pub fn at(segment: u32, end: u64) -> LastFile
        requires { 0 < segment }
        ensures place { (result.base ≡ end / segment * segment) × (result.offset ≡ end % segment) }
        ensures ahead { result.ahead ≡ 0 }
    {
        let offset = end % u64::from(segment);
        LastFile {
            base: end - offset,
            offset,
            ahead: 0,
            zeroed: 0,
        }
    }

    /// The same file, but zeros are written ahead, in segments of so many bytes.
    pub fn with_zeros(self, segment: u32) -> LastFile
        ensures place { (result.base ≡ self.base) × (result.offset ≡ self.offset) }
        ensures ahead { result.ahead ≡ segment }
    {
        LastFile {
            base: self.base,
            offset: self.offset,
            ahead: u64::from(segment),
            zeroed: 0,
        }
    }

    /// Whether the next turn writes the batch from its place on.
    pub fn goes_to(&self, batch: &Batch) -> bool
        ensures yes { result ≡ true → GoesToPlace self.now batch.now }
        ensures no { GoesToPlace self.now batch.now → result ≡ true }
    {
        let opens = match batch.blank {
            None => false,
            Some((at, _)) => self.base <= at,
        };
        let (base, from) = if opens {
            (batch.place, 0)
        } else {
            (self.base, self.offset)
        };
        if base.checked_add(from) != Some(batch.place) {
            return false;
        }
        match self.offset.checked_add(batch.bytes.len() as u64) {
            Some(end) => end < 1 << 63,
            None => false,
        }
    }

    // Ends the last file by a blank of this size, and syncs it. The next bytes go to a new file at `next`.
    fn end_file<D: Disk>(&mut self, disk: &mut D, size: u32, next: u64) -> Result<(), Failed>
        requires room { self.old.offset < 2 ^ 63 }
        requires inside { D.tells → IsInside self.old.base self.old.offset (D.state disk.old) }
        ensures any_moment { D.tells → (S : Geometry) (log : List Entry) (flushed : ℕ) (shape : Shape) (reach : ℕ)
            → WritesAt (stored S log flushed) shape reach self.old.base self.old.offset (D.state disk.old)
            → shape ≡ shape_of S (take flushed log) → size ≡ S.size - used shape
            → Throughout (D.state disk.old) (D.state disk.new) (HasRecords S (take flushed log)) }
        ensures still { D.tells → (S : Geometry) (log : List Entry) (flushed : ℕ) (shape : Shape) (reach : ℕ)
            → WritesAt (stored S log flushed) shape reach self.old.base self.old.offset (D.state disk.old)
            → shape ≡ shape_of S (take flushed log) → size ≡ S.size - used shape
            → WritesAt (stored S log flushed) shape S.size self.old.base self.old.offset (D.state disk.new) }
        ensures opened { D.tells → (S : Geometry) (log : List Entry) (flushed : ℕ) (shape : Shape) (reach : ℕ)
            → WritesAt (stored S log flushed) shape reach self.old.base self.old.offset (D.state disk.old)
            → shape ≡ shape_of S (take flushed log) → size ≡ S.size - used shape
            → next ≡ segment_start S (opened shape)
            → OnOk result (WritesAt (stored S log flushed) (opened shape) 0 self.new.base self.new.offset (D.state disk.new)) }
        ensures outside { D.tells → StaysOutside (D.state disk.old) (D.state disk.new) }
        ensures inside { D.tells → IsInside self.new.base self.new.offset (D.state disk.new) }
        ensures moved { OnOk result ((self.new.base ≡ next) × (self.new.offset ≡ 0)) }
        ensures stays { OnErr result ((self.new.base ≡ self.old.base) × (self.new.offset ≡ self.old.offset)) }
        ensures ahead { self.new.ahead ≡ self.old.ahead }
        ensures cause { CountsFailure result (D.faults disk.old) (D.faults disk.new) }
        ensures synced { OnOk result (Counted 1 (D.syncs disk.old) (D.syncs disk.new)) }
        ensures syncs { D.syncs disk.new ≤ D.syncs disk.old + 1 }
    {
        let file = LogFile::of(self.base);
        let name = file.as_str();
        write_blank(disk, name, self.offset, size, &[0; ZEROS])?;
        disk.sync(name)?; // the blank
        self.base = next;
        self.offset = 0;
        self.zeroed = 0;
        Ok(())
    }

    // Writes zeros behind a batch of so many bytes that ends at this offset, where they are due. They aren't synced.
    fn write_ahead<D: Disk>(
        &mut self,
        disk: &mut D,
        name: &str,
        end: u64,
        size: usize,
    ) -> Result<(), Failed>
        requires room { end < 2 ^ 63 }
        requires inside { D.tells → end ≤ length (bytes_of (D.state disk.old).reads name.now) }
        ensures written { D.tells → OnOk result ((n : ℕ) × HasZeros name.now end n (D.state disk.old) (D.state disk.new)) }
        ensures any_moment { D.tells → (S : Geometry) (shape : Shape) (reach : ℕ) → IsBehind S shape name.now end
            → zeros_to self.old end ≤ reach
            → EachImage (Stands S shape reach) (D.state disk.old)
            → Throughout (D.state disk.old) (D.state disk.new) (Stands S shape reach) }
        ensures outside { D.tells → IsLogFile name.now → StaysOutside (D.state disk.old) (D.state disk.new) }
        ensures inside { D.tells → end ≤ length (bytes_of (D.state disk.new).reads name.now) }
        ensures place { (self.new.base ≡ self.old.base) × (self.new.offset ≡ self.old.offset) }
        ensures ahead { self.new.ahead ≡ self.old.ahead }
        ensures cause { CountsFailure result (D.faults disk.old) (D.faults disk.new) }
        ensures syncs { D.syncs disk.new ≡ D.syncs disk.old }
    {
        let to = ((end / STEP + 1) * STEP).min(self.ahead);
        if end <= self.zeroed || to <= end || size > BATCH_MAX {
            return Ok(());
        }
        self.zeroed = self.ahead; // if the disk fails, none are tried in this file again
        write_zeros(disk, name, end, to, &[0; ZEROS])?;
        self.zeroed = to;
        Ok(())
    }

    // Writes these bytes behind what is flushed, and zeros behind them where they are due. One sync stores both.
    fn write_synced<D: Disk>(&mut self, disk: &mut D, bytes: &[u8]) -> Result<(), Failed>
        requires room { self.old.offset + length bytes.now < 2 ^ 63 }
        requires inside { D.tells → IsInside self.old.base self.old.offset (D.state disk.old) }
        ensures stands { D.tells → (S : Geometry) (log : List Entry) (flushed : ℕ) (shape : Shape) (reach : ℕ)
            → WritesAt (stored S log flushed) shape reach self.old.base self.old.offset (D.state disk.old)
            → Throughout (D.state disk.old) (D.state disk.new)
            (Stands S shape (max reach (zeros_to self.old (self.old.offset + length bytes.now)))) }
        ensures has { D.tells → OnOk result (EachImage (HasPiece self.old.base self.old.offset bytes.now) (D.state disk.new)) }
        ensures outside { D.tells → StaysOutside (D.state disk.old) (D.state disk.new) }
        ensures inside { D.tells → IsInside self.old.base self.old.offset (D.state disk.new) }
        ensures behind { D.tells → OnOk result (IsInside self.old.base (self.old.offset + length bytes.now) (D.state disk.new)) }
        ensures place { (self.new.base ≡ self.old.base) × (self.new.offset ≡ self.old.offset) }
        ensures ahead { self.new.ahead ≡ self.old.ahead }
        ensures cause { CountsFailure result (D.faults disk.old) (D.faults disk.new) }
        ensures synced { OnOk result (Counted 1 (D.syncs disk.old) (D.syncs disk.new)) }
        ensures syncs { D.syncs disk.new ≤ D.syncs disk.old + 1 }
    {
        let file = LogFile::of(self.base);
        let name = file.as_str();
        disk.write_at(name, self.offset, bytes)?;
        let end = self.offset + bytes.len() as u64;
        self.write_ahead(disk, name, end, bytes.len())?;
        disk.sync(name)?; // the batch
        Ok(())
    }

    // Writes these bytes behind what is flushed, and syncs them.
    fn store<D: Disk>(&mut self, disk: &mut D, bytes: Bytes) -> Result<Frozen, Failed>
        requires room { self.old.offset + length bytes < 2 ^ 63 }
        requires inside { D.tells → IsInside self.old.base self.old.offset (D.state disk.old) }
        ensures any_moment { D.tells → (S : Geometry) (log : List Entry) (flushed count : ℕ) (shape : Shape) (reach : ℕ)
            → WritesAt (stored S log flushed) shape reach self.old.base self.old.offset (D.state disk.old)
            → IsBatch S log flushed count shape bytes
            → Throughout (D.state disk.old) (D.state disk.new) (HasRecords S (take flushed log)) }
        ensures still { D.tells → (S : Geometry) (log : List Entry) (flushed count : ℕ) (shape : Shape) (reach : ℕ)
            → WritesAt (stored S log flushed) shape reach self.old.base self.old.offset (D.state disk.old)
            → IsBatch S log flushed count shape bytes → self.old.ahead ≤ S.size
            → WritesAt (stored S log flushed) shape (max reach (zeros_to self.old (self.old.offset + length bytes)))
            self.old.base self.old.offset (D.state disk.new) }
        ensures flushed { D.tells → (S : Geometry) (log : List Entry) (flushed count : ℕ) (shape : Shape) (reach : ℕ)
            → WritesAt (stored S log flushed) shape reach self.old.base self.old.offset (D.state disk.old)
            → IsBatch S log flushed count shape bytes → self.old.ahead ≤ S.size
            → OnOk result (WritesAt (stored S log (flushed + count)) (shape_of S (take (flushed + count) log))
            (max reach (zeros_to self.old (self.old.offset + length bytes))) self.new.base self.new.offset (D.state disk.new)) }
        ensures outside { D.tells → StaysOutside (D.state disk.old) (D.state disk.new) }
        ensures inside { D.tells → IsInside self.new.base self.new.offset (D.state disk.new) }
        ensures moved { OnOk result (self.new.offset ≡ self.old.offset + length bytes) }
        ensures stays { OnErr result (self.new.offset ≡ self.old.offset) }
        ensures base { self.new.base ≡ self.old.base }
        ensures ahead { self.new.ahead ≡ self.old.ahead }
        ensures range { IfOk result (λ piece. (piece.base ≡ self.old.base) × (piece.from ≡ self.old.offset) × (piece.len ≡ length bytes)) }
        ensures held { D.tells → IfOk result (λ piece. piece.held ≡ Some bytes) }
        ensures no_others { IfOk result (λ piece. IfSome piece.held (λ held. held ≡ bytes)) }
        ensures cause { CountsFailure result (D.faults disk.old) (D.faults disk.new) }
        ensures synced { OnOk result (Counted 1 (D.syncs disk.old) (D.syncs disk.new)) }
        ensures syncs { D.syncs disk.new ≤ D.syncs disk.old + 1 }
    {
        self.write_synced(disk, &bytes)?;
        let from = self.offset;
        self.offset += bytes.len() as u64;
        Ok(disk.freeze(self.base, from, bytes))
    }

    // Ends the last file where the blank lies in it. A blank before it stands already.
    fn open_next<D: Disk>(
        &mut self,
        disk: &mut D,
        place: u64,
        blank: Option<(u64, u32)>,
    ) -> Result<(), Failed>
        requires room { self.old.offset < 2 ^ 63 }
        requires inside { D.tells → IsInside self.old.base self.old.offset (D.state disk.old) }
        ensures any_moment { D.tells → (S : Geometry) (log : List Entry) (flushed : ℕ) (shape : Shape) (reach : ℕ)
            → WritesAt (stored S log flushed) shape reach self.old.base self.old.offset (D.state disk.old)
            → (is_due self.old.base blank ≡ true → Opens S log flushed shape place blank)
            → Throughout (D.state disk.old) (D.state disk.new) (HasRecords S (take flushed log)) }
        ensures still { D.tells → (S : Geometry) (log : List Entry) (flushed : ℕ) (shape : Shape) (reach : ℕ)
            → WritesAt (stored S log flushed) shape reach self.old.base self.old.offset (D.state disk.old)
            → (is_due self.old.base blank ≡ true → Opens S log flushed shape place blank)
            → WritesAt (stored S log flushed) shape S.size self.old.base self.old.offset (D.state disk.new) }
        ensures opened { D.tells → (S : Geometry) (log : List Entry) (flushed : ℕ) (shape : Shape) (reach : ℕ)
            → WritesAt (stored S log flushed) shape reach self.old.base self.old.offset (D.state disk.old)
            → (is_due self.old.base blank ≡ true → Opens S log flushed shape place blank)
            → OnOk result (WritesAt (stored S log flushed) (shape_behind (is_due self.old.base blank) shape)
            (unless_opened (is_due self.old.base blank) reach) self.new.base self.new.offset (D.state disk.new)) }
        ensures outside { D.tells → StaysOutside (D.state disk.old) (D.state disk.new) }
        ensures inside { D.tells → IsInside self.new.base self.new.offset (D.state disk.new) }
        ensures moved { OnOk result ((self.new.base ≡ base_behind (is_due self.old.base blank) place self.old.base)
            × (self.new.offset ≡ unless_opened (is_due self.old.base blank) self.old.offset)) }
        ensures stays { OnErr result ((self.new.base ≡ self.old.base) × (self.new.offset ≡ self.old.offset)) }
        ensures ahead { self.new.ahead ≡ self.old.ahead }
        ensures due { OnErr result (is_due self.old.base blank ≡ true) }
        ensures cause { CountsFailure result (D.faults disk.old) (D.faults disk.new) }
        ensures synced { is_due self.old.base blank ≡ true → OnOk result (Counted 1 (D.syncs disk.old) (D.syncs disk.new)) }
        ensures quiet { is_due self.old.base blank ≡ false → D.syncs disk.new ≡ D.syncs disk.old }
        ensures syncs { D.syncs disk.new + 1 ≤ D.syncs disk.old + syncs_of (is_due self.old.base blank) }
    {
        let Some((at, size)) = blank else {
            return Ok(());
        };
        if self.base <= at {
            self.end_file(disk, size, place)?;
        }
        Ok(())
    }

    /// Writes a batch behind the flushed records and syncs it. It takes no memory. At `Err` the log is stored as before, and
    /// the next batch begins at the same place: the same one, or a longer one.
    pub fn write_batch<D: Disk>(&mut self, disk: &mut D, batch: Batch) -> Result<Receipt, Failed>
        requires room { self.old.offset + length batch.bytes < 2 ^ 63 }
        requires inside { D.tells → IsInside self.old.base self.old.offset (D.state disk.old) }

        // What it does to each log that is open there and of which this is the next batch. Files outside the log's folder stay.
        ensures turned { D.tells → (it : Stored) (behind : ℕ) → CanTurn it behind batch (growing self.old (D.state disk.old))
            → HasTurned it behind batch result (growing self.old (D.state disk.old)) (growing self.new (D.state disk.new)) }
        ensures outside { D.tells → StaysOutside (D.state disk.old) (D.state disk.new) }

        // Where the next bytes go: at Ok to the end of the batch, whatever the disk tells.
        ensures places { (it : Stored) → IsWellFormed it.geometry it.log → IsBatchOf it.geometry it.log it.flushed batch
            → IsPlaced it self.old
            → PlacesOn it batch result self.new }
        ensures moves { MovesOn D.tells batch result self.old self.new }
        ensures inside { D.tells → IsInside self.new.base self.new.offset (D.state disk.new) }

        // An Ok has synced the batch, and the blank before it. A fault is the disk's.
        ensures cause { CountsFailure result (D.faults disk.old) (D.faults disk.new) }
        ensures synced { OnOk result (Counted (syncs_of (opens_segment self.old batch)) (D.syncs disk.old) (D.syncs disk.new)) }
        ensures syncs { D.syncs disk.new ≤ D.syncs disk.old + syncs_of (opens_segment self.old batch) }
    {
        self.open_next(disk, batch.place, batch.blank)?;
        let piece = self.store(disk, batch.bytes)?;
        Ok(Receipt {
            from: batch.from,
            count: batch.count,
            piece,
        })
    }
}
