//! The records that are not yet on the disk: their bytes, one after another, and the flush turn that is out.
//! `Pending -> Out [take]`, `Out -> Flushed [flushed]`, `Out -> Pending [failed]`. No call writes or syncs: a batch goes to
//! the disk between `take` and the call that ends the turn.

ghost use Rattle.std.specs.Prelude.{◌≡◌, ◌↔◌, ◌<◌, ◌≤◌, ◌+◌, ◌-◌, ◌*◌, ◌^◌, ◌∷◌, [], List, length, nat_lt, if◌then◌else◌};
ghost use Rattle.std.specs.Prelude.{IsSome, IsNone, IfSome, IfOk, OnOk, OnErr, is_some};
ghost use Rattle.record_codec.specs.Drafts.{entry_of, draft_size, IsEncodable};
ghost use Rattle.record_codec.specs.Layout.{IsRecord};
ghost use Rattle.log_model.specs.Log.{place_after};
ghost use Rattle.log_model.specs.Numbered.{Log, IsLawful, count_of, place_end, with_appended};
ghost use Rattle.pending_log.specs.Parts.{PendingPart, appended, new_part};
ghost use Rattle.pending_log.specs.Pending.{IsPendingOf, IsMarkOf, IsGrownFrom, IsNextBatch, IsNextTurn, HasTaken, IsIdle};
ghost use Rattle.pending_log.specs.Pending.{IsReceiptOf, after_flushed, after_failed};
ghost use Rattle.pending_log.specs.Extents.{IsExtent};
ghost use Rattle.pending_log.specs.Rows.{AreRowsOf};
ghost use Rattle.pending_log.specs.Looks.{Turn, this, AreInOrder, KeepsLast, looked, kept_look};
ghost use Rattle.pending_log.specs.declared.turn.Look.TheVariants.{Flushed};

use crate::batch::{blank_between, share};
use crate::buffer::Buffer;
use crate::extent::Extent;
use crate::rows::Rows;
use crate::turn::{FailedTurn, Look, Out, look_at};
use bytes::Bytes;
use log_model::{Batch, Receipt, next_place};
use mq_outside::UNSYNCED_MAX;
use record_codec::{Draft, Place};
use std::alloc::{AllocError, Global};
use std::marker::Model;

/// How many bytes may be pending: as many as an opening of the log writes again, 64 MiB.
pub const PENDING_MAX: usize = UNSYNCED_MAX as usize;

/// The pending records, and the flush turns.
#[derive(Drop)]
pub struct Pending {
    // How many bytes a segment has; constant.
    segment: u32,
    // The number of the first pending record, and the number after the last.
    flushed: u64,
    count: u64,
    // Where the record before the first pending one ends, and where the last one does.
    start: u64,
    end: u64,
    buffer: Buffer,
    // The turn that is out, how many there were, and the last that failed.
    out: Option<Out>,
    turns: u64,
    failed: Option<FailedTurn>,
}

impl Model for Pending {
    ghost use Rattle.pending_log.specs.Parts.{PendingPart, part_of, IsBounded};

    ghost Value = { PendingPart };

    ghost view = { part_of };

    ghost invariant = { λ p. IsBounded (part_of p) };
}

/// How much was pending at some time, so that what was appended since can be undone.
#[derive(Clone, Copy)]
pub struct Mark {
    size: usize,
    count: u64,
    end: u64,
}

impl Pending {
    /// Nothing is pending behind `count` records that end at `end`, and no turn was taken yet.
    pub fn new(alloc: Global, segment: u32, count: u64, end: u64) -> Pending
        requires some { 0 < segment }
        requires segment { segment ≤ 2 ^ 30 }
        requires few { 91 * count ≤ end }
        requires low { end ≤ 2 ^ 62 }
        ensures value { result ≡ new_part segment count end }
        ensures log { (log : Log) → count_of log ≡ count → place_end log ≡ end → IsPendingOf log result }
    {
        Pending {
            segment,
            flushed: count,
            count,
            start: end,
            end,
            buffer: Buffer::new(alloc),
            out: None,
            turns: 0,
            failed: None,
        }
    }

    /// The number of the first pending record: all below it are on the disk.
    pub fn flushed_count(&self) -> u64
        ensures { result ≡ self.now.flushed }
    {
        self.flushed
    }

    /// How many flush turns were taken since the store was opened.
    pub fn turns(&self) -> u64
        ensures { result ≡ self.now.turns }
    {
        self.turns
    }

    /// Whether a flush turn is out.
    pub fn is_out(&self) -> bool
        ensures { result ≡ is_some self.now.out }
    {
        self.out.is_some()
    }

    /// How many bytes are pending.
    pub fn size(&self) -> usize
        ensures value { result ≡ length self.now.bytes }
        ensures low { result ≤ 67108864 }
    {
        self.buffer.len()
    }

    /// Where the next record of `size` bytes is placed.
    pub fn next_place(&self, size: u32) -> u64
        ensures { result ≡ place_after self.now.segment self.now.end size }
    {
        next_place(self.segment, self.end, size)
    }

    /// Whether records of `size` bytes together are too many beside those that are pending.
    pub fn is_full(&self, size: u64) -> bool
        ensures { result ≡ nat_lt 67108864 (length self.now.bytes + size) }
    {
        size > (PENDING_MAX - self.buffer.len()) as u64
    }

    /// How much is pending now.
    pub fn mark(&self) -> Mark
        ensures { IsMarkOf result self.now }
    {
        Mark {
            size: self.buffer.len(),
            count: self.count,
            end: self.end,
        }
    }

    /// Encodes the next record at the end of the pending bytes. At `Err` nothing changes.
    pub fn append(&mut self, draft: &Draft, place: &Place) -> Result<(), AllocError>
        requires encodable { IsEncodable draft.now place.now }
        requires next { place.now.offset ≡ place_after self.old.segment self.old.end (draft_size draft.now) }
        requires low { place.now.offset + draft_size draft.now ≤ 2 ^ 62 }
        requires room { length self.old.bytes + draft_size draft.now ≤ 67108864 }
        ensures appended { OnOk result (self.new ≡ appended self.old (entry_of draft.now place.now)) }
        ensures log { OnOk result ((log : Log) → IsPendingOf log self.old
            → IsPendingOf (with_appended log (entry_of draft.now place.now ∷ [])) self.new) }
        ensures a_record { OnOk result (IsRecord (entry_of draft.now place.now)) }
        ensures same { OnErr result (self.new ≡ self.old) }
    {
        let before = self.buffer.len();
        self.buffer.append(draft, place)?;
        let size = self.buffer.len() - before;
        self.count += 1;
        self.end = place.offset + size as u64;
        Ok(())
    }

    /// Undoes all appends since the mark; takes no memory.
    pub fn undo(&mut self, mark: Mark)
        requires { (part : PendingPart) × IsMarkOf mark part × IsGrownFrom part self.old }
        ensures { (part : PendingPart) → IsMarkOf mark part → IsGrownFrom part self.old → self.new ≡ part }
    {
        self.buffer.keep_front(mark.size);
        self.count = mark.count;
        self.end = mark.end;
    }

    // How far the pending records lie in the segment of the first. Where the last one does, none between them is looked at.
    fn extent(&self, rows: &Rows) -> Extent
        requires some { (log : Log) × IsLawful self.now.segment log × IsPendingOf log self.now × AreRowsOf log rows.now }
        requires pending { self.now.flushed < self.now.count }
        ensures { IsExtent self.now.segment rows.now.items (self.now.flushed - rows.now.first) result }
    {
        let segment = u64::from(self.segment);
        let first = rows.at(self.flushed);
        let last = rows.at(self.count - 1);
        if first.place / segment != last.place / segment {
            return rows.extent(self.segment, self.flushed);
        }
        Extent {
            count: (self.count - self.flushed) as usize,
            bytes: self.buffer.len(),
        }
    }

    // The turn that comes next: the pending records that lie in the segment of the first. All stay pending, at `Err` too.
    fn next_turn(&mut self, alloc: Global, rows: &Rows) -> Result<Out, AllocError>
        requires some { (log : Log) × IsLawful self.old.segment log × IsPendingOf log self.old × AreRowsOf log rows.now }
        requires pending { self.old.flushed < self.old.count }
        ensures next { IfOk result (λ out. (log : Log) → IsLawful self.old.segment log → IsPendingOf log self.old
            → AreRowsOf log rows.now → IsNextTurn log self.old out) }
        ensures same { self.new ≡ self.old }
    {
        let extent = self.extent(rows);
        let count = extent.count as u64;
        let first = rows.at(self.flushed);
        let last = rows.at(self.flushed + count - 1);
        let bytes = self.buffer.front(alloc, extent.bytes)?;
        let batch = Batch {
            from: self.flushed,
            count,
            place: first.place,
            blank: blank_between(self.start, first.place),
            bytes,
        };
        Ok(Out {
            batch,
            held: self.count,
            end: last.place + u64::from(last.size),
        })
    }

    /// Takes the longest front of the pending records that lies in one segment, with the blank before it, as the batch of a
    /// flush turn, which is then out. None exactly where nothing is pending or a turn is out. At `Err` nothing changes.
    pub fn take(&mut self, alloc: Global, rows: &Rows) -> Result<Option<Batch>, AllocError>
        requires { (log : Log) × IsLawful self.old.segment log × IsPendingOf log self.old × AreRowsOf log rows.now }
        ensures idle { IfOk result (λ taken. IsNone taken ↔ IsIdle self.old) }
        ensures none { IfOk result (λ taken. IsNone taken → self.new ≡ self.old) }
        ensures batch { IfOk result (λ taken. IfSome taken (λ batch.
            (log : Log) → IsLawful self.old.segment log → IsPendingOf log self.old → AreRowsOf log rows.now
            → IsNextBatch self.old.segment log self.old.flushed batch)) }
        ensures turn { IfOk result (λ taken. IfSome taken (λ batch. HasTaken self.old batch self.new)) }
        ensures log { (log : Log) → IsLawful self.old.segment log → IsPendingOf log self.old → AreRowsOf log rows.now
            → IsPendingOf log self.new }
        ensures same { OnErr result (self.new ≡ self.old) }
    {
        if self.out.is_some() || self.flushed == self.count {
            return Ok(None);
        }
        let out = self.next_turn(alloc, rows)?;
        let batch = share(&out.batch)?;
        self.turns = self.turns.saturating_add(1);
        self.out = Some(out);
        Ok(Some(batch))
    }

    /// Ends the turn that is out: its batch is on the disk, as the receipt says. Answers the bytes of the batch, for a reader
    /// of what the receipt's piece holds. Takes no memory.
    pub fn flushed(&mut self, receipt: &Receipt) -> Bytes
        requires some { (log : Log) × IsPendingOf log self.old }
        requires receipt { IsReceiptOf self.old.out receipt.now }
        ensures bytes { IfSome self.old.out (λ out. result ≡ out.batch.bytes) }
        ensures flushed { self.new ≡ after_flushed self.old }
        ensures log { (log : Log) → IsPendingOf log self.old → IsPendingOf log self.new }
    {
        match self.out.take() {
            Some(out) => {
                self.buffer.drop_front(out.batch.bytes.len());
                self.flushed += receipt.count;
                self.start = out.end;
                out.batch.bytes
            }
            None => unreachable!(),
        }
    }

    /// Ends the turn that is out: it failed, where the disk counts so many failures. Its batch is pending again; the turn is
    /// kept in place of an earlier one that failed. Takes no memory.
    pub fn failed(&mut self, count: u64)
        requires { IsSome self.old.out }
        ensures failed { self.new ≡ after_failed self.old count }
        ensures log { (log : Log) → IsPendingOf log self.old → IsPendingOf log self.new }
    {
        match self.out.take() {
            Some(out) => {
                self.failed = Some(FailedTurn {
                    turn: self.turns,
                    held: out.held,
                    count,
                });
            }
            None => unreachable!(),
        }
    }

    /// What has become of the record with this number by the turns after `turn`.
    pub fn look(&self, number: u64, turn: u64) -> Look
        ensures answer { result ≡ (if nat_lt number self.now.flushed then Flushed else kept_look self.now.failed number turn) }
        ensures turns { (turns : List Turn) → AreInOrder this self.now.flushed turns → KeepsLast this turns self.now.failed
            → result ≡ looked this self.now.flushed turns number turn }
    {
        if number < self.flushed {
            return Look::Flushed;
        }
        match self.failed {
            Some(failed) => look_at(failed, number, turn),
            None => Look::NotYet,
        }
    }
}
