//! Where each record of a log is: its place, its size, and the number of its queue's table. 16 bytes a record, in chunks
//! that never move.

ghost use Rattle.std.specs.Prelude.{◌≡◌, ◌≢◌, ◌<◌, ◌≤◌, ◌+◌, ◌-◌, ◌^◌, ◌++◌, ◌∷◌, [], ℕ, length, drop, slice_get};
ghost use Rattle.std.specs.Prelude.{Some, OnOk, IfSome, IsNone};
ghost use Rattle.record_codec.specs.Entry.{Entry};
ghost use Rattle.record_codec.specs.Layout.{size};
ghost use Rattle.log_model.specs.Bases.{Base};
ghost use Rattle.log_model.specs.Numbered.{Log, IsLawful, above, with_appended};
ghost use Rattle.pending_log.specs.declared.rows.Row.{Row as ARow};
ghost use Rattle.pending_log.specs.Rows.{AreRowsOf};
ghost use Rattle.pending_log.specs.Extents.{IsExtent, AreShort};

use crate::extent::{Extent, extent_from};
use chunks::{Chunks, Keyed};
use std::alloc::{AllocError, Global};
use std::marker::Model;

/// Where a record is.
#[derive(Debug, Clone, Copy, PartialEq, Eq)]
pub struct Row {
    /// In bytes, from the start of the log.
    pub place: u64,
    /// Of the whole record, in bytes.
    pub size: u32,
    /// The number of its queue's table.
    pub table: u32,
}

impl Keyed for Row {
    ghost key = { λ row. row.place };

    fn key(&self) -> u64 {
        self.place
    }
}

/// The rows of a log's records, in order. Records are numbered over the whole log, those that were removed included.
#[derive(Drop)]
pub struct Rows {
    // The number of the first row.
    first: u64,
    rows: Chunks<Row>,
}

impl Model for Rows {
    ghost use Rattle.pending_log.specs.Tables.{RowTable, table_of, IsCounted};

    ghost Value = { RowTable };

    ghost view = { λ r. table_of r.first r.rows };

    ghost invariant = { λ r. IsCounted r.first r.rows };
}

impl Rows {
    /// No rows, where the first record will have this number; takes no memory.
    pub fn new(alloc: Global, first: u64) -> Rows
        requires { first ≤ 2 ^ 62 }
        ensures first { result.first ≡ first }
        ensures items { result.items ≡ [] }
        ensures log { (log : Log) → log.base.records ≡ first → log.records ≡ [] → AreRowsOf log result }
    {
        Rows {
            first,
            rows: Chunks::new(alloc),
        }
    }

    /// Makes room for `additional` rows more, at most 1,024 of them. No row changes, at `Err` either.
    pub fn reserve(&mut self, alloc: Global, additional: usize) -> Result<(), AllocError>
        requires { additional ≤ 1024 }
        ensures first { self.new.first ≡ self.old.first }
        ensures items { self.new.items ≡ self.old.items }
        ensures spare { OnOk result (additional ≤ self.new.spare) }
        ensures kept { self.old.spare ≤ self.new.spare }
    {
        self.rows.reserve(alloc, additional)
    }

    /// Appends the row of the next record, for which there is room; takes no memory.
    pub fn push(&mut self, row: Row)
        requires room { 0 < self.old.spare }
        requires few { self.old.first + length self.old.items < 2 ^ 62 }
        ensures first { self.new.first ≡ self.old.first }
        ensures items { self.new.items ≡ self.old.items ++ row ∷ [] }
        ensures spare { self.old.spare ≤ self.new.spare + 1 }
        ensures log { (log : Log) (r : Entry) → AreRowsOf log self.old → row.place ≡ r.offset → row.size ≡ size r
            → AreRowsOf (with_appended log (r ∷ [])) self.new }
    {
        self.rows.push(row);
    }

    /// The number of the first row.
    pub fn first(&self) -> u64
        ensures { result ≡ self.now.first }
    {
        self.first
    }

    /// The number after the last row.
    pub fn end(&self) -> u64
        ensures value { result ≡ self.now.first + length self.now.items }
        ensures low { result ≤ 2 ^ 62 }
    {
        self.first + self.rows.len() as u64
    }

    /// The row of the record with this number, found in one step.
    pub fn at(&self, number: u64) -> Row
        requires from { self.now.first ≤ number }
        requires within { number < self.now.first + length self.now.items }
        ensures { slice_get self.now.items (number - self.now.first) ≡ Some result }
    {
        self.rows.at((number - self.first) as usize)
    }

    /// The number of the record that begins at this place, found by one look for each doubling of their number.
    pub fn find(&self, place: u64) -> Option<u64>
        requires { (segment : ℕ) × (log : Log) × IsLawful segment log × AreRowsOf log self.now }
        ensures found { IfSome result (λ number. (self.now.first ≤ number)
            × (row : ARow) × (slice_get self.now.items (number - self.now.first) ≡ Some row) × (row.place ≡ place)) }
        ensures absent { IsNone result → (k : ℕ) (row : ARow) → slice_get self.now.items k ≡ Some row → row.place ≢ place }
    {
        let index = self.rows.search(self.rows.len(), place);
        if index >= self.rows.len() {
            return None;
        }
        if self.rows.at(index).place != place {
            return None;
        }
        Some(self.first + index as u64)
    }

    /// Drops the rows of the records below this number. The memory of whole chunks is given back.
    pub fn cut(&mut self, first: u64)
        requires from { self.old.first ≤ first }
        requires within { first ≤ self.old.first + length self.old.items }
        ensures first { self.new.first ≡ first }
        ensures items { self.new.items ≡ drop (first - self.old.first) self.old.items }
        ensures spare { self.new.spare ≡ self.old.spare }
        ensures log { (log : Log) (base : Base) → AreRowsOf log self.old → base.records ≡ first → AreRowsOf (above log base) self.new }
    {
        self.rows.cut((first - self.first) as usize);
        self.first = first;
    }

    // How far the records from this number on lie in the segment of the first of them.
    pub(crate) fn extent(&self, segment: u32, from: u64) -> Extent
        requires some { 0 < segment }
        requires from { self.now.first ≤ from }
        requires within { from < self.now.first + length self.now.items }
        requires short { AreShort self.now.items (from - self.now.first) }
        ensures { IsExtent segment self.now.items (from - self.now.first) result }
    {
        extent_from(&self.rows, segment, (from - self.first) as usize)
    }
}
