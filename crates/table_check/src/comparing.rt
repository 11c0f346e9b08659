//! A log's records beside tables, one after another.

ghost use Rattle.std.specs.Prelude.{◌≡◌, ◌≤◌, ◌^◌, ℕ, List, length, slice_get, Some, IfOk};
ghost use Rattle.log_model.specs.Told.{counts_in};

use crate::queues::{are_apart, are_passed, are_seen};
use crate::replayed::Replayed;
use crate::tables::Tables;
use crate::units::pass;
use log_model::Base;
use record_codec::View;
use std::alloc::{AllocError, Global};

/// Tables that are gone through beside the records of a log.
#[derive(Drop)]
pub struct Comparing<'a> {
    tables: Tables<'a>,
    base: &'a Base,
    // How many tables of queues there are, and how many units of each were those of records.
    count: u32,
    units: Vec<usize>,
    // How many keys were those of records.
    keys: usize,
    replayed: Replayed,
    // Whether the tables had what each record says, so far.
    is_equal: bool,
    ghost all: { length units.items ≡ length tables.queues.now },
    ghost counted: { count ≡ length tables.queues.now },
    ghost low: { (topic : List ℕ) (queue : ℕ) → counts_in base.now.queues.items topic queue ≤ 2 ^ 62 },
}

// So many numbers, all of them 0.
fn zeros(alloc: Global, count: usize) -> Result<Vec<usize>, AllocError>
    ensures { IfOk result (λ numbers. (length numbers.items ≡ count) × ((k n : ℕ) → slice_get numbers.items k ≡ Some n → n ≡ 0)) }
{
    let mut numbers = Vec::new(alloc);
    for _ in 0..count {
        numbers.push(0)?;
    }
    Ok(numbers)
}

impl<'a> Comparing<'a> {
    ghost use Rattle.std.specs.Prelude.{◌≡◌, ◌↔◌, ◌++◌, ◌∷◌, [], ℕ, List, IfOk, OnOk, IsTrue};
    ghost use Rattle.record_codec.specs.Entry.{Entry};
    ghost use Rattle.log_model.specs.Numbered.{IsLawful};
    ghost use Rattle.table_check.specs.Equal.{AreSeen, AreTablesOf};
    ghost use Rattle.table_check.specs.Beside.{IsBeside, IsOfSame, log_from};

    /// No records yet, of a log that begins at this base. `Err` comes for want of memory, and where there are 2^32 tables of queues.
    pub fn new(
        alloc: Global,
        tables: Tables<'a>,
        base: &'a Base,
    ) -> Result<Comparing<'a>, AllocError>
        requires { (topic : List ℕ) (queue : ℕ) → counts_in base.now.queues.items topic queue ≤ 2 ^ 62 }
        ensures tables { IfOk result (λ c. c.tables ≡ tables.entry) }
        ensures base { IfOk result (λ c. c.base ≡ base.entry) }
        ensures none { IfOk result (IsBeside []) }
    {
        let Ok(count) = u32::try_from(tables.queues.len()) else {
            return Err(AllocError);
        };
        Ok(Comparing {
            units: zeros(alloc, count as usize)?,
            keys: 0,
            replayed: Replayed::new(alloc, base),
            is_equal: are_apart(tables.queues, count),
            tables,
            base,
            count,
        })
    }

    /// Goes on by the next record. `Err` comes for want of memory, and past 2^61 records; the comparison serves for nothing then.
    pub fn add(&mut self, alloc: Global, view: &View<'_>) -> Result<(), AllocError>
        ensures same { IsOfSame self.old self.new }
        ensures beside { (records : List Entry) → IsBeside records self.old → OnOk result (IsBeside (records ++ view.now ∷ []) self.new) }
    {
        if !self.is_equal {
            return Ok(());
        }
        self.is_equal = pass(&self.tables, &mut self.units, &mut self.keys, view);
        self.replayed.add(alloc, view)
    }

    /// Whether the tables have what the log says that has these records.
    pub fn end(&self) -> bool
        ensures { (segment : ℕ) (records : List Entry) → IsBeside records self.now → IsLawful segment (log_from self.now.base.now records)
            → (IsTrue result ↔ AreTablesOf (log_from self.now.base.now records) self.now.tables) }
    {
        if !self.is_equal {
            return false;
        }
        if !are_passed(self.tables.queues, self.base, &self.units, self.count) {
            return false;
        }
        if self.keys != self.tables.keys.len() {
            return false;
        }
        self.replayed.is_in(self.tables.halves, self.tables.levels)
    }

    /// Whether consumers see all units of the tables of queues.
    pub fn are_seen(&self) -> bool
        ensures { IsTrue result ↔ AreSeen self.now.tables.queues.now }
    {
        are_seen(self.tables.queues, self.count)
    }
}
