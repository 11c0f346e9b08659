//! The tables of all queues. A unit is added when its record is appended, and seen by consumers when the record is
//! dispatched; the number of a table stays the same, so that neither looks a text up.

ghost use Rattle.std.specs.Prelude.{◌≡◌, ◌↔◌, ◌<◌, ◌≤◌, ◌+◌, ◌-◌, ◌++◌, ◌∷◌, [], ◌^◌, ℕ, List, length, take, drop, slice_get, slice_set};
ghost use Rattle.std.specs.Prelude.{Some, None, IfOk, OnOk, OnErr, IsTrue};
ghost use Rattle.std.specs.List.Sorted.{IsNonDecreasingBy};
ghost use Rattle.queue_view.specs.Tables.{Table, number_of, max_of, added_of, empty_table, with_room, with_unit, with_next_seen, cut_at};
ghost use Rattle.queue_view.specs.Searches.{first_from, first_among, store_in};
ghost use Rattle.queue_view.specs.Added.{Added, added_to, queue_in, IsRecordOf, IsTableOf, AreTablesOf, AreLowAfter, with_low};
ghost use Rattle.queue_view.specs.Answers.{Answers, pulled_of, pulled_among};

use crate::numbers::{QueueNumbers, number_in, set_number};
use crate::pulled::Pulled;
use crate::table::QueueTable;
use crate::tables::{add_unit, cut_one, make_room, push_within, see_one};
use crate::tags::Tags;
use record_codec::Unit;
use std::alloc::{AllocError, Global};
use std::collections::HashMap;
use std::marker::Model;

/// The tables of the queues, each with its number. Contracts see the list of them.
#[derive(Drop)]
pub struct QueueView {
    tables: Vec<QueueTable>,
    numbers: HashMap<String, QueueNumbers>,
}

impl Model for QueueView {
    ghost use Rattle.std.specs.Prelude.{List};
    ghost use Rattle.queue_view.specs.Tables.{Table};

    ghost Value = { List Table };

    ghost use Rattle.queue_view.specs.Numbers.{AreNumbered};

    ghost view = { λ v. v.tables.items };

    ghost invariant = { λ v. AreNumbered v.tables.items v.numbers };
}

impl QueueView {
    /// No tables; takes no memory.
    pub fn new(alloc: Global) -> QueueView
        ensures empty { result ≡ [] }
        ensures records { AreTablesOf (λ topic queue. 0) [] 0 result }
    {
        QueueView {
            tables: Vec::new(alloc),
            numbers: HashMap::new(alloc),
        }
    }

    /// The number of this queue's table, `None` where it has none.
    pub fn find(&self, topic: &str, queue: u32) -> Option<u32>
        ensures { result ≡ number_of self.now topic.now queue }
    {
        number_in(&self.numbers, topic, queue)
    }

    /// Makes room for `additional` units more, at most 1,024, in this queue's table, which is made where there is none; the
    /// number of the table. At `Err` there may be more room, and nothing else has changed.
    pub fn reserve(
        &mut self,
        alloc: Global,
        topic: &str,
        queue: u32,
        additional: usize,
    ) -> Result<u32, AllocError>
        requires { additional ≤ 1024 }
        ensures number { IfOk result (λ k. number_of self.new topic.now queue ≡ Some k) }
        ensures room { IfOk result (λ k. (t : Table) → slice_get self.new k ≡ Some t → additional ≤ t.spare) }
        ensures there { (k : ℕ) (t : Table) → number_of self.old topic.now queue ≡ Some k → slice_get self.old k ≡ Some t
            → (s : ℕ) × (t.spare ≤ s) × (OnOk result (additional ≤ s)) × (self.new ≡ slice_set self.old k (with_room t s)) }
        ensures absent { number_of self.old topic.now queue ≡ None
            → OnOk result ((s : ℕ) × (additional ≤ s) × (self.new ≡ self.old ++ empty_table topic.now queue 0 s ∷ [])) }
        ensures same { number_of self.old topic.now queue ≡ None → OnErr result (self.new ≡ self.old) }
        ensures records { (low : List ℕ → ℕ → ℕ) (added : List Added) (n : ℕ)
            → AreTablesOf low added n self.old → AreTablesOf low added n self.new }
    {
        match self.find(topic, queue) {
            Some(table) => {
                make_room(&mut self.tables, alloc, table as usize, additional)?;
                Ok(table)
            }
            None => self.make(alloc, topic, queue, 0, additional),
        }
    }

    /// Makes the table of a queue of which `min` units were removed, and none stands.
    pub fn start(
        &mut self,
        alloc: Global,
        topic: &str,
        queue: u32,
        min: u64,
    ) -> Result<u32, AllocError>
        requires absent { number_of self.old topic.now queue ≡ None }
        requires low { min ≤ 2 ^ 62 }
        ensures number { IfOk result (λ k. number_of self.new topic.now queue ≡ Some k) }
        ensures started { OnOk result ((s : ℕ) × (self.new ≡ self.old ++ empty_table topic.now queue min s ∷ [])) }
        ensures same { OnErr result (self.new ≡ self.old) }
        ensures records { (low : List ℕ → ℕ → ℕ) (added : List Added) (n : ℕ) → AreTablesOf low added n self.old
            → OnOk result (AreTablesOf (with_low low topic.now queue min) added n self.new) }
    {
        self.make(alloc, topic, queue, min, 0)
    }

    // Makes the table of a queue that has none, with room for so many units.
    fn make(
        &mut self,
        alloc: Global,
        topic: &str,
        queue: u32,
        low: u64,
        additional: usize,
    ) -> Result<u32, AllocError>
        requires absent { number_of self.old topic.now queue ≡ None }
        requires low { low ≤ 2 ^ 62 }
        requires few { additional ≤ 1024 }
        ensures number { IfOk result (λ k. number_of self.new topic.now queue ≡ Some k) }
        ensures last { IfOk result (λ k. k ≡ length self.old) }
        ensures made { OnOk result ((s : ℕ) × (additional ≤ s) × (self.new ≡ self.old ++ empty_table topic.now queue low s ∷ [])) }
        ensures same { OnErr result (self.new ≡ self.old) }
    {
        let Ok(number) = u32::try_from(self.tables.len()) else {
            return Err(AllocError);
        };
        if number == u32::MAX {
            return Err(AllocError);
        }
        let mut table = QueueTable::new(alloc, topic, queue, low)?;
        table.reserve(alloc, additional)?;
        self.tables.reserve(1)?;
        set_number(alloc, &mut self.numbers, topic, queue, number)?;
        push_within(&mut self.tables, table);
        Ok(number)
    }

    /// Adds a unit to a table that has room for it; takes no memory. Consumers don't see it yet.
    pub fn add(&mut self, table: u32, unit: Unit, store: u64)
        requires there { table < length self.old }
        requires room { (t : Table) → slice_get self.old table ≡ Some t → 0 < t.spare }
        ensures table { (t : Table) → slice_get self.old table ≡ Some t
            → (s : ℕ) × (t.spare ≤ s + 1) × (self.new ≡ slice_set self.old table (with_unit t unit store s)) }
        ensures records { (low : List ℕ → ℕ → ℕ) (added : List Added) (n : ℕ) (t : Table) → AreTablesOf low added n self.old
            → n ≤ length added → slice_get self.old table ≡ Some t → AreTablesOf low (added ++ added_to t unit store ∷ []) n self.new }
    {
        add_unit(&mut self.tables, table as usize, unit, store);
    }

    /// Consumers see the first unit of a table that they don't see yet; takes no memory.
    pub fn see(&mut self, table: u32)
        requires there { table < length self.old }
        requires some { (t : Table) → slice_get self.old table ≡ Some t → t.seen < length t.units }
        ensures table { (t : Table) → slice_get self.old table ≡ Some t → self.new ≡ slice_set self.old table (with_next_seen t) }
        ensures records { (low : List ℕ → ℕ → ℕ) (added : List Added) (n : ℕ) (a : Added) (t : Table) → AreTablesOf low added n self.old
            → slice_get added n ≡ Some a → slice_get self.old table ≡ Some t → IsRecordOf t a → AreTablesOf low added (n + 1) self.new }
    {
        see_one(&mut self.tables, table as usize);
    }

    /// Removes the units of a table below an offset, which consumers see, or which is the maximum; takes no memory.
    pub fn cut(&mut self, table: u32, min: u64)
        requires there { table < length self.old }
        requires low { (t : Table) → slice_get self.old table ≡ Some t → t.low ≤ min }
        requires high { (t : Table) → slice_get self.old table ≡ Some t → min ≤ max_of t }
        ensures table { (t : Table) → slice_get self.old table ≡ Some t
            → self.new ≡ slice_set self.old table (cut_at t min) }
        ensures records { (low later : List ℕ → ℕ → ℕ) (added : List Added) (n k : ℕ) (t u : Table) → slice_get self.old table ≡ Some t
            → IsTableOf low added n t → k ≤ n → AreLowAfter low (take k added) later → min ≡ later t.topic t.queue
            → slice_get self.new table ≡ Some u → IsTableOf later (drop k added) (n - k) u }
    {
        cut_one(&mut self.tables, table as usize, min);
    }

    /// How many tables there are.
    pub fn len(&self) -> usize
        ensures { result ≡ length self.now }
    {
        self.tables.len()
    }

    /// The topic of a table.
    pub fn topic(&self, table: u32) -> &str
        requires { table < length self.now }
        ensures { (t : Table) → slice_get self.now table ≡ Some t → result.now ≡ t.topic }
    {
        self.tables[table as usize].topic()
    }

    /// The queue of a table.
    pub fn queue(&self, table: u32) -> u32
        requires { table < length self.now }
        ensures { (t : Table) → slice_get self.now table ≡ Some t → result ≡ t.queue }
    {
        self.tables[table as usize].queue()
    }

    /// The offset of the first unit of a table.
    pub fn min(&self, table: u32) -> u64
        requires { table < length self.now }
        ensures table { (t : Table) → slice_get self.now table ≡ Some t → result ≡ t.low }
        ensures records { (low : List ℕ → ℕ → ℕ) (added : List Added) (n : ℕ) (t : Table) → AreTablesOf low added n self.now
            → slice_get self.now table ≡ Some t → result ≡ low t.topic t.queue }
    {
        self.tables[table as usize].min()
    }

    /// The offset after the last unit that consumers see.
    pub fn max(&self, table: u32) -> u64
        requires { table < length self.now }
        ensures table { (t : Table) → slice_get self.now table ≡ Some t → result ≡ max_of t }
        ensures records { (low : List ℕ → ℕ → ℕ) (added : List Added) (n : ℕ) (t : Table) → AreTablesOf low added n self.now
            → slice_get self.now table ≡ Some t → result ≡ low t.topic t.queue + length (queue_in (take n added) t.topic t.queue) }
    {
        self.tables[table as usize].max()
    }

    /// The offset after the last unit, which is that of the next record.
    pub fn added(&self, table: u32) -> u64
        requires { table < length self.now }
        ensures table { (t : Table) → slice_get self.now table ≡ Some t → result ≡ added_of t }
        ensures records { (low : List ℕ → ℕ → ℕ) (added : List Added) (n : ℕ) (t : Table) → AreTablesOf low added n self.now
            → slice_get self.now table ≡ Some t → result ≡ low t.topic t.queue + length (queue_in added t.topic t.queue) }
    {
        self.tables[table as usize].added()
    }

    /// Whether the unit of a table at this index is this one, of a record that was stored at this time, in milliseconds.
    pub fn is_at(&self, table: u32, index: usize, unit: Unit, store: u64) -> bool
        requires { table < length self.now }
        ensures { (t : Table) → slice_get self.now table ≡ Some t
            → (IsTrue result ↔ (slice_get t.units index ≡ Some (record { unit = unit; store = store }))) }
    {
        self.tables[table as usize].is_at(index, unit, store)
    }

    /// The offset of the first unit that consumers see whose record was stored at this time, in milliseconds, or later; else
    /// the maximum. The store times must not fall.
    pub fn search(&self, table: u32, time: i64) -> u64
        requires there { table < length self.now }
        requires rising { (t : Table) → slice_get self.now table ≡ Some t → IsNonDecreasingBy store_in (take t.seen t.units) }
        ensures table { (t : Table) → slice_get self.now table ≡ Some t → result ≡ first_from time t }
        ensures records { (low : List ℕ → ℕ → ℕ) (added : List Added) (n : ℕ) (t : Table) → AreTablesOf low added n self.now
            → slice_get self.now table ≡ Some t → result ≡ first_among low (take n added) t.topic t.queue time }
    {
        self.tables[table as usize].search(time)
    }

    /// What consumers are told who pull from this offset on, at most 32 units of those that the subscription takes.
    pub fn pull(
        &self,
        alloc: Global,
        table: u32,
        from: i64,
        most: i32,
        tags: &Tags,
    ) -> Result<Pulled, AllocError>
        requires { table < length self.now }
        ensures table { (t : Table) → slice_get self.now table ≡ Some t → IfOk result (λ a. Answers (pulled_of t from most tags.now) a) }
        ensures records { (low : List ℕ → ℕ → ℕ) (added : List Added) (n : ℕ) (t : Table) → AreTablesOf low added n self.now
            → slice_get self.now table ≡ Some t → IfOk result
            (λ a. Answers (pulled_among (low t.topic t.queue) (queue_in (take n added) t.topic t.queue) from most tags.now) a) }
    {
        self.tables[table as usize].pull(alloc, from, most, tags)
    }
}
