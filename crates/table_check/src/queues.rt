//! The tables of queues as a whole: each is of a queue of its own, has what the log says, and is seen.

ghost use Rattle.std.specs.Prelude.{◌≡◌, ◌↔◌, ◌<◌, ◌≤◌, ◌^◌, ◌==◌, ◌&&◌, not, ℕ, List, length};
ghost use Rattle.std.specs.Prelude.{slice_get, string_bytes, is_none, Some, IsTrue, vec_len};
ghost use Rattle.std.specs.List.{list_any};
ghost use Rattle.record_codec.specs.Entry.{Entry};
ghost use Rattle.log_model.specs.Told.{counts_in};
ghost use Rattle.queue_view.specs.Tables.{Table, number_of};
ghost use Rattle.table_check.specs.Equal.{IsQueueOf, AreApart, AreQueuesOf, AreSeen};
ghost use Rattle.table_check.specs.Beside.{HasPassed, HavePassed, log_from};

use log_model::Base;
use log_replay::bounds_of;
use queue_view::QueueView;

// Whether the table is the one that its queue is looked up as.
fn is_found(queues: &QueueView, table: u32) -> bool
    requires { table < length queues.now }
    ensures { (t : Table) → slice_get queues.now table ≡ Some t → (IsTrue result ↔ (number_of queues.now t.topic t.queue ≡ Some table)) }
{
    match queues.find(queues.topic(table), queues.queue(table)) {
        Some(found) => found == table,
        None => false,
    }
}

/// Whether each of the tables, of which there are so many, is the one that its queue is looked up as.
pub(crate) fn are_apart(queues: &QueueView, count: u32) -> bool
    requires { count ≡ length queues.now }
    ensures { IsTrue result ↔ AreApart queues.now }
{
    for table in 0..count {
        if !is_found(queues, table) {
            return false;
        }
    }
    true
}

// Whether a queue of which records were removed has no table.
fn lacks_removed(queues: &QueueView, base: &Base) -> bool
    requires counts { (topic : List ℕ) (queue : ℕ) → counts_in base.now.queues.items topic queue ≤ 2 ^ 62 }
    ensures { result ≡ list_any (λ row. is_none (number_of queues.now (string_bytes row.0) row.1)
        && not (counts_in base.now.queues.items (string_bytes row.0) row.1 == 0)) base.now.queues.items }
{
    for row in &base.queues {
        let topic = row.0.as_str();
        let (min, _) = bounds_of(&[], base, topic, row.1);
        if queues.find(topic, row.1).is_none() && min != 0 {
            return true;
        }
    }
    false
}

// Whether the table, of which so many units were passed, has no more, and begins where the base says.
fn is_passed(queues: &QueueView, table: u32, base: &Base, units: usize) -> bool
    requires there { table < length queues.now }
    requires counts { (topic : List ℕ) (queue : ℕ) → counts_in base.now.queues.items topic queue ≤ 2 ^ 62 }
    ensures { (records : List Entry) (t : Table) → slice_get queues.now table ≡ Some t → HasPassed records t units
        → (IsTrue result ↔ IsQueueOf (log_from base.now records) t) }
{
    let (min, _) = bounds_of(&[], base, queues.topic(table), queues.queue(table));
    let low = queues.min(table);
    if low != min {
        return false;
    }
    queues.added(table) - low == units as u64
}

/// Whether all units of the tables were passed, which begin where the base says.
pub(crate) fn are_passed(queues: &QueueView, base: &Base, units: &Vec<usize>, count: u32) -> bool
    requires all { vec_len units.now ≡ length queues.now }
    requires count { count ≡ length queues.now }
    requires counts { (topic : List ℕ) (queue : ℕ) → counts_in base.now.queues.items topic queue ≤ 2 ^ 62 }
    ensures { (records : List Entry) → HavePassed records queues.now units.now.items
        → (IsTrue result ↔ AreQueuesOf (log_from base.now records) queues.now) }
{
    if lacks_removed(queues, base) {
        return false;
    }
    for table in 0..count {
        if !is_passed(queues, table, base, units[table as usize]) {
            return false;
        }
    }
    true
}

// Whether consumers see all units of the table.
fn is_seen(queues: &QueueView, table: u32) -> bool
    requires { table < length queues.now }
    ensures { (t : Table) → slice_get queues.now table ≡ Some t → (IsTrue result ↔ (t.seen ≡ length t.units)) }
{
    queues.max(table) == queues.added(table)
}

/// Whether consumers see all units of the tables, of which there are so many.
pub(crate) fn are_seen(queues: &QueueView, count: u32) -> bool
    requires { count ≡ length queues.now }
    ensures { IsTrue result ↔ AreSeen queues.now }
{
    for table in 0..count {
        if !is_seen(queues, table) {
            return false;
        }
    }
    true
}
