//! One table among the tables of all queues.

ghost use Rattle.std.specs.Prelude.{◌≡◌, ◌<◌, ◌≤◌, ◌+◌, ◌++◌, ◌∷◌, [], length, slice_get, slice_set, Some, OnOk, vec_len, vec_capacity};
ghost use Rattle.queue_view.specs.Tables.{Table, max_of, with_room, with_unit, with_next_seen, cut_at};

use crate::table::QueueTable;
use record_codec::Unit;
use std::alloc::{AllocError, Global};

// Makes room for so many units more in this table.
pub(crate) fn make_room(
    tables: &mut Vec<QueueTable>,
    alloc: Global,
    k: usize,
    additional: usize,
) -> Result<(), AllocError>
    requires there { k < vec_len tables.old }
    requires few { additional ≤ 1024 }
    ensures { (t : Table) → slice_get tables.old.items k ≡ Some t
        → (s : _) × (t.spare ≤ s) × (OnOk result (additional ≤ s)) × (tables.new.items ≡ slice_set tables.old.items k (with_room t s)) }
{
    let table = &mut tables[k];
    table.reserve(alloc, additional)?;
    Ok(())
}

// Adds a unit to this table, which has room for it.
pub(crate) fn add_unit(tables: &mut Vec<QueueTable>, k: usize, unit: Unit, store: u64)
    requires there { k < vec_len tables.old }
    requires room { (t : Table) → slice_get tables.old.items k ≡ Some t → 0 < t.spare }
    ensures { (t : Table) → slice_get tables.old.items k ≡ Some t
        → (s : _) × (t.spare ≤ s + 1) × (tables.new.items ≡ slice_set tables.old.items k (with_unit t unit store s)) }
{
    let table = &mut tables[k];
    table.add(unit, store);
}

// Consumers see one unit more of this table.
pub(crate) fn see_one(tables: &mut Vec<QueueTable>, k: usize)
    requires there { k < vec_len tables.old }
    requires some { (t : Table) → slice_get tables.old.items k ≡ Some t → t.seen < length t.units }
    ensures { (t : Table) → slice_get tables.old.items k ≡ Some t
        → tables.new.items ≡ slice_set tables.old.items k (with_next_seen t) }
{
    let table = &mut tables[k];
    table.see();
}

// Removes the units of this table below an offset.
pub(crate) fn cut_one(tables: &mut Vec<QueueTable>, k: usize, min: u64)
    requires there { k < vec_len tables.old }
    requires low { (t : Table) → slice_get tables.old.items k ≡ Some t → t.low ≤ min }
    requires high { (t : Table) → slice_get tables.old.items k ≡ Some t → min ≤ max_of t }
    ensures { (t : Table) → slice_get tables.old.items k ≡ Some t
        → tables.new.items ≡ slice_set tables.old.items k (cut_at t min) }
{
    let table = &mut tables[k];
    table.cut(min);
}

// Adds a table for which there is room.
pub(crate) fn push_within(tables: &mut Vec<QueueTable>, table: QueueTable)
    requires { vec_len tables.old < vec_capacity tables.old }
    ensures { tables.new.items ≡ tables.old.items ++ table ∷ [] }
{
    match tables.push(table) {
        Ok(()) => (),
        Err(_) => unreachable!(),
    }
}
