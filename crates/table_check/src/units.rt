//! The units and the keys of the tables, one record after another.

ghost use Rattle.std.specs.Prelude.{◌≡◌, ◌++◌, ◌∷◌, [], List, length, true, false, vec_len};
ghost use Rattle.record_codec.specs.Entry.{Entry};
ghost use Rattle.log_model.specs.Numbered.{Log};
ghost use Rattle.table_check.specs.Equal.{AreQueuesOf, AreTablesOf};
ghost use Rattle.table_check.specs.Beside.{ArePassed, HavePassed};

use crate::keys::end_of_keys;
use crate::tables::Tables;
use key_view::RecordKeys;
use queue_view::QueueView;
use record_codec::{View, unit_of};

// Whether the unit behind those that were passed of the record's queue is that of the record. It is passed then.
fn pass_unit(queues: &QueueView, units: &mut Vec<usize>, view: &View<'_>) -> bool
    requires { vec_len units.old ≡ length queues.now }
    ensures all { vec_len units.new ≡ length queues.now }
    ensures passed { (records : List Entry) → HavePassed records queues.now units.old.items → result ≡ true
        → HavePassed (records ++ view.now ∷ []) queues.now units.new.items }
    ensures differs { (log : Log) (records more : List Entry) → HavePassed records queues.now units.old.items → result ≡ false
        → log.records ≡ (records ++ view.now ∷ []) ++ more → AreQueuesOf log queues.now → ⊥ }
{
    let Some(table) = queues.find(view.topic(), view.queue()) else {
        return false;
    };
    let index = units[table as usize];
    if !queues.is_at(table, index, unit_of(view), view.store()) {
        return false;
    }
    // It shows that there is a next index.
    let _end = queues.added(table);
    units[table as usize] = index + 1;
    true
}

/// Whether the tables have the unit and the keys of the record behind those that were passed. They are passed then.
pub(crate) fn pass(
    tables: &Tables<'_>,
    units: &mut Vec<usize>,
    keys: &mut usize,
    view: &View<'_>,
) -> bool
    requires { vec_len units.old ≡ length tables.now.queues.now }
    ensures all { vec_len units.new ≡ length tables.now.queues.now }
    ensures passed { (records : List Entry) → ArePassed records tables.now units.old.items keys.old → result ≡ true
        → ArePassed (records ++ view.now ∷ []) tables.now units.new.items keys.new }
    ensures differs { (log : Log) (records more : List Entry) → ArePassed records tables.now units.old.items keys.old → result ≡ false
        → log.records ≡ (records ++ view.now ∷ []) ++ more → AreTablesOf log tables.now → ⊥ }
{
    if !pass_unit(tables.queues, units, view) {
        return false;
    }
    match end_of_keys(
        tables.keys,
        RecordKeys::of_view(view),
        *keys,
        view.offset(),
        view.store(),
    ) {
        Some(end) => {
            *keys = end;
            true
        }
        None => false,
    }
}
