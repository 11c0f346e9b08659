//! The keys of one record beside the table of keys.

ghost use Rattle.std.specs.Prelude.{◌≡◌, ◌+◌, ◌++◌, List, length, IfSome, IsNone};
ghost use Rattle.key_view.specs.Entries.{KeyEntry, entries_at};
ghost use Rattle.table_check.specs.Fronts.{BeginsWith};

use key_view::{KeyView, RecordKeys};

/// The index behind these keys of the record at `place`, where they stand in the table from the index `from` on. `None` where
/// they don't.
pub(crate) fn end_of_keys(
    table: &KeyView,
    keys: RecordKeys<'_>,
    from: usize,
    place: u64,
    store: u64,
) -> Option<usize>
    ensures count { IfSome result (λ end. end ≡ from + length keys.entry) }
    ensures stand { IfSome result (λ end. (before : List KeyEntry) → from ≡ length before → BeginsWith table.now.entries before
        → BeginsWith table.now.entries (before ++ entries_at place store keys.entry)) }
    ensures differ { IsNone result → (before : List KeyEntry) → from ≡ length before
        → BeginsWith table.now.entries (before ++ entries_at place store keys.entry) → ⊥ }
{
    let mut left = keys;
    let mut at = from;
    while let Some(hash) = left.next() {
        if at >= table.len() {
            return None;
        }
        if !table.is_at(at, hash, place, store) {
            return None;
        }
        at += 1;
    }
    Some(at)
}
