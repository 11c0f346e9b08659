//! Changes of half messages, with the times from which on they are due.

ghost use Rattle.std.specs.Prelude.{◌≡◌, ◌<◌, ◌≤◌, ◌+◌, ◌-◌, ◌++◌, ◌∷◌, [], ◌^◌, ℕ, length};
ghost use Rattle.std.specs.Prelude.{slice_get, slice_set, Some, vec_len, vec_capacity};
ghost use Rattle.std.specs.List.Sorted.{IsNonDecreasingBy};
ghost use Rattle.half_view.specs.Halves.{settled_as as settled_as_state, settled_row, renewed_row};
ghost use Rattle.half_view.specs.Halves.{change, is_open as is_open_state, family_in};
ghost use Rattle.half_view.specs.Due.{due_time as due_time_of, AreTimed};

use crate::row::HalfRow;
use crate::times::{NEVER, Times};
use log_model::OriginState;

// What becomes of an origin that is settled once more.
fn settled_as(state: OriginState, by: OriginState) -> OriginState
    ensures { result ≡ settled_as_state state by }
{
    match (state, by) {
        (OriginState::Open, by) => by,
        (OriginState::RolledBack, OriginState::Committed) => OriginState::Committed,
        (OriginState::RolledBack, OriginState::Discarded) => OriginState::Discarded,
        (OriginState::Committed, OriginState::Discarded) => OriginState::Discarded,
        (state, _) => state,
    }
}

fn is_open(state: OriginState) -> bool
    ensures { result ≡ is_open_state state }
{
    match state {
        OriginState::Open => true,
        OriginState::Committed => false,
        OriginState::RolledBack => false,
        OriginState::Discarded => false,
    }
}

// From when on the half message is due that has this queue offset.
fn due_time(row: &HalfRow, own: u64) -> u64
    ensures { result ≡ due_time_of own row.now }
{
    if row.names == own && is_open(row.state) {
        row.due
    } else {
        NEVER
    }
}

// The time of the half message at this index, where one stands there.
fn time_at(rows: &Vec<HalfRow>, low: u64, k: usize) -> u64
    requires small { low + vec_len rows.now ≤ 2 ^ 62 }
    ensures there { (row : HalfRow) → slice_get rows.now.items k ≡ Some row → result ≡ due_time_of (low + k) row }
    ensures past { length rows.now.items ≤ k → result ≡ 2 ^ 64 - 1 }
{
    if k < rows.len() {
        due_time(&rows[k], low + k as u64)
    } else {
        NEVER
    }
}

// The times are those of the half messages.
pub(crate) fn set_all(rows: &Vec<HalfRow>, times: &mut Times, low: u64)
    requires small { low + vec_len rows.now ≤ 2 ^ 62 }
    requires early { (k : ℕ) (row : HalfRow) → slice_get rows.now.items k ≡ Some row → row.due < 2 ^ 63 }
    requires room { length rows.now.items ≤ length times.old }
    ensures times { length times.new ≡ length times.old }
    ensures timed { AreTimed low rows.now.items times.new }
{
    for k in 0..times.len() {
        times.set(k, time_at(rows, low, k));
    }
}

// Another half message at this index.
fn put(rows: &mut Vec<HalfRow>, times: &mut Times, low: u64, k: usize, row: HalfRow)
    requires there { k < vec_len rows.old }
    requires early { row.due < 2 ^ 63 }
    requires timed { AreTimed low rows.old.items times.old }
    ensures rows { rows.new.items ≡ slice_set rows.old.items k row }
    ensures room { (vec_len rows.new ≡ vec_len rows.old) × (vec_capacity rows.new ≡ vec_capacity rows.old) }
    ensures times { length times.new ≡ length times.old }
    ensures timed { AreTimed low rows.new.items times.new }
{
    rows[k] = row;
    times.set(k, due_time(&row, low + k as u64));
}

// The half message at this index is settled.
pub(crate) fn settle_at(
    rows: &mut Vec<HalfRow>,
    times: &mut Times,
    low: u64,
    k: usize,
    how: OriginState,
    number: u64,
)
    requires there { k < vec_len rows.old }
    requires number { number < 2 ^ 63 }
    requires timed { AreTimed low rows.old.items times.old }
    ensures rows { rows.new.items ≡ change (settled_row how number) k rows.old.items }
    ensures room { (vec_len rows.new ≡ vec_len rows.old) × (vec_capacity rows.new ≡ vec_capacity rows.old) }
    ensures times { length times.new ≡ length times.old }
    ensures timed { AreTimed low rows.new.items times.new }
{
    let row = rows[k];
    let settled = HalfRow {
        state: settled_as(row.state, how),
        settled: number + 1,
        ..row
    };
    put(rows, times, low, k, settled);
}

// The half message at this index is named by a renewal.
pub(crate) fn renew_at(
    rows: &mut Vec<HalfRow>,
    times: &mut Times,
    low: u64,
    k: usize,
    renewal: u64,
    store: u64,
)
    requires there { k < vec_len rows.old }
    requires store { store < 2 ^ 62 }
    requires timed { AreTimed low rows.old.items times.old }
    ensures rows { rows.new.items ≡ change (renewed_row renewal store) k rows.old.items }
    ensures room { (vec_len rows.new ≡ vec_len rows.old) × (vec_capacity rows.new ≡ vec_capacity rows.old) }
    ensures times { length times.new ≡ length times.old }
    ensures timed { AreTimed low rows.new.items times.new }
{
    let row = rows[k];
    let renewed = HalfRow {
        due: store + 60_000,
        last: renewal,
        checks: row.checks.saturating_add(1),
        ..row
    };
    put(rows, times, low, k, renewed);
}

// Adds a half message, for which there is room.
pub(crate) fn push(rows: &mut Vec<HalfRow>, times: &mut Times, low: u64, row: HalfRow)
    requires room { vec_len rows.old < vec_capacity rows.old }
    requires times { length rows.old.items < length times.old }
    requires small { low + vec_len rows.old < 2 ^ 62 }
    requires early { row.due < 2 ^ 63 }
    requires timed { AreTimed low rows.old.items times.old }
    ensures rows { rows.new.items ≡ rows.old.items ++ row ∷ [] }
    ensures room { (vec_len rows.new ≡ vec_len rows.old + 1) × (vec_capacity rows.old ≤ vec_capacity rows.new) }
    ensures times { length times.new ≡ length times.old }
    ensures timed { AreTimed low rows.new.items times.new }
{
    let k = rows.len();
    times.set(k, due_time(&row, low + k as u64));
    match rows.push(row) {
        Ok(()) => (),
        Err(_) => unreachable!(),
    }
}

// The queue offset that the half message at this place names.
pub(crate) fn named_at(rows: &Vec<HalfRow>, place: u64) -> Option<u64>
    ensures { IsNonDecreasingBy (λ (row : HalfRow). row.place) rows.now.items → result ≡ family_in rows.now.items place }
{
    let k = rows.as_slice().partition_point(|row| row.place < place);
    if k < rows.len() && rows[k].place == place {
        Some(rows[k].names)
    } else {
        None
    }
}
