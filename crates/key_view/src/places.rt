//! The places that a query has found.

ghost use Rattle.std.specs.Prelude.{◌≡◌, ℤ, OnOk};
ghost use Rattle.log_model.specs.Keys.{asked_number};
ghost use Rattle.key_view.specs.Entries.{is_sought as is_sought_entry, is_last as is_last_of, with_place, with_sought, KeyEntry};
ghost use Rattle.key_view.specs.Rooms.{entry_of};

use crate::row::KeyRow;
use std::alloc::AllocError;

/// The most places that one query gives.
const PLACES_MAX: i32 = 64;

/// Which rows a query seeks.
#[derive(Clone, Copy)]
pub struct Sought {
    pub hash: u32,
    /// Store times, in milliseconds, both included.
    pub from: i64,
    pub to: i64,
    /// Records at or past this place are not sought.
    pub end: u64,
}

// How many places a query gives that asks for so many.
pub(crate) fn asked(most: i32) -> usize
    ensures { result ≡ asked_number 64 most }
{
    most.max(1).min(PLACES_MAX) as usize
}

// The row is of this hash, its store time within the bounds, and its place before the end.
fn is_sought(row: &KeyRow, sought: &Sought) -> bool
    ensures { result ≡ is_sought_entry sought.now.hash sought.now.from sought.now.to sought.now.end (entry_of row.now) }
{
    let store = i128::from(row.store);
    row.hash == sought.hash
        && i128::from(sought.from) <= store
        && store <= i128::from(sought.to)
        && row.place < sought.end
}

// The place is the last of these.
fn is_last(places: &Vec<u64>, place: u64) -> bool
    ensures { result ≡ is_last_of place places.now.items }
{
    let count = places.len();
    count > 0 && place == places[count - 1]
}

// Adds a place, but for one that is the last.
fn put_place(places: &mut Vec<u64>, place: u64) -> Result<(), AllocError>
    ensures { OnOk result (places.new.items ≡ with_place place places.old.items) }
{
    if !is_last(places, place) {
        places.push(place)?;
    }
    Ok(())
}

// Adds the place of a row that is sought.
pub(crate) fn put(places: &mut Vec<u64>, row: &KeyRow, sought: &Sought) -> Result<(), AllocError>
    ensures { OnOk result (places.new.items ≡ with_sought (is_sought_entry sought.now.hash sought.now.from sought.now.to sought.now.end
        (entry_of row.now))
        row.now.place places.old.items) }
{
    if is_sought(row, sought) {
        return put_place(places, row.place);
    }
    Ok(())
}
