//! The slots of the hashes: for each the number of its newest row, counted from 1 over all rows that were ever added; 0 where
//! none was. A hash has the slot that is the rest of it by their number.

ghost use Rattle.std.specs.Prelude.{◌≡◌, ℕ, ◌<◌, ◌%◌, ◌++◌, IfOk, OnOk, OnErr, slice_set, length, vec_len};
ghost use Rattle.key_view.specs.Rooms.{newest_in};

use std::alloc::{AllocError, Global};

/// How many slots there are from the first key on, in 2 MB: enough for a million keys.
const SLOTS_FIRST: usize = 1 << 18;

/// More slots than these are never made: to double them copies 8 bytes for each.
const SLOTS_MAX: usize = 1 << 20;

/// Slots are doubled where there are so many rows for each.
const ROWS_A_SLOT: usize = 4;

// The number of the newest row in the slot of this hash.
pub(crate) fn newest(slots: &Vec<u64>, hash: u32) -> u64
    ensures { result ≡ newest_in slots.now.items hash }
{
    if slots.is_empty() {
        return 0;
    }
    slots[hash as usize % slots.len()]
}

// The row with this number is the newest in the slot of this hash.
pub(crate) fn set_newest(slots: &mut Vec<u64>, hash: u32, number: u64)
    requires { 0 < vec_len slots.old }
    ensures { slots.new.items ≡ slice_set slots.old.items (hash % length slots.old.items) number }
{
    let slot = hash as usize % slots.len();
    slots[slot] = number;
}

// Twice as many slots; each hash has in its new one what it had in its old one.
fn double(alloc: Global, slots: &mut Vec<u64>) -> Result<(), AllocError>
    ensures twice { OnOk result (slots.new.items ≡ slots.old.items ++ slots.old.items) }
    ensures same { OnErr result (slots.new.items ≡ slots.old.items) }
{
    let copy = Vec::from_slice(alloc, slots.as_slice())?;
    slots.extend_from_slice(copy.as_slice())
}

// So many slots, of which none has a row.
fn blank(alloc: Global, count: usize) -> Result<Vec<u64>, AllocError>
    requires { 0 < count }
    ensures some { IfOk result (λ slots. 0 < length slots.items) }
    ensures blank { IfOk result (λ slots. (hash : ℕ) → newest_in slots.items hash ≡ 0) }
{
    vec![in alloc; 0u64; count]
}

// Makes slots for a table of so many rows: the first ones, or twice as many where rows are many for each.
pub(crate) fn grow(alloc: Global, slots: &mut Vec<u64>, rows: usize) -> Result<(), AllocError>
    ensures some { OnOk result (0 < length slots.new.items) }
    ensures kept { 0 < length slots.old.items → 0 < length slots.new.items }
    ensures same { (hash : ℕ) → newest_in slots.new.items hash ≡ newest_in slots.old.items hash }
{
    if slots.is_empty() {
        *slots = blank(alloc, SLOTS_FIRST)?;
        return Ok(());
    }
    if slots.len() < SLOTS_MAX && rows / ROWS_A_SLOT >= slots.len() {
        return double(alloc, slots);
    }
    Ok(())
}
