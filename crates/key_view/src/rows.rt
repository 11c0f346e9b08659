//! The rows of the table, in order, in chunks that never move. A record may have more keys than a chunk has rows; the rows
//! for which the chunks have no room then stand apart, until later calls of `reserve` put them into chunks.

ghost use Rattle.std.specs.Prelude.{◌≡◌, ◌<◌, ◌≤◌, ◌+◌, ◌++◌, ◌∷◌, [], nat_le, length, take, drop, slice_get, Some, OnOk};
ghost use Rattle.std.specs.Prelude.{vec_len, vec_capacity};
ghost use Rattle.std.specs.List.{position_or_len};
ghost use Rattle.std.specs.List.Sorted.{IsNonDecreasingBy};

use crate::row::KeyRow;
use chunks::{CHUNK, Chunks};
use std::alloc::{AllocError, Global};
use std::marker::Model;

/// Rows in order, and room for more.
#[derive(Drop)]
pub(crate) struct KeyRows {
    chunks: Chunks<KeyRow>,
    // For how many rows the chunks have room; none while some rows are apart.
    ready: usize,
    // The newest rows.
    apart: Vec<KeyRow>,
}

impl Model for KeyRows {
    ghost use Rattle.chunks.specs.Lists.{Roomy};
    ghost use Rattle.key_view.specs.declared.row.KeyRow.{KeyRow};

    ghost Value = { Roomy KeyRow };

    ghost use Rattle.key_view.specs.Parted.{rows_of, AreRows};

    ghost view = { λ r. rows_of r.chunks r.ready r.apart };

    ghost invariant = { λ r. AreRows r.chunks r.ready r.apart };
}

// Adds a row for which there is room.
fn push_within(rows: &mut Vec<KeyRow>, row: KeyRow)
    requires { vec_len rows.old < vec_capacity rows.old }
    ensures items { rows.new.items ≡ rows.old.items ++ row ∷ [] }
    ensures len { vec_len rows.new ≡ vec_len rows.old + 1 }
    ensures capacity { vec_capacity rows.old ≤ vec_capacity rows.new }
{
    match rows.push(row) {
        Ok(()) => (),
        Err(_) => unreachable!(),
    }
}

// Drops the first `count` rows.
fn drop_first(rows: &mut Vec<KeyRow>, count: usize)
    requires { count ≤ vec_len rows.old }
    ensures items { rows.new.items ≡ drop count rows.old.items }
    ensures len { vec_len rows.new + count ≡ vec_len rows.old }
    ensures capacity { vec_capacity rows.new ≡ vec_capacity rows.old }
{
    let left = rows.len() - count;
    rows.as_mut_slice().rotate_left(count);
    rows.truncate(left);
}

// Adds the first `count` of these rows, for which there is room.
fn push_first(chunks: &mut Chunks<KeyRow>, rows: &[KeyRow], count: usize)
    requires room { count ≤ chunks.old.spare }
    requires within { count ≤ length rows.now }
    ensures { chunks.new.items ≡ chunks.old.items ++ take count rows.now }
{
    for k in 0..count {
        chunks.push(rows[k]);
    }
}

// Which of these rows is the first at or past a place; how many there are, where none is.
fn first_from(rows: &[KeyRow], place: u64) -> usize
    ensures first { result ≡ position_or_len (λ row. nat_le place row.place) rows.now }
    ensures most { result ≤ length rows.now }
{
    for (k, row) in rows.iter().enumerate() {
        if row.place >= place {
            return k;
        }
    }
    rows.len()
}

impl KeyRows {
    /// No rows; takes no memory.
    pub(crate) fn new(alloc: Global) -> KeyRows
        ensures { result.items ≡ [] }
    {
        KeyRows {
            chunks: Chunks::new(alloc),
            ready: 0,
            apart: Vec::new(alloc),
        }
    }

    // Puts rows that are apart into chunks, at most a chunk of them. No row changes, at `Err` either.
    fn settle(&mut self, alloc: Global) -> Result<(), AllocError>
        ensures items { self.new.items ≡ self.old.items }
        ensures kept { self.old.spare ≤ self.new.spare }
    {
        let count = self.apart.len().min(CHUNK);
        if count > 0 {
            self.chunks.reserve(alloc, count)?;
            push_first(&mut self.chunks, self.apart.as_slice(), count);
            drop_first(&mut self.apart, count);
        }
        Ok(())
    }

    /// Makes room for `additional` rows more. No row changes, at `Err` either.
    pub(crate) fn reserve(&mut self, alloc: Global, additional: usize) -> Result<(), AllocError>
        ensures items { self.new.items ≡ self.old.items }
        ensures spare { OnOk result (additional ≤ self.new.spare) }
        ensures kept { self.old.spare ≤ self.new.spare }
    {
        self.settle(alloc)?;
        if additional > CHUNK || !self.apart.is_empty() {
            return self.apart.reserve(additional);
        }
        self.chunks.reserve(alloc, additional)?;
        self.ready = self.ready.max(additional);
        Ok(())
    }

    /// Adds a row, for which there is room; takes no memory.
    pub(crate) fn push(&mut self, row: KeyRow)
        requires { 0 < self.old.spare }
        ensures items { self.new.items ≡ self.old.items ++ row ∷ [] }
        ensures spare { self.old.spare ≤ self.new.spare + 1 }
    {
        if self.ready > 0 {
            self.ready -= 1;
            self.chunks.push(row);
        } else {
            push_within(&mut self.apart, row);
        }
    }

    /// How many rows there are.
    pub(crate) fn len(&self) -> usize
        ensures value { result ≡ length self.now.items }
    {
        self.chunks.len() + self.apart.len()
    }

    /// The row at this index, found in one step.
    pub(crate) fn at(&self, index: usize) -> KeyRow
        requires { index < length self.now.items }
        ensures { slice_get self.now.items index ≡ Some result }
    {
        let count = self.chunks.len();
        if index < count {
            self.chunks.at(index)
        } else {
            self.apart[index - count]
        }
    }

    /// The index of the first row at or past a place; how many rows there are, where none is. The places must not fall.
    pub(crate) fn search(&self, place: u64) -> usize
        requires { IsNonDecreasingBy (λ row. row.place) self.now.items }
        ensures first { result ≡ position_or_len (λ row. nat_le place row.place) self.now.items }
        ensures most { result ≤ length self.now.items }
    {
        let count = self.chunks.len();
        let found = self.chunks.search(count, place);
        if found < count {
            found
        } else {
            count + first_from(self.apart.as_slice(), place)
        }
    }

    /// Drops the first `count` rows. The memory of whole chunks is given back.
    pub(crate) fn cut(&mut self, count: usize)
        requires { count ≤ length self.old.items }
        ensures items { self.new.items ≡ drop count self.old.items }
        ensures spare { self.old.spare ≤ self.new.spare }
    {
        let whole = count.min(self.chunks.len());
        self.chunks.cut(whole);
        drop_first(&mut self.apart, count - whole);
    }
}
