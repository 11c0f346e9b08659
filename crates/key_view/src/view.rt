//! The table of the keys. A key is added when its record is appended, and found by queries that end behind its record, so
//! that dispatch does nothing here.

ghost use Rattle.std.specs.Prelude.{◌≡◌, ◌↔◌, ◌<◌, ◌≤◌, ◌+◌, ◌-◌, ◌++◌, ◌∷◌, [], ◌^◌, ℕ, List, map};
ghost use Rattle.std.specs.Prelude.{filter, reverse, length, drop, slice_get, nat_le, Some, OnOk, IfOk, IsTrue};
ghost use Rattle.std.specs.List.Sorted.{IsNonDecreasingBy};
ghost use Rattle.record_codec.specs.Entry.{Entry};
ghost use Rattle.log_model.specs.Bases.{Base};
ghost use Rattle.log_model.specs.Numbered.{Log, above};
ghost use Rattle.log_model.specs.Keys.{index_keys};
ghost use Rattle.key_view.specs.Entries.{KeyTable, KeyEntry, newest_places, key_entries, entries_at, newest_records, AreRising, CutsKeys};
ghost use Rattle.key_view.specs.Rooms.{newest_in};

use crate::keys::RecordKeys;
use crate::places::{Sought, asked, put};
use crate::row::{KeyRow, distance, is_key};
use crate::rows::KeyRows;
use crate::slots::{grow, newest, set_newest};
use mq_bytes::PLACE_END;
use std::alloc::{AllocError, Global};
use std::marker::Model;

/// The most rows that are kept at a time: a link is in 32 bits.
const ROWS_MAX: usize = (1 << 32) - 2;

/// The keys of the records, in the order of the log.
#[derive(Drop)]
pub struct KeyView {
    rows: KeyRows,
    // How many rows were cut off before the first one.
    gone: u64,
    // For each slot the number of its newest row.
    slots: Vec<u64>,
}

impl Model for KeyView {
    ghost use Rattle.key_view.specs.Entries.{KeyTable};

    ghost Value = { KeyTable };

    ghost use Rattle.key_view.specs.Rooms.{table_of, IsKept};

    ghost view = { λ v. table_of v.rows v.gone v.slots.items };

    ghost invariant = { λ v. IsKept v.rows.items v.gone v.slots.items };
}

impl KeyView {
    /// No keys; takes no memory.
    pub fn new(alloc: Global) -> KeyView
        ensures entries { result.entries ≡ [] }
        ensures records { result.entries ≡ key_entries [] }
    {
        KeyView {
            rows: KeyRows::new(alloc),
            gone: 0,
            slots: Vec::new(alloc),
        }
    }

    /// Makes room for `additional` keys more. No key changes, at `Err` either.
    pub fn reserve(&mut self, alloc: Global, additional: usize) -> Result<(), AllocError>
        ensures entries { self.new.entries ≡ self.old.entries }
        ensures spare { OnOk result (additional ≤ self.new.spare) }
        ensures kept { self.old.spare ≤ self.new.spare }
    {
        let count = self.rows.len();
        if additional > ROWS_MAX || count > ROWS_MAX - additional {
            return Err(AllocError);
        }
        // No log has as many keys as it has places.
        if self.gone > PLACE_END - (count + additional) as u64 {
            return Err(AllocError);
        }
        self.rows.reserve(alloc, additional)?;
        grow(alloc, &mut self.slots, count)
    }

    /// Adds a key of the record at `place`, for which there is room; takes no memory. Times are milliseconds.
    pub fn add(&mut self, hash: u32, place: u64, store: u64)
        requires { 0 < self.old.spare }
        ensures entries { self.new.entries ≡ self.old.entries ++ record { hash = hash; place = place; store = store } ∷ [] }
        ensures spare { self.old.spare ≤ self.new.spare + 1 }
    {
        let number = self.gone + self.rows.len() as u64 + 1;
        let back = distance(number, newest(&self.slots, hash));
        self.rows.push(KeyRow {
            place,
            store,
            hash,
            back,
        });
        set_newest(&mut self.slots, hash, number);
    }

    /// Adds the keys of the record at `place`, for which there is room; takes no memory. Times are milliseconds.
    pub fn add_all(&mut self, keys: RecordKeys<'_>, place: u64, store: u64)
        requires { length keys ≤ self.old.spare }
        ensures entries { self.new.entries ≡ self.old.entries ++ entries_at place store keys.entry }
        ensures spare { self.old.spare ≤ self.new.spare + length keys.entry }
        ensures records { (log : List Entry) (r : Entry) → self.old.entries ≡ key_entries log → keys.entry ≡ index_keys r → place ≡ r.offset
            → store ≡ r.store → self.new.entries ≡ key_entries (log ++ r ∷ []) }
    {
        let mut left = keys;
        while let Some(hash) = left.next() {
            self.add(hash, place, store);
        }
    }

    /// How many keys there are.
    pub fn len(&self) -> usize
        ensures { result ≡ length self.now.entries }
    {
        self.rows.len()
    }

    /// Whether the key at this index is this one, in the order in which they were added. The time is in milliseconds.
    pub fn is_at(&self, index: usize, hash: u32, place: u64, store: u64) -> bool
        ensures { IsTrue result ↔ (slice_get self.now.entries index ≡ Some (record { hash = hash; place = place; store = store })) }
    {
        if index >= self.rows.len() {
            return false;
        }
        is_key(&self.rows.at(index), hash, place, store)
    }

    /// The places of the newest records that have a key of this hash, were stored from `from` to `to`, in milliseconds, and
    /// stand before the place `end`: the newest first, each once, at most 64 of them and at least 1 where there is any.
    pub fn query(
        &self,
        alloc: Global,
        hash: u32,
        from: i64,
        to: i64,
        most: i32,
        end: u64,
    ) -> Result<Vec<u64>, AllocError>
        ensures entries { IfOk result (λ places. places.items ≡ newest_places hash from to most end self.now.entries) }
        ensures records { (log : List Entry) → self.now.entries ≡ key_entries log → AreRising log
            → IfOk result (λ places. places.items ≡ map (λ r. r.offset) (newest_records hash from to most end log)) }
    {
        let sought = Sought {
            hash,
            from,
            to,
            end,
        };
        let most = asked(most);
        let count = self.rows.len();
        let mut places = Vec::new(alloc);
        let mut passed = (self.gone + count as u64 - newest(&self.slots, hash)) as usize;
        while passed < count && places.len() < most {
            let row = self.rows.at(count - 1 - passed);
            put(&mut places, &row, &sought)?;
            passed += row.back as usize;
        }
        Ok(places)
    }

    /// Removes the keys of the records below a place; takes no memory. The places must not fall.
    pub fn cut(&mut self, place: u64)
        requires { IsNonDecreasingBy (λ e. e.place) self.old.entries }
        ensures entries { self.new.entries ≡ filter (λ e. nat_le place e.place) self.old.entries }
        ensures spare { self.old.spare ≤ self.new.spare }
        ensures records { (n : ℕ) (log : Log) (later : Base) → self.old.entries ≡ key_entries log.records → AreRising log.records
            → CutsKeys log n later → place ≡ later.place → self.new.entries ≡ key_entries (above log later).records }
    {
        let count = self.rows.search(place);
        self.rows.cut(count);
        self.gone += count as u64;
    }
}
