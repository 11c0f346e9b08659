//! A list in chunks. A full chunk is never moved or copied again: growing takes one chunk more, however long the list is,
//! and the front is given back a chunk at a time. Only the first chunk grows from small on, so that a short list takes
//! little memory.

ghost use Rattle.std.specs.Prelude.{◌≡◌, ◌<◌, ◌≤◌, ◌+◌, ◌++◌, ◌∷◌, [], ◌^◌, nat_le, length, take, drop, slice_get, Some, OnOk};
ghost use Rattle.std.specs.Prelude.{vec_len, vec_capacity};
ghost use Rattle.std.specs.List.{position_or_len};
ghost use Rattle.std.specs.List.Sorted.{IsNonDecreasingBy};
ghost use Rattle.std.specs.Prelude.{Vec};
ghost use Rattle.std.specs.declared.alloc.Global.{Global};

use crate::keyed::Keyed;
use std::alloc::{AllocError, Global};
use std::marker::Model;
use std::mem;

/// How many items a chunk has.
pub const CHUNK: usize = 1024;

// At most so many full chunks are kept: more would be out of memory on any machine.
const CHUNKS_MAX: usize = 1 << 52;

/// Items in order, and room for more.
#[derive(Drop)]
pub struct Chunks<T> {
    // Each has exactly `CHUNK` items.
    full: Vec<Vec<T>>,
    last: Vec<T>,
    // An empty chunk that follows the last one.
    next: Option<Vec<T>>,
    // How many items of the first chunk are cut off.
    skipped: usize,
}

impl<T> Model for Chunks<T> {
    ghost use Rattle.chunks.specs.Lists.{Roomy};

    ghost Value = { Roomy T };

    ghost use Rattle.chunks.specs.Rooms.{roomy_of, AreChunks};

    ghost view = { λ c. roomy_of c.full c.last c.next c.skipped };

    ghost invariant = { λ c. AreChunks c.full c.last c.next c.skipped };
}

// Adds an item for which there is room.
fn push_within<T: Copy>(items: &mut Vec<T>, item: T)
    requires { vec_len items.old < vec_capacity items.old }
    ensures items { items.new.items ≡ items.old.items ++ item ∷ [] }
    ensures len { vec_len items.new ≡ vec_len items.old + 1 }
    ensures capacity { vec_capacity items.old ≤ vec_capacity items.new }
{
    match items.push(item) {
        Ok(()) => (),
        Err(_) => unreachable!(),
    }
}

// Adds a full chunk for which there is room.
fn put_away<T: Copy>(full: &mut Vec<Vec<T>>, chunk: Vec<T>)
    requires { vec_len full.old < vec_capacity full.old }
    ensures { full.new.items ≡ full.old.items ++ chunk ∷ [] }
{
    match full.push(chunk) {
        Ok(()) => (),
        Err(_) => unreachable!(),
    }
}

// Drops the first `count` chunks.
fn drop_front<T: Copy>(full: &mut Vec<Vec<T>>, count: usize)
    requires { count ≤ vec_len full.old }
    ensures items { full.new.items ≡ drop count full.old.items }
    ensures len { vec_len full.new + count ≡ vec_len full.old }
    ensures capacity { vec_capacity full.new ≡ vec_capacity full.old }
{
    let left = full.len() - count;
    full.as_mut_slice().rotate_left(count);
    full.truncate(left);
}

// The item of chunk `k` at `j`.
fn item_in<T: Copy>(full: &Vec<Vec<T>>, k: usize, j: usize) -> T
    requires within { k < vec_len full.now }
    requires chunk { (chunk : Vec T Global) → slice_get full.now.items k ≡ Some chunk → j < vec_len chunk }
    ensures { (chunk : Vec T Global) → slice_get full.now.items k ≡ Some chunk → slice_get chunk.items j ≡ Some result }
{
    let chunk = &full[k];
    chunk[j]
}

impl<T: Copy> Chunks<T> {
    /// No items; takes no memory.
    pub fn new(alloc: Global) -> Chunks<T>
        ensures { result.items ≡ [] }
    {
        Chunks {
            full: Vec::new(alloc),
            last: Vec::new(alloc),
            next: None,
            skipped: 0,
        }
    }

    /// Makes room for `additional` items more, at most a chunk of them. No item changes, at `Err` either.
    pub fn reserve(&mut self, alloc: Global, additional: usize) -> Result<(), AllocError>
        requires { additional ≤ 1024 }
        ensures items { self.new.items ≡ self.old.items }
        ensures spare { OnOk result (additional ≤ self.new.spare) }
        ensures kept { self.old.spare ≤ self.new.spare }
    {
        let room = CHUNK - self.last.len();
        if additional <= room {
            self.last.reserve(additional)?;
            return Ok(());
        }
        self.last.reserve(room)?;
        if self.next.is_none() {
            if self.full.len() >= CHUNKS_MAX {
                return Err(AllocError);
            }
            self.full.reserve(1)?;
            self.next = Some(Vec::with_capacity(alloc, CHUNK)?);
        }
        Ok(())
    }

    /// Adds an item, for which there is room; takes no memory.
    pub fn push(&mut self, item: T)
        requires { 0 < self.old.spare }
        ensures items { self.new.items ≡ self.old.items ++ item ∷ [] }
        ensures spare { self.old.spare ≤ self.new.spare + 1 }
    {
        if self.last.len() == CHUNK {
            match self.next.take() {
                Some(chunk) => {
                    let done = mem::replace(&mut self.last, chunk);
                    put_away(&mut self.full, done);
                }
                None => unreachable!(),
            }
        }
        push_within(&mut self.last, item);
    }

    /// How many items there are.
    pub fn len(&self) -> usize
        ensures value { result ≡ length self.now.items }
        ensures small { result < 2 ^ 63 }
    {
        self.full.len() * CHUNK + self.last.len() - self.skipped
    }

    /// The item at this index, found in one step.
    pub fn at(&self, index: usize) -> T
        requires { index < length self.now.items }
        ensures { slice_get self.now.items index ≡ Some result }
    {
        let place = index + self.skipped;
        let k = place / CHUNK;
        if k < self.full.len() {
            item_in(&self.full, k, place % CHUNK)
        } else {
            self.last[place - self.full.len() * CHUNK]
        }
    }

    /// Drops the first `count` items. The memory of whole chunks is given back.
    pub fn cut(&mut self, count: usize)
        requires { count ≤ length self.old.items }
        ensures items { self.new.items ≡ drop count self.old.items }
        ensures spare { self.new.spare ≡ self.old.spare }
    {
        let place = self.skipped + count;
        let chunks = (place / CHUNK).min(self.full.len());
        drop_front(&mut self.full, chunks);
        self.skipped = place - chunks * CHUNK;
    }
}

impl<T: Copy + Keyed> Chunks<T> {
    /// The index of the first of the first `end` items whose key is at or past `bound`; `end` where there is none. The keys
    /// of these items must not fall.
    pub fn search(&self, end: usize, bound: u64) -> usize
        requires within { end ≤ length self.now.items }
        requires rising { IsNonDecreasingBy T.key (take end self.now.items) }
        ensures first { result ≡ position_or_len (λ item. nat_le bound (T.key item)) (take end self.now.items) }
        ensures most { result ≤ end }
    {
        let mut low = 0;
        let mut high = end;
        while low < high {
            let middle = low + (high - low) / 2;
            if self.at(middle).key() < bound {
                low = middle + 1;
            } else {
                high = middle;
            }
        }
        low
    }
}
