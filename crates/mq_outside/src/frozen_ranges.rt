//! Frozen pieces in the order of the log. Pieces that hold nothing and meet become one, and those that hold bytes stay
//! apart. No answer shows which it was: a range is found in some piece, and that piece holds what each one with this
//! range holds.

ghost use Rattle.std.specs.Prelude.{◌≡◌, ◌+◌, ◌-◌, ◌≤◌, ◌<◌, ◌^◌, ℕ, List, [], ◌∷◌, ◌++◌};
ghost use Rattle.std.specs.Prelude.{length, vec_len, vec_capacity, IfOk, OnOk, IsTrue, None};
ghost use Rattle.mq_outside.specs.Readings.{HasAt};
ghost use Rattle.mq_outside.specs.Covers.{piece_start, piece_end, Covers, AreOrdered, AreOrdered-prop};
ghost use Rattle.mq_outside.specs.Covers.{HasRange, HoldsRange, PieceHolds, IsAdded};

use crate::frozen::Frozen;
use std::alloc::{AllocError, Global};

/// Frozen pieces, each of which begins where the one before it ends, or later.
#[derive(Drop)]
pub struct FrozenRanges {
    pieces: Vec<Frozen>,
    // Where the last one ends, as a place of the log.
    end: u64,
    ghost ordered: { AreOrdered 0 pieces.items end } by { AreOrdered-prop 0 pieces.items end },
}

// Whether two pieces hold nothing, and the second goes on in the same file where the first ends.
fn are_one(first: &Frozen, next: &Frozen) -> bool
    requires { piece_end first.now < 2 ^ 64 }
    ensures first { IsTrue result → first.now.held ≡ None }
    ensures next { IsTrue result → next.now.held ≡ None }
    ensures file { IsTrue result → next.now.base ≡ first.now.base }
    ensures meets { IsTrue result → next.now.from ≡ first.now.from + first.now.len }
{
    first.held.is_none()
        && next.held.is_none()
        && next.base == first.base
        && next.from == first.from + first.len
}

// Adds a piece for which there is room.
fn put(pieces: &mut Vec<Frozen>, piece: Frozen)
    requires { vec_len pieces.old < vec_capacity pieces.old }
    ensures items { pieces.new.items ≡ pieces.old.items ++ piece ∷ [] }
    ensures len { vec_len pieces.new ≡ vec_len pieces.old + 1 }
    ensures capacity { vec_capacity pieces.old ≤ vec_capacity pieces.new }
{
    if pieces.push(piece).is_err() {
        unreachable!();
    }
}

// Adds a piece for which there is room, or makes the last one longer by it.
fn add(pieces: &mut Vec<Frozen>, piece: Frozen)
    requires room { vec_len pieces.old < vec_capacity pieces.old }
    requires low { (high : ℕ) × AreOrdered 0 pieces.old.items high × (high ≤ piece_start piece) }
    requires fits { piece_end piece < 2 ^ 64 }
    ensures { IsAdded pieces.old.items piece pieces.new.items }
{
    match pieces.pop() {
        None => put(pieces, piece),
        Some(last) if are_one(&last, &piece) => put(
            pieces,
            Frozen {
                base: last.base,
                from: last.from,
                len: last.len + piece.len,
                held: None,
            },
        ),
        Some(last) => {
            put(pieces, last);
            put(pieces, piece);
        }
    }
}

// The piece that has this range.
fn find_in(pieces: &[Frozen], place: u64, size: u32) -> &Frozen
    requires there { HasRange pieces.now place size }
    requires ordered { (high : ℕ) × AreOrdered 0 pieces.now high × (high < 2 ^ 64) }
    ensures covers { Covers result.now place size }
    ensures holds { (bytes : List ℕ) → length bytes ≡ size → HoldsRange pieces.now place bytes → PieceHolds result.now place bytes }
{
    let mut rest = pieces;
    while rest.len() > 1 {
        let (before, behind) = rest.split_at(rest.len() / 2);
        let middle = &behind[0];
        rest = if middle.base + middle.from <= place {
            behind
        } else {
            before
        };
    }
    &rest[0]
}

impl FrozenRanges {
    /// No pieces.
    pub fn new(alloc: Global) -> FrozenRanges
        ensures pieces { result.pieces.items ≡ [] }
        ensures end { result.end ≡ 0 }
    {
        FrozenRanges {
            pieces: Vec::new(alloc),
            end: 0,
        }
    }

    /// Makes room for one more piece.
    pub fn reserve(&mut self) -> Result<(), AllocError>
        ensures room { OnOk result (vec_len self.new.pieces < vec_capacity self.new.pieces) }
        ensures pieces { self.new.pieces.items ≡ self.old.pieces.items }
        ensures end { self.new.end ≡ self.old.end }
    {
        self.pieces.reserve(1)
    }

    /// Adds a piece that begins where the last one ends, or later, and for which there is room. It takes no memory.
    pub fn push(&mut self, piece: Frozen)
        requires room { vec_len self.old.pieces < vec_capacity self.old.pieces }
        requires behind { self.old.end ≤ piece_start piece }
        requires fits { piece_end piece < 2 ^ 64 }
        ensures added { (place n : ℕ) → Covers piece place n → HasRange self.new.pieces.items place n }
        ensures kept { (place n : ℕ) → HasRange self.old.pieces.items place n → HasRange self.new.pieces.items place n }

        // What the old pieces and this one hold in a range the new ones hold there.
        ensures holds { (place : ℕ) (bytes : List ℕ) → HoldsRange self.old.pieces.items place bytes → PieceHolds piece place bytes
            → HoldsRange self.new.pieces.items place bytes }

        // No old piece has a range past the old end, so what this one holds there is held.
        ensures fresh { (place : ℕ) (bytes : List ℕ) → self.old.end ≤ place → 0 < length bytes → PieceHolds piece place bytes
            → HoldsRange self.new.pieces.items place bytes }
        ensures end { self.new.end ≡ piece_end piece }
    {
        let end = piece.base + piece.from + piece.len;
        add(&mut self.pieces, piece);
        self.end = end;
    }

    /// A piece that has these `size` bytes of the log.
    pub fn find(&self, place: u64, size: u32) -> &Frozen
        requires { HasRange self.now.pieces.items place size }
        ensures covers { Covers result.now place size }
        ensures holds { (bytes : List ℕ) → length bytes ≡ size → HoldsRange self.now.pieces.items place bytes
            → HasAt result.now.held (place - piece_start result.now) bytes }
    {
        let _end = self.end;
        find_in(self.pieces.as_slice(), place, size)
    }
}
