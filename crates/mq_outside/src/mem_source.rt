//! A source in memory: pieces of bytes that are given one after another.

ghost use Rattle.std.specs.Prelude.{◌≡◌, ◌≤◌, ◌<◌, ◌-◌, ◌++◌, [], ℕ, length, take, min, slice_index_or, IfOk, OnErr, IsErr, ◌↔◌};
ghost use Rattle.std.specs.List.{Contains};
ghost use Rattle.std.proofs.Props.{props};
ghost use Rattle.mq_outside.specs.Counts.{CountsFailure};
ghost use Rattle.mq_outside.specs.Listed.{IsListed, after_call};
ghost use Rattle.mq_outside.specs.MemSource.{HasNoEmptyPiece, IsPlace, bytes_before, bytes_from, joined, rest_of_piece};

use crate::fails::Fails;
use crate::faults::Failed;
use crate::stream::Source;
use std::alloc::{AllocError, Global};

/// Gives pieces of bytes one after another, and fails at listed calls. It tells what it gave and has left.
#[derive(Drop)]
pub struct MemSource {
    pieces: Vec<Vec<u8>>,
    // The place: how many pieces are given whole, and how many bytes of the next one.
    piece: usize,
    at: usize,
    fails: Fails,
    faults: u64,
    ghost no_empty: { HasNoEmptyPiece pieces.items } by { Prim.hlevel props },
    ghost is_place: { IsPlace pieces.items piece at } by { Prim.hlevel props },
}

impl MemSource {
    /// A source of these pieces, of whose reads those with the numbers `fails` are to fail; the first read is number 1.
    /// It takes no memory of its own.
    pub fn new(
        _alloc: Global,
        pieces: Vec<Vec<u8>>,
        fails: Vec<u64>,
    ) -> Result<MemSource, AllocError>
        requires { HasNoEmptyPiece pieces.items }
        ensures given { IfOk result (λ source. ⟦<MemSource as Source>⟧.given source ≡ []) }
        ensures left { IfOk result (λ source. ⟦<MemSource as Source>⟧.left source ≡ joined pieces.items) }
        ensures faults { IfOk result (λ source. ⟦<MemSource as Source>⟧.faults source ≡ 0) }
        ensures pieces { IfOk result (λ source. source.pieces ≡ pieces) }
        ensures fails { IfOk result (λ source. source.fails ≡ record { calls = fails; asked = 0 }) }
    {
        Ok(MemSource {
            pieces,
            piece: 0,
            at: 0,
            fails: Fails::new(fails),
            faults: 0,
        })
    }
}

impl Source for MemSource {
    ghost tells = { Unit {0} };

    ghost given = { λ s. bytes_before s.pieces.items s.piece s.at };

    ghost left = { λ s. bytes_from s.pieces.items s.piece s.at };

    ghost faults = { λ s. s.faults };

    fn read(&mut self, out: &mut [u8]) -> Result<usize, Failed>
        ensures within { IfOk result (λ n. n ≤ length out.old) }
        ensures given { IfOk result (λ n. ⟦<MemSource as Source>⟧.given self.new ≡ ⟦<MemSource as Source>⟧.given self.old
            ++ take n out.new) }
        ensures left { IfOk result (λ n. ⟦<MemSource as Source>⟧.left self.old ≡ take n out.new ++ ⟦<MemSource as Source>⟧.left self.new) }
        ensures end { IfOk result (λ n. n ≡ 0 → 0 < length out.old → ⟦<MemSource as Source>⟧.left self.old ≡ []) }
        ensures given_still { OnErr result (⟦<MemSource as Source>⟧.given self.new ≡ ⟦<MemSource as Source>⟧.given self.old) }
        ensures left_still { OnErr result (⟦<MemSource as Source>⟧.left self.new ≡ ⟦<MemSource as Source>⟧.left self.old) }
        ensures cause { CountsFailure result (⟦<MemSource as Source>⟧.faults self.old) (⟦<MemSource as Source>⟧.faults self.new) }

        // It fails exactly at a listed call.
        ensures listed { IsErr result ↔ IsListed self.old.fails }
        ensures asks { self.new.fails ≡ after_call self.old.fails }

        // It gives what is left of one piece, up to `out`.
        ensures pieces { self.new.pieces ≡ self.old.pieces }
        ensures one_piece { IfOk result (λ n. n ≡ min (length out.old)
            (length (rest_of_piece self.old.pieces.items self.old.piece self.old.at))) }
    {
        if self.fails.next() {
            self.faults = self.faults.saturating_add(1);
            return Err(Failed);
        }
        if self.piece == self.pieces.len() {
            return Ok(0);
        }
        let rest = &self.pieces[self.piece][self.at..];
        let n = rest.len().min(out.len());
        out[..n].copy_from_slice(&rest[..n]);
        if n < rest.len() {
            self.at += n;
        } else {
            self.piece += 1;
            self.at = 0;
        }
        Ok(n)
    }
}
