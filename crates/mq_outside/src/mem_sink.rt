//! A sink in memory: it takes bytes into a room of a stated size.

ghost use Rattle.std.specs.Prelude.{◌≡◌, ◌≤◌, ◌<◌, ◌++◌, ◌⊎◌, [], length, take, min, vec_capacity, IfOk, OnOk, OnErr};
ghost use Rattle.mq_outside.specs.Counts.{CountsFailure};

use crate::fails::Fails;
use crate::faults::Failed;
use crate::stream::Sink;
use std::alloc::{AllocError, Global};

// What a sink has room for: bytes in all, calls in all, and bytes of one call.
#[derive(Clone, Copy)]
pub(crate) struct Limits {
    pub bytes: u64,
    pub calls: u64,
    pub most: usize,
}

/// Takes bytes up to its room, and fails at listed calls and past its room. It tells what it took.
#[derive(Drop)]
pub struct MemSink {
    taken: Vec<u8>,
    limits: Limits,
    fails: Fails,
    faults: u64,
    ghost has_memory: { limits.bytes ≤ vec_capacity taken },
    ghost within: { length taken.items ≤ limits.bytes },
    ghost takes_some: { 0 < limits.most },
}

impl MemSink {
    ghost use Rattle.mq_outside.specs.Listed.{IsListed, after_call};
    ghost use Rattle.mq_outside.specs.MemSink.{IsPastRoom};

    /// A sink with room for so many bytes and calls, of whose writes those with the numbers `fails` are to fail;
    /// the first write is number 1. It takes all its memory here.
    pub fn new(
        alloc: Global,
        bytes: u64,
        calls: u64,
        fails: Vec<u64>,
    ) -> Result<MemSink, AllocError>
        ensures taken { IfOk result (λ sink. ⟦<MemSink as Sink>⟧.taken sink ≡ []) }
        ensures faults { IfOk result (λ sink. ⟦<MemSink as Sink>⟧.faults sink ≡ 0) }
        ensures limits { IfOk result (λ sink. sink.limits ≡ record { bytes = bytes; calls = calls; most = usize.MAX }) }
        ensures fails { IfOk result (λ sink. sink.fails ≡ record { calls = fails; asked = 0 }) }
    {
        let taken = Vec::with_capacity(alloc, bytes as usize)?;
        let most = usize::MAX;
        Ok(MemSink {
            taken,
            limits: Limits { bytes, calls, most },
            fails: Fails::new(fails),
            faults: 0,
        })
    }

    /// The same sink, which takes at most so many bytes in one call.
    pub fn taking_at_most(self, most: usize) -> MemSink
        requires { 0 < most }
        ensures taken { result.taken ≡ self.taken }
        ensures limits { result.limits ≡ record self.limits { most = most } }
        ensures fails { result.fails ≡ self.fails }
        ensures faults { result.faults ≡ self.faults }
    {
        let mut sink = self;
        sink.limits.most = most;
        sink
    }

    /// The bytes that it took.
    pub fn bytes(&self) -> &[u8]
        ensures { result.now ≡ ⟦<MemSink as Sink>⟧.taken self.now }
    {
        &self.taken
    }

    // Takes the piece, unless this call is listed or past the room.
    fn take(&mut self, piece: &[u8]) -> Result<(), Failed>
        ensures taken { OnOk result (self.new.taken.items ≡ self.old.taken.items ++ piece.now) }
        ensures still { OnErr result (self.new.taken.items ≡ self.old.taken.items) }
        ensures takes { OnOk result (¬ IsListed self.old.fails
            × ¬ IsPastRoom self.old.limits self.old.fails self.old.taken.items (length piece.now)) }
        ensures refused { OnErr result (IsListed self.old.fails
            ⊎ IsPastRoom self.old.limits self.old.fails self.old.taken.items (length piece.now)) }
        ensures asks { self.new.fails ≡ after_call self.old.fails }
        ensures faults { self.new.faults ≡ self.old.faults }
        ensures limits { self.new.limits ≡ self.old.limits }
    {
        if self.fails.next() {
            return Err(Failed);
        }
        if self.fails.asked > self.limits.calls {
            return Err(Failed);
        }
        let left = self.limits.bytes - self.taken.len() as u64;
        if piece.len() as u64 > left {
            return Err(Failed);
        }
        match self.taken.extend_from_slice(piece) {
            Ok(()) => Ok(()),
            Err(_) => Err(Failed),
        }
    }
}

impl Sink for MemSink {
    ghost use Rattle.mq_outside.specs.Listed.{IsListed, after_call};
    ghost use Rattle.mq_outside.specs.MemSink.{IsPastRoom};

    ghost tells = { Unit {0} };

    ghost taken = { λ s. s.taken.items };

    ghost faults = { λ s. s.faults };

    fn write(&mut self, piece: &[u8]) -> Result<usize, Failed>
        ensures within { IfOk result (λ n. n ≤ length piece.now) }
        ensures some { IfOk result (λ n. 0 < length piece.now → 0 < n) }
        ensures taken { IfOk result (λ n. ⟦<MemSink as Sink>⟧.taken self.new ≡ ⟦<MemSink as Sink>⟧.taken self.old ++ take n piece.now) }
        ensures still { OnErr result (⟦<MemSink as Sink>⟧.taken self.new ≡ ⟦<MemSink as Sink>⟧.taken self.old) }
        ensures cause { CountsFailure result (⟦<MemSink as Sink>⟧.faults self.old) (⟦<MemSink as Sink>⟧.faults self.new) }

        // It takes all that one call may, and fails exactly at a listed call and past its room.
        ensures all { IfOk result (λ n. n ≡ min (length piece.now) self.old.limits.most) }
        ensures takes { OnOk result (¬ IsListed self.old.fails
            × ¬ IsPastRoom self.old.limits self.old.fails self.old.taken.items (min (length piece.now) self.old.limits.most)) }
        ensures refused { OnErr result (IsListed self.old.fails
            ⊎ IsPastRoom self.old.limits self.old.fails self.old.taken.items (min (length piece.now) self.old.limits.most)) }
        ensures asks { self.new.fails ≡ after_call self.old.fails }
        ensures limits { self.new.limits ≡ self.old.limits }
    {
        let n = piece.len().min(self.limits.most);
        match self.take(&piece[..n]) {
            Ok(()) => Ok(n),
            Err(Failed) => {
                self.faults = self.faults.saturating_add(1);
                Err(Failed)
            }
        }
    }

    fn done(&mut self) {}
}
