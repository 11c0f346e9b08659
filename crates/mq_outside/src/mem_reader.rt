//! Reads the frozen ranges that hold their bytes.

ghost use Rattle.std.specs.Prelude.{◌≡◌, ◌+◌, ◌≤◌, ◌⊎◌, None, length, take, drop, IfOk, IsOk, OnOk, OnErr, IsErr, IfSome};
ghost use Rattle.mq_outside.specs.Counts.{Counted, CountsFailure};

use crate::fails::Fails;
use crate::faults::Failed;
use crate::frozen::Frozen;
use crate::reader::Reader;
use std::alloc::AllocError;

/// A reader of a disk in memory.
#[derive(Drop)]
pub struct MemReader {
    fails: Fails,
    pub(crate) faults: u64,
    reads: u64,
}

impl MemReader {
    /// A reader of which the reads with these numbers are to fail. The first read is number 1.
    pub fn new(fails: Vec<u64>) -> Result<MemReader, AllocError>
        ensures succeeds { IsOk result }
        ensures fails { IfOk result (λ reader. (reader.fails.calls ≡ fails) × (reader.fails.asked ≡ 0)) }
        ensures faults { IfOk result (λ reader. reader.faults ≡ 0) }
        ensures reads { IfOk result (λ reader. reader.reads ≡ 0) }
    {
        Ok(MemReader {
            fails: Fails::new(fails),
            faults: 0,
            reads: 0,
        })
    }

    /// How many reads were asked of it.
    pub fn read_count(&self) -> u64
        ensures { result ≡ self.now.reads }
    {
        self.reads
    }
}

impl Reader for MemReader {
    ghost use Rattle.mq_outside.specs.Listed.{IsListed, after_call};
    ghost use Rattle.mq_outside.specs.GivesHeld.{gives_held, held_law, parts_law, alike_law};

    ghost faults = { λ reader. reader.faults };

    ghost reads = { λ reader. reader.reads };

    ghost gives = { gives_held };

    ghost held = { held_law };

    ghost parts = { parts_law };

    ghost alike = { alike_law };

    fn fault_count(&self) -> u64 {
        self.faults
    }

    fn read(&mut self, piece: &Frozen, at: u64, out: &mut [u8]) -> Result<(), Failed>
        requires { at + length out.old ≤ piece.now.len }
        ensures gives { OnOk result (gives_held piece.now at out.new) }
        ensures cause { CountsFailure result self.old.faults self.new.faults }
        ensures reads { Counted 1 self.old.reads self.new.reads }

        // It fails exactly where it is listed, or the piece doesn't hold its bytes.
        ensures listed { IsListed self.old.fails → IsErr result }
        ensures absent { piece.now.held ≡ None → IsErr result }
        ensures refused { OnErr result (IsListed self.old.fails ⊎ (piece.now.held ≡ None)) }
        ensures asks { self.new.fails ≡ after_call self.old.fails }
    {
        self.reads = self.reads.saturating_add(1);
        let is_listed = self.fails.next();
        match &piece.held {
            Some(held) if !is_listed => {
                let from = at as usize;
                out.copy_from_slice(&held.as_slice()[from..from + out.len()]);
                Ok(())
            }
            _ => {
                self.faults = self.faults.saturating_add(1);
                Err(Failed)
            }
        }
    }
}
