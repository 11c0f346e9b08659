//! Flush turns, as the core sees them: a batch is taken, and the turn ends. What became of a record is told by them.

ghost use Rattle.std.specs.Prelude.{◌≡◌, IfOk, OnErr, IsSome, Some, None};
ghost use Rattle.broker_model.specs.Events as model;
ghost use Rattle.broker_events.specs.Steps.{IsTakenAs, awaited_of};
ghost use Rattle.pending_log.specs.Pending.{IsReceiptOf};
ghost use Rattle.broker_events.specs.Shown.{taken, after_batch};
ghost use Rattle.broker_events.specs.declared.said.Said.TheVariants as said;
ghost use Rattle.core_log.specs.Carries.{Carries, Stays, RepresentsSome};
ghost use Rattle.core_log.specs.Shows.{shown_of};

use crate::parts::Parts;
use broker_events::Awaited;
use log_model::{Batch, Receipt};
use pending_log::Look;
use std::alloc::{AllocError, Global};

impl Parts {
    /// The batch of a flush turn, which is then out; none where nothing is pending or a turn is out. At `Err` nothing changes.
    pub fn take(&mut self, alloc: Global) -> Result<Option<Batch>, AllocError>
        requires some { RepresentsSome self.old }
        ensures carries { IfOk result (λ batch. Carries self.old model.Take (IsTakenAs batch) self.new) }
        ensures shown { IfOk result (λ batch. shown_of self.new ≡ taken (shown_of self.old) (Some (said.Batch batch))) }
        ensures stays { OnErr result (Stays self.old self.new) }
        ensures same { OnErr result (shown_of self.new ≡ shown_of self.old) }
    {
        if self.pending.is_out() {
            return Ok(None);
        }
        // Room for the end of the turn, which takes no memory.
        if let Err(fault) = self.stored.reserve() {
            return Err(fault);
        }
        self.pending.take(alloc, &self.rows)
    }

    /// The turn that is out has written its batch. Takes no memory.
    pub fn flushed(&mut self, receipt: &Receipt)
        requires some { RepresentsSome self.old }
        requires receipt { IsReceiptOf self.old.pending.out receipt.now }
        ensures carries { Carries self.old (model.Flushed receipt.now.count) (λ answer. answer ≡ model.Done) self.new }
        ensures shown { shown_of self.new ≡ after_batch (shown_of self.old) (shown_of self.old).out }
    {
        let bytes = self.pending.flushed(receipt);
        self.stored.push(receipt.piece.keeping(bytes));
    }

    /// The turn that is out failed, where the disk counts so many faults. Takes no memory.
    pub fn flush_failed(&mut self, count: u64)
        requires some { RepresentsSome self.old }
        requires out { IsSome self.old.pending.out }
        ensures carries { Carries self.old (model.FlushFailed count) (λ answer. answer ≡ model.Done) self.new }
        ensures shown { shown_of self.new ≡ record (shown_of self.old) { out = None } }
    {
        self.pending.failed(count);
    }

    /// What became of the record with this number, by the turns after `turn`. Takes no memory.
    pub fn look(&self, number: u64, turn: u64) -> Awaited
        requires some { RepresentsSome self.now }
        ensures { Carries self.entry.now (model.Look number turn) (λ answer. answer ≡ model.Looked (awaited_of result)) self.entry.now }
    {
        match self.pending.look(number, turn) {
            Look::Flushed => Awaited::Flushed,
            Look::Failed(count) => Awaited::Failed { count },
            Look::NotYet => Awaited::NotYet,
        }
    }
}
