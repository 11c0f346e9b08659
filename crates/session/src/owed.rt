//! What is owed to a link for a request: its reply, at once or once its record is on the disk.

ghost use Rattle.std.specs.Prelude.{◌≡◌, ◌≤◌, ◌+◌, ◌++◌, ℕ, Some, OnOk, OnErr, IfOk, pos, codes};
ghost use Rattle.mq_bytes.specs.Decimal.{digits_of};
ghost use Rattle.reply_fields.specs.Parts.{plain};
ghost use Rattle.broker_events.specs.Shown.{Accepts};
ghost use Rattle.broker_events.specs.declared.event.Event.TheVariants.{Look};
ghost use Rattle.broker_events.specs.declared.said.Said.TheVariants as said;
ghost use Rattle.session.specs.Owing.{IsRequest, IsApplied, IsWritten, not_flushed as not_flushed_of, unwritten as unwritten_of};
ghost use Rattle.session.specs.Readers.{risen_from};

use crate::caller::Caller;
use broker_events::{Awaited, Calls, Event, Said};
use mq_bytes::{Rows, Text};
use mq_outside::{DiskFault, Reader};
use reply_fields::Reply;
use request_fields::RequestFault;
use std::alloc::{AllocError, Global};

/// The record of which a reply tells, and how many flush turns were taken before it.
#[derive(Debug, Clone, Copy, PartialEq, Eq)]
pub struct Awaits {
    pub number: u64,
    pub turn: u64,
}

/// A reply that is owed, and the record that has to be on the disk before, if one has.
#[derive(Drop)]
pub struct Owed {
    pub caller: Caller,
    pub reply: Reply,
    pub awaits: Option<Awaits>,
}

/// What came of a request.
#[derive(Drop)]
pub enum Applied {
    /// This is owed for it.
    Owes(Reply, Option<Awaits>),
    /// The broker has no room for its record, and nothing changed. The first pending record has this number.
    Full(u64),
}

/// Gives a request to the broker. Where memory runs out that is told, and nothing has changed; `Err` is want of memory for
/// telling it.
pub fn apply<C: Calls>(alloc: Global, calls: &mut C, event: &Event) -> Result<Applied, AllocError>
    requires request { IsRequest event.now }
    requires accepted { Accepts (C.shown calls.old) event.now }
    ensures { IsApplied C.makes calls.old event.now result calls.new }
{
    match calls.call(alloc, event) {
        Ok(Said::Reply(reply)) => Ok(Applied::Owes(reply, None)),
        Ok(
            Said::After {
                reply,
                number,
                turn,
            },
        ) => Ok(Applied::Owes(reply, Some(Awaits { number, turn }))),
        Ok(Said::Full { pending }) => Ok(Applied::Full(pending)),
        Ok(_) => unreachable!(),
        Err(_) => {
            let reply = Reply::of_fault(alloc, &RequestFault::Memory)?;
            Ok(Applied::Owes(reply, None))
        }
    }
}

/// The reply to a request whose record the disk failed to take, as its failure of this number: code 10, with the fields of the
/// reply that was due. Fields that leave no room for the remark are left out; those of a send leave some.
#[tactic(auto, using(crate::proofs::RemarkLemmas::length_flush_remark))]
pub fn not_flushed(alloc: Global, reply: Reply, count: u64) -> Result<Reply, AllocError>
    ensures { IfOk result (λ told. told ≡ not_flushed_of reply count) }
{
    let remark = format!(in alloc; "flush {count}")?;
    if !reply.ext.fits(65000) {
        return Reply::plain(alloc, 10, remark.as_str());
    }
    Ok(Reply {
        code: 10,
        remark: Text::of(remark),
        ext: reply.ext,
        body: Rows::of(Vec::new(alloc)),
    })
}

/// The reply to a request that found no room, since the disk failed to take the records before it, as its failure of this number.
#[tactic(auto, using(crate::proofs::RemarkLemmas::length_disk_remark))]
pub fn no_room(alloc: Global, count: u64) -> Result<Reply, AllocError>
    ensures { IfOk result (λ reply. reply ≡ plain (pos 1) (codes "disk " ++ digits_of count)) }
{
    let remark = format!(in alloc; "disk {count}")?;
    Reply::plain(alloc, 1, remark.as_str())
}

/// Looks what became of a record.
pub fn look<C: Calls>(alloc: Global, calls: &mut C, awaits: Awaits) -> Awaited
    ensures { C.makes calls.old (Look awaits.number awaits.turn) (Some (said.Awaited result)) calls.new }
{
    let event = Event::Look {
        number: awaits.number,
        turn: awaits.turn,
    };
    let said = calls.call(alloc, &event);
    drop(event);
    match said {
        Ok(Said::Awaited(awaited)) => awaited,
        Ok(_) | Err(_) => unreachable!(),
    }
}

// The reply where one can't be written: memory wants, or its stored bytes can't be read, with the reader's count.
#[tactic(auto, using(crate::proofs::RemarkLemmas::length_read_remark))]
fn unwritten(alloc: Global, fault: DiskFault, count: u64) -> Result<Reply, AllocError>
    ensures { IfOk result (λ reply. reply ≡ unwritten_of fault count) }
{
    match fault {
        DiskFault::Memory => Reply::of_fault(alloc, &RequestFault::Memory),
        DiskFault::Failed => {
            let remark = format!(in alloc; "read {count}")?;
            Reply::plain(alloc, 1, remark.as_str())
        }
    }
}

/// Appends the bytes of a reply. One whose stored bytes can't be read is told as such with the reader's count, which has risen, and
/// one for which memory wants as that. `Err` is want of memory for telling it, and leaves `out` as it was.
pub fn write_reply<R: Reader>(
    alloc: Global,
    caller: Caller,
    reply: Reply,
    reader: &mut R,
    out: &mut Vec<u8>,
) -> Result<(), AllocError>
    // At most one reply `read N` is written, and by as much at least the reader's count of failures rose.
    ensures written { OnOk result ((reads : ℕ) × (R.faults reader.old + reads ≤ R.faults reader.new)
        × IsWritten (risen_from R.gives (R.faults reader.old)) caller reply (R.faults reader.new) reads out.old.items out.new.items) }
    ensures err { OnErr result (out.new.items ≡ out.old.items) }
    ensures grows { R.faults reader.old ≤ R.faults reader.new }
{
    let fault = match reply.write(alloc, caller.form, caller.opaque, reader, out) {
        Ok(()) => return Ok(()),
        Err(fault) => fault,
    };
    let refusal = unwritten(alloc, fault, reader.fault_count())?;
    match refusal.write(alloc, caller.form, caller.opaque, reader, out) {
        Ok(()) => Ok(()),
        Err(_) => Err(AllocError),
    }
}
