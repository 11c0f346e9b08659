//! Writes the answer to a request, and check-backs, whole, to a sink, which may take them in parts.

ghost use Rattle.std.specs.Prelude.{◌≡◌, ◌++◌, OnOk, OnErr, IfOk, MatchResult};
ghost use Rattle.reply_fields.specs.Asks.{ask_bytes};
ghost use Rattle.mq_outside.specs.Counts.{CountsFailure};
ghost use Rattle.pipe_stream.specs.Telling.{Appends, AppendsUnread, Tells, WritesReply, CountsTelling, TookPart};
ghost use Rattle.pipe_stream.specs.Telling.{unread as unread_of, fault_counts, sink_of};
ghost use Rattle.pipe_stream.specs.Telling.{opaque_of as opaque_for, next_count as count_next, count_after, asks_bytes, WritesPiece};
ghost use Rattle.pipe_stream.specs.Telling.{EndsWriting};

use crate::stop::Stop;
use mq_outside::{DiskFault, Failed, Reader, Sink};
use reply_fields::{Ask, Reply};
use session::Caller;
use std::alloc::{AllocError, Global};

/// Writes the whole piece. At a failure first bytes of it may have been taken.
pub(crate) fn write_all<K: Sink>(sink: &mut K, piece: &[u8]) -> Result<(), Failed>
    ensures whole { K.tells → OnOk result (K.taken sink.new ≡ K.taken sink.old ++ piece.now) }
    ensures part { K.tells → OnErr result (TookPart (K.taken sink.old) (K.taken sink.new) piece.now) }
    ensures cause { CountsFailure result (K.faults sink.old) (K.faults sink.new) }
{
    let mut at = 0;
    while at < piece.len() {
        at += sink.write(&piece[at..])?;
    }
    Ok(())
}

// The reply where stored bytes could not be read, with the count of the reader's faults.
#[tactic(auto, using(crate::proofs::RemarkLemmas::length_read_remark))]
fn unread(alloc: Global, count: u64) -> Result<Reply, AllocError>
    ensures { IfOk result (λ reply. reply ≡ unread_of count) }
{
    let remark = format!(in alloc; "read {count}")?;
    Reply::plain(alloc, 1, remark.as_str())
}

// Appends the bytes of `read N`.
fn append_unread<R: Reader>(
    alloc: Global,
    caller: Caller,
    reader: &mut R,
    out: &mut Vec<u8>,
) -> Result<(), AllocError>
    ensures { OnOk result
        (AppendsUnread R.gives caller (fault_counts (R.faults reader.old) (R.faults reader.new)) out.old.items out.new.items) }
{
    let reply = unread(alloc, reader.fault_count())?;
    match reply.write(alloc, caller.form, caller.opaque, reader, out) {
        Ok(()) => Ok(()),
        Err(_) => Err(AllocError),
    }
}

// Appends the bytes of a reply, or those of `read N` where its stored bytes can't be read. `Err` is want of memory.
fn append_reply<R: Reader>(
    alloc: Global,
    caller: Caller,
    reply: Reply,
    reader: &mut R,
    out: &mut Vec<u8>,
) -> Result<(), AllocError>
    ensures { OnOk result
        (Appends R.gives caller reply (fault_counts (R.faults reader.old) (R.faults reader.new)) out.old.items out.new.items) }
{
    match reply.write(alloc, caller.form, caller.opaque, reader, out) {
        Ok(()) => Ok(()),
        Err(DiskFault::Failed) => append_unread(alloc, caller, reader, out),
        Err(DiskFault::Memory) => Err(AllocError),
    }
}

// Writes the bytes of an answer that somebody waits for. The buffer is for them.
fn write_reply<R: Reader, K: Sink>(
    alloc: Global,
    caller: Caller,
    reply: Reply,
    reader: &mut R,
    buffer: &mut Vec<u8>,
    sink: &mut K,
) -> Result<(), Stop>
    ensures told { WritesReply R.gives caller reply (fault_counts (R.faults reader.old) (R.faults reader.new))
        (sink_of K.tells (K.taken sink.old) (K.taken sink.new)) result }
    ensures cause { CountsTelling result (K.faults sink.old) (K.faults sink.new) }
{
    buffer.clear();
    let Ok(()) = append_reply(alloc, caller, reply, reader, buffer) else {
        return Err(Stop::Memory);
    };
    match write_all(sink, buffer.as_slice()) {
        Ok(()) => Ok(()),
        Err(_) => Err(Stop::Sink),
    }
}

/// Writes the answer to a request: nothing where nobody waits for one. The buffer is for its bytes.
pub(crate) fn tell<R: Reader, K: Sink>(
    alloc: Global,
    caller: Caller,
    reply: Reply,
    reader: &mut R,
    buffer: &mut Vec<u8>,
    sink: &mut K,
) -> Result<(), Stop>
    ensures told { Tells R.gives caller reply (fault_counts (R.faults reader.old) (R.faults reader.new))
        (sink_of K.tells (K.taken sink.old) (K.taken sink.new)) result }
    ensures cause { CountsTelling result (K.faults sink.old) (K.faults sink.new) }
{
    if caller.one_way {
        drop(reply);
        return Ok(());
    }
    write_reply(alloc, caller, reply, reader, buffer, sink)
}

// The opaque of a check-back, before which so many were written.
fn opaque_of(asked: u32) -> i32
    ensures { result ≡ opaque_for asked }
{
    (asked % (1 << 31)) as i32
}

// The count behind one more.
fn next_count(asked: u32) -> u32
    ensures { result ≡ count_next asked }
{
    asked.wrapping_add(1)
}

// Writes the frame of a check-back, before which so many were written. The buffer is for its bytes.
fn write_ask<K: Sink>(
    alloc: Global,
    ask: &Ask,
    asked: u32,
    buffer: &mut Vec<u8>,
    sink: &mut K,
) -> Result<(), Stop>
    ensures written { K.tells
        → WritesPiece result (K.taken sink.old) (K.taken sink.new) (ask_bytes (opaque_for asked) ask.now.view) }
    ensures ends { EndsWriting result }
    ensures cause { CountsTelling result (K.faults sink.old) (K.faults sink.new) }
{
    buffer.clear();
    let Ok(()) = ask.write(alloc, opaque_of(asked), buffer) else {
        return Err(Stop::Memory);
    };
    match write_all(sink, buffer.as_slice()) {
        Ok(()) => Ok(()),
        Err(_) => Err(Stop::Sink),
    }
}

/// Writes the frames of these check-backs, one after another, and counts them. The buffer is for their bytes.
pub(crate) fn write_asks<K: Sink>(
    alloc: Global,
    asks: &[Ask],
    asked: &mut u32,
    buffer: &mut Vec<u8>,
    sink: &mut K,
) -> Result<(), Stop>
    ensures written { K.tells → WritesPiece result (K.taken sink.old) (K.taken sink.new) (asks_bytes asked.old asks.now) }
    ensures counted { OnOk result (asked.new ≡ count_after asked.old asks.now) }
    ensures ends { EndsWriting result }
    ensures cause { CountsTelling result (K.faults sink.old) (K.faults sink.new) }
{
    for ask in asks {
        match write_ask(alloc, ask, *asked, buffer, sink) {
            Ok(()) => *asked = next_count(*asked),
            Err(stop) => return Err(stop),
        }
    }
    Ok(())
}
