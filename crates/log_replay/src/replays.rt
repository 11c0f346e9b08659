//! A replay is made of a log.

ghost use Rattle.std.specs.Prelude.{◌≡◌, ℕ, ◌++◌, ◌∷◌, [], ◌≤◌, ◌^◌, All, IfOk, OnOk, length, if◌then◌else◌};
ghost use Rattle.std.specs.List.{list_any};
ghost use Rattle.log_model.specs.Queues.{said_by, entries_of, IsStored};
ghost use Rattle.log_model.specs.Told.{base_of};
ghost use Rattle.log_replay.specs.Replays.{are_of_one_queue, row_of, queues_in, entries_in, key_entries, IsReplay};

use crate::delays::delays_of;
use crate::halves::halves_of;
use crate::keys::index_keys_of;
use crate::said::Replay;
use log_model::{Base, queue_of};
use mq_bytes::{Rows, Text};
use record_codec::{Record, Unit};
use std::alloc::{AllocError, Global};

// One of the records is of the same queue.
fn has_queue(log: &[Record], r: &Record) -> bool
    ensures { result ≡ list_any (λ earlier. are_of_one_queue earlier (said_by r.now)) (entries_of log.now) }
{
    for record in log {
        if record.draft.topic.as_str() == r.draft.topic.as_str()
            && record.draft.queue == r.draft.queue
        {
            return true;
        }
    }
    false
}

// The record's queue, with the units of that queue.
fn row(alloc: Global, log: &[Record], r: &Record) -> Result<(Text, u32, Rows<Unit>), AllocError>
    requires { All IsStored log.now }
    ensures { IfOk result (λ row. row ≡ row_of (entries_of log.now) (said_by r.now)) }
{
    let topic = r.draft.topic.as_str();
    let units = queue_of(alloc, log, topic, r.draft.queue)?;
    let topic = Text::copy(alloc, topic)?;
    Ok((topic, r.draft.queue, Rows::of(units)))
}

// Appends the record's queue, where none of the records before it is of the same.
fn put_row(
    alloc: Global,
    log: &[Record],
    before: &[Record],
    r: &Record,
    rows: &mut Vec<(Text, u32, Rows<Unit>)>,
) -> Result<(), AllocError>
    requires { All IsStored log.now }
    ensures { OnOk result (rows.new.items ≡ (if list_any (λ earlier. are_of_one_queue earlier (said_by r.now)) (entries_of before.now)
        then rows.old.items else rows.old.items ++ row_of (entries_of log.now) (said_by r.now) ∷ [])) }
{
    if has_queue(before, r) {
        return Ok(());
    }
    rows.push(row(alloc, log, r)?)?;
    Ok(())
}

// The queues of the log, each where its first record stands.
fn queues(alloc: Global, log: &[Record]) -> Result<Vec<(Text, u32, Rows<Unit>)>, AllocError>
    requires { All IsStored log.now }
    ensures { IfOk result (λ rows. rows.items ≡ queues_in (entries_of log.now)) }
{
    let mut rows = Vec::new(alloc);
    for (i, record) in log.iter().enumerate() {
        put_row(alloc, log, &log[..i], record, &mut rows)?;
    }
    Ok(rows)
}

fn put_entries(
    alloc: Global,
    r: &Record,
    entries: &mut Vec<(u32, u64, u64)>,
) -> Result<(), AllocError>
    ensures { OnOk result (entries.new.items ≡ entries.old.items ++ entries_in (said_by r.now)) }
{
    let hashes = index_keys_of(alloc, r)?;
    for hash in &hashes {
        entries.push((*hash, r.place.offset, r.place.store))?;
    }
    Ok(())
}

fn keys(alloc: Global, log: &[Record]) -> Result<Vec<(u32, u64, u64)>, AllocError>
    ensures { IfOk result (λ keys. keys.items ≡ key_entries (entries_of log.now)) }
{
    let mut keys = Vec::new(alloc);
    for record in log {
        put_entries(alloc, record, &mut keys)?;
    }
    Ok(keys)
}

/// What the log says, from this base on.
pub fn replay(alloc: Global, log: &[Record], base: &Base) -> Result<Replay, AllocError>
    requires stored { All IsStored log.now }
    requires levels { (level : ℕ) → (base_of base.now).levels level ≤ 2 ^ 62 }
    requires few { length log.now ≤ 2 ^ 62 }
    ensures { IfOk result (λ replay. IsReplay base.now log.now replay) }
{
    let queues = queues(alloc, log)?;
    let keys = keys(alloc, log)?;
    let halves = halves_of(alloc, log)?;
    let delays = delays_of(alloc, log, base)?;
    Ok(Replay {
        queues: Rows::of(queues),
        keys: Rows::of(keys),
        halves: Rows::of(halves),
        delays,
    })
}
