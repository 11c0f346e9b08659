//! What became of the half messages of a log.

ghost use Rattle.std.specs.Prelude.{◌≡◌, ◌==◌, ◌&&◌, IfOk, map, count_by};
ghost use Rattle.std.specs.List.{list_any};
ghost use Rattle.std.specs.Str.{bytes_eq};
ghost use Rattle.mq_bytes.specs.Decimal.{digits_of};
ghost use Rattle.log_model.specs.Queues.{entries_of};
ghost use Rattle.log_model.specs.Kinds.{is_copy as is_copy_entry, is_discard as is_discard_entry, is_op as is_op_entry};
ghost use Rattle.log_model.specs.Transactions.{family, copies, transaction_state};
ghost use Rattle.log_model.specs.Origins.{told_state};
ghost use Rattle.log_replay.specs.Told.{is_among as is_among_of, origin_states};

use crate::kinds::{is_copy, is_discard, is_member, is_op, is_origin};
use log_model::OriginState;
use mq_bytes::write_number;
use record_codec::Record;
use std::alloc::{AllocError, Global};

// The number in decimal.
pub(crate) fn digits(alloc: Global, number: u64) -> Result<Vec<u8>, AllocError>
    ensures { IfOk result (λ digits. digits.items ≡ digits_of number) }
{
    let mut digits = Vec::new(alloc);
    write_number(number, &mut digits)?;
    Ok(digits)
}

/// The places of the origin with this queue offset and of its renewals, in the order of the log.
pub fn family_of(alloc: Global, log: &[Record], origin: u64) -> Result<Vec<u64>, AllocError>
    ensures { IfOk result (λ places. places.items ≡ map (λ r. r.offset) (family (entries_of log.now) origin)) }
{
    let digits = digits(alloc, origin)?;
    let mut places = Vec::new(alloc);
    for record in log {
        if is_member(record, origin, &digits) {
            places.push(record.place.offset)?;
        }
    }
    Ok(places)
}

fn is_among(places: &[u64], place: u64) -> bool
    ensures { result ≡ is_among_of places.now place }
{
    places.contains(&place)
}

// One of these places was copied to its topic.
fn is_copied(log: &[Record], places: &[u64]) -> bool
    ensures { result ≡ list_any (λ r. is_copy_entry r && is_among_of places.now r.prepared) (entries_of log.now) }
{
    for record in log {
        if is_copy(record) && is_among(places, record.draft.prepared) {
            return true;
        }
    }
    false
}

// One of these places was given up.
fn is_discarded(log: &[Record], places: &[u64]) -> bool
    ensures { result ≡ list_any (λ r. is_discard_entry r && is_among_of places.now r.prepared) (entries_of log.now) }
{
    for record in log {
        if is_discard(record) && is_among(places, record.draft.prepared) {
            return true;
        }
    }
    false
}

// An op record names the origin with these digits.
fn is_named(log: &[Record], digits: &[u8]) -> bool
    ensures { result ≡ list_any (λ r. is_op_entry r && bytes_eq r.body digits.now) (entries_of log.now) }
{
    for record in log {
        if is_op(record) && record.draft.body.as_slice() == digits {
            return true;
        }
    }
    false
}

/// What became of the origin with this queue offset: of an op record, a copy and a copy among the discarded ones each settles it.
pub fn state_of(alloc: Global, log: &[Record], origin: u64) -> Result<OriginState, AllocError>
    ensures { IfOk result (λ state. state ≡ told_state (transaction_state (entries_of log.now) origin)) }
{
    let digits = digits(alloc, origin)?;
    let places = family_of(alloc, log, origin)?;
    if is_discarded(log, &places) {
        return Ok(OriginState::Discarded);
    }
    if is_copied(log, &places) {
        return Ok(OriginState::Committed);
    }
    if is_named(log, &digits) {
        return Ok(OriginState::RolledBack);
    }
    Ok(OriginState::Open)
}

/// How many copies of the origin with this queue offset, or of its renewals, the log has.
pub fn copies_of(alloc: Global, log: &[Record], origin: u64) -> Result<usize, AllocError>
    ensures { IfOk result (λ count. count ≡ copies (entries_of log.now) origin) }
{
    let places = family_of(alloc, log, origin)?;
    let mut count = 0;
    for record in log {
        if is_copy(record) && is_among(&places, record.draft.prepared) {
            count += 1;
        }
    }
    Ok(count)
}

/// Each origin's queue offset and what became of it, in the order of the log.
pub fn halves_of(alloc: Global, log: &[Record]) -> Result<Vec<(u64, OriginState)>, AllocError>
    ensures { IfOk result (λ halves. halves.items ≡ origin_states (entries_of log.now)) }
{
    let mut halves = Vec::new(alloc);
    for record in log {
        if is_origin(record) {
            let origin = record.place.queue_offset;
            halves.push((origin, state_of(alloc, log, origin)?))?;
        }
    }
    Ok(halves)
}
