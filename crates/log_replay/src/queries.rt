//! The records that have a key.

ghost use Rattle.std.specs.Prelude.{◌≡◌, ℕ, ◌++◌, List, pos, IfOk, OnOk, All, map, filter, reverse, take};
ghost use Rattle.record_codec.specs.Entry.{Entry};
ghost use Rattle.log_model.specs.Queues.{said_by, entries_of, IsStored};
ghost use Rattle.log_model.specs.Keys.{asked_number, is_match as is_match_entry, newest_with_key, within, cut_to, query_of as query_of_log};
ghost use Rattle.log_replay.specs.Told.{place_and_size};

use crate::keys::{index_keys_of, key_hash};
use record_codec::Record;
use std::alloc::{AllocError, Global};

/// The most bytes of a reply's records, where it has more than one.
const BODY_ROOM: u64 = 8_388_608;

// The number of records that is asked for: at least 1, and at most 64.
fn asked(most: i64) -> usize
    ensures { result ≡ asked_number 64 most }
{
    if most < 1 {
        1
    } else if most > 64 {
        64
    } else {
        most as usize
    }
}

// The record has this hash, and was stored within these times.
fn is_match(alloc: Global, r: &Record, hash: u32, from: i128, to: i128) -> Result<bool, AllocError>
    ensures { IfOk result (λ answer. answer ≡ is_match_entry hash from to (said_by r.now)) }
{
    let keys = index_keys_of(alloc, r)?;
    let store = i128::from(r.place.store);
    Ok(keys.contains(&hash) && from <= store && store <= to)
}

// The places and sizes of these records, in the order of the log.
fn matching(
    alloc: Global,
    log: &[Record],
    hash: u32,
    from: i128,
    to: i128,
) -> Result<Vec<(u64, u32)>, AllocError>
    requires { All IsStored log.now }
    ensures { IfOk result (λ found. found.items ≡ map place_and_size (filter (is_match_entry hash from to) (entries_of log.now))) }
{
    let mut found = Vec::new(alloc);
    for record in log {
        if is_match(alloc, record, hash, from, to)? {
            found.push((record.place.offset, record.size))?;
        }
    }
    Ok(found)
}

// The newest of these, at most so many, the newest first.
fn newest(
    alloc: Global,
    log: &[Record],
    hash: u32,
    from: i128,
    to: i128,
    most: usize,
) -> Result<Vec<(u64, u32)>, AllocError>
    requires { All IsStored log.now }
    ensures { IfOk result (λ found. found.items
        ≡ map place_and_size (take most (reverse (filter (is_match_entry hash from to) (entries_of log.now))))) }
{
    let mut found = matching(alloc, log, hash, from, to)?;
    found.reverse();
    found.truncate(most);
    Ok(found)
}

fn places(alloc: Global, records: &[(u64, u32)]) -> Result<Vec<u64>, AllocError>
    ensures { IfOk result (λ places. places.items ≡ map (λ r. r.0) records.now) }
{
    let mut places = Vec::new(alloc);
    for (place, _) in records {
        places.push(*place)?;
    }
    Ok(places)
}

/// The places of the newest records that have this key and were stored within these times, in milliseconds: at most 64 of
/// them, the newest first.
pub fn query_of(
    alloc: Global,
    log: &[Record],
    topic: &str,
    key: &str,
    from: u64,
    to: u64,
    most: u32,
) -> Result<Vec<u64>, AllocError>
    requires { All IsStored log.now }
    ensures { IfOk result (λ places. places.items ≡ map (λ r. r.offset)
        (newest_with_key (entries_of log.now) topic.now key.now (pos from) (pos to) (pos most))) }
{
    let hash = key_hash(topic, key);
    let most = asked(i64::from(most));
    let found = newest(alloc, log, hash, i128::from(from), i128::from(to), most)?;
    let places = places(alloc, &found)?;
    Ok(places)
}

// Appends the places of these records, as far as they have room together.
fn put_within(
    places: &mut Vec<u64>,
    mut room: u64,
    records: &[(u64, u32)],
) -> Result<(), AllocError>
    ensures { (rs : List Entry) → records.now ≡ map place_and_size rs
        → OnOk result (places.new.items ≡ places.old.items ++ map (λ r. r.offset) (within room rs)) }
{
    for (place, size) in records {
        if u64::from(*size) > room {
            return Ok(());
        }
        places.push(*place)?;
        room -= u64::from(*size);
    }
    Ok(())
}

// The places of these records, as far as they go into a reply together.
fn cut(alloc: Global, records: &[(u64, u32)]) -> Result<Vec<u64>, AllocError>
    ensures { (rs : List Entry) → records.now ≡ map place_and_size rs
        → IfOk result (λ places. places.items ≡ map (λ r. r.offset) (cut_to 8388608 rs)) }
{
    let mut places = Vec::new(alloc);
    match records {
        [] => Ok(places),
        [(place, size), rest @ ..] => {
            places.push(*place)?;
            put_within(
                &mut places,
                BODY_ROOM.saturating_sub(u64::from(*size)),
                rest,
            )?;
            Ok(places)
        }
    }
}

/// The places of the records that a query by this key is answered with, the oldest first. Times are milliseconds.
pub fn query_reply(
    alloc: Global,
    log: &[Record],
    topic: &str,
    key: &str,
    from: i64,
    to: i64,
    most: i32,
) -> Result<Vec<u64>, AllocError>
    requires { All IsStored log.now }
    ensures { IfOk result (λ places. places.items
        ≡ map (λ r. r.offset) (query_of_log (entries_of log.now) topic.now key.now from to most)) }
{
    let hash = key_hash(topic, key);
    let most = asked(i64::from(most));
    let found = newest(alloc, log, hash, i128::from(from), i128::from(to), most)?;
    let mut places = cut(alloc, &found)?;
    places.reverse();
    Ok(places)
}
