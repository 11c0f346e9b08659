//! A query by key: which records have it, the newest first, and where they stand. No byte of a record is read for it.
//!
//! | code | fields                                                        | when                            |
//! |-----:|---------------------------------------------------------------|---------------------------------|
//! |    0 | `indexLastUpdatePhyoffset` and `indexLastUpdateTimestamp`, `0` | there are such records          |
//! |   22 |                                                               | no record within the times has it |

ghost use Rattle.std.specs.Prelude.{◌≡◌, ◌≤◌, ◌<◌, ◌^◌, ℕ, pos, List, length, Some, IfOk, OnErr};
ghost use Rattle.record_codec.specs.Entry.{Entry};
ghost use Rattle.remoting_frame.specs.Head.{IsInOrder, pairs_size};
ghost use Rattle.log_model.specs.Keys.{cut_to, newest_with_key, query_of, within};
ghost use Rattle.reply_fields.specs.Slices.{body_len};
ghost use Rattle.request_fields.specs.declared.request.Request.TheVariants.{Query};
ghost use Rattle.broker_model.specs.State.{State, seen};
ghost use Rattle.broker_model.specs.Events as model;
ghost use Rattle.broker_model.specs.Answers.{found_reply, query_ext};
ghost use Rattle.broker_events.specs.Replies.{IsReplyOf, AreSlicesOf};
ghost use Rattle.broker_events.specs.Steps.{Says};
ghost use Rattle.core_log.specs.Carries.{Carries, Stays, RepresentsSome};
ghost use Rattle.broker_core.specs.Queries.{AreIn, IsIn, IsSeenEnd, bare_unit, bare_units, places_of};
ghost use Rattle.core_log.specs.Represents.{Represents};

use crate::offsets::tell;
use crate::pull::slices_of;
use broker_events::Said;
use core_log::Parts;
use key_view::key_hash;
use mq_bytes::{Rows, Text};
use pending_log::Row;
use record_codec::Unit;
use remoting_frame::Fields;
use reply_fields::{Ext, Reply, Slice};
use request_fields::QueryFields;
use std::alloc::{AllocError, Global};

// The most bytes of a body, but that it has one record in any case.
const BODY_MAX: u32 = 8_388_608;

// How many of these records from the front have at most so many bytes together.
fn count_within(units: &[Unit], room: u32) -> usize
    ensures value { (records : List Entry) → units.now ≡ bare_units records → result ≡ length (within room records) }
    ensures most { result ≤ length units.now }
{
    let mut left = room;
    for (k, unit) in units.iter().enumerate() {
        if unit.size > left {
            return k;
        }
        left -= unit.size;
    }
    units.len()
}

// How many of these records from the front a body takes.
fn count_taken(units: &[Unit]) -> usize
    ensures { (records : List Entry) → units.now ≡ bare_units records → result ≡ length (cut_to 8388608 records) }
{
    match units.split_first() {
        Some((first, rest)) => 1 + count_within(rest, BODY_MAX.saturating_sub(first.size)),
        None => 0,
    }
}

fn query_fields(alloc: Global) -> Result<Fields, AllocError>
    ensures fields { IfOk result (λ fields. fields ≡ query_ext) }
    ensures ordered { IfOk result IsInOrder }
    ensures short { IfOk result (λ fields. pairs_size fields ≤ 200) }
{
    let mut fields = Fields::new(alloc);
    fields.push("indexLastUpdatePhyoffset", "0")?;
    fields.push("indexLastUpdateTimestamp", "0")?;
    Ok(fields)
}

/// The reply with these records, or that there is none.
pub(crate) fn found(alloc: Global, fields: Fields, slices: Vec<Slice>) -> Result<Reply, AllocError>
    requires ordered { IsInOrder fields }
    requires short { pairs_size fields ≤ 200 }
    requires within { body_len slices.items < 2 ^ 30 }
    ensures { (records : List Entry) → AreSlicesOf slices.items records
        → IfOk result (λ reply. IsReplyOf reply (found_reply fields records)) }
{
    if slices.is_empty() {
        return Reply::plain(alloc, 22, "");
    }
    Ok(Reply {
        code: 0,
        remark: Text::of(String::new(alloc)),
        ext: Ext::of(fields),
        body: Rows::of(slices),
    })
}

// The place before which all records are seen by consumers, and no others.
fn seen_end(parts: &Parts) -> u64
    requires { RepresentsSome parts.now }
    ensures { (s : State) → Represents parts.entry.now s → IsSeenEnd s result }
{
    if parts.dispatched < parts.rows.end() {
        parts.rows.at(parts.dispatched).place
    } else {
        u64::MAX
    }
}

// The places of the newest records with a key, the newest first.
fn keyed(parts: &Parts, alloc: Global, asked: &QueryFields) -> Result<Vec<u64>, AllocError>
    requires { RepresentsSome parts.now }
    ensures { (s : State) → Represents parts.entry.now s → IfOk result (λ places. places.items ≡ places_of (newest_with_key
        (seen s).records asked.now.topic asked.now.key asked.now.from asked.now.to asked.now.most)) }
{
    let hash = key_hash(asked.topic.as_str(), asked.key.as_str());
    let end = seen_end(parts);
    parts
        .keys
        .query(alloc, hash, asked.from, asked.to, asked.most, end)
}

/// Where the record of a row stands, without its tag.
pub(crate) fn unit_in(row: &Row) -> Unit
    ensures { result ≡ record { offset = row.now.place; size = row.now.size; tag = pos 0 } }
{
    Unit {
        offset: row.place,
        size: row.size,
        tag: 0,
    }
}

// Where the record is that begins at this place.
fn unit_at(parts: &Parts, place: u64) -> Unit
    requires { (s : State) × (r : Entry) × Represents parts.now s × IsIn s r × (r.offset ≡ place) }
    ensures { (s : State) (r : Entry) → Represents parts.entry.now s → IsIn s r → r.offset ≡ place → result ≡ bare_unit r }
{
    match parts.rows.find(place) {
        Some(number) => unit_in(&parts.rows.at(number)),
        None => unreachable!(),
    }
}

// Where the records are that begin at these places.
fn units_at(parts: &Parts, alloc: Global, places: &[u64]) -> Result<Vec<Unit>, AllocError>
    requires { (s : State) × (records : List Entry) × Represents parts.now s × AreIn s records × (places.now ≡ places_of records) }
    ensures { (s : State) (records : List Entry) → Represents parts.entry.now s → AreIn s records → places.now ≡ places_of records
        → IfOk result (λ units. units.items ≡ bare_units records) }
{
    let mut units = Vec::with_capacity(alloc, places.len())?;
    for place in places {
        units.push(unit_at(parts, *place))?;
    }
    Ok(units)
}

// Where the records are that a query finds, in the order of the log.
fn units_found(parts: &Parts, alloc: Global, asked: &QueryFields) -> Result<Vec<Unit>, AllocError>
    requires { RepresentsSome parts.now }
    ensures { (s : State) → Represents parts.entry.now s → IfOk result (λ units. units.items ≡ bare_units
        (query_of (seen s).records asked.now.topic asked.now.key asked.now.from asked.now.to asked.now.most)) }
{
    let places = keyed(parts, alloc, asked)?;
    let mut units = units_at(parts, alloc, places.as_slice())?;
    let count = count_taken(units.as_slice());
    units.truncate(count);
    units.reverse();
    Ok(units)
}

// The records that a query finds, in the order of the log.
fn queried(parts: &Parts, alloc: Global, asked: &QueryFields) -> Result<Vec<Slice>, AllocError>
    requires { RepresentsSome parts.now }
    ensures found { (s : State) → Represents parts.entry.now s → IfOk result (λ slices. AreSlicesOf slices.items
        (query_of (seen s).records asked.now.topic asked.now.key asked.now.from asked.now.to asked.now.most)) }
    ensures within { IfOk result (λ slices. body_len slices.items < 2 ^ 30) }
{
    let units = units_found(parts, alloc, asked)?;
    slices_of(alloc, &parts.stored, units.as_slice())
}

// The reply to a query.
fn query_reply(parts: &Parts, alloc: Global, asked: &QueryFields) -> Result<Reply, AllocError>
    requires { RepresentsSome parts.now }
    ensures { (s : State) → Represents parts.entry.now s → IfOk result (λ reply. IsReplyOf reply (found_reply query_ext
        (query_of (seen s).records asked.now.topic asked.now.key asked.now.from asked.now.to asked.now.most))) }
{
    let slices = queried(parts, alloc, asked)?;
    found(alloc, query_fields(alloc)?, slices)
}

/// The newest records with a key that were stored within these times, in the order of the log: at most 64 of them, and as
/// many as a body takes. At `Err` nothing changes.
pub(crate) fn query(
    parts: &mut Parts,
    alloc: Global,
    now: u64,
    asked: &QueryFields,
) -> Result<Said, AllocError>
    requires some { RepresentsSome parts.old }
    requires time { now < 2 ^ 62 }
    ensures carries { (link : ℕ) (host : List ℕ) → IfOk result (λ said. Carries parts.old
        (model.Asks (record { link = link; host = host; now = now; request = Query asked.now })) (Says said) parts.new) }
    ensures stays { OnErr result (Stays parts.old parts.new) }
{
    let reply = query_reply(parts, alloc, asked);
    tell(parts, now, reply)
}
