//! The worked rows, as lists of records that were made independently, with the sums of zlib.

ghost use Rattle.std.specs.Prelude.{ℕ, ◌≤◌, ◌^◌, List, IfOk, All, length};
ghost use Rattle.log_model.specs.Queues.{IsStored};
ghost use Rattle.log_model.specs.Told.{base_of};

use crate::worked::{COPY, DELAYED, DISCARD, HALF, OP, RENEWAL, TAG_A, put_record};
use log_model::{Base, OriginState};
use log_replay::{
    bounds_of, copies_of, delays_of, family_of, halves_of, index_keys_of, item_at, query_of,
    query_reply, replay,
};
use record_codec::{Record, Unit};
use std::alloc::Global;
use std::test::Fail;

/// The delivery of the delayed message, behind it.
const DELIVERY: &[u8; 123] =
    b"\x00\x00\x00{\xDA\xA3 \xA7X\x93*\xAC\x00\x00\x00\x00\x00\x00\x00\x00\x00\x00\x00\x00\x00\x00\x00\x00\x00\x00\x00\x00\
\x00\x00\x00\x9E\x00\x00\x00\x00\x00\x00\x00\x00\x00\x00\x03\xE8\x7F\x00\x00\x01\x00\x00\x00\x00\x00\x00\x00\x00\x00\
\x00\x07\xD0\x7F\x00\x00\x01\x00\x00*\x9F\x00\x00\x00\x00\x00\x00\x00\x00\x00\x00\x00\x00\x00\x00\x00\x02hi\x01T\x00\
\x1DDELAY_FROM\x011-0\x02SEAL\x011EB1CA1F\x02";

/// A message `hi` to the topic `T` with the key `Aa`.
const FIRST: &[u8; 116] =
    b"\x00\x00\x00t\xDA\xA3 \xA7X\x93*\xAC\x00\x00\x00\x00\x00\x00\x00\x00\x00\x00\x00\x00\x00\x00\x00\x00\x00\x00\x00\x00\
\x00\x00\x00\x00\x00\x00\x00\x00\x00\x00\x00\x00\x00\x00\x03\xE8\x7F\x00\x00\x01\x00\x00\x00\x00\x00\x00\x00\x00\x00\
\x00\x07\xD0\x7F\x00\x00\x01\x00\x00*\x9F\x00\x00\x00\x00\x00\x00\x00\x00\x00\x00\x00\x00\x00\x00\x00\x02hi\x01T\x00\
\x16KEYS\x01Aa\x02SEAL\x0192F4826C\x02";

/// Behind it one with the key `BB`, which has the same hash.
const SECOND: &[u8; 116] =
    b"\x00\x00\x00t\xDA\xA3 \xA7X\x93*\xAC\x00\x00\x00\x00\x00\x00\x00\x00\x00\x00\x00\x00\x00\x00\x00\x01\x00\x00\x00\x00\
\x00\x00\x00t\x00\x00\x00\x00\x00\x00\x00\x00\x00\x00\x03\xE8\x7F\x00\x00\x01\x00\x00\x00\x00\x00\x00\x00\x00\x00\x00\
\x07\xD0\x7F\x00\x00\x01\x00\x00*\x9F\x00\x00\x00\x00\x00\x00\x00\x00\x00\x00\x00\x00\x00\x00\x00\x02hi\x01T\x00\x16KE\
YS\x01BB\x02SEAL\x0139FDAF68\x02";

const TAG_B: &[u8; 118] =
    b"\x00\x00\x00v\xDA\xA3 \xA7X\x93*\xAC\x00\x00\x00\x00\x00\x00\x00\x00\x00\x00\x00\x00\x00\x00\x00\x01\x00\x00\x00\x00\
\x00\x00\x00v\x00\x00\x00\x00\x00\x00\x00\x00\x00\x00\x03\xE8\x7F\x00\x00\x01\x00\x00\x00\x00\x00\x00\x00\x00\x00\x00\
\x07\xD0\x7F\x00\x00\x01\x00\x00*\x9F\x00\x00\x00\x00\x00\x00\x00\x00\x00\x00\x00\x00\x00\x00\x00\x02hi\x01T\x00\x18TA\
GS\x01TagB\x02SEAL\x016BD72276\x02";

const TAG_C: &[u8; 118] =
    b"\x00\x00\x00v\xDA\xA3 \xA7X\x93*\xAC\x00\x00\x00\x00\x00\x00\x00\x00\x00\x00\x00\x00\x00\x00\x00\x02\x00\x00\x00\x00\
\x00\x00\x00\xEC\x00\x00\x00\x00\x00\x00\x00\x00\x00\x00\x03\xE8\x7F\x00\x00\x01\x00\x00\x00\x00\x00\x00\x00\x00\x00\
\x00\x07\xD0\x7F\x00\x00\x01\x00\x00*\x9F\x00\x00\x00\x00\x00\x00\x00\x00\x00\x00\x00\x00\x00\x00\x00\x02hi\x01T\x00\
\x18TAGS\x01TagC\x02SEAL\x018FD13B66\x02";

const NO_TAG: &[u8; 108] =
    b"\x00\x00\x00l\xDA\xA3 \xA7X\x93*\xAC\x00\x00\x00\x00\x00\x00\x00\x00\x00\x00\x00\x00\x00\x00\x00\x03\x00\x00\x00\x00\
\x00\x00\x01b\x00\x00\x00\x00\x00\x00\x00\x00\x00\x00\x03\xE8\x7F\x00\x00\x01\x00\x00\x00\x00\x00\x00\x00\x00\x00\x00\
\x07\xD0\x7F\x00\x00\x01\x00\x00*\x9F\x00\x00\x00\x00\x00\x00\x00\x00\x00\x00\x00\x00\x00\x00\x00\x02hi\x01T\x00\x0ESE\
AL\x0194E1B7B0\x02";
// The log with these records.
fn log_with(alloc: Global, records: &[&[u8]]) -> Result<Vec<Record>, Fail>
    ensures stored { IfOk result (λ log. All IsStored log.items) }
    ensures few { IfOk result (λ log. length log.items ≤ 2 ^ 62) }
{
    let mut log = Vec::new(alloc);
    for bytes in records {
        put_record(alloc, &mut log, bytes)?;
    }
    if log.len() > 16 {
        return Err(Fail::from("too many"));
    }
    Ok(log)
}

// A base before which nothing was removed.
fn no_base(alloc: Global) -> Base
    ensures levels { (level : ℕ) → (base_of result).levels level ≤ 2 ^ 62 }
    ensures counts { (topic : List ℕ) (queue : ℕ) → (base_of result).queues topic queue ≤ 2 ^ 62 }
{
    Base::none(alloc)
}

fn unit(offset: u64, size: u32, tag: i64) -> Unit {
    Unit { offset, size, tag }
}

#[test]
fn a_queue_has_the_units_of_its_records(rt: HostRuntime) -> Result<(), Fail> {
    let log = log_with(rt.alloc(), &[TAG_A, TAG_B, TAG_C, NO_TAG])?;
    let replay = replay(rt.alloc(), &log, &no_base(rt.alloc()))?;
    let units = [
        unit(0, 118, 2598919),
        unit(118, 118, 2598920),
        unit(236, 118, 2598921),
        unit(354, 108, 0),
    ];
    match replay.queues.as_slice() {
        [(topic, queue, found)] => {
            assert!(rt; topic.as_str() == "T");
            assert!(rt; *queue == 0);
            assert!(rt; found.as_slice() == units.as_slice());
        }
        _ => return Err(Fail::from("not one queue")),
    }
    assert!(rt; replay.keys.as_slice().is_empty());
    Ok(())
}

// What became of the origins of the log with these records.
fn states_in(alloc: Global, records: &[&[u8]]) -> Result<Vec<(u64, OriginState)>, Fail> {
    let log = log_with(alloc, records)?;
    Ok(halves_of(alloc, &log)?)
}

#[test]
fn an_origin_is_what_settles_it(rt: HostRuntime) -> Result<(), Fail> {
    let alloc = rt.alloc();
    assert!(rt; states_in(alloc, &[HALF])?.as_slice() == [(0, OriginState::Open)].as_slice());
    assert!(rt;
        states_in(alloc, &[HALF, COPY, OP])?.as_slice() == [(0, OriginState::Committed)].as_slice()
    );

    // Cut between copy and op record.
    assert!(rt;
        states_in(alloc, &[HALF, COPY])?.as_slice() == [(0, OriginState::Committed)].as_slice()
    );
    assert!(rt;
        states_in(alloc, &[HALF, OP])?.as_slice() == [(0, OriginState::RolledBack)].as_slice()
    );

    // A check leaves it open, and the copy among the discarded ones settles it.
    assert!(rt;
        states_in(alloc, &[HALF, RENEWAL])?.as_slice() == [(0, OriginState::Open)].as_slice()
    );
    assert!(rt;
        states_in(alloc, &[HALF, RENEWAL, DISCARD])?.as_slice()
            == [(0, OriginState::Discarded)].as_slice()
    );
    Ok(())
}

#[test]
fn a_delivery_counts_for_its_level(rt: HostRuntime) -> Result<(), Fail> {
    let base = no_base(rt.alloc());
    let waiting = log_with(rt.alloc(), &[DELAYED])?;
    assert!(rt; delays_of(rt.alloc(), &waiting, &base)?[0] == 0);
    let delivered = log_with(rt.alloc(), &[DELAYED, DELIVERY])?;
    let delays = delays_of(rt.alloc(), &delivered, &base)?;
    assert!(rt; delays[0] == 1);
    assert!(rt; delays[1] == 0);
    Ok(())
}

#[test]
fn keys_of_one_hash_are_found_together(rt: HostRuntime) -> Result<(), Fail> {
    let alloc = rt.alloc();
    let log = log_with(alloc, &[FIRST, SECOND])?;
    assert!(rt; query_of(alloc, &log, "T", "Aa", 0, 9000, 32)?.as_slice() == [116, 0].as_slice());
    assert!(rt; query_of(alloc, &log, "T", "Aa", 0, 9000, 1)?.as_slice() == [116].as_slice());
    assert!(rt;
        query_reply(alloc, &log, "T", "Aa", 0, 9000, 32)?.as_slice() == [0, 116].as_slice()
    );
    assert!(rt; query_of(alloc, &log, "T", "C", 0, 9000, 32)?.is_empty());
    assert!(rt; query_of(alloc, &log, "T", "Aa", 0, 1999, 32)?.is_empty());
    match log.as_slice() {
        [first, ..] => assert!(rt; index_keys_of(alloc, first)?.as_slice() == [2538191].as_slice()),
        [] => return Err(Fail::from("no record")),
    }
    Ok(())
}

#[test]
fn a_family_is_an_origin_and_its_checks(rt: HostRuntime) -> Result<(), Fail> {
    let alloc = rt.alloc();
    let log = log_with(alloc, &[HALF, RENEWAL, DISCARD])?;
    assert!(rt; family_of(alloc, &log, 0)?.as_slice() == [0, 178].as_slice());
    assert!(rt; copies_of(alloc, &log, 0)? == 0);
    assert!(rt; bounds_of(&log, &no_base(alloc), "RMQ_SYS_TRANS_HALF_TOPIC", 0) == (0, 2));
    let item = item_at(&log, &no_base(alloc), "RMQ_SYS_TRANS_HALF_TOPIC", 0, 1);
    assert!(rt; matches!(item, Some(r) if r.place.offset == 178));
    Ok(())
}
