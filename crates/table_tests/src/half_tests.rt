//! The worked rows on half messages, as records that were made apart, with the sums of zlib. Each was born at 1000 and stored
//! at 2000.

use half_view::{Check, HalfView, Head};
use log_model::OriginState;
use record_codec::test as test_record;
use std::alloc::Global;
use std::test::Fail;

/// A half message `hi` of the group `P` for the topic `T`.
const HALF: &[u8; 178] =
    b"\x00\x00\x00\xB2\xDA\xA3 \xA7X\x93*\xAC\x00\x00\x00\x00\x00\x00\x00\x00\x00\x00\x00\x00\x00\x00\x00\x00\x00\x00\x00\
\x00\x00\x00\x00\x00\x00\x00\x00\x00\x00\x00\x00\x00\x00\x00\x03\xE8\x7F\x00\x00\x01\x00\x00\x00\x00\x00\x00\x00\x00\
\x00\x00\x07\xD0\x7F\x00\x00\x01\x00\x00*\x9F\x00\x00\x00\x00\x00\x00\x00\x00\x00\x00\x00\x00\x00\x00\x00\x02hi\x18RMQ\
_SYS_TRANS_HALF_TOPIC\x00=TRAN_MSG\x01true\x02PGROUP\x01P\x02REAL_TOPIC\x01T\x02REAL_QID\x010\x02SEAL\x019A5ADD2D\x02";

/// Its copy in `T`, behind it.
const COPY: &[u8; 117] =
    b"\x00\x00\x00u\xDA\xA3 \xA7X\x93*\xAC\x00\x00\x00\x00\x00\x00\x00\x00\x00\x00\x00\x00\x00\x00\x00\x00\x00\x00\x00\x00\
\x00\x00\x00\xB2\x00\x00\x00\x08\x00\x00\x00\x00\x00\x00\x03\xE8\x7F\x00\x00\x01\x00\x00\x00\x00\x00\x00\x00\x00\x00\
\x00\x07\xD0\x7F\x00\x00\x01\x00\x00*\x9F\x00\x00\x00\x00\x00\x00\x00\x00\x00\x00\x00\x00\x00\x00\x00\x02hi\x01T\x00\
\x17PGROUP\x01P\x02SEAL\x010BB50A97\x02";

/// The op record that names it, behind the copy.
const OP: &[u8; 140] =
    b"\x00\x00\x00\x8C\xDA\xA3 \xA7t\xDB\xDF!\x00\x00\x00\x00\x00\x00\x00\x00\x00\x00\x00\x00\x00\x00\x00\x00\x00\x00\x00\
\x00\x00\x00\x01'\x00\x00\x00\x00\x00\x00\x00\x00\x00\x00\x03\xE8\x7F\x00\x00\x01\x00\x00\x00\x00\x00\x00\x00\x00\x00\
\x00\x07\xD0\x7F\x00\x00\x01\x00\x00*\x9F\x00\x00\x00\x00\x00\x00\x00\x00\x00\x00\x00\x00\x00\x00\x00\x010\x1BRMQ_SYS_\
TRANS_OP_HALF_TOPIC\x00\x15TAGS\x01d\x02SEAL\x016A362DE2\x02";

/// The half message again, behind it, as the first check of it.
const RENEWAL: &[u8; 233] =
    b"\x00\x00\x00\xE9\xDA\xA3 \xA7X\x93*\xAC\x00\x00\x00\x00\x00\x00\x00\x00\x00\x00\x00\x00\x00\x00\x00\x01\x00\x00\x00\
\x00\x00\x00\x00\xB2\x00\x00\x00\x00\x00\x00\x00\x00\x00\x00\x03\xE8\x7F\x00\x00\x01\x00\x00\x00\x00\x00\x00\x00\x00\
\x00\x00\x07\xD0\x7F\x00\x00\x01\x00\x00*\x9F\x00\x00\x00\x00\x00\x00\x00\x00\x00\x00\x00\x00\x00\x00\x00\x02hi\x18RMQ\
_SYS_TRANS_HALF_TOPIC\x00tTRAN_MSG\x01true\x02PGROUP\x01P\x02REAL_TOPIC\x01T\x02REAL_QID\x010\x02TRAN_PREPARED_QUEUE_O\
FFSET\x010\x02TRANSACTION_CHECK_TIMES\x011\x02SEAL\x0186E8B47D\x02";

/// The copy by which it was given up, behind the check.
const DISCARD: &[u8; 235] =
    b"\x00\x00\x00\xEB\xDA\xA3 \xA7X\x93*\xAC\x00\x00\x00\x00\x00\x00\x00\x00\x00\x00\x00\x00\x00\x00\x00\x00\x00\x00\x00\
\x00\x00\x00\x01\x9B\x00\x00\x00\x00\x00\x00\x00\x00\x00\x00\x03\xE8\x7F\x00\x00\x01\x00\x00\x00\x00\x00\x00\x00\x00\
\x00\x00\x07\xD0\x7F\x00\x00\x01\x00\x00*\x9F\x00\x00\x00\x00\x00\x00\x00\x00\x00\x00\x00\xB2\x00\x00\x00\x02hi\x1ATRA\
NS_CHECK_MAX_TIME_TOPIC\x00tTRAN_MSG\x01true\x02PGROUP\x01P\x02REAL_TOPIC\x01T\x02REAL_QID\x010\x02TRAN_PREPARED_QUEUE\
_OFFSET\x010\x02TRANSACTION_CHECK_TIMES\x011\x02SEAL\x01996638B4\x02";

// Adds the record that these bytes begin with.
fn add(view: &mut HalfView, alloc: Global, bytes: &[u8], number: u32) -> Result<(), Fail> {
    let Some(record) = test_record(bytes) else {
        return Err(Fail::from("no record"));
    };
    view.reserve(alloc)?;
    view.add(&record, u64::from(number));
    Ok(())
}

// Adds the same record, of which the body is not told.
fn add_head(view: &mut HalfView, alloc: Global, bytes: &[u8], number: u32) -> Result<(), Fail> {
    let Some(record) = test_record(bytes) else {
        return Err(Fail::from("no record"));
    };
    let head = Head::of(alloc, &record)?;
    if head.store >= 1 << 62 {
        return Err(Fail::from("no time"));
    }
    view.reserve(alloc)?;
    view.add_head(&head, u64::from(number));
    Ok(())
}

// A check of the origin 0.
fn check(checks: u32, given_up: Option<u64>) -> Option<Check> {
    Some(Check {
        origin: 0,
        checks,
        given_up,
    })
}

#[test]
fn a_copy_settles_its_half_and_the_op_record_settles_it_again(rt: HostRuntime) -> Result<(), Fail> {
    let alloc = rt.alloc();
    let mut view = HalfView::new(alloc);
    add(&mut view, alloc, HALF, 0)?;
    assert!(rt; view.origin_of(0, 0) == Some(0));
    assert!(rt; view.origin_of(0, 178) == None);
    assert!(rt; view.state_of(0) == Some(OriginState::Open));
    assert!(rt; view.due(7_999) == None);
    assert!(rt; view.due(8_000) == check(0, None));
    add(&mut view, alloc, COPY, 1)?;
    assert!(rt; view.state_of(0) == Some(OriginState::Committed));
    assert!(rt; view.settled_by(0) == Some(1));
    assert!(rt; view.due(8_000) == None);
    add(&mut view, alloc, OP, 2)?;
    assert!(rt; view.state_of(0) == Some(OriginState::Committed));
    assert!(rt; view.settled_by(0) == Some(2));
    Ok(())
}

#[test]
fn a_renewal_puts_the_check_off_and_its_discarded_copy_settles_the_origin(
    rt: HostRuntime,
) -> Result<(), Fail> {
    let alloc = rt.alloc();
    let mut view = HalfView::new(alloc);
    add(&mut view, alloc, HALF, 0)?;
    add(&mut view, alloc, RENEWAL, 1)?;
    assert!(rt; view.origin_of(1, 178) == Some(0));
    assert!(rt; view.named_at(178) == Some(0));
    assert!(rt; view.state_of(1) == None);
    assert!(rt; view.due(61_999) == None);
    assert!(rt; view.due(62_000) == check(1, None));
    add(&mut view, alloc, DISCARD, 2)?;
    assert!(rt; view.state_of(0) == Some(OriginState::Discarded));
    assert!(rt; view.due(62_000) == None);
    Ok(())
}

#[test]
fn heads_answer_as_their_records(rt: HostRuntime) -> Result<(), Fail> {
    let alloc = rt.alloc();
    let mut view = HalfView::new(alloc);
    add_head(&mut view, alloc, HALF, 0)?;
    assert!(rt; view.origin_of(0, 0) == Some(0));
    assert!(rt; view.due(8_000) == check(0, None));
    add_head(&mut view, alloc, COPY, 1)?;
    assert!(rt; view.state_of(0) == Some(OriginState::Committed));
    assert!(rt; view.due(8_000) == None);
    add_head(&mut view, alloc, OP, 2)?;
    assert!(rt; view.state_of(0) == Some(OriginState::Committed));
    assert!(rt; view.settled_by(0) == Some(2));
    Ok(())
}

#[test]
fn after_fifteen_renewals_an_origin_is_given_up(rt: HostRuntime) -> Result<(), Fail> {
    let alloc = rt.alloc();
    let mut view = HalfView::new(alloc);
    view.reserve(alloc)?;
    view.add_half(None, 0, 1_000);
    for asked in 0..15u64 {
        assert!(rt; view.due(6_999 + 60_000 * asked) == None);
        view.reserve(alloc)?;
        view.add_half(Some(0), 178 + 233 * asked, 7_000 + 60_000 * asked);
    }
    assert!(rt; view.due(906_999) == None);
    assert!(rt; view.due(907_000) == check(15, Some(15)));
    view.settle(Some(0), OriginState::RolledBack, 16);
    assert!(rt; view.state_of(0) == Some(OriginState::RolledBack));
    Ok(())
}

#[test]
fn half_messages_below_a_place_are_cut_off(rt: HostRuntime) -> Result<(), Fail> {
    let alloc = rt.alloc();
    let mut view = HalfView::new(alloc);
    view.start(5);
    for at in [4_096, 4_274] {
        view.reserve(alloc)?;
        view.add_half(None, at, 1_000);
    }
    view.cut(4_274);
    assert!(rt; view.origin_of(5, 4_096) == None);
    assert!(rt; view.origin_of(6, 4_274) == Some(6));
    assert!(rt; view.half(6).map(|row| row.place) == Some(4_274));
    let due = view.due(7_000).map(|check| check.origin);
    assert!(rt; due == Some(6));
    Ok(())
}
