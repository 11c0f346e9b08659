//! Queries of a table as the broker keeps it, beside answers that were worked out by hand.

use key_view::{KeyView, RecordKeys, key_hash};
use mq_bytes::Text;
use record_codec::{Body, Draft, Props, test as test_record};
use std::alloc::Global;
use std::test::Fail;

/// A record of the topic `T` with a `UNIQ_KEY` and with `KEYS` between which more than one space stands. It was made apart,
/// with the sum of zlib.
const KEYED: &[u8; 149] =
    b"\x00\x00\x00\x95\xDA\xA3 \xA7X\x93*\xAC\x00\x00\x00\x00\x00\x00\x00\x00\x00\x00\x00\x00\x00\x00\x00\x00\x00\x00\x00\
\x00\x00\x00\x00\x00\x00\x00\x00\x00\x00\x00\x00\x00\x00\x00\x03\xE8\x7F\x00\x00\x01\x00\x00\x00\x00\x00\x00\x00\x00\
\x00\x00\x07\xD0\x7F\x00\x00\x01\x00\x00*\x9F\x00\x00\x00\x00\x00\x00\x00\x00\x00\x00\x00\x00\x00\x00\x00\x02hi\x01T\
\x007KEYS\x01 Aa  BB \xC3\xA9\xF0\x9F\x98\x80\x02UNIQ_KEY\x010A00\x02TAGS\x01x\x02SEAL\x0165CFF6F6\x02";

/// The places that a query gives.
fn query(
    view: &KeyView,
    alloc: Global,
    from: i64,
    to: i64,
    most: i32,
    end: u64,
) -> Result<Vec<u64>, Fail> {
    Ok(view.query(alloc, 7, from, to, most, end)?)
}

#[test]
fn a_query_gives_the_newest_records_before_its_end_each_once(rt: HostRuntime) -> Result<(), Fail> {
    let alloc = rt.alloc();
    let mut view = KeyView::new(alloc);
    for (hash, place, store) in [
        (7, 0, 10),
        (9, 0, 10),
        (7, 116, 20),
        (1031, 116, 20),
        (7, 116, 20),
        (1031, 232, 30),
        (7, 348, 40),
    ] {
        view.reserve(alloc, 1)?;
        view.add(hash, place, store);
    }
    assert!(rt; view.len() == 7);
    for (from, to, most, end, places) in [
        (0, 99, 32, 464, &[348, 116, 0][..]),
        (0, 99, 32, 348, &[116, 0][..]),
        (0, 99, 2, 464, &[348, 116][..]),
        (0, 99, -5, 464, &[348][..]),
        (20, 39, 32, 464, &[116][..]),
        (21, 39, 32, 464, &[][..]),
        (-9, 10, 0, 464, &[0][..]),
        (50, 20, 32, 464, &[][..]),
    ] {
        let found = query(&view, alloc, from, to, most, end)?;
        assert!(rt;
            found.as_slice() == places,
            "{from} to {to}, {most}, before {end}"
        );
    }
    Ok(())
}

#[test]
fn a_key_is_found_where_the_slots_were_doubled(rt: HostRuntime) -> Result<(), Fail> {
    let alloc = rt.alloc();
    let mut view = KeyView::new(alloc);
    for number in 0..1_100_000u32 {
        view.reserve(alloc, 1)?;
        view.add(number % 1_000_000, u64::from(number), 1);
    }
    for (hash, places) in [
        (999, &[1_000_999, 999][..]),
        (99_999, &[1_099_999, 99_999][..]),
        (100_000, &[100_000][..]),
        (263_143, &[263_143][..]),
        (999_999, &[999_999][..]),
        (1_000_000, &[][..]),
    ] {
        let found = view.query(alloc, hash, 0, 9, 64, 1_100_000)?;
        assert!(rt; found.as_slice() == places, "{hash}");
    }
    Ok(())
}

#[test]
fn keys_below_a_place_are_cut_off(rt: HostRuntime) -> Result<(), Fail> {
    let alloc = rt.alloc();
    let mut view = KeyView::new(alloc);
    view.reserve(alloc, 2)?;
    view.add(7, 0, 10);
    view.add(7, 116, 20);
    view.cut(116);
    let left = query(&view, alloc, 0, 99, 32, 232)?;
    assert!(rt; left.as_slice() == &[116][..]);
    Ok(())
}

#[test]
fn a_record_has_its_unique_key_and_each_word_of_its_keys(rt: HostRuntime) -> Result<(), Fail> {
    let Some(record) = test_record(KEYED) else {
        return Err(Fail::from("no record"));
    };
    let mut keys = RecordKeys::of_view(&record);
    assert!(rt; keys.count() == 4);
    for hash in [1_856_301_408, 2_538_191, 2_538_191, 80_615_261] {
        assert!(rt; keys.next() == Some(hash), "{hash}");
    }
    assert!(rt; keys.next().is_none());
    assert!(rt; key_hash("T", "BB") == 2_538_191);
    Ok(())
}

/// A message of the topic `T` with as many keys, the numbers from 0 on.
fn draft_with_keys(alloc: Global, count: u32) -> Result<Draft, Fail> {
    let mut words = String::new(alloc);
    for number in 0..count {
        words.push_str(format!(in alloc; "{number} ")?.as_str())?;
    }
    let text = format!(in alloc; "KEYS\x01{words}\x02")?;
    Ok(Draft {
        topic: Text::of(String::from_str(alloc, "T")?),
        queue: 0,
        flag: 0,
        sysflag: 0,
        born: 1000,
        born_host: [127, 0, 0, 1, 0, 0, 0, 0],
        store_host: [127, 0, 0, 1, 0, 0, 42, 159],
        reconsume: 0,
        prepared: 0,
        body: Body::of(Vec::new(alloc)),
        props: Props::read(alloc, text.as_str())?,
    })
}

#[test]
fn more_keys_than_a_chunk_are_added_for_one_record(rt: HostRuntime) -> Result<(), Fail> {
    let alloc = rt.alloc();
    let mut view = KeyView::new(alloc);
    let many = draft_with_keys(alloc, 3_000)?;
    let one = draft_with_keys(alloc, 1)?;
    for place in 0..5_u64 {
        let draft = if place == 1 { &many } else { &one };
        view.reserve(alloc, RecordKeys::of_draft(draft).count())?;
        view.add_all(RecordKeys::of_draft(draft), place, 7);
    }
    assert!(rt; view.len() == 3_004);
    for (key, places) in [
        ("0", &[4, 3, 2, 1, 0][..]),
        ("1499", &[1][..]),
        ("2999", &[1][..]),
        ("3000", &[][..]),
    ] {
        let found = view.query(alloc, key_hash("T", key), 0, 9, 64, 5)?;
        assert!(rt; found.as_slice() == places, "{key}");
    }
    Ok(())
}
