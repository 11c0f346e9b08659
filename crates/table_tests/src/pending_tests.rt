//! Records at the end of a segment of 4,096 bytes, and rows over several chunks.

ghost use Rattle.std.specs.Prelude.{◌≡◌, [], codes, IfOk};

use mq_bytes::Text;
use pending_log::{Pending, Row, Rows};
use record_codec::{Body, Draft, Place, Props, SEGMENT_MAX};
use std::alloc::{AllocError, Global};
use std::test::Fail;

// A message to the topic `T`, whose record has 106 bytes and the body's.
fn draft_of(alloc: Global, body: usize) -> Result<Draft, AllocError>
    ensures times { IfOk result (λ draft. (draft.born ≡ 1000) × (draft.prepared ≡ 0)) }
    ensures props { IfOk result (λ draft. draft.props ≡ []) }
{
    Ok(Draft {
        topic: Text::of(String::from_str(alloc, "T")?),
        queue: 0,
        flag: 0,
        sysflag: 0,
        born: 1000,
        born_host: *b"\x7F\x00\x00\x01\x00\x00\x00\x00",
        store_host: *b"\x7F\x00\x00\x01\x00\x00\x2A\x9F",
        reconsume: 0,
        prepared: 0,
        body: Body::of(vec![in alloc; b'x'; body]?),
        props: Props::new(alloc),
    })
}

// Appends a message with so long a body, and answers its place.
fn append(alloc: Global, pending: &mut Pending, body: usize) -> Result<u64, Fail> {
    let draft = draft_of(alloc, body)?;
    let Ok(size) = draft.check(SEGMENT_MAX) else {
        return Ok(1);
    };
    let place = Place {
        queue_offset: 0,
        offset: pending.next_place(size),
        store: 2000,
    };
    if place.offset >= 1 << 40 || pending.is_full(u64::from(size)) {
        return Ok(2);
    }
    pending.append(&draft, &place)?;
    Ok(place.offset)
}

#[test]
fn records_are_placed_to_the_byte(rt: HostRuntime) -> Result<(), Fail> {
    let alloc = rt.alloc();
    let mut pending = Pending::new(alloc, 4096, 0, 0);
    for (body, place, size) in [(3874, 0, 3980), (2, 3980, 4088), (2, 4096, 4196)] {
        let at = append(alloc, &mut pending, body)?;
        assert!(rt; (at, pending.size()) == (place, size), "a body of {body}");
    }
    Ok(())
}

#[test]
fn rows_keep_their_numbers_over_three_chunks_and_a_cut(rt: HostRuntime) -> Result<(), Fail> {
    let alloc = rt.alloc();
    let mut rows = Rows::new(alloc, 7);
    for index in 0..3000u64 {
        rows.reserve(alloc, 1)?;
        if rows.end() >= 1 << 40 {
            break;
        }
        rows.push(Row {
            place: 105 * index,
            size: 105,
            table: 0,
        });
    }
    for first in [7, 8, 1031, 2055, 3006] {
        if first < rows.first() || first >= rows.end() {
            break;
        }
        rows.cut(first);
        assert!(rt; (rows.first(), rows.end()) == (first, 3007));
        assert!(rt; rows.at(first).place == 105 * (first - 7));
    }
    assert!(rt; rows.first() == 3006);
    Ok(())
}
