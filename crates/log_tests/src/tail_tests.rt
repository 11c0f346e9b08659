//! The tail of a small log, whose record bytes were made independently, with the sums of zlib.

use crate::worked::PLAIN;
use log_recovery::LogTail;
use record_codec::Place;
use std::test::Fail;

/// The same message at place 108, with the queue offset 1.
fn second_record() -> [u8; 108] {
    let mut bytes = *PLAIN;
    bytes[27] = 1;
    bytes[35] = 108;
    bytes[99..107].copy_from_slice(b"26B1EB9E");
    bytes
}

#[test]
fn a_record_follows_once_the_one_before_it_is_taken(rt: HostRuntime) -> Result<(), Fail> {
    let mut tail = LogTail::new(rt.alloc(), 4096);
    let bytes = second_record();
    let (Some(first), Some(second)) = (record_codec::test(PLAIN), record_codec::test(&bytes)) else {
        return Err(Fail::from("no records"));
    };
    assert!(rt; tail.is_next(&first) && !tail.is_next(&second));
    tail.add(&first)?;
    assert!(rt; tail.is_next(&second) && !tail.is_next(&first));
    tail.add(&second)?;
    assert!(rt; (tail.end(), tail.records(), tail.segment()) == (216, 2, 4096));
    Ok(())
}

#[test]
fn a_place_is_behind_the_records_that_were_taken(rt: HostRuntime) -> Result<(), Fail> {
    let alloc = rt.alloc();
    let mut tail = LogTail::new(alloc, 8192).in_segments(4096);
    let first = Place {
        queue_offset: 0,
        offset: 0,
        store: 2000,
    };
    tail.advance(alloc, "T", 0, &first, 3178)?;
    for (size, offset) in [(910, 3178), (911, 4096)] {
        let Some(next) = tail.place("T", 0, size, 1500) else {
            return Err(Fail::from("no place"));
        };
        assert!(rt; (next.queue_offset, next.offset, next.store) == (1, offset, 2000));
    }
    Ok(())
}
