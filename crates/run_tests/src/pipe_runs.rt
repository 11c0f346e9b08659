//! Calls of `pipe` over devices in memory: sends, a pull of what was sent, and devices that fail.

use crate::devices::{Calls, Ended, Failing, NOTHING, serve, serve_as};
use crate::{FIRST_SENT, HOST, end_of, put_pull, put_send};
use std::alloc::{AllocError, Global};
use std::test::Fail;

/// How long the reply to a send that is served is.
const SENT_LEN: usize = 191;

/// How long the reply to a pull without records is, and a record with a body of two bytes.
const PULLED_LEN: usize = 197;

const RECORD_LEN: usize = 108;

/// How often the disk is called while an empty store is opened.
const OPENING: u64 = 6;

// Three sends of two bytes.
fn three_sends(alloc: Global) -> Result<Vec<u8>, AllocError> {
    let mut bytes = Vec::new(alloc);
    for _i in 0..3 {
        put_send(&mut bytes, 2)?;
    }
    Ok(bytes)
}

// Two sends of two bytes, and a pull.
fn two_sends_and_a_pull(alloc: Global) -> Result<Vec<u8>, AllocError> {
    let mut bytes = Vec::new(alloc);
    put_send(&mut bytes, 2)?;
    put_send(&mut bytes, 2)?;
    put_pull(&mut bytes)?;
    Ok(bytes)
}

#[test]
fn what_was_sent_is_pulled_by_the_same_call(rt: HostRuntime) -> Result<(), Fail> {
    let mut written = Vec::new(rt.alloc());
    let bytes = two_sends_and_a_pull(rt.alloc())?;
    let ended = serve(rt.alloc(), bytes, &NOTHING, &mut written)?;
    assert!(rt; (ended.code, ended.log) == (0, 2 * RECORD_LEN));
    assert!(rt; written.len() == 2 * SENT_LEN + PULLED_LEN + 2 * RECORD_LEN);
    Ok(())
}

#[test]
fn a_send_is_answered_with_what_a_client_of_serve_hears(rt: HostRuntime) -> Result<(), Fail> {
    let mut bytes = Vec::new(rt.alloc());
    put_send(&mut bytes, 2)?;
    let mut written = Vec::new(rt.alloc());
    let words = ["pipe", "--host", HOST];
    let ended = serve_as(rt.alloc(), &words, bytes, &NOTHING, &mut written)?;
    assert!(rt; (ended.code, ended.log) == (0, RECORD_LEN));
    assert!(rt; written.as_slice() == FIRST_SENT);
    Ok(())
}

#[test]
fn a_flush_that_fails_is_made_again_before_the_next_request(rt: HostRuntime) -> Result<(), Fail> {
    let mut written = Vec::new(rt.alloc());
    let bytes = two_sends_and_a_pull(rt.alloc())?;
    let failing = Failing {
        disk: (OPENING + 2, OPENING + 2),
        ..NOTHING
    };
    let ended = serve(rt.alloc(), bytes, &failing, &mut written)?;
    let first = end_of(&written, 0, b"\"remark\":\"flush 1\"");
    let second = end_of(&written, first, b"\"code\":0,");
    let both = end_of(&written, second, b"\"nextBeginOffset\":\"2\"");
    assert!(rt; (ended.code, ended.log) == (0, 2 * RECORD_LEN));
    assert!(rt; first > 0 && second > 0 && both > 0);
    Ok(())
}

#[test]
fn each_call_of_the_disk_that_fails_alone_ends_the_opening_or_is_told(
    rt: HostRuntime,
) -> Result<(), Fail> {
    for call in 1..OPENING + 8 {
        let mut written = Vec::new(rt.alloc());
        let bytes = three_sends(rt.alloc())?;
        let failing = Failing {
            disk: (call, call),
            ..NOTHING
        };
        let ended = serve(rt.alloc(), bytes, &failing, &mut written)?;
        let is_told = end_of(&written, 0, b"\"remark\":\"flush 1\"") > 0;
        if call <= OPENING {
            assert!(rt;
                (ended.code, written.len(), ended.log) == (5, 0, 0),
                "{call}"
            );
        } else {
            assert!(rt;
                (ended.code, is_told, ended.log) == (0, call <= OPENING + 6, 3 * RECORD_LEN),
                "{call}"
            );
        }
    }
    Ok(())
}

// The device of this name fails at these calls, and no other does.
fn failing(device: &str, calls: Calls) -> Failing {
    match device {
        "source" => Failing {
            source: calls,
            ..NOTHING
        },
        "sink" => Failing {
            sink: calls,
            ..NOTHING
        },
        "keep" => Failing {
            keep: calls,
            ..NOTHING
        },
        _ => Failing {
            clock: calls,
            ..NOTHING
        },
    }
}

#[test]
fn each_other_device_that_fails_ends_the_call_by_the_table(rt: HostRuntime) -> Result<(), Fail> {
    // Which device's calls fail, the status, the device that it names, how many bytes were written, and how many records stand.
    for (which, calls, code, device, len, records) in [
        ("source", (1, 1), 3, "", 0, 0),
        ("source", (2, 2), 3, "", 3 * SENT_LEN, 3),
        ("sink", (1, 1), 4, "", 0, 1),
        ("sink", (3, 3), 4, "", 2 * SENT_LEN, 3),
        ("keep", (1, 1), 10, "keep", 0, 0),
        ("keep", (2, 2), 10, "keep", 0, 0),
        ("clock", (1, 1), 10, "clock", 0, 0),
        ("clock", (3, 3), 10, "clock", 2 * SENT_LEN, 2),
    ] {
        let mut written = Vec::new(rt.alloc());
        let bytes = three_sends(rt.alloc())?;
        let ended = serve(rt.alloc(), bytes, &failing(which, calls), &mut written)?;
        let log = records * RECORD_LEN;
        assert!(rt; (ended, written.len()) == (Ended { code, device, log }, len));
    }
    Ok(())
}

#[test]
fn where_each_write_fails_each_send_is_told_the_count_and_the_last_flush_the_status(
    rt: HostRuntime,
) -> Result<(), Fail> {
    let mut written = Vec::new(rt.alloc());
    let bytes = three_sends(rt.alloc())?;
    let failing = Failing {
        disk: (OPENING + 1, OPENING + 100),
        ..NOTHING
    };
    let ended = serve(rt.alloc(), bytes, &failing, &mut written)?;
    // A turn behind each send, and one before each but the first.
    let first = end_of(&written, 0, b"\"remark\":\"flush 1\"");
    let second = end_of(&written, first, b"\"remark\":\"flush 3\"");
    let third = end_of(&written, second, b"\"remark\":\"flush 5\"");
    assert!(rt; first > 0 && second > 0 && third > 0);
    assert!(rt; (ended.code, ended.log) == (5, 0));
    Ok(())
}
