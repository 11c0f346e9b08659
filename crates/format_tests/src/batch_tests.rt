//! Batches that were spelled by hand, and bodies that are none.

use batch_records::{BatchFault, split_batch};
use mq_bytes::write_decimal;
use std::alloc::{AllocError, Global};
use std::test::Fail;

// Two messages as Java's clients write them: bodies `a` and `bc`, no flag and no properties.
const TWO: &[u8] =
    b"\0\0\0\x17\0\0\0\0\0\0\0\0\0\0\0\0\0\0\0\x01a\0\0\0\0\0\x18\0\0\0\0\0\0\0\0\0\0\0\0\0\0\0\x02bc\0\0";

// A message with words in front of its flag -2, no body, and the properties `KEYS` and `WAIT`.
const WITH_PROPS: &[u8] =
    b"\0\0\0\x28\xAA\xBB\xCC\xDD\x01\x02\x03\x04\xFF\xFF\xFF\xFE\0\0\0\0\0\x12KEYS\x01k\x02WAIT\x01false\x02";

// The flag, the body and the properties of each message, each behind a bar; `bad` where the body is no batch.
fn said(alloc: Global, body: &[u8]) -> Result<Vec<u8>, AllocError> {
    let mut text = Vec::new(alloc);
    let messages = match split_batch(alloc, Vec::from_slice(alloc, body)?) {
        Ok(messages) => messages,
        Err(BatchFault::Bad) => return Vec::from_slice(alloc, b"bad"),
        Err(BatchFault::Memory) => return Err(AllocError),
    };
    for message in messages.as_slice() {
        text.push(b'|')?;
        write_decimal(i64::from(message.flag), &mut text)?;
        text.push(b'|')?;
        text.extend_from_slice(message.body.as_slice())?;
        text.push(b'|')?;
        text.extend_from_slice(message.props.as_str().as_bytes())?;
    }
    Ok(text)
}

fn joined(alloc: Global, front: &[u8], back: &[u8]) -> Result<Vec<u8>, AllocError> {
    let mut both = Vec::from_slice(alloc, front)?;
    both.extend_from_slice(back)?;
    Ok(both)
}

#[test]
fn batches_are_split_into_their_messages(rt: HostRuntime) -> Result<(), Fail> {
    let alloc = rt.alloc();
    let three = joined(alloc, WITH_PROPS, TWO)?;
    let rows: [(&[u8], &[u8]); 4] = [
        (b"", b""),
        (TWO, b"|0|a||0|bc|"),
        (WITH_PROPS, b"|-2||KEYS\x01k\x02WAIT\x01false\x02"),
        (&three, b"|-2||KEYS\x01k\x02WAIT\x01false\x02|0|a||0|bc|"),
    ];
    for (body, says) in rows {
        assert!(rt; said(alloc, body)?.as_slice() == says, "at {body:?}");
    }
    Ok(())
}

#[test]
fn a_batch_that_is_cut_anywhere_but_between_messages_is_refused(
    rt: HostRuntime,
) -> Result<(), Fail> {
    for cut in 0..=TWO.len() {
        let says: &[u8] = match cut {
            0 => b"",
            23 => b"|0|a|",
            47 => b"|0|a||0|bc|",
            _ => b"bad",
        };
        assert!(rt;
            said(rt.alloc(), &TWO[..cut])?.as_slice() == says,
            "at {cut}"
        );
    }
    Ok(())
}

#[test]
fn bodies_that_are_no_batch_are_refused(rt: HostRuntime) -> Result<(), Fail> {
    let rows: [&[u8]; 9] = [
        b"hello",
        // A size of 0, of less and of more than the message has.
        b"\0\0\0\0\0\0\0\0\0\0\0\0\0\0\0\0\0\0\0\0\0\0",
        b"\0\0\0\x16\0\0\0\0\0\0\0\0\0\0\0\0\0\0\0\x01a\0\0",
        b"\0\0\0\x18\0\0\0\0\0\0\0\0\0\0\0\0\0\0\0\x01a\0\0",
        b"\0\0\0\x18\0\0\0\0\0\0\0\0\0\0\0\0\0\0\0\x01a\0\0x",
        // A body past the message, and one of 2^32 - 1 bytes.
        b"\0\0\0\x17\0\0\0\0\0\0\0\0\0\0\0\0\0\0\0\x02a\0\0",
        b"\0\0\0\x17\0\0\0\0\0\0\0\0\0\0\0\0\xFF\xFF\xFF\xFFa\0\0",
        // Properties past the message, and others that are no UTF-8.
        b"\0\0\0\x17\0\0\0\0\0\0\0\0\0\0\0\0\0\0\0\0\0\x02x",
        b"\0\0\0\x17\0\0\0\0\0\0\0\0\0\0\0\0\0\0\0\0\0\x01\xFF",
    ];
    for body in rows {
        assert!(rt;
            said(rt.alloc(), body)?.as_slice() == b"bad".as_slice(),
            "at {body:?}"
        );
    }
    Ok(())
}

// No clause says that no message is looked at twice and no body copied: otherwise this takes minutes.
#[test]
fn a_body_of_many_messages_is_split_in_time(rt: HostRuntime) -> Result<(), Fail> {
    let alloc = rt.alloc();
    let mut body = Vec::new(alloc);
    for _ in 0..100000u32 {
        body.extend_from_slice(b"\0\0\0\x16\0\0\0\0\0\0\0\0\0\0\0\0\0\0\0\0\0\0")?;
    }
    let Ok(messages) = split_batch(alloc, body) else {
        return Err(Fail::from("messages"));
    };
    assert!(rt; messages.as_slice().len() == 100000);
    Ok(())
}
