//! The documented reply, and bodies that are read or can't be.

ghost use Rattle.std.specs.Prelude.{◌≡◌, ◌+◌, ◌<◌, ◌≤◌, ◌^◌, IfOk};
ghost use Rattle.reply_fields.specs.Slices.{slice_len, body_len};

use mq_bytes::{LogFile, Rows, Text};
use mq_outside::{Disk, DiskFault, Frozen, MemDisk, MemReader, Room};
use remoting_frame::{Fields, Form};
use reply_fields::{Ext, Reply, Sent, Slice, StoredRange};
use std::alloc::{AllocError, Global};
use std::test::Fail;

// The reply to GET_MAX_OFFSET where the greatest offset is 1, in binary form.
const MAX_OFFSET: [u8; 42] = [
    0, 0, 0, 0x26, 1, 0, 0, 0x22, 0, 0, 7, 0, 0, 0, 0, 0, 5, 0, 0, 0, 1, 0, 0, 0, 0, 0, 0, 0, 0x0D,
    0, 6, 0x6F, 0x66, 0x66, 0x73, 0x65, 0x74, 0, 0, 0, 1, 0x31,
];

// The reply to a SEND whose record is the first of its log and of queue 0, in JSON form.
const SEND_REPLY: &[u8] =
    b"\0\0\0\xBB\0\0\0\xB7{\"code\":0,\"extFields\":{\"msgId\":\"7F00000100002A9F0000000000000000\",\"queueId\":\"0\",\"queueOffset\":\"0\"},\
\"flag\":1,\"language\":\"OTHER\",\"opaque\":7,\"serializeTypeCurrentRPC\":\"JSON\",\"version\":0}";

// The offset 1, as a reply tells it.
#[tactic(auto, using(reply_fields::proofs::ReplyLemmas::one_in_order))]
fn max_offset(alloc: Global) -> Result<Reply, AllocError> {
    let mut ext = Fields::new(alloc);
    ext.push("offset", "1")?;
    Ok(Reply {
        code: 0,
        remark: Text::of(String::new(alloc)),
        ext: Ext::of(ext),
        body: Rows::of(Vec::new(alloc)),
    })
}

// Ten digits in a log file of this disk.
fn piece_of_digits<D: Disk>(alloc: Global, disk: &mut D) -> Result<Frozen, Fail>
    ensures { IfOk result (λ piece. piece.len ≡ 10) }
{
    let file = LogFile::of(0);
    disk.write_at(file.as_str(), 0, b"0123456789")?;
    disk.renew(file.as_str())?;
    let piece = disk.freeze_stored(alloc, 0, 0, 10)?;
    Ok(piece)
}

// A range of them.
fn digits(alloc: Global, at: u64, len: u32) -> Result<Slice, Fail>
    requires { at + len ≤ 10 }
    ensures { IfOk result (λ slice. slice_len slice ≡ len) }
{
    let room = Room {
        bytes: 80,
        files: 1,
        calls: 2,
    };
    let mut disk = MemDisk::new(alloc, Vec::new(alloc), room, Vec::new(alloc))?;
    let piece = piece_of_digits(alloc, &mut disk)?;
    Ok(Slice::Kept(StoredRange { piece, at, len }))
}

#[tactic(auto, using(reply_fields::proofs::ReplyLemmas::none_in_order))]
fn reply_of(alloc: Global, slices: Vec<Slice>) -> Reply
    requires { body_len slices.items < 2 ^ 30 }
{
    Reply {
        code: 0,
        remark: Text::of(String::new(alloc)),
        ext: Ext::none(alloc),
        body: Rows::of(slices),
    }
}

#[test]
fn the_documented_reply_is_written(rt: HostRuntime) -> Result<(), Fail> {
    let mut reader = MemReader::new(Vec::new(rt.alloc()))?;
    let mut out = Vec::new(rt.alloc());
    let reply = max_offset(rt.alloc())?;
    let done = reply.write(rt.alloc(), Form::Binary, 5, &mut reader, &mut out);
    assert!(rt; done.is_ok());
    assert!(rt; out.as_slice() == MAX_OFFSET.as_slice());
    Ok(())
}

#[test]
fn the_reply_to_a_send_is_made_when_it_is_written(rt: HostRuntime) -> Result<(), Fail> {
    let mut reader = MemReader::new(Vec::new(rt.alloc()))?;
    let mut out = Vec::new(rt.alloc());
    let sent = Sent {
        host: [127, 0, 0, 1, 0, 0, 0x2A, 0x9F],
        place: 0,
        queue: 0,
        queue_offset: 0,
    };
    let reply = Reply::sent(rt.alloc(), sent);
    assert!(rt; reply.ext.fits(200));
    let done = reply.write(rt.alloc(), Form::Json, 7, &mut reader, &mut out);
    assert!(rt; done.is_ok());
    assert!(rt; out.as_slice() == SEND_REPLY);
    Ok(())
}

#[test]
fn ranges_that_adjoin_are_read_by_one_call(rt: HostRuntime) -> Result<(), Fail> {
    let mut reader = MemReader::new(Vec::new(rt.alloc()))?;
    let mut out = Vec::new(rt.alloc());
    let first = digits(rt.alloc(), 2, 3)?;
    let second = digits(rt.alloc(), 5, 2)?;
    let reply = reply_of(rt.alloc(), vec![in rt.alloc(); first, second]?);
    let done = reply.write(rt.alloc(), Form::Binary, 5, &mut reader, &mut out);
    assert!(rt; done.is_ok());
    assert!(rt; out.as_slice().ends_with(b"23456"));
    assert!(rt; reader.read_count() == 1);
    Ok(())
}

#[test]
fn a_read_that_fails_leaves_nothing_behind(rt: HostRuntime) -> Result<(), Fail> {
    let mut reader = MemReader::new(vec![in rt.alloc(); 2]?)?;
    let mut out = Vec::from_slice(rt.alloc(), b"before")?;
    let first = digits(rt.alloc(), 0, 2)?;
    let second = digits(rt.alloc(), 5, 3)?;
    let reply = reply_of(rt.alloc(), vec![in rt.alloc(); first, second]?);
    let done = reply.write(rt.alloc(), Form::Json, 5, &mut reader, &mut out);
    assert!(rt; done == Err(DiskFault::Failed));
    assert!(rt; out.as_slice() == b"before".as_slice());
    assert!(rt; reader.read_count() == 2);
    Ok(())
}
