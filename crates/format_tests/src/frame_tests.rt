//! Outside vectors, worked examples, and what no clause says.

ghost use Rattle.std.specs.Prelude.{◌≤◌, length, IfOk};
ghost use Rattle.remoting_frame.specs.Head.{IsShort};
ghost use Rattle.remoting_frame.specs.BinaryText.{Has16Bits, FitsLengths};

use mq_bytes::Text;
use remoting_frame::{Cutter, Fields, Form, Frame, FrameFault, Header, HeaderFault};
use std::alloc::{AllocError, Global};
use std::test::Fail;

// A SEND of the body "hi" by a Java client, as a frame in JSON form.
const SEND: &[u8] =
    b"\0\0\x01\x06\0\0\x01\0{\"code\":10,\"extFields\":{\"bornTimestamp\":\"1000\",\"defaultTopic\":\"TBW102\",\
\"defaultTopicQueueNums\":\"4\",\"flag\":\"0\",\"producerGroup\":\"P\",\"queueId\":\"0\",\"sysFlag\":\"0\",\"topic\":\"T\"},\"flag\":0,\
\"language\":\"JAVA\",\"opaque\":7,\"serializeTypeCurrentRPC\":\"JSON\",\"version\":395}hi";

// What its header says, and its body.
const SEND_SAYS: &[u8] =
    b"{\"code\":10,\"extFields\":{\"bornTimestamp\":\"1000\",\"defaultTopic\":\"TBW102\",\"defaultTopicQueueNums\":\"4\",\"flag\":\"0\",\
\"producerGroup\":\"P\",\"queueId\":\"0\",\"sysFlag\":\"0\",\"topic\":\"T\"},\"flag\":0,\"language\":\"OTHER\",\"opaque\":7,\
\"serializeTypeCurrentRPC\":\"JSON\",\"version\":395}hi";

// A SEND of the same body by a C++ client: numbers and truth values among its fields, and a line end behind its object.
const CPP_SEND: &[u8] =
    b"\x00\x00\x00\xD5\x00\x00\x00\xCF{\"code\":310,\"extFields\":{\"a\":\"P\",\"b\":\"T\",\"c\":\"TBW102\",\"d\":4,\
\"e\":0,\"f\":0,\"g\":\"1000\",\"h\":-1,\"k\":false,\"m\":true},\"flag\":0,\
\"language\":\"CPP\",\"opaque\":7,\"remark\":\"\",\"serializeTypeCurrentRPC\":\"JSON\",\"version\":431}\nhi";

// What its header says, and its body.
const CPP_SEND_SAYS: &[u8] =
    b"{\"code\":310,\"extFields\":{\"a\":\"P\",\"b\":\"T\",\"c\":\"TBW102\",\"d\":\"4\",\"e\":\"0\",\
\"f\":\"0\",\"g\":\"1000\",\"h\":\"-1\",\"k\":\"false\",\"m\":\"true\"},\"flag\":0,\"language\":\"OTHER\",\"opaque\":7,\
\"serializeTypeCurrentRPC\":\"JSON\",\"version\":431}hi";

// The header of its reply.
const REPLY: &[u8] =
    b"{\"code\":0,\"extFields\":{\"msgId\":\"7F00000100002A9F0000000000000000\",\"queueId\":\"0\",\"queueOffset\":\"0\"},\"flag\":1,\
\"language\":\"OTHER\",\"opaque\":7,\"serializeTypeCurrentRPC\":\"JSON\",\"version\":0}";

// A GET_MAX_OFFSET of queue 0 of topic `T`, as a frame in binary form.
const ASKING: &[u8] =
    b"\x00\x00\x00\x33\x01\x00\x00\x2F\x00\x1E\x00\x01\x8B\x00\x00\x00\x05\x00\x00\x00\x00\x00\x00\x00\x00\x00\x00\x00\x1A\x00\x05topic\
\x00\x00\x00\x01T\x00\x07queueId\x00\x00\x00\x010";

// What its header says; it has no body.
const ASKING_SAYS: &[u8] =
    b"{\"code\":30,\"extFields\":{\"queueId\":\"0\",\"topic\":\"T\"},\"flag\":0,\"language\":\"OTHER\",\"opaque\":5,\
\"serializeTypeCurrentRPC\":\"JSON\",\"version\":395}";

// Its reply's header, in binary form.
const ASKING_REPLY: &[u8] =
    b"\x00\x00\x07\x00\x00\x00\x00\x00\x05\x00\x00\x00\x01\x00\x00\x00\x00\x00\x00\x00\x0D\x00\x06offset\x00\x00\x00\x011";

// What a header says, as JSON text; empty where the bytes are no header.
fn said(alloc: Global, form: Form, bytes: &[u8]) -> Result<Vec<u8>, AllocError> {
    let mut text = Vec::new(alloc);
    match Header::read(alloc, form, bytes) {
        Ok(header) => header.write(alloc, Form::Json, &mut text)?,
        Err(HeaderFault::Bad) => {}
        Err(HeaderFault::Memory) => return Err(AllocError),
    }
    Ok(text)
}

#[test]
fn json_headers_say_what_their_texts_do_and_others_are_refused(
    rt: HostRuntime,
) -> Result<(), Fail> {
    let rows: [(&[u8], &[u8]); 9] = [
        (REPLY, REPLY),
        (
            b"{\"code\":null,\"opaque\":7,\"code\":-2147483648}",
            b"{\"code\":-2147483648,\"extFields\":{},\"flag\":0,\"language\":\"OTHER\",\"opaque\":7,\
\"serializeTypeCurrentRPC\":\"JSON\",\"version\":0}",
        ),
        (b"{\"code\":1.0,\"opaque\":7}", b""),
        (b"{\"code\":-0,\"opaque\":7}", b""),
        (b"{\"code\":2147483648,\"opaque\":7}", b""),
        (b"{\"code\":null,\"opaque\":7}", b""),
        (b"{\"code\":1,\"opaque\":7,\"x\":\"\xff\"}", b""),
        (b"[1]", b""),
        (b"", b""),
    ];
    for (text, says) in rows {
        assert!(rt;
            said(rt.alloc(), Form::Json, text)?.as_slice() == says,
            "at {text:?}"
        );
    }
    Ok(())
}

fn joined(alloc: Global, front: &[u8], middle: &[u8], end: &[u8]) -> Result<Vec<u8>, AllocError> {
    let mut text = Vec::from_slice(alloc, front)?;
    text.extend_from_slice(middle)?;
    text.extend_from_slice(end)?;
    Ok(text)
}

// Whether a header with these members has these fields, as JSON text; empty where it is refused.
fn has_fields(alloc: Global, members: &[u8], ext: &[u8]) -> Result<bool, AllocError> {
    let text = joined(alloc, b"{\"opaque\":7,", members, b"}")?;
    let read = said(alloc, Form::Json, text.as_slice())?;
    if ext.is_empty() {
        return Ok(read.is_empty());
    }
    let says = joined(
        alloc,
        b"{\"code\":2,\"extFields\":",
        ext,
        b",\"flag\":0,\"language\":\"OTHER\",\"opaque\":7,\"serializeTypeCurrentRPC\":\"JSON\",\"version\":0}",
    )?;
    Ok(read.as_slice() == says.as_slice())
}

#[test]
fn json_headers_that_are_not_plain_are_read_by_the_same_rules(rt: HostRuntime) -> Result<(), Fail> {
    let rows: [(&[u8], &[u8]); 12] = [
        (b"\"code\":1,\"code\":2", b"{}"),
        (b"\"c\\u006fde\":2", b"{}"),
        (b"\"code\":2,\"x\":[{\"code\":1}],\"y\":1e300", b"{}"),
        (
            b"\"code\":2,\"extFields\":{\"b\":\"1\",\"a\":\"2\",\"b\":\"\\u00333\"}",
            b"{\"a\":\"2\",\"b\":\"33\"}",
        ),
        (
            b"\"code\":2,\"extFields\":{\"b\":\"1\",\"a\":\"2\",\"b\":null}",
            b"{\"a\":\"2\"}",
        ),
        (
            b"\"extFields\":{\"a\":\"1\"},\"code\":2,\"extFields\":{\"b\":\"2\"}",
            b"{\"b\":\"2\"}",
        ),
        (
            b"\"extFields\":{\"a\":\"1\"},\"code\":2,\"extFields\":null",
            b"{}",
        ),
        (b"\"code\":2,\"x\":\"\\ud800\"", b""),
        (b"\"code\":2,\"x\":1e400", b""),
        (b"\"code\":2,\"extFields\":{\"a\":1}", b"{\"a\":\"1\"}"),
        (b"\"code\":2,\"remark\":7", b""),
        (b"\"code\":2,\"x\":1}{", b""),
    ];
    for (members, ext) in rows {
        assert!(rt; has_fields(rt.alloc(), members, ext)?, "at {members:?}");
    }
    Ok(())
}

#[test]
fn whole_numbers_and_truth_values_among_the_fields_stand_for_their_texts(
    rt: HostRuntime,
) -> Result<(), Fail> {
    let rows: [(&[u8], &[u8]); 12] = [
        (b"0", b"{\"a\":\"0\"}"),
        (
            b"-9223372036854775808,\"b\":\"1\"",
            b"{\"a\":\"-9223372036854775808\",\"b\":\"1\"}",
        ),
        (
            b"9223372036854775807,\"b\":null",
            b"{\"a\":\"9223372036854775807\"}",
        ),
        (b"true,\"b\":false", b"{\"a\":\"true\",\"b\":\"false\"}"),
        (b"1.0,\"a\":1", b"{\"a\":\"1\"}"),
        (b"-0", b""),
        (b"1.0", b""),
        (b"1e2", b""),
        (b"9223372036854775808", b""),
        (b"-9223372036854775809", b""),
        (b"[1]", b""),
        (b"{\"b\":1}", b""),
    ];
    for (value, ext) in rows {
        let members = joined(rt.alloc(), b"\"code\":2,\"extFields\":{\"a\":", value, b"}")?;
        assert!(rt; has_fields(rt.alloc(), &members, ext)?, "at {value:?}");
    }
    Ok(())
}

#[test]
fn binary_pairs_are_read_whole_or_refused(rt: HostRuntime) -> Result<(), Fail> {
    let rows: [(&[u8], &[u8]); 7] = [
        (
            b"\0\0\0\x10\0\x01a\0\0\0\x011\0\x01a\0\0\0\x012",
            b"{\"code\":0,\"extFields\":{\"a\":\"2\"},\"flag\":0,\"language\":\"OTHER\",\"opaque\":0,\
\"serializeTypeCurrentRPC\":\"JSON\",\"version\":0}",
        ),
        (b"\0\0\0\x08\0\x01a\0\0\0\x02b", b""),
        (b"\0\0\0\x08\0\x01a\0\0\0\x01\xff", b""),
        (b"\0\0\0\x10\0\x01a\0\0\0\x01\xff\0\x01a\0\0\0\x012", b""),
        (b"\0\0\0\x08\0\x01a\0\0\0\x01bc", b""),
        (b"\0\0\0\x09\0\x01a\0\0\0\x01b", b""),
        (b"\0\0\0\x05\0\x01a\0\0", b""),
    ];
    // Behind a code, a version, an opaque, a flag and a remark that are nothing.
    for (pairs, says) in rows {
        let mut header = Vec::from_slice(rt.alloc(), &[0; 17])?;
        header.extend_from_slice(pairs)?;
        assert!(rt;
            said(rt.alloc(), Form::Binary, &header)?.as_slice() == says,
            "at {pairs:?}"
        );
    }
    Ok(())
}

fn refusal(alloc: Global) -> Result<Header, AllocError>
    ensures short { IfOk result IsShort }
    ensures lengths { IfOk result FitsLengths }
    ensures bits { IfOk result Has16Bits }
{
    let remark = Text::of(String::from_str(alloc, "code 999")?);
    Ok(Header {
        code: 3,
        version: 0,
        opaque: 7,
        flag: 1,
        remark,
        ext: Fields::new(alloc),
    })
}

#[test]
fn the_front_of_a_frame_counts_what_follows(rt: HostRuntime) -> Result<(), Fail> {
    let header = refusal(rt.alloc())?;
    let rows: [(Form, &[u8]); 2] = [
        (
            Form::Json,
            b"before\0\0\0\x87\0\0\0\x81{\"code\":3,\"extFields\":{},\"flag\":1,\"language\":\"OTHER\",\"opaque\":7,\
\"remark\":\"code 999\",\"serializeTypeCurrentRPC\":\"JSON\",\"version\":0}",
        ),
        (
            Form::Binary,
            b"before\x00\x00\x00\x23\x01\x00\x00\x1D\x00\x03\x07\x00\x00\x00\x00\x00\x07\x00\x00\x00\x01\x00\x00\x00\x08code 999\x00\x00\
\x00\x00",
        ),
    ];
    for (form, written) in rows {
        let mut out = Vec::from_slice(rt.alloc(), b"before")?;
        header.write_front(rt.alloc(), form, 2, &mut out)?;
        assert!(rt; out.as_slice() == written, "in {form:?}");
    }
    Ok(())
}

#[test]
fn a_binary_reply_is_written_as_documented(rt: HostRuntime) -> Result<(), Fail> {
    let Ok(header) = Header::read(rt.alloc(), Form::Binary, ASKING_REPLY) else {
        return Err(Fail::from("a header"));
    };
    let mut out = Vec::new(rt.alloc());
    header.write(rt.alloc(), Form::Binary, &mut out)?;
    assert!(rt; out.as_slice() == ASKING_REPLY);
    Ok(())
}

// Appends what a frame's header says, as JSON text, and its body.
fn say(alloc: Global, frame: &Frame, given: &mut Vec<u8>) -> Result<(), AllocError> {
    frame.header.write(alloc, Form::Json, given)?;
    given.extend_from_slice(frame.body.as_slice())
}

// Takes the next frame, where one is held, and hands out the fault that stands in its place.
fn take_next(
    alloc: Global,
    cutter: &mut Cutter,
    given: &mut Vec<u8>,
) -> Result<Option<FrameFault>, AllocError> {
    match cutter.next(alloc) {
        Ok(Some(frame)) => {
            say(alloc, &frame, given)?;
            Ok(None)
        }
        Ok(None) => Ok(None),
        Err(fault) => Ok(Some(fault)),
    }
}

// Takes two frames of those that are whole with this piece, and answers the fault that stands in the second one's place.
fn take_two(
    alloc: Global,
    cutter: &mut Cutter,
    piece: &[u8],
    given: &mut Vec<u8>,
) -> Result<Option<FrameFault>, AllocError> {
    cutter.feed(piece)?;
    take_next(alloc, cutter, given)?;
    take_next(alloc, cutter, given)
}

// Whether a stream that comes in two pieces gives this, of at most two frames, and behind it this fault.
fn gives(
    alloc: Global,
    stream: &[u8],
    cut: usize,
    says: &[u8],
    fault: Option<FrameFault>,
) -> Result<bool, AllocError>
    requires { cut ≤ length stream.now }
{
    let mut cutter = Cutter::new(alloc);
    let mut given = Vec::new(alloc);
    take_two(alloc, &mut cutter, &stream[..cut], &mut given)?;
    let shown = take_two(alloc, &mut cutter, &stream[cut..], &mut given)?;
    Ok(given.as_slice() == says && shown == fault)
}

// Whether these bytes behind a frame give this, or show this fault, with their last and not before, wherever the
// stream is cut.
fn comes_with_the_last_byte(
    alloc: Global,
    bytes: &[u8],
    says: &[u8],
    fault: Option<FrameFault>,
) -> Result<bool, AllocError> {
    let Some((last, front)) = bytes.split_last() else {
        return Ok(false);
    };
    let mut stream = Vec::from_slice(alloc, ASKING)?;
    stream.extend_from_slice(front)?;
    if !gives(alloc, &stream, 0, ASKING_SAYS, None)? {
        return Ok(false);
    }
    stream.push(*last)?;
    let mut all = Vec::from_slice(alloc, ASKING_SAYS)?;
    all.extend_from_slice(says)?;
    for cut in 0..=stream.len() {
        if !gives(alloc, &stream, cut, &all, fault)? {
            return Ok(false);
        }
    }
    Ok(true)
}

// A frame whose header is nested 200 deep.
fn nested_200_deep(alloc: Global) -> Result<Vec<u8>, AllocError> {
    let mut frame = Vec::from_slice(
        alloc,
        b"\0\0\x01\xAE\0\0\x01\xAA{\"code\":1,\"opaque\":2,\"a\":",
    )?;
    frame.extend_from_slice(&[b'['; 200])?;
    frame.extend_from_slice(&[b']'; 200])?;
    frame.push(b'}')?;
    Ok(frame)
}

#[test]
fn a_frame_and_a_fault_come_with_their_last_byte_wherever_the_stream_is_cut(
    rt: HostRuntime,
) -> Result<(), Fail> {
    let alloc = rt.alloc();
    let nested = nested_200_deep(alloc)?;
    let rows: [(&[u8], &[u8], Option<FrameFault>); 12] = [
        (SEND, SEND_SAYS, None),
        (CPP_SEND, CPP_SEND_SAYS, None),
        (ASKING, ASKING_SAYS, None),
        (b"\x01\0\0\0", b"", None),
        (b"\0\0\0\x03", b"", Some(FrameFault::BadLength(55))),
        (b"\x01\0\0\x01", b"", Some(FrameFault::BadLength(55))),
        (b"\0\0\0\x09\x02\0\0\0", b"", Some(FrameFault::BadForm(55))),
        (
            b"\0\0\0\x09\x02\0\0\x06",
            b"",
            Some(FrameFault::BadForm(55)),
        ),
        (
            b"\0\0\0\x09\0\0\0\x06",
            b"",
            Some(FrameFault::BadLength(55)),
        ),
        (
            b"\0\0\0\x09\0\0\0\x02{}",
            b"",
            Some(FrameFault::BadHeader(55)),
        ),
        (&nested, b"", Some(FrameFault::BadHeader(55))),
        (
            b"\0\0\0\x21\x01\0\0\x1D\0\x01\0\0\0\0\0\0\x02\0\0\0\0\0\0\0\0\0\0\0\x08\0\x01a\0\0\0\x02b",
            b"",
            Some(FrameFault::BadHeader(55)),
        ),
    ];
    for (bytes, says, fault) in rows {
        assert!(rt;
            comes_with_the_last_byte(alloc, bytes, says, fault)?,
            "at {bytes:?}"
        );
    }
    Ok(())
}

fn waits(alloc: Global, cutter: &mut Cutter) -> bool {
    matches!(cutter.next(alloc), Ok(None))
}

// No clause says that a cutter reads a header once and moves no bytes: otherwise this takes minutes.
#[test]
fn a_long_body_in_single_bytes_is_cut_in_time(rt: HostRuntime) -> Result<(), Fail> {
    let alloc = rt.alloc();
    let mut cutter = Cutter::new(alloc);
    cutter.feed(b"\x00\x03\x0D\x59\x00\x00\x00\x15{\"code\":3,\"opaque\":9}")?;
    for i in 0..200000u32 {
        assert!(rt; waits(alloc, &mut cutter));
        cutter.feed(&[(i % 251) as u8])?;
    }
    assert!(rt; !waits(alloc, &mut cutter));
    assert!(rt; cutter.rest() == (200029, 0));
    Ok(())
}
