//! Records byte for byte, beside ones that were made independently, and the properties of requests.

ghost use Rattle.std.specs.Prelude.{◌≡◌, codes, false, IfOk};
ghost use Rattle.record_codec.specs.Props.{has_name};

use mq_bytes::Text;
use record_codec::{
    Body, Draft, DraftFault, Place, Props, View, crc32_join, encode, shift_over, test, test_blank,
    unit_of,
};
use std::alloc::{AllocError, Global};
use std::test::Fail;

/// The record of a message `hi`, with all numbers 0 but its times. The digits of its seal were computed independently, by zlib.
const HI: &[u8; 108] =
    b"\x00\x00\x00\x6C\xDA\xA3\x20\xA7\x58\x93\x2A\xAC\x00\x00\x00\x00\x00\x00\x00\x00\
\x00\x00\x00\x00\x00\x00\x00\x00\x00\x00\x00\x00\x00\x00\x00\x00\x00\x00\x00\x00\
\x00\x00\x00\x00\x00\x00\x03\xE8\x7F\x00\x00\x01\x00\x00\x00\x00\x00\x00\x00\x00\x00\x00\x07\xD0\x7F\x00\x00\x01\x00\x00\x2A\x9F\
\x00\x00\x00\x00\x00\x00\x00\x00\x00\x00\x00\x00\x00\x00\x00\x02hi\x01T\x00\x0ESEAL\x0122FE9094\x02";

/// A record with negative numbers and two properties, made independently with zlib.
const NEGATIVE: &[u8; 145] =
    b"\x00\x00\x00\x91\xDA\xA3\x20\xA7\x6C\xDB\xFD\x72\x00\x00\x00\x02\xFF\xFF\xFF\xFF\
\x00\x00\x00\x00\x00\x00\x00\x05\x00\x00\x00\x00\x00\x00\x00\x07\x00\x00\x00\x00\
\x00\x00\x00\x00\x00\x00\x03\xE8\x7F\x00\x00\x01\x00\x00\x00\x00\x00\x00\x00\x00\x00\x00\x07\xD0\x7F\x00\x00\x01\x00\x00\x2A\x9F\
\xFF\xFF\xFF\xFE\x00\x00\x00\x00\x00\x00\x00\x03\x00\x00\x00\x02\x00\xFF\x0E%retry%a|b-c_9\
\x00\x26TAGS\x01TagA\x02KEYS\x01\xD0\xBA\xD0\xBB\xD1\x8E\xD1\x87\x02SEAL\x01BB4F1F6D\x02";

/// How many bytes stand before the properties of a record of the topic `T` with no body.
const BEFORE_PROPS: usize = 92;

fn draft_of(alloc: Global, topic: &str, body: &[u8], props: Props) -> Result<Draft, AllocError>
    ensures times { IfOk result (λ draft. (draft.born ≡ 1000) × (draft.prepared ≡ 3)) }
    ensures props { IfOk result (λ draft. draft.props ≡ props) }
{
    Ok(Draft {
        topic: Text::of(String::from_str(alloc, topic)?),
        queue: 2,
        flag: -1,
        sysflag: 0,
        born: 1000,
        born_host: *b"\x7F\x00\x00\x01\x00\x00\x00\x00",
        store_host: *b"\x7F\x00\x00\x01\x00\x00\x2A\x9F",
        reconsume: -2,
        prepared: 3,
        body: Body::of(Vec::from_slice(alloc, body)?),
        props,
    })
}

/// The bytes of a record of queue 2, or none where its draft has a fault.
fn bytes_of(alloc: Global, topic: &str, body: &[u8], props: Props) -> Result<Vec<u8>, AllocError>
    requires { has_name (codes "SEAL") props ≡ false }
{
    let draft = draft_of(alloc, topic, body, props)?;
    let place = Place {
        queue_offset: 5,
        offset: 7,
        store: 2000,
    };
    let mut out = Vec::new(alloc);
    if let Ok(_) = draft.check(4096) {
        encode(&draft, &place, &mut out)?;
    }
    Ok(out)
}

#[test]
fn a_body_has_the_sum_of_its_bytes_and_so_has_its_copy(rt: HostRuntime) -> Result<(), Fail> {
    let alloc = rt.alloc();
    let body = Body::of(Vec::from_slice(alloc, b"hi")?);
    let copy = body.copy(alloc)?;
    assert!(rt; body.sum() == 0xD893_2AAC);
    assert!(rt; copy.sum() == 0xD893_2AAC);
    assert!(rt; copy.as_slice() == b"hi".as_slice());
    Ok(())
}

#[test]
fn the_documented_record_is_written(rt: HostRuntime) -> Result<(), Fail> {
    let alloc = rt.alloc();
    let draft = Draft {
        topic: Text::of(String::from_str(alloc, "T")?),
        queue: 0,
        flag: 0,
        sysflag: 0,
        born: 1000,
        born_host: *b"\x7F\x00\x00\x01\x00\x00\x00\x00",
        store_host: *b"\x7F\x00\x00\x01\x00\x00\x2A\x9F",
        reconsume: 0,
        prepared: 0,
        body: Body::of(Vec::from_slice(alloc, b"hi")?),
        props: Props::new(alloc),
    };
    let place = Place {
        queue_offset: 0,
        offset: 0,
        store: 2000,
    };
    let mut out = Vec::new(alloc);
    if let Ok(_) = draft.check(1 << 30) {
        encode(&draft, &place, &mut out)?;
    }
    assert!(rt; out.as_slice() == HI.as_slice());
    assert!(rt; draft.check(115) == Err(DraftFault::RecordLong));
    Ok(())
}

#[test]
fn no_byte_of_the_documented_record_can_be_another(rt: HostRuntime) {
    assert!(rt; test(HI).is_some());
    for i in 0..108 {
        let mut bytes = *HI;
        bytes[i] ^= 0x20;
        assert!(rt; test(&bytes).is_none(), "at {i}");
    }
}

fn has_numbers(view: &View<'_>) -> bool {
    view.size() == 145
        && view.queue() == 2
        && view.flag() == -1
        && view.queue_offset() == 5
        && view.offset() == 7
        && view.sysflag() == 0
        && view.born() == 1000
        && view.store() == 2000
        && view.reconsume() == -2
        && view.prepared() == 3
}

fn has_texts(view: &View<'_>) -> bool {
    view.born_host() == *b"\x7F\x00\x00\x01\x00\x00\x00\x00"
        && view.store_host() == *b"\x7F\x00\x00\x01\x00\x00\x2A\x9F"
        && view.body() == b"\x00\xFF".as_slice()
        && view.topic() == "%retry%a|b-c_9"
        && view.prop("KEYS") == Some("ключ")
        && view.prop("SEAL") == None
}

fn is_copied(alloc: Global, view: &View<'_>) -> Result<bool, AllocError> {
    let record = view.to_record(alloc)?;
    Ok(
        record.draft.check(4096) == Ok(record.size)
            && record.draft.props.get("TAGS") == Some("TagA"),
    )
}

#[test]
fn a_record_made_elsewhere_is_read_and_copied(rt: HostRuntime) -> Result<(), Fail> {
    if let Some(view) = test(NEGATIVE) {
        assert!(rt; has_numbers(&view));
        assert!(rt; has_texts(&view));
        assert!(rt; is_copied(rt.alloc(), &view)?);
        assert!(rt; unit_of(&view).tag == 2598919);
        return Ok(());
    }
    assert!(rt; false);
    Ok(())
}

#[test]
fn properties_beyond_ascii_are_written(rt: HostRuntime) -> Result<(), Fail> {
    let alloc = rt.alloc();
    let mut props = Props::new(alloc);
    props.put(alloc, "TAGS", "TagA")?;
    props.put(alloc, "KEYS", "ключ")?;
    let out = bytes_of(alloc, "%retry%a|b-c_9", b"\x00\xFF", props)?;
    assert!(rt; out.as_slice() == NEGATIVE.as_slice());
    Ok(())
}

#[test]
fn a_delayed_record_is_due_after_its_level(rt: HostRuntime) -> Result<(), Fail> {
    let alloc = rt.alloc();
    let out = bytes_of(alloc, "SCHEDULE_TOPIC_XXXX", b"", Props::new(alloc))?;
    // Queue 2 is level 3, which waits ten seconds.
    assert!(rt; tag_in(&out) == 12000);
    Ok(())
}

fn tag_in(bytes: &[u8]) -> i64 {
    match test(bytes) {
        Some(view) => unit_of(&view).tag,
        None => 0,
    }
}

fn fault_of(alloc: Global, topic: &str, sysflag: u32) -> Result<Option<DraftFault>, AllocError> {
    let mut draft = draft_of(alloc, topic, b"hi", Props::new(alloc))?;
    draft.sysflag = sysflag;
    Ok(draft.check(4096).err())
}

#[test]
fn the_first_fault_of_a_draft_is_told(rt: HostRuntime) -> Result<(), Fail> {
    let alloc = rt.alloc();
    let long =
        "0123456789abcdef0123456789abcdef0123456789abcdef0123456789abcdef0123456789abcdef0123456789abcdef0123456789abcdef0123456789abcde";
    let longer =
        "0123456789abcdef0123456789abcdef0123456789abcdef0123456789abcdef0123456789abcdef0123456789abcdef0123456789abcdef0123456789abcdef";
    for (topic, sysflag, want) in [
        ("", 0, Some(DraftFault::BadTopic)),
        ("a b", 16, Some(DraftFault::BadTopic)),
        ("größe", 0, Some(DraftFault::BadTopic)),
        (long, 15, None),
        (longer, 16, Some(DraftFault::TopicLong)),
        ("T", 16, Some(DraftFault::HostSix)),
        ("T", 32, Some(DraftFault::HostSix)),
    ] {
        let fault = fault_of(alloc, topic, sysflag)?;
        assert!(rt; fault == want, "{topic}");
    }
    Ok(())
}

// Whether a record with these properties spells them so, before its seal of 14 bytes.
fn are_spelled(alloc: Global, mut props: Props, text: &str) -> Result<bool, AllocError> {
    props.drop_name("SEAL");
    let bytes = bytes_of(alloc, "T", b"", props)?;
    let Some((_, spelled)) = bytes.split_at_checked(BEFORE_PROPS) else {
        return Ok(false);
    };
    Ok(spelled.len().checked_sub(14) == Some(text.len()) && spelled.starts_with(text.as_bytes()))
}

#[test]
fn odd_pieces_of_a_request_are_dropped(rt: HostRuntime) -> Result<(), Fail> {
    let alloc = rt.alloc();
    for (text, want) in [
        ("", ""),
        ("\x02\x02", ""),
        ("bad\x02", ""),
        ("\x01value\x02", ""),
        ("a\x01b\x01c\x02", ""),
        ("a\x01b\x01\x02", ""),
        ("A\x011\x02bad\x02A\x012", "A\x012\x02"),
        ("A\x011\x02B\x01\x02A\x013", "A\x013\x02B\x01\x02"),
        ("\x02ключ\x01значение", "ключ\x01значение\x02"),
    ] {
        let props = Props::read(alloc, text)?;
        assert!(rt; are_spelled(alloc, props, want)?, "{text}");
    }
    Ok(())
}

#[test]
fn a_property_is_put_in_its_place_and_dropped(rt: HostRuntime) -> Result<(), Fail> {
    let alloc = rt.alloc();
    let mut props = Props::read(alloc, "A\x011\x02B\x012\x02C\x013\x02")?;
    props.put(alloc, "B", "")?;
    props.drop_name("A");
    props.drop_name("D");
    props.put(alloc, "A", "4")?;
    assert!(rt; are_spelled(alloc, props, "B\x01\x02C\x013\x02A\x014\x02")?);
    Ok(())
}

#[test]
fn a_blank_is_known_by_its_magic(rt: HostRuntime) {
    assert!(rt; test_blank(b"\x00\x00\x03\x96\xCB\xD4\x31\x94\xFF") == Some(918));
    assert!(rt; test_blank(b"\x00\x00\x00\x08\xCB\xD4\x31") == None);
    assert!(rt; test_blank(HI) == None);
}

#[test]
fn sums_join_as_zlib_has_them(rt: HostRuntime) {
    let digits = 0xCBF4_3926;
    // so many `a`, their sum, and that of `123456789` before them, all by zlib
    let cases = [
        (0, 0, 0xCBF4_3926),
        (1, 0xE8B7_BE43, 0x3A71_CF87),
        (64, 0x89B4_6555, 0x57E6_1B38),
        (1000, 0x9A38_DA03, 0x87BB_D685),
        (99_999, 0xEC35_8C12, 0x9FA2_F45A),
        (4_194_304, 0x48FA_5577, 0xB5F0_A3E7),
    ];
    for (len, letters, both) in cases {
        assert!(rt;
            crc32_join(digits, letters, shift_over(len)) == both,
            "{len}"
        );
    }
}
