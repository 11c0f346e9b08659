//! What the bytes say that a peer takes: replies, and check-backs.

ghost use Rattle.std.specs.Prelude.{◌≤◌, length, IfSome};

use run_tests::end_of;

/// What a reply says.
#[derive(Clone, Copy, Debug, PartialEq, Eq)]
pub(crate) enum Reply {
    /// The message is the one at this offset of its queue.
    Sent(u64),
    /// There are messages. The next pull goes on at this offset.
    Pulled(u64),
    /// It has this code, which isn't 0.
    Refused(u64),
    /// It is no reply: it asks what became of a half message.
    Asked,
    /// It is none of these.
    Unclear,
}

// The number that stands behind this text, where the text is there.
fn number_behind(frame: &[u8], text: &[u8]) -> Option<u64> {
    let from = end_of(frame, 0, text);
    if from == 0 {
        return None;
    }
    let mut number = 0u64;
    for byte in frame.get(from..)? {
        if !byte.is_ascii_digit() {
            break;
        }
        number = number
            .wrapping_mul(10)
            .wrapping_add(u64::from(*byte - b'0'));
    }
    Some(number)
}

// How many bytes the first frame has, where the bytes begin with a whole one.
fn frame_len(bytes: &[u8]) -> Option<usize>
    ensures { IfSome result (λ n. n ≤ length bytes.now) }
{
    match bytes {
        [a, b, c, d, rest @ ..] => {
            let len = u32::from_be_bytes([*a, *b, *c, *d]) as usize;
            if len <= rest.len() {
                Some(4 + len)
            } else {
                None
            }
        }
        _ => None,
    }
}

/// The first frame of these bytes with what is behind it; where they don't begin with a whole one, all of them.
pub(crate) fn first_frame(bytes: &[u8]) -> (&[u8], &[u8]) {
    match frame_len(bytes) {
        Some(len) => bytes.split_at(len),
        None => (bytes, &[]),
    }
}

/// What a frame says.
pub(crate) fn reply_in(frame: &[u8]) -> Reply {
    if frame_len(frame) != Some(frame.len()) {
        return Reply::Unclear;
    }
    match number_behind(frame, b"\"code\":") {
        Some(0) => reply_with_offset(frame),
        Some(39) => Reply::Asked,
        Some(code) => Reply::Refused(code),
        None => Reply::Unclear,
    }
}

// What a reply with code 0 says.
fn reply_with_offset(frame: &[u8]) -> Reply {
    if let Some(offset) = number_behind(frame, b"\"queueOffset\":\"") {
        return Reply::Sent(offset);
    }
    match number_behind(frame, b"\"nextBeginOffset\":\"") {
        Some(offset) => Reply::Pulled(offset),
        None => Reply::Unclear,
    }
}
