//! The seal: the last property of a stored record, `SEAL` with the CRC-32 of the whole record in eight hexadecimal digits.
//!
//! The digits are summed as `0`, so the sum is that of all before them, gone on with eight `0` and the byte 2.
//! A record that is written has a body whose sum is known: all around it is summed, and the body's own sum joined.

ghost use Rattle.std.specs.Prelude.{◌≡◌, ◌+◌, ◌<◌, ◌≤◌, [], ◌∷◌, ◌++◌, length, take, drop, vec_len};
ghost use Rattle.std.specs.Vec.{vec_capacity};
ghost use Rattle.mq_bytes.specs.Crc.{crc_of};
ghost use Rattle.record_codec.specs.Layout.{digits, sealed, unsealed};

use crate::append::put;
use crate::body::Body;
use crate::join::crc32_join;
use mq_bytes::{crc32, crc32_more, hex_digit};

/// Where the body of a record begins.
const BODY_AT: usize = 88;

/// From how many bytes on it takes less time to join a body's sum than to sum the body again.
const JOINED_MIN: usize = 64;

/// The digits of the sum, and the byte 2 that ends the seal.
#[tactic(auto, unfolding(crate::specs::Layout::digits))]
pub(crate) fn seal_end(sum: u32) -> [u8; 9]
    ensures { result ≡ digits sum ++ 2 ∷ [] }
{
    [
        hex_digit(sum / 0x1000_0000 % 16),
        hex_digit(sum / 0x100_0000 % 16),
        hex_digit(sum / 0x10_0000 % 16),
        hex_digit(sum / 0x1_0000 % 16),
        hex_digit(sum / 0x1000 % 16),
        hex_digit(sum / 0x100 % 16),
        hex_digit(sum / 0x10 % 16),
        hex_digit(sum % 16),
        2,
    ]
}

/// The sum of a record of which all before the digits is given.
pub(crate) fn sum_of(before: &[u8]) -> u32
    ensures { result ≡ crc_of (before.now ++ unsealed) }
{
    crc32_more(crc32(before), b"00000000\x02")
}

// As `sum_of`, without a look at the body.
fn sum_around(before: &[u8], body: &Body) -> u32
    requires long { 88 + length body.now ≤ length before.now }
    requires body { take (length body.now) (drop 88 before.now) ≡ body.now }
    ensures { result ≡ crc_of (before.now ++ unsealed) }
{
    let front = crc32(&before[..BODY_AT]);
    let joined = crc32_join(front, body.sum(), body.shift());
    let behind = &before[BODY_AT + body.as_slice().len()..];
    crc32_more(crc32_more(joined, behind), b"00000000\x02")
}

// As `sum_of`, in whichever way takes less time.
fn sum_with(before: &[u8], body: &Body) -> u32
    requires long { 88 + length body.now ≤ length before.now }
    requires body { take (length body.now) (drop 88 before.now) ≡ body.now }
    ensures { result ≡ crc_of (before.now ++ unsealed) }
{
    if body.as_slice().len() < JOINED_MIN {
        sum_of(before)
    } else {
        sum_around(before, body)
    }
}

/// Appends the digits and the byte 2 to the record of this body that starts there.
pub(crate) fn put_seal(out: &mut Vec<u8>, start: usize, body: &Body)
    requires start { start ≤ length out.old.items }
    requires room { vec_len out.old + 9 ≤ vec_capacity out.old }
    requires long { start + 88 + length body.now ≤ length out.old.items }
    requires body { take (length body.now) (drop (start + 88) out.old.items) ≡ body.now }
    ensures { out.new.items ≡ take start out.old.items ++ sealed (drop start out.old.items) }
{
    let sum = sum_with(&out[start..], body);
    put(out, &seal_end(sum));
}
