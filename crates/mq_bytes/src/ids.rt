//! The id of a message: which host stored it, and where it stands in that host's log.
//!
//! | at | digits | field   |                                     |
//! |---:|-------:|---------|-------------------------------------|
//! |  0 |      8 | address | the host's IPv4 address             |
//! |  8 |      8 | port    | the host's port                     |
//! | 16 |     16 | place   | the record's physical offset        |
//!
//! Digits are hexadecimal, upper case, two for each byte, the high byte first. An id has 32 of them and nothing else.

ghost use Rattle.std.specs.Prelude.{◌≡◌, ◌↔◌, ℕ, ◌^◌, ◌<◌, ◌++◌, List, length, string_bytes, IfOk, IfSome, IfNone, IsSome, All};
ghost use Rattle.std.specs.Int.{w64, to_be_bytes};
ghost use Rattle.std.specs.Str.{IsAscii};
ghost use Rattle.mq_bytes.specs.Ids.{hex_of, message_id_of, IsMessageId};
ghost use Rattle.mq_bytes.specs.Hex.{IsHexDigit};
ghost use Rattle.mq_bytes.specs.Bytes.{AreBytes};

use crate::ascii::text_of;
use crate::hex::{hex_digit, hex_value};
use std::alloc::{AllocError, Global};

// Two digits for each byte.
fn digits_of(bytes: &[u8; 16]) -> [u8; 32]
    ensures value { result ≡ hex_of bytes.now }
    ensures ascii { IsAscii result }
{
    let mut digits = [b'0'; 32];
    for (i, byte) in bytes.iter().enumerate() {
        digits[2 * i] = hex_digit(u32::from(*byte / 16));
        digits[2 * i + 1] = hex_digit(u32::from(*byte % 16));
    }
    digits
}

// The 16 bytes that an id spells.
fn bytes_of(host: [u8; 8], place: u64) -> [u8; 16]
    ensures { result ≡ host ++ to_be_bytes w64 place }
{
    let mut bytes = [0; 16];
    bytes[..8].copy_from_slice(&host);
    bytes[8..].copy_from_slice(&place.to_be_bytes());
    bytes
}

/// The id of the message that stands at this place of the log of this host (IPv4 address and port, 4 bytes each).
pub fn message_id(alloc: Global, host: [u8; 8], place: u64) -> Result<String, AllocError>
    ensures { IfOk result (λ id. string_bytes id ≡ message_id_of host place) }
{
    String::from_str(alloc, text_of(&digits_of(&bytes_of(host, place))))
}

// The 16 bytes that 32 digits spell, or `None` where one of them is no upper-case hexadecimal digit.
fn bytes_in(digits: &[u8]) -> Option<[u8; 16]>
    requires { length digits.now ≡ 32 }
    ensures some { IfSome result (λ bytes. digits.now ≡ hex_of bytes) }
    ensures digits { IfSome result (λ _. All IsHexDigit digits.now) }
    ensures none { IfNone result (¬ (All IsHexDigit digits.now)) }
{
    let mut bytes = [0; 16];
    for (i, byte) in bytes.iter_mut().enumerate() {
        *byte = 16 * hex_value(digits[2 * i])? + hex_value(digits[2 * i + 1])?;
    }
    Some(bytes)
}

/// The host and the place that an id names, or `None` where the text is not 32 upper-case hexadecimal digits.
pub fn read_message_id(text: &str) -> Option<([u8; 8], u64)>
    ensures found { IfSome result (λ id. text.now ≡ message_id_of id.0 id.1) }
    ensures exact { IsSome result ↔ IsMessageId text.now }
    ensures again { (host : List ℕ) (place : ℕ) → length host ≡ 8 → AreBytes host
        → place < 2 ^ 64 → text.now ≡ message_id_of host place → result ≡ Some (host, place) }
{
    let digits = text.as_bytes();
    if digits.len() != 32 {
        return None;
    }
    let bytes = bytes_in(digits)?;
    let mut host = [0; 8];
    host.copy_from_slice(&bytes[..8]);
    let mut place = [0; 8];
    place.copy_from_slice(&bytes[8..]);
    Some((host, u64::from_be_bytes(place)))
}
