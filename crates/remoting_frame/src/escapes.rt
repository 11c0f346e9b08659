//! Strings with escapes: `\"`, `\\`, `\/`, `\b`, `\f`, `\n`, `\r`, `\t`, and `\u00XX` of a byte below 0x80. One that has
//! another escape is left to `serde_json`.

ghost use Rattle.std.specs.Prelude.{◌≡◌, ◌≢◌, ◌+◌, ◌<◌, ◌≤◌, ◌∷◌, [], length, drop, Some, IfSome, OnSome, string_bytes};
ghost use Rattle.std.specs.Char.{digit_value};
ghost use Rattle.json.specs.Lex.{lex, between, in_string, in_escape};
ghost use Rattle.json.specs.Text.{content, plain, after_backslash, after_u, prepend, short_escape};

use crate::json_bytes::{byte_at, plain_end};
use std::alloc::Global;

// A string with escapes begins with room for so many bytes at most, and grows where it is longer.
const FIRST_ROOM: usize = 512;

// The value of a hex digit.
#[inline(always)]
fn digit(byte: u8) -> Option<u8>
    ensures value { IfSome result (λ v. digit_value byte ≡ v) }
    ensures bound { IfSome result (λ v. v < 16) }
{
    match byte {
        b'0'..=b'9' => Some(byte - b'0'),
        b'A'..=b'F' => Some(byte - b'A' + 10),
        b'a'..=b'f' => Some(byte - b'a' + 10),
        _ => None,
    }
}

// What a backslash and a byte other than `u` stand for.
#[inline(always)]
#[tactic(auto, unfolding(json::specs::Text::short_escape))]
fn short(byte: u8) -> Option<u8>
    ensures value { IfSome result (λ c. short_escape byte ≡ Some c) }
    ensures other { OnSome result (byte ≢ 117) }
{
    match byte {
        b'"' | b'\\' | b'/' => Some(byte),
        b'b' => Some(8),
        b'f' => Some(12),
        b'n' => Some(b'\n'),
        b'r' => Some(b'\r'),
        b't' => Some(b'\t'),
        _ => None,
    }
}

// The byte below 0x80 that the four hex digits at a place spell.
#[inline(always)]
fn ascii_at(text: &[u8], at: usize) -> Option<u8>
    requires { at ≤ length text.now }
    ensures value { IfSome result (λ b.
        content after_u (drop at text.now) ≡ prepend (b ∷ []) (content plain (drop (at + 4) text.now))) }
    ensures rest { OnSome result (lex in_string (drop at text.now) ≡ lex in_string (drop (at + 4) text.now)) }
    ensures bound { OnSome result (at + 4 ≤ length text.now) }
{
    if text.len() - at < 4 || text[at] != b'0' || text[at + 1] != b'0' {
        return None;
    }
    let high = digit(text[at + 2])?;
    let low = digit(text[at + 3])?;
    if high >= 8 {
        return None;
    }
    Some(high * 16 + low)
}

// What stands behind a backslash, and where what follows it begins.
#[inline(always)]
fn escape_at(text: &[u8], at: usize) -> Option<(u8, usize)>
    requires { at ≤ length text.now }
    ensures value { IfSome result (λ r.
        content after_backslash (drop at text.now) ≡ prepend (r.0 ∷ []) (content plain (drop r.1 text.now))) }
    ensures rest { IfSome result (λ r. lex in_escape (drop at text.now) ≡ lex in_string (drop r.1 text.now)) }
    ensures bound { IfSome result (λ r. (at < r.1) × (r.1 ≤ length text.now)) }
{
    if at == text.len() {
        return None;
    }
    if text[at] == b'u' {
        return Some((ascii_at(text, at + 1)?, at + 5));
    }
    Some((short(text[at])?, at + 1))
}

// The bytes of the string whose quote stands before a place, and where what follows it begins.
fn bytes_from(alloc: Global, text: &[u8], from: usize) -> Option<(Vec<u8>, usize)>
    requires { from ≤ length text.now }
    ensures value { IfSome result (λ r. content plain (drop from text.now) ≡ Some r.0.items) }
    ensures rest { IfSome result (λ r. lex in_string (drop from text.now) ≡ lex between (drop r.1 text.now)) }
    ensures bound { IfSome result (λ r. (from ≤ r.1) × (r.1 ≤ length text.now)) }
{
    let mut out = Vec::with_capacity(alloc, (text.len() - from).min(FIRST_ROOM)).ok()?;
    let mut at = from;
    'parts: loop {
        let stop = plain_end(text, at);
        out.extend_from_slice(&text[at..stop]).ok()?;
        let end = byte_at(text, stop);
        if end == b'"' {
            return Some((out, stop + 1));
        }
        if end != b'\\' {
            return None;
        }
        let (byte, next) = escape_at(text, stop + 1)?;
        out.push(byte).ok()?;
        at = next;
    }
}

/// The string whose quote stands before a place, and where what follows it begins; none where it has an escape of a
/// character past 0x7f, is no JSON, or no memory is had.
pub(crate) fn escaped_at(alloc: Global, text: &str, from: usize) -> Option<(String, usize)>
    requires { from ≤ length text.now }
    ensures value { IfSome result (λ r. content plain (drop from text.now) ≡ Some (string_bytes r.0)) }
    ensures rest { IfSome result (λ r. lex in_string (drop from text.now) ≡ lex between (drop r.1 text.now)) }
    ensures bound { IfSome result (λ r. (from ≤ r.1) × (r.1 ≤ length text.now)) }
{
    let (bytes, end) = bytes_from(alloc, text.as_bytes(), from)?;
    Some((String::from_utf8(bytes).ok()?, end))
}
