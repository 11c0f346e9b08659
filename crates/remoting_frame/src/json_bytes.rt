//! The parts of a JSON text that need no memory: spaces, strings without escapes, and where they end.

ghost use Rattle.std.specs.Prelude.{◌≡◌, ◌+◌, ◌-◌, ◌≤◌, length, take, drop, get_or, map, Some, true, IfSome, IsTrue};
ghost use Rattle.std.specs.List.{prefix_len};
ghost use Rattle.std.specs.Simd.Lanes.{mask_l};
ghost use Rattle.json.specs.Lex.{lex, between, in_string};
ghost use Rattle.json.specs.Run.{is_stop, is_plain};
ghost use Rattle.json.specs.Text.{content, plain};
ghost use Rattle.json.specs.Word.{is_space};

use std::simd::prelude::*;

/// The byte at a place, or 0 past the end.
#[inline(always)]
pub(crate) fn byte_at(text: &[u8], at: usize) -> u8
    ensures { result ≡ get_or text.now at 0 }
{
    if at < text.len() { text[at] } else { 0 }
}

#[inline(always)]
pub(crate) fn is_blank(byte: u8) -> bool
    ensures { IsTrue result → is_space byte ≡ true }
{
    byte == b' ' || byte == b'\t' || byte == b'\n' || byte == b'\r'
}

/// Where the spaces that stand at a place end.
#[inline(always)]
pub(crate) fn past_spaces(text: &[u8], from: usize) -> usize
    requires { from ≤ length text.now }
    ensures same { lex between (drop result text.now) ≡ lex between (drop from text.now) }
    ensures bound { (from ≤ result) × (result ≤ length text.now) }
{
    let mut at = from;
    while at < text.len() && is_blank(text[at]) {
        at += 1;
    }
    at
}

// A bit for each byte that is a quote, a backslash or a control byte.
#[inline(always)]
fn stops(bytes: u8x16) -> u64
    ensures { result ≡ mask_l (map is_stop bytes) }
{
    (bytes.simd_eq(u8x16::splat(b'"'))
        | bytes.simd_eq(u8x16::splat(b'\\'))
        | bytes.simd_lt(u8x16::splat(0x20))).to_bitmask()
}

// How many of these bytes stand before the first that is one.
#[inline(always)]
fn plain_front(bytes: u8x16) -> usize
    ensures { result ≡ prefix_len is_plain bytes }
{
    let found = stops(bytes);
    if found == 0 {
        16
    } else {
        found.trailing_zeros() as usize
    }
}

// The same as `plain_end`, a byte at a time: it is for the last bytes of a text.
#[inline(never)]
fn plain_end_slowly(text: &[u8], from: usize) -> usize
    requires { from ≤ length text.now }
    ensures { result ≡ from + prefix_len is_plain (drop from text.now) }
{
    let mut at = from;
    while at < text.len() && text[at] != b'"' && text[at] != b'\\' && text[at] >= 0x20 {
        at += 1;
    }
    at
}

/// The first quote, backslash or control byte from a place on, or the length.
#[inline(always)]
pub(crate) fn plain_end(text: &[u8], from: usize) -> usize
    requires { from ≤ length text.now }
    ensures value { result ≡ from + prefix_len is_plain (drop from text.now) }
    ensures bound { result ≤ length text.now }
{
    let mut at = from;
    while text.len() - at >= 16 {
        let front = plain_front(u8x16::from_slice(&text[at..]));
        if front < 16 {
            return at + front;
        }
        at += 16;
    }
    plain_end_slowly(text, at)
}

/// The text between two places, if characters begin at both.
#[inline(always)]
pub(crate) fn piece(text: &str, from: usize, to: usize) -> Option<&str>
    requires { from ≤ to }
    ensures { IfSome result (λ s. s.now ≡ take (to - from) (drop from text.now)) }
{
    if text.is_char_boundary(from) && text.is_char_boundary(to) {
        Some(&text[from..to])
    } else {
        None
    }
}

/// The string whose quote stands before a place, and where what follows it begins; none where it has an escape.
#[inline(always)]
pub(crate) fn string_at(text: &str, from: usize) -> Option<(&str, usize)>
    requires { from ≤ length text.now }
    ensures value { IfSome result (λ r. content plain (drop from text.now) ≡ Some r.0.now) }
    ensures rest { IfSome result (λ r. lex in_string (drop from text.now) ≡ lex between (drop r.1 text.now)) }
    ensures bound { IfSome result (λ r. (from ≤ r.1) × (r.1 ≤ length text.now)) }
{
    let stop = plain_end(text.as_bytes(), from);
    if byte_at(text.as_bytes(), stop) != b'"' {
        return None;
    }
    Some((piece(text, from, stop)?, stop + 1))
}
