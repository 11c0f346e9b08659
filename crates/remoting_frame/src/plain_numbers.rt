//! Whole numbers of 32 bits, as a plain header has them: in decimal, each as it is told, without a point, an exponent
//! or zeros in front.

ghost use Rattle.std.specs.Prelude.{◌≡◌, ◌≤◌, ◌∷◌, [], length, drop, get_or, true, Some, IfSome, IsTrue, FitsSigned};
ghost use Rattle.std.specs.Int.{w32};
ghost use Rattle.json.specs.Lex.{lex, between, token};
ghost use Rattle.json.specs.Token.{number};
ghost use Rattle.json.specs.Word.{ends_word};
ghost use Rattle.mq_bytes.specs.Decimal.{decimal, decimal_value};

use crate::json_bytes::{byte_at, is_blank, piece};
use itoa::Buffer;
use mq_bytes::read_decimal;

// Whether a text has neither a sign nor a zero in front of other digits.
fn is_bare(text: &str) -> bool
    ensures { IsTrue result → (48 ≤ get_or text.now 0 0) × (get_or text.now 0 0 ≡ 48 → length text.now ≡ 1) }
{
    let bytes = text.as_bytes();
    if bytes.is_empty() {
        return false;
    }
    bytes[0] > b'0' || (bytes[0] == b'0' && bytes.len() == 1)
}

// Whether a number's text is the one that is written for it.
fn is_decimal(text: &str, value: i64) -> bool
    requires { decimal_value text.now ≡ Some value }
    ensures { IsTrue result → text.now ≡ decimal value }
{
    if is_bare(text) {
        return true;
    }
    Buffer::new().format(value) == text
}

// The number of 32 bits whose decimal text this is.
fn short_number(text: &str) -> Option<i32>
    ensures text { IfSome result (λ z. text.now ≡ decimal z) }
    ensures fits { IfSome result (FitsSigned w32) }
{
    let Some(value) = read_decimal(text) else {
        return None;
    };
    if value < -2147483648 || value > 2147483647 || !is_decimal(text, value) {
        return None;
    }
    Some(value as i32)
}

// Where the digits that stand at a place end.
#[inline(always)]
fn digits_end(text: &[u8], from: usize) -> usize
    requires { from ≤ length text.now }
    ensures { (from ≤ result) × (result ≤ length text.now) }
{
    let mut at = from;
    while at < text.len() && text[at].is_ascii_digit() {
        at += 1;
    }
    at
}

#[inline(always)]
fn ends_number(byte: u8) -> bool
    ensures { IsTrue result → ends_word (byte ∷ []) ≡ true }
{
    byte == b',' || byte == b'}' || is_blank(byte)
}

/// The number whose text begins at a place, and where what follows it begins.
#[inline(always)]
pub(crate) fn number_at(text: &str, from: usize) -> Option<(i32, usize)>
    requires { from ≤ length text.now }
    ensures value { IfSome result (λ r.
        lex between (drop from text.now) ≡ token (number (decimal r.0)) ∷ lex between (drop r.1 text.now)) }
    ensures fits { IfSome result (λ r. FitsSigned w32 r.0) }
    ensures bound { IfSome result (λ r. (from ≤ r.1) × (r.1 ≤ length text.now)) }
{
    let bytes = text.as_bytes();
    let first = if byte_at(bytes, from) == b'-' {
        from + 1
    } else {
        from
    };
    let end = digits_end(bytes, first);
    if !ends_number(byte_at(bytes, end)) {
        return None;
    }
    Some((short_number(piece(text, from, end)?)?, end))
}
