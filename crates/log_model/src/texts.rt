//! The numbers in the texts and bodies of records.
//!
//! A number is a decimal below 2^62 without a sign or a leading zero. `DELAY_FROM` is a level from 1 to 18, `-`, and a number.

ghost use Rattle.std.specs.Prelude.{◌≡◌, ◌↔◌, IsTrue, IsSome, IfSome, option_map};
ghost use Rattle.record_codec.specs.Props.{until};
ghost use Rattle.log_model.specs.Admissible.{is_bare as bare, number_in as number_of_text};
ghost use Rattle.log_model.specs.Admissible.{number_of as number_of_bytes, IsBelow, IsLevel, IsDelayFrom};

use mq_bytes::{PLACE_END, read_decimal};

// The text has no sign and no leading zero.
fn is_bare(text: &[u8]) -> bool
    ensures { result ≡ bare text.now }
{
    !text.is_empty() && text[0] != b'-' && (text[0] != b'0' || text.len() == 1)
}

/// The number that the text writes; nothing where it writes none.
pub fn number_in(text: &str) -> Option<u64>
    ensures { result ≡ number_of_text text.now }
{
    if !is_bare(text.as_bytes()) {
        return None;
    }
    let value = read_decimal(text)?;
    if value < 0 {
        return None;
    }
    let value = value as u64;
    if value >= PLACE_END {
        return None;
    }
    Some(value)
}

/// The same of bytes, which may be no text.
pub fn number_of(bytes: &[u8]) -> Option<u64>
    ensures { result ≡ number_of_bytes bytes.now }
{
    match std::str::from_utf8(bytes) {
        Ok(text) => number_in(text),
        Err(_) => None,
    }
}

/// Whether there is a text that writes a number below this one.
pub(crate) fn is_below(text: Option<&str>, most: u64) -> bool
    ensures { IsTrue result ↔ (IsSome text.entry × IfSome text.entry (λ text. IsBelow most text.now)) }
{
    match text {
        Some(text) => match number_in(text) {
            Some(number) => number < most,
            None => false,
        },
        None => false,
    }
}

/// Whether the text, where there is one, writes a number.
pub(crate) fn has_number(text: Option<&str>) -> bool
    ensures { IsTrue result ↔ IfSome text.entry (λ text. IsSome (number_of_text text.now)) }
{
    match text {
        Some(text) => number_in(text).is_some(),
        None => true,
    }
}

fn is_level(text: &str) -> bool
    ensures { IsTrue result ↔ IsLevel text.now }
{
    match number_in(text) {
        Some(level) => 1 <= level && level <= 18,
        None => false,
    }
}

// What stands before the first dash, and behind it.
fn at_dash(text: &str) -> Option<(&str, &str)>
    ensures { option_map (λ parts. (parts.0.now, parts.1.now)) result ≡ until 45 text.now }
{
    text.split_once('-')
}

/// Whether the text is a level, a dash, and a number.
pub(crate) fn is_delay_from(text: &str) -> bool
    ensures { IsTrue result ↔ IsDelayFrom text.now }
{
    match at_dash(text) {
        Some((level, number)) => is_level(level) && number_in(number).is_some(),
        None => false,
    }
}
