//! The kinds of text that fields have.
//!
//! | kind    | texts                                           |
//! |---------|-------------------------------------------------|
//! | text    | any                                             |
//! | name    | 1 to 120 bytes, none of them 1 or 2             |
//! | i32     | a decimal of 32 signed bits                     |
//! | i64     | a decimal of 64 signed bits                     |
//! | u31     | a decimal from 0 to 2^31 - 1                    |
//! | time    | a decimal from 0 to 2^62 - 1                    |
//! | count   | a decimal from 1 to 1,024                       |
//! | verdict | a decimal, 0, 8 or 12                           |
//! | untrue  | any but `true`                                  |
//!
//! What a decimal is, `read_decimal` says.

ghost use Rattle.std.specs.Prelude.{◌≡◌, ◌<◌, ◌≤◌, ◌^◌, ◌⊎◌, IfSome};
ghost use Rattle.request_fields.specs.Kinds.{is_name as is_name_of, i32_in as i32_in_of, u31_in as u31_in_of};
ghost use Rattle.request_fields.specs.Kinds.{time_in as time_in_of, count_in as count_in_of, verdict_in as verdict_in_of};

use mq_bytes::read_decimal;

pub(crate) fn is_name(text: &str) -> bool
    ensures { result ≡ is_name_of text.now }
{
    let bytes = text.as_bytes();
    !bytes.is_empty() && bytes.len() <= 120 && !bytes.contains(&1) && !bytes.contains(&2)
}

pub(crate) fn i32_in(text: &str) -> Option<i32>
    ensures { result ≡ i32_in_of text.now }
{
    let number = read_decimal(text)?;
    if number < -2147483648 || number > 2147483647 {
        return None;
    }
    Some(number as i32)
}

pub(crate) fn u31_in(text: &str) -> Option<u32>
    ensures value { result ≡ u31_in_of text.now }
    ensures small { IfSome result (λ n. n < 2 ^ 31) }
{
    let number = read_decimal(text)?;
    if number < 0 || number >= 2147483648 {
        return None;
    }
    Some(number as u32)
}

pub(crate) fn time_in(text: &str) -> Option<u64>
    ensures value { result ≡ time_in_of text.now }
    ensures small { IfSome result (λ n. n < 2 ^ 62) }
{
    let number = read_decimal(text)?;
    if number < 0 || number >= 4611686018427387904 {
        return None;
    }
    Some(number as u64)
}

pub(crate) fn count_in(text: &str) -> Option<u32>
    ensures value { result ≡ count_in_of text.now }
    ensures some { IfSome result (λ n. 0 < n) }
    ensures small { IfSome result (λ n. n ≤ 1024) }
{
    let number = read_decimal(text)?;
    if number < 1 || number > 1024 {
        return None;
    }
    Some(number as u32)
}

pub(crate) fn verdict_in(text: &str) -> Option<u8>
    ensures value { result ≡ verdict_in_of text.now }
    ensures one { IfSome result (λ n. (n ≡ 0) ⊎ (n ≡ 8) ⊎ (n ≡ 12)) }
{
    match read_decimal(text)? {
        0 => Some(0),
        8 => Some(8),
        12 => Some(12),
        _ => None,
    }
}
