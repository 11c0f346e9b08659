//! A number as the command line and the format write it: decimal digits, without sign or leading zero.

ghost use Rattle.std.specs.Prelude.{◌≡◌, ℕ, ◌≤◌, Some, IfSome};
ghost use Rattle.mq_bytes.specs.Decimal.{digits_of};

use itoa::Buffer;

/// The number from `low` to `high` that the text writes.
pub(crate) fn read_number(text: &str, low: u32, high: u32) -> Option<u32>
    ensures found { IfSome result (λ n. text.now ≡ digits_of n) }
    ensures within { IfSome result (λ n. (low ≤ n) × (n ≤ high)) }
    ensures exact { (n : ℕ) → text.now ≡ digits_of n → low ≤ n → n ≤ high → result ≡ Some n }
{
    let Ok(n) = text.parse::<u32>() else {
        return None;
    };
    // `parse` takes a `+` and leading zeros, which are in no number that is written.
    if n < low || n > high || Buffer::new().format(n) != text {
        return None;
    }
    Some(n)
}
