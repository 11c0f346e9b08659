//! Upper-case hexadecimal digits, as message ids and seals have them.

ghost use Rattle.std.specs.Prelude.{◌≡◌, ◌<◌, IfNone, IfSome};
ghost use Rattle.mq_bytes.specs.Hex.{hex_digit as hex_digit_of, IsHexDigit};

/// The digit for a number below 16: `0` to `9`, `A` to `F`.
pub fn hex_digit(d: u32) -> u8
    requires { d < 16 }
    ensures { result ≡ hex_digit_of d }
{
    if d < 10 {
        b'0' + d as u8
    } else {
        b'A' + (d - 10) as u8
    }
}

// The number that an upper-case digit stands for, or `None` where it is no such digit.
pub(crate) fn hex_value(digit: u8) -> Option<u8>
    ensures value { IfSome result (λ d. (d < 16) × (digit ≡ hex_digit_of d)) }
    ensures some { IfSome result (λ _. IsHexDigit digit) }
    ensures none { IfNone result (¬ (IsHexDigit digit)) }
{
    match digit {
        b'0'..=b'9' => Some(digit - b'0'),
        b'A'..=b'F' => Some(digit - b'A' + 10),
        _ => None,
    }
}
