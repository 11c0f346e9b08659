//! Whole numbers as decimal text: an optional `-` and digits, as fields, properties and kept files have them.
//! Nothing that is written has a leading zero or a `+`. What is read may have leading zeros, and never a `+`.

ghost use Rattle.std.specs.Prelude.{◌≡◌, ◌++◌, OnOk, OnErr};
ghost use Rattle.mq_bytes.specs.Decimal.{digits_of, decimal, decimal_value};

use itoa::Buffer;
use std::alloc::AllocError;

/// Appends the digits of the number.
pub fn write_number(number: u64, out: &mut Vec<u8>) -> Result<(), AllocError>
    ensures ok { OnOk result (out.new.items ≡ out.old.items ++ digits_of number) }
    ensures err { OnErr result (out.new.items ≡ out.old.items) }
{
    out.extend_from_slice(Buffer::new().format(number).as_bytes())
}

/// Appends the digits of the number, behind a `-` where it is negative.
pub fn write_decimal(value: i64, out: &mut Vec<u8>) -> Result<(), AllocError>
    ensures ok { OnOk result (out.new.items ≡ out.old.items ++ decimal value) }
    ensures err { OnErr result (out.new.items ≡ out.old.items) }
{
    out.extend_from_slice(Buffer::new().format(value).as_bytes())
}

/// The number that the text writes: `None` where the text is not an optional `-` and one digit or more, or the number
/// is beyond 64 signed bits. Leading zeros and `-0` are fine; a `+` or a blank is not.
pub fn read_decimal(text: &str) -> Option<i64>
    ensures { result ≡ decimal_value text.now }
{
    // `parse` would take a `+`.
    if text.starts_with('+') {
        return None;
    }
    text.parse().ok()
}
