//! What holds of the forms of this crate whatever a program does. Each function here states a law in its contract and
//! does nothing: call it where a proof needs the law, or cite the lemma behind it.

ghost use Rattle.std.specs.Prelude.{◌≡◌, ℕ, ◌+◌, ◌^◌, ◌<◌, ◌++◌, List, ◌∷◌, length, ℤ, pos, negsuc, Some, FitsSigned, slice_index, codes};
ghost use Rattle.std.specs.Int.{w64};
ghost use Rattle.std.specs.Str.Parse.{IsNumeral, digits_value};
ghost use Rattle.mq_bytes.specs.Bytes.{AreBytes};
ghost use Rattle.mq_bytes.specs.Crc.{crc_of, crc_more};
ghost use Rattle.mq_bytes.specs.Decimal.{digits_of, decimal, decimal_value};
ghost use Rattle.mq_bytes.specs.Names.{twenty_digits, log_file};

/// The checksum of bytes goes on where that of the bytes before them ended.
pub fn crc_joins()
    ensures { (first second : List ℕ) → AreBytes first
        → crc_more (crc_of first) second ≡ crc_of (first ++ second) }
{}

/// The digits of a number are digits, are its own, and begin with no zero that could be left out.
pub fn digits_are_plain()
    ensures numeral { (n : ℕ) → n < 2 ^ 64 → IsNumeral 10 (digits_of n) }
    ensures own { (n : ℕ) → n < 2 ^ 64 → digits_value 10 (digits_of n) ≡ n }
    ensures first { (n : ℕ) → 0 < n → n < 2 ^ 64 → 48 < slice_index (digits_of n) 0 }
    ensures zero { digits_of 0 ≡ codes "0" }
{}

/// A number is written by its digits, behind a `-` where it is negative.
pub fn decimals_are_digits()
    ensures plain { (n : ℕ) → decimal (pos n) ≡ digits_of n }
    ensures negative { (n : ℕ) → decimal (negsuc n) ≡ 45 ∷ digits_of (n + 1) }
{}

/// What `write_decimal` writes, `read_decimal` reads as the same number.
pub fn decimals_read_back()
    ensures { (value : ℤ) → FitsSigned w64 value → decimal_value (decimal value) ≡ Some value }
{}

/// A segment's name is 20 digits, which write its offset.
pub fn names_are_digits()
    ensures length { (n : ℕ) → length (twenty_digits n) ≡ 20 }
    ensures own { (n : ℕ) → n < 2 ^ 64 → digits_value 10 (twenty_digits n) ≡ n }
{}

/// Segments at different offsets have different names, and so have their files in the log's folder.
pub fn names_are_apart()
    ensures segments { (a b : ℕ) → a < 2 ^ 64 → b < 2 ^ 64
        → twenty_digits a ≡ twenty_digits b → a ≡ b }
    ensures files { (a b : ℕ) → a < 2 ^ 64 → b < 2 ^ 64 → log_file a ≡ log_file b → a ≡ b }
{}
