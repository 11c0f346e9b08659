//! The hashes of tags and keys, as Java computes them: over the UTF-16 units of a text, not its bytes.
//! The hash of a tag is its tag code, and the hash of a key chooses its slot in an index file.

ghost use Rattle.std.specs.Prelude.{◌≡◌, ℕ, ◌+◌, ◌*◌, ◌%◌, ◌^◌, List, ◌++◌};
ghost use Rattle.std.specs.Str.{IsUtf8};
ghost use Rattle.std.specs.Int.Digits.{number_from_digits_after};
ghost use Rattle.std.specs.Char.Escape.{encode_utf16};
ghost use Rattle.mq_bytes.specs.Hashes.{utf16_units, java_hash as java_hash_of, absolute as absolute_of, key_hash as key_hash_of};

// The hash one UTF-16 unit on.
fn after_unit(hash: u32, unit: u32) -> u32
    ensures { result ≡ (hash * 31 + unit) % 2 ^ 32 }
{
    hash.wrapping_mul(31).wrapping_add(unit)
}

// The hash one character on: beyond the first 65,536 a character has two units.
fn after_char(hash: u32, c: char) -> u32
    ensures { result ≡ number_from_digits_after 31 hash (encode_utf16 c) % 2 ^ 32 }
{
    let code = c as u32;
    if code < 0x1_0000 {
        return after_unit(hash, code);
    }
    let beyond = code - 0x1_0000;
    after_unit(
        after_unit(hash, 0xD800 + beyond / 0x400),
        0xDC00 + beyond % 0x400,
    )
}

// The hash a text on.
fn after_text(start: u32, text: &str) -> u32
    ensures { result ≡ number_from_digits_after 31 start (utf16_units text.now) % 2 ^ 32 }
{
    let mut hash = start;
    for c in text.chars() {
        hash = after_char(hash, c);
    }
    hash
}

/// Java's `String.hashCode` of the text.
pub fn java_hash(text: &str) -> i32
    ensures { result ≡ java_hash_of text.now }
{
    after_text(0, text).cast_signed()
}

/// Java's `String.hashCode` of an earlier text, whose hash is `hash`, followed by this one.
pub fn java_hash_more(hash: i32, text: &str) -> i32
    ensures { (before : List ℕ) → IsUtf8 before → hash ≡ java_hash_of before → result ≡ java_hash_of (before ++ text.now) }
{
    after_text(hash.cast_unsigned(), text).cast_signed()
}

// The absolute value, and 0 for `i32::MIN`, which has none.
fn absolute(hash: i32) -> u32
    ensures { result ≡ absolute_of hash }
{
    let size = hash.unsigned_abs();
    if size == 1 << 31 { 0 } else { size }
}

/// The absolute value of `java_hash`, and 0 for `i32::MIN`, which has none.
#[tactic(auto, unfolding(crate::specs::Hashes::key_hash))]
pub fn key_hash(text: &str) -> u32
    ensures { result ≡ key_hash_of text.now }
{
    absolute(java_hash(text))
}

/// The `key_hash` of an earlier text, whose `java_hash` is `hash`, followed by this one.
pub fn key_hash_more(hash: i32, text: &str) -> u32
    ensures { (before : List ℕ) → IsUtf8 before → hash ≡ java_hash_of before → result ≡ key_hash_of (before ++ text.now) }
{
    absolute(java_hash_more(hash, text))
}
