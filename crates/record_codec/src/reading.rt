//! Whether bytes begin with a record's layout. Nothing is copied.

ghost use Rattle.std.specs.Prelude.{◌≡◌, ◌+◌, ◌≤◌, ◌^◌, ◌++◌, List, ℕ, length, take, nat_lt, Some, IfSome, IfNone};
ghost use Rattle.record_codec.specs.Entry.{Entry};
ghost use Rattle.record_codec.specs.Fronts.{front_size};
ghost use Rattle.record_codec.specs.InPlace.{has_fields as has_fields_of, are_props as are_props_of};
ghost use Rattle.record_codec.specs.Layout.{are_low as are_low_of, layout, size, IsRecord};
ghost use Rattle.record_codec.specs.LengthsViews.{lengths_view};
ghost use Rattle.record_codec.specs.Parsed.{parsed, end_of, is_spelled as is_spelled_of};

use crate::layout::MAGIC;
use crate::lengths::{Lengths, lengths_of, u32_at, u64_at};
use crate::scan::{are_distinct, are_written, has_name};
use crate::seal::{seal_end, sum_of};
use crate::sysflag::HOSTS_LONG;
use crate::topic::is_legal;
use crate::view::View;
use mq_bytes::crc32;

/// Offsets and times are below 2^62.
const LIMIT: u64 = 0x4000_0000_0000_0000;

fn are_low(numbers: &[u64]) -> bool
    ensures { result ≡ are_low_of numbers.now }
{
    for number in numbers {
        if *number >= LIMIT {
            return false;
        }
    }
    true
}

#[tactic(auto, unfolding(crate::specs::InPlace::has_fields))]
fn has_fields(bytes: &[u8], lengths: &Lengths) -> bool
    requires { end_of (lengths_view lengths.now) ≤ length bytes.now }
    ensures { result ≡ has_fields_of bytes.now (lengths_view lengths.now) }
{
    let from = 89 + lengths.body as usize;
    if !is_legal(&bytes[from..from + lengths.topic as usize]) {
        return false;
    }
    if u32_at(bytes, 36) & HOSTS_LONG != 0 {
        return false;
    }
    are_low(&[
        u64_at(bytes, 20),
        u64_at(bytes, 28),
        u64_at(bytes, 40),
        u64_at(bytes, 56),
        u64_at(bytes, 76),
    ])
}

#[tactic(auto, unfolding(crate::specs::Parsed::is_spelled))]
fn is_spelled(bytes: &[u8], lengths: &Lengths) -> bool
    requires { end_of (lengths_view lengths.now) ≤ length bytes.now }
    ensures { result ≡ is_spelled_of bytes.now (lengths_view lengths.now) }
{
    let body = lengths.body as usize;
    let name = 91 + body + lengths.topic as usize + lengths.props as usize;
    if u32_at(bytes, 4) != MAGIC {
        return false;
    }
    if u32_at(bytes, 8) != crc32(&bytes[88..88 + body]) % 0x8000_0000 {
        return false;
    }
    if &bytes[name..name + 5] != b"SEAL\x01".as_slice() {
        return false;
    }
    let end = seal_end(sum_of(&bytes[..name + 5]));
    &bytes[name + 5..name + 14] == end.as_slice()
}

#[tactic(auto, unfolding(crate::specs::InPlace::are_props))]
fn are_props(text: &[u8]) -> bool
    ensures { result ≡ are_props_of text.now }
{
    if !are_written(text) {
        return false;
    }
    if !are_distinct(text) || has_name(b"SEAL", text) {
        return false;
    }
    std::str::from_utf8(text).is_ok()
}

fn view_of(bytes: &[u8]) -> Option<View<'_>>
    ensures { result ≡ parsed bytes.now }
{
    let lengths = lengths_of(bytes)?;
    let from = 91 + lengths.body as usize + lengths.topic as usize;
    let text = &bytes[from..from + lengths.props as usize];
    if !has_fields(bytes, &lengths) || !is_spelled(bytes, &lengths) || !are_props(text) {
        return None;
    }
    Some(View {
        bytes,
        body: lengths.body,
        topic: lengths.topic,
        props: lengths.props,
    })
}

/// The record whose layout stands at the front of these bytes, whatever follows it. Takes no memory.
pub fn test(bytes: &[u8]) -> Option<View<'_>>
    ensures exact { result ≡ parsed bytes.now }
    ensures found { IfSome result (λ r. IsRecord r × ((rest : List ℕ) × (bytes.now ≡ layout r ++ rest))) }
    ensures none { IfNone result ((r : Entry) (rest : List ℕ) → IsRecord r → bytes.now ≡ layout r ++ rest → ⊥) }
{
    view_of(bytes)
}

#[tactic(auto, unfolding(crate::specs::Fronts::front_size))]
fn size_at_front(bytes: &[u8]) -> Option<u32>
    ensures { result ≡ front_size bytes.now }
{
    if bytes.len() < 8 || u32_at(bytes, 4) != MAGIC {
        return None;
    }
    Some(u32_at(bytes, 0))
}

/// The size that the record at the front says, where these bytes begin as one does. Eight bytes of a record suffice; whether
/// the rest of it stands there, `test` tells.
pub fn size_in_front(bytes: &[u8]) -> Option<u32>
    ensures exact { result ≡ front_size bytes.now }
    ensures enough { (r : Entry) (rest : List ℕ) (n : ℕ) → IsRecord r → 8 ≤ n → bytes.now ≡ take n (layout r ++ rest)
        → result ≡ Some (size r) }
{
    size_at_front(bytes)
}
