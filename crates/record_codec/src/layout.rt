//! The layout of a record. Numbers have the high byte first.
//!
//! |  at | bytes | field | |
//! |----:|------:|-------|-|
//! |   0 |     4 | total size | the sum of all lengths |
//! |   4 |     4 | magic | 0xDAA320A7 |
//! |   8 |     4 | body CRC | CRC-32 of the body without its highest bit |
//! |  12 |     4 | queue id | |
//! |  16 |     4 | flag | signed |
//! |  20 |     8 | queue offset | below 2^62 |
//! |  28 |     8 | physical offset | below 2^62 |
//! |  36 |     4 | sysflag | bits 16 and 32 aren't set |
//! |  40 |     8 | born time | below 2^62 |
//! |  48 |     8 | born host | IPv4 address 4, port 4 |
//! |  56 |     8 | store time | below 2^62 |
//! |  64 |     8 | store host | as the born host |
//! |  72 |     4 | reconsume times | signed |
//! |  76 |     8 | prepared transaction offset | below 2^62 |
//! |  84 |  4, n | body length, body | |
//! |     |  1, n | topic length, topic | 1 to 127 legal characters |
//! |     |  2, n | properties length, properties | each is name, byte 1, value, byte 2; the seal is the last |
//!
//! The seal is the property `SEAL` with eight upper-case hexadecimal digits: the CRC-32 of the whole record in which these digits are `0`.
//! So the sum covers every byte but the digits, and each record has one spelling.

ghost use Rattle.std.specs.Prelude.{◌≡◌, ◌+◌, ◌<◌, ◌≤◌, ◌^◌, ◌++◌, length, vec_len, None, OnOk, OnErr};
ghost use Rattle.std.specs.Int.{w64, from_be_bytes};
ghost use Rattle.std.specs.Vec.{vec_capacity};
ghost use Rattle.record_codec.specs.Drafts.{entry_of, draft_fault, draft_size, IsInRanges, IsEncodable};
ghost use Rattle.record_codec.specs.Layout.{numbers, numbers_text, fixed, layout, front, IsHost, IsRecord};
ghost use Rattle.record_codec.specs.Props.{written, AreProps};

use crate::append::{put, put_byte, put_u16, put_u32, put_u64};
use crate::draft::{Draft, Place};
use crate::seal::put_seal;
use std::alloc::AllocError;

pub(crate) const MAGIC: u32 = 0xDAA3_20A7;

/// The number that the eight bytes of a host spell.
fn host_number(host: [u8; 8]) -> u64
    ensures number { result ≡ from_be_bytes w64 host }
    ensures host { IsHost host }
{
    u64::from_be_bytes(host)
}

/// What stands before the body.
fn put_numbers(draft: &Draft, place: &Place, size: u32, out: &mut Vec<u8>)
    requires room { vec_len out.old + 88 ≤ vec_capacity out.old }
    requires size { size ≡ draft_size draft.now }
    ensures items { out.new.items ≡ out.old.items ++ numbers_text fixed (numbers (entry_of draft.now place.now)) }
    ensures len { vec_len out.new ≡ vec_len out.old + 88 }
    ensures room { vec_capacity out.old ≤ vec_capacity out.new }
    ensures ranges { IsInRanges draft.now }
{
    let body = draft.body.as_slice();
    put_u32(out, size);
    put_u32(out, MAGIC);
    put_u32(out, draft.body.sum() % 0x8000_0000);
    put_u32(out, draft.queue);
    put_u32(out, draft.flag.cast_unsigned());
    put_u64(out, place.queue_offset);
    put_u64(out, place.offset);
    put_u32(out, draft.sysflag);
    put_u64(out, draft.born);
    put_u64(out, host_number(draft.born_host));
    put_u64(out, place.store);
    put_u64(out, host_number(draft.store_host));
    put_u32(out, draft.reconsume.cast_unsigned());
    put_u64(out, draft.prepared);
    put_u32(out, body.len() as u32);
}

/// All before the digits of the seal.
fn put_front(draft: &Draft, place: &Place, size: u32, out: &mut Vec<u8>)
    requires encodable { IsEncodable draft.now place.now }
    requires room { vec_len out.old + size ≤ vec_capacity out.old }
    requires size { size ≡ draft_size draft.now }
    ensures items { out.new.items ≡ out.old.items ++ front (entry_of draft.now place.now) }
    ensures len { vec_len out.new + 9 ≡ vec_len out.old + size }
    ensures room { vec_capacity out.old ≤ vec_capacity out.new }
    ensures props { AreProps draft.now.props }
    ensures ranges { IsInRanges draft.now }
{
    let body = draft.body.as_slice();
    let topic = draft.topic.as_str().as_bytes();
    let stored = size as usize - 91 - body.len() - topic.len();
    put_numbers(draft, place, size, out);
    put(out, body);
    put_byte(out, topic.len() as u8);
    put(out, topic);
    put_u16(out, stored as u16);
    draft.props.put_into(out);
    put(out, b"SEAL\x01");
}

/// Appends the bytes of the record that the draft is at this place. After want of memory `out` is as before.
pub fn encode(draft: &Draft, place: &Place, out: &mut Vec<u8>) -> Result<(), AllocError>
    requires { IsEncodable draft.now place.now }
    ensures ok { OnOk result (out.new.items ≡ out.old.items ++ layout (entry_of draft.now place.now)) }
    ensures err { OnErr result (out.new.items ≡ out.old.items) }
    ensures a_record { OnOk result (IsRecord (entry_of draft.now place.now)) }
{
    let size = draft.size();
    out.reserve(size as usize)?;
    let start = out.len();
    put_front(draft, place, size, out);
    put_seal(out, start, &draft.body);
    Ok(())
}
