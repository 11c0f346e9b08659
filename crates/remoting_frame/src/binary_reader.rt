//! Reads a header in binary form. Numbers have the high byte first; code, version, opaque and flag are signed.
//!
//! | at     | bytes | field           |                                                              |
//! |-------:|------:|-----------------|--------------------------------------------------------------|
//! | 0      | 2     | `code`          |                                                              |
//! | 2      | 1     | `language`      | any, read over                                               |
//! | 3      | 2     | `version`       |                                                              |
//! | 5      | 4     | `opaque`        |                                                              |
//! | 9      | 4     | `flag`          |                                                              |
//! | 13     | 4     | `remark_length` | R, below 2^31                                                |
//! | 17     | R     | `remark`        | UTF-8                                                        |
//! | 17 + R | 4     | `ext_length`    | E, below 2^31: the header ends E bytes behind it             |
//! | 21 + R | E     | pairs           | each: name length 2, name, value length 4 (below 2^31), value |
//!
//! Names and values are UTF-8. Of a name that comes twice the last value counts, but each pair has to be well formed.
//!
//! Each pair is put at the place of its name as it is read. Where there are many, and their names don't ascend, a map sorts
//! them.

ghost use Rattle.std.specs.Prelude.{◌≡◌, ℕ, List, [], ◌+◌, ◌<◌, ◌≤◌, length, string_bytes, option_map, Some, IsTrue, IfOk, IfErr, IfSome};
ghost use Rattle.remoting_frame.specs.Gives.{Fails, Gives};
ghost use Rattle.remoting_frame.specs.Head.{IsInOrder};
ghost use Rattle.remoting_frame.specs.BinaryText.{Has16Bits, FitsLengths};
ghost use Rattle.remoting_frame.specs.NameMaps.{pairs_view};
ghost use Rattle.remoting_frame.specs.Binary.{text_of, lens_of, first_pair, put_first_of, binary_pairs, by_name};
ghost use Rattle.remoting_frame.specs.Binary.{remark_len_of, binary_header};
ghost use Rattle.remoting_frame.specs.declared.fault.HeaderFault.TheVariants.{Memory};

use crate::fault::HeaderFault;
use crate::fields::Fields;
use crate::header::Header;
use crate::numbers::{i16_at, i32_at, u16_at, u32_at};
use mq_bytes::Text;
use std::alloc::{AllocError, Global};
use std::collections::BTreeMap;

// For how many pairs room is taken at first, which is enough for most headers.
pub(crate) const FEW: usize = 16;

// From how many pairs on a pair is only put behind the others. Pairs in any order would take time that grows with the square
// of their number if each were put among all before it.
const MANY: usize = 64;

fn str_in(bytes: &[u8]) -> Option<&str>
    ensures { option_map (λ text. text.now) result ≡ text_of bytes.now }
{
    // Only whether there is a text is asked, since one that is given comes back through memory, and this is called twice a pair.
    if str::from_utf8(bytes).is_err() {
        return None;
    }
    Some(unsafe { str::from_utf8_unchecked(bytes) })
}

fn text_from(alloc: Global, bytes: &[u8]) -> Result<String, HeaderFault>
    ensures { Gives string_bytes result (text_of bytes.now) }
{
    match str_in(bytes) {
        Some(text) => Ok(String::from_str(alloc, text)?),
        None => Err(HeaderFault::Bad),
    }
}

// How long the name and the value of the first pair are, if they fit.
#[tactic(auto, unfolding(crate::specs::Binary::lens_of, crate::specs::Binary::name_len_of, crate::specs::Binary::value_len_of))]
fn pair_lens(bytes: &[u8]) -> Option<(usize, usize)>
    ensures lens { result ≡ lens_of bytes.now }
    ensures within { IfSome result (λ lens. 6 + lens.0 + lens.1 ≤ length bytes.now) }
{
    if bytes.len() < 6 {
        return None;
    }
    let name = u16_at(bytes, 0) as usize;
    if bytes.len() < 6 + name {
        return None;
    }
    let value = u32_at(bytes, 2 + name) as usize;
    if !(value < 0x8000_0000) || bytes.len() < 6 + name + value {
        return None;
    }
    Some((name, value))
}

// The name and the value of the first pair, and the bytes behind it.
fn first_of<'a>(bytes: &'a [u8]) -> Option<(&'a str, &'a str, &'a [u8])>
    ensures pair { option_map (λ first. ((first.0.now, first.1.now), first.2.now)) result ≡ first_pair bytes.now }
    ensures shorter { IfSome result (λ first. length first.2.now < length bytes.now) }
{
    let Some((name_len, value_len)) = pair_lens(bytes) else {
        return None;
    };
    let Some(name) = str_in(&bytes[2..2 + name_len]) else {
        return None;
    };
    let Some(value) = str_in(&bytes[6 + name_len..6 + name_len + value_len]) else {
        return None;
    };
    Some((name, value, &bytes[6 + name_len + value_len..]))
}

// Whether a pair of this name is put without moving many others: there are few, or all have names below it.
pub(crate) fn moves_few(name: &str, pairs: &Fields) -> bool {
    let count = pairs.len();
    if count < MANY {
        return true;
    }
    let (last, _) = pairs.at(count - 1);
    last < name
}

// Puts the pairs as long as each moves few others. Whether that was so to the end.
fn put_pairs(bytes: &[u8], pairs: &mut Fields) -> Result<bool, HeaderFault>
    requires { pairs.old ≡ [] }
    ensures all { IfOk result (λ all. IsTrue all → option_map by_name (binary_pairs bytes.now) ≡ Some pairs.new) }
    ensures ordered { IfOk result (λ all. IsTrue all → IsInOrder pairs.new) }
    ensures fault { IfErr result (λ fault. Fails fault (option_map by_name (binary_pairs bytes.now))) }
{
    let mut rest = bytes;
    while !rest.is_empty() {
        let Some((name, value, behind)) = first_of(rest) else {
            return Err(HeaderFault::Bad);
        };
        if !moves_few(name, pairs) {
            return Ok(false);
        }
        pairs.put(name, value)?;
        rest = behind;
    }
    Ok(true)
}

// Puts the first pair into the map, and hands out the bytes behind it.
fn put_first<'a>(
    alloc: Global,
    map: &mut BTreeMap<String, String>,
    bytes: &'a [u8],
) -> Result<&'a [u8], HeaderFault>
    ensures shorter { IfOk result (λ rest. length rest.now < length bytes.now) }
    ensures pair { Gives {Y = List (List ℕ × List ℕ) × List ℕ} (λ rest. (
      pairs_view map.new.entries,
      rest.now,
    )) result (put_first_of (pairs_view map.old.entries) bytes.now) }
{
    let Some((name, value, rest)) = first_of(bytes) else {
        return Err(HeaderFault::Bad);
    };
    let name = String::from_str(alloc, name)?;
    let value = String::from_str(alloc, value)?;
    map.insert(name, value)?;
    Ok(rest)
}

fn map_from(alloc: Global, bytes: &[u8]) -> Result<BTreeMap<String, String>, HeaderFault>
    ensures { Gives (λ m. pairs_view m.entries) result (option_map by_name (binary_pairs bytes.now)) }
{
    let mut map = BTreeMap::new(alloc);
    let mut rest = bytes;
    while !rest.is_empty() {
        rest = put_first(alloc, &mut map, rest)?;
    }
    Ok(map)
}

// The pairs of a map, which have so many bytes at most.
fn fields_of(
    alloc: Global,
    map: BTreeMap<String, String>,
    room: usize,
) -> Result<Fields, AllocError>
    ensures pairs { IfOk result (λ r. r ≡ pairs_view map.entries) }
    ensures ordered { IfOk result IsInOrder }
{
    let mut pairs = Fields::with_room(alloc, map.len(), room)?;
    for (name, value) in map {
        pairs.push(name.as_str(), value.as_str())?;
    }
    Ok(pairs)
}

// The pairs, which come in any order.
fn sorted_from(alloc: Global, bytes: &[u8]) -> Result<Fields, HeaderFault>
    ensures pairs { Gives (λ r. r) result (option_map by_name (binary_pairs bytes.now)) }
    ensures ordered { IfOk result IsInOrder }
{
    let map = map_from(alloc, bytes)?;
    Ok(fields_of(alloc, map, bytes.len())?)
}

fn pairs_from(alloc: Global, bytes: &[u8]) -> Result<Fields, HeaderFault>
    ensures pairs { Gives (λ r. r) result (option_map by_name (binary_pairs bytes.now)) }
    ensures ordered { IfOk result IsInOrder }
{
    let few = usize::min(bytes.len() / 6, FEW);
    let mut pairs = Fields::with_room(alloc, few, bytes.len())?;
    if put_pairs(bytes, &mut pairs)? {
        return Ok(pairs);
    }
    sorted_from(alloc, bytes)
}

// How long the remark is, where it fits and the pairs end with the bytes.
#[tactic(auto, unfolding(crate::specs::Binary::remark_len_of, crate::specs::Binary::remark_fits, crate::specs::Binary::ext_len_of))]
fn remark_len(bytes: &[u8]) -> Option<usize>
    ensures len { result ≡ remark_len_of bytes.now }
    ensures within { IfSome result (λ len. 21 + len ≤ length bytes.now) }
{
    if bytes.len() < 21 {
        return None;
    }
    let remark = u32_at(bytes, 13) as usize;
    if !(remark < 0x8000_0000) || bytes.len() < 21 + remark {
        return None;
    }
    let ext = u32_at(bytes, 17 + remark) as usize;
    if ext < 0x8000_0000 && bytes.len() == 21 + remark + ext {
        Some(remark)
    } else {
        None
    }
}

/// The header that the bytes are in binary form. It can be written in that form again.
#[tactic(auto, unfolding(crate::specs::Binary::binary_header))]
pub(crate) fn read_binary(alloc: Global, bytes: &[u8]) -> Result<Header, HeaderFault>
    ensures header { Gives (λ h. h) result (binary_header bytes.now) }
    ensures memory { IfErr result (λ e. e ≡ Memory → 0 < length bytes.now) }
    ensures bits { IfOk result Has16Bits }
    ensures lengths { IfOk result FitsLengths }
{
    let Some(remark_len) = remark_len(bytes) else {
        return Err(HeaderFault::Bad);
    };
    let remark = text_from(alloc, &bytes[17..17 + remark_len])?;
    let ext = pairs_from(alloc, &bytes[21 + remark_len..])?;
    Ok(Header {
        code: i16_at(bytes, 0),
        version: i16_at(bytes, 3),
        opaque: i32_at(bytes, 5),
        flag: i32_at(bytes, 9),
        remark: Text::of(remark),
        ext,
    })
}
