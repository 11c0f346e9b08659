//! Writes a header in binary form, by the table of `binary_reader`: with 7, the language OTHER, and the pairs in byte
//! order.

ghost use Rattle.std.specs.Prelude.{◌≡◌, ◌+◌, ◌<◌, ◌^◌, ◌++◌, length, OnOk, OnErr, All, FitsSigned, Some};
ghost use Rattle.std.specs.Int.{w16, to_be_bytes, cast_unsigned};
ghost use Rattle.std.specs.List.{AllByRecursion};
ghost use Rattle.remoting_frame.specs.Head.{pairs_size};
ghost use Rattle.remoting_frame.specs.Binary.{binary_header};
ghost use Rattle.remoting_frame.specs.Appends.{KeepsFront};
ghost use Rattle.remoting_frame.specs.BinaryText.{Has16Bits, FitsLengths, IsPairOfTexts, AreTexts, sized, pair_text};
ghost use Rattle.remoting_frame.specs.BinaryText.{pairs_text, sized_pairs, numbers_text, binary_text};

use crate::fields::Fields;
use crate::header::Header;
use std::alloc::AllocError;

/// How many bytes the pairs have with their lengths.
pub(crate) fn size_of(pairs: &Fields) -> usize
    requires { pairs_size pairs.now < 2 ^ 31 }
    ensures { result ≡ pairs_size pairs.now }
{
    let mut size = 0;
    for index in 0..pairs.len() {
        let (name, value) = pairs.at(index);
        size += 6 + name.len() + value.len();
    }
    size
}

// A text behind its length.
#[tactic(auto, unfolding(crate::specs::BinaryText::sized))]
fn push_sized(text: &str, out: &mut Vec<u8>) -> Result<(), AllocError>
    requires { length text.now < 2 ^ 31 }
    ensures ok { OnOk result (out.new.items ≡ out.old.items ++ sized text.now) }
    ensures err { OnErr result (KeepsFront out.old.items out.new.items) }
{
    out.extend_from_slice(&(text.len() as u32).to_be_bytes())?;
    out.extend_from_slice(text.as_bytes())
}

#[tactic(auto, unfolding(crate::specs::BinaryText::pair_text))]
fn push_pair(name: &str, value: &str, out: &mut Vec<u8>) -> Result<(), AllocError>
    requires name { length name.now < 2 ^ 16 }
    requires value { length value.now < 2 ^ 31 }
    ensures ok { OnOk result (out.new.items ≡ out.old.items ++ pair_text (name.now, value.now)) }
    ensures err { OnErr result (KeepsFront out.old.items out.new.items) }
{
    out.extend_from_slice(&(name.len() as u16).to_be_bytes())?;
    out.extend_from_slice(name.as_bytes())?;
    push_sized(value, out)?;
    Ok(())
}

fn push_pairs(pairs: &Fields, out: &mut Vec<u8>) -> Result<(), AllocError>
    requires size { pairs_size pairs.now < 2 ^ 31 }
    requires names { All (λ p. length p.0 < 2 ^ 16) pairs.now }
    ensures ok { OnOk result (out.new.items ≡ out.old.items ++ pairs_text pairs.now) }
    ensures texts { OnOk result (AllByRecursion IsPairOfTexts pairs.now) }
    ensures err { OnErr result (KeepsFront out.old.items out.new.items) }
{
    for index in 0..pairs.len() {
        let (name, value) = pairs.at(index);
        push_pair(name, value, out)?;
    }
    Ok(())
}

// The pairs behind their length.
#[tactic(auto, unfolding(crate::specs::BinaryText::sized_pairs))]
fn push_sized_pairs(pairs: &Fields, out: &mut Vec<u8>) -> Result<(), AllocError>
    requires size { pairs_size pairs.now < 2 ^ 31 }
    requires names { All (λ p. length p.0 < 2 ^ 16) pairs.now }
    ensures ok { OnOk result (out.new.items ≡ out.old.items ++ sized_pairs pairs.now) }
    ensures texts { OnOk result (AllByRecursion IsPairOfTexts pairs.now) }
    ensures err { OnErr result (KeepsFront out.old.items out.new.items) }
{
    out.extend_from_slice(&(size_of(pairs) as u32).to_be_bytes())?;
    push_pairs(pairs, out)?;
    Ok(())
}

fn two_bytes(number: i32) -> [u8; 2]
    requires { FitsSigned w16 number }
    ensures { result ≡ to_be_bytes w16 (cast_unsigned w16 number) }
{
    (number as i16).to_be_bytes()
}

// The header's numbers around the language OTHER.
fn numbers(code: i32, version: i32, opaque: i32, flag: i32) -> [u8; 13]
    requires code { FitsSigned w16 code }
    requires version { FitsSigned w16 version }
    ensures { result ≡ numbers_text code 7 version opaque flag }
{
    let code = two_bytes(code);
    let version = two_bytes(version);
    let opaque = opaque.to_be_bytes();
    let flag = flag.to_be_bytes();
    [
        code[0], code[1], 7, version[0], version[1], opaque[0], opaque[1], opaque[2], opaque[3],
        flag[0], flag[1], flag[2], flag[3],
    ]
}

/// Appends the header's binary form, or a part of it where memory runs out. Its texts are UTF-8.
#[tactic(auto, unfolding(crate::specs::BinaryText::header_bytes))]
pub(crate) fn push_header(header: &Header, out: &mut Vec<u8>) -> Result<(), AllocError>
    requires bits { Has16Bits header.now }
    requires lengths { FitsLengths header.now }
    ensures ok { OnOk result (out.new.items ≡ out.old.items ++ binary_text header.now) }
    ensures texts { OnOk result (AreTexts header.now) }
    ensures err { OnErr result (KeepsFront out.old.items out.new.items) }
{
    out.extend_from_slice(&numbers(header.code, header.version, header.opaque, header.flag))?;
    push_sized(header.remark.as_str(), out)?;
    push_sized_pairs(&header.ext, out)?;
    Ok(())
}

/// Appends the header's binary form, which reads as the header.
pub(crate) fn write_binary(header: &Header, out: &mut Vec<u8>) -> Result<(), AllocError>
    requires bits { Has16Bits header.now }
    requires lengths { FitsLengths header.now }
    ensures text { OnOk result (out.new.items ≡ out.old.items ++ binary_text header.now) }
    ensures again { OnOk result (binary_header (binary_text header.now) ≡ Some header.now) }
    ensures err { OnErr result (out.new.items ≡ out.old.items) }
{
    // Read once, so that their 32 bits are known of them below.
    let _numbers = (header.opaque, header.flag);
    let start = out.len();
    match push_header(header, out) {
        Ok(()) => Ok(()),
        Err(_) => {
            out.truncate(start);
            Err(AllocError)
        }
    }
}
