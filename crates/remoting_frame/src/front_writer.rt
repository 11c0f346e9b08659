//! Writes the front of a frame, which is all of it but the body: the two words, and the header behind them.

ghost use Rattle.std.specs.Prelude.{◌≡◌, ◌+◌, ◌<◌, ◌^◌, ◌++◌, length, OnOk, OnErr, Some};
ghost use Rattle.remoting_frame.specs.Head.{IsShort};
ghost use Rattle.remoting_frame.specs.Appends.{KeepsFront};
ghost use Rattle.remoting_frame.specs.BinaryText.{Has16Bits, FitsLengths, AreTexts, binary_text};
ghost use Rattle.remoting_frame.specs.Binary.{binary_header};
ghost use Rattle.remoting_frame.specs.Json.{json_header};
ghost use Rattle.remoting_frame.specs.Written.{json_text};
ghost use Rattle.remoting_frame.specs.Headers.{words, front_bytes};
ghost use Rattle.remoting_frame.specs.declared.frame.Form.TheVariants.{Json, Binary};

use crate::binary_writer::{push_header, size_of};
use crate::frame::FORM_UNIT;
use crate::header::Header;
use crate::json_writer::text_of;
use std::alloc::{AllocError, Global};

// The frame's length, and the form with the header's length.
#[tactic(auto, unfolding(crate::specs::Headers::words))]
fn push_words(form: u32, header_len: u32, body: u32, out: &mut Vec<u8>) -> Result<(), AllocError>
    requires byte { form < 256 }
    requires header_within { header_len < 2 ^ 24 }
    requires body_within { body < 2 ^ 30 }
    ensures ok { OnOk result (out.new.items ≡ out.old.items ++ words form header_len body) }
    ensures err { OnErr result (KeepsFront out.old.items out.new.items) }
{
    out.extend_from_slice(&(4 + header_len + body).to_be_bytes())?;
    out.extend_from_slice(&(form * FORM_UNIT + header_len).to_be_bytes())
}

fn push_front(form: u32, header: &[u8], body: u32, out: &mut Vec<u8>) -> Result<(), AllocError>
    requires byte { form < 256 }
    requires header_within { length header.now < 2 ^ 24 }
    requires body_within { body < 2 ^ 30 }
    ensures ok { OnOk result (out.new.items ≡ out.old.items ++ (words form (length header.now) body ++ header.now)) }
    ensures err { OnErr result (KeepsFront out.old.items out.new.items) }
{
    push_words(form, header.len() as u32, body, out)?;
    out.extend_from_slice(header)
}

fn push_binary_front(header: &Header, body: u32, out: &mut Vec<u8>) -> Result<(), AllocError>
    requires bits { Has16Bits header.now }
    requires lengths { FitsLengths header.now }
    requires short { IsShort header.now }
    requires within { body < 2 ^ 30 }
    ensures ok { OnOk result (out.new.items ≡ out.old.items ++ front_bytes Binary header.now body) }
    ensures texts { OnOk result (AreTexts header.now) }
    ensures err { OnErr result (KeepsFront out.old.items out.new.items) }
{
    let header_len = 21 + header.remark.as_str().len() + size_of(&header.ext);
    push_words(1, header_len as u32, body, out)?;
    push_header(header, out)?;
    Ok(())
}

/// Appends the front of a frame with the header in binary form, which `body` bytes are to follow.
pub(crate) fn write_binary_front(
    header: &Header,
    body: u32,
    out: &mut Vec<u8>,
) -> Result<(), AllocError>
    requires bits { Has16Bits header.now }
    requires lengths { FitsLengths header.now }
    requires short { IsShort header.now }
    requires within { body < 2 ^ 30 }
    ensures front { OnOk result (out.new.items ≡ out.old.items ++ front_bytes Binary header.now body) }
    ensures again { OnOk result (binary_header (binary_text header.now) ≡ Some header.now) }
    ensures small { OnOk result (length (binary_text header.now) < 2 ^ 20) }
    ensures err { OnErr result (out.new.items ≡ out.old.items) }
{
    // Read once, so that their 32 bits are known of them below.
    let _numbers = (header.opaque, header.flag);
    let start = out.len();
    match push_binary_front(header, body, out) {
        Ok(()) => Ok(()),
        Err(_) => {
            out.truncate(start);
            Err(AllocError)
        }
    }
}

/// Appends the front of a frame with the header in JSON form, which `body` bytes are to follow.
pub(crate) fn write_json_front(
    alloc: Global,
    header: &Header,
    body: u32,
    out: &mut Vec<u8>,
) -> Result<(), AllocError>
    requires short { IsShort header.now }
    requires within { body < 2 ^ 30 }
    ensures front { OnOk result (out.new.items ≡ out.old.items ++ front_bytes Json header.now body) }
    ensures again { OnOk result (json_header (json_text header.now) ≡ Some header.now) }
    ensures small { OnOk result (length (json_text header.now) < 2 ^ 20) }
    ensures err { OnErr result (out.new.items ≡ out.old.items) }
{
    let text = text_of(alloc, header)?;
    let start = out.len();
    match push_front(0, text.as_slice(), body, out) {
        Ok(()) => Ok(()),
        Err(_) => {
            out.truncate(start);
            Err(AllocError)
        }
    }
}
