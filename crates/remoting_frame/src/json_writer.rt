//! Writes a header in JSON form: the compact text of one object, whose names are `code`, `extFields`, `flag`,
//! `language`, `opaque`, `remark` (only where it isn't empty), `serializeTypeCurrentRPC` and `version`, in this order.

ghost use Rattle.std.specs.Prelude.{◌≡◌, ◌<◌, ◌^◌, ◌++◌, ◌∷◌, [], length, OnOk, OnErr, IfOk, Some};
ghost use Rattle.json.specs.Token.{begin_object, key, string, number};
ghost use Rattle.json.specs.Tree.{members_tokens};
ghost use Rattle.serde_json.specs.Find.{of_integer};
ghost use Rattle.serde_json.specs.Written.{number_text, members_outline};
ghost use Rattle.remoting_frame.specs.Json.{json_header};
ghost use Rattle.remoting_frame.specs.Head.{IsShort};
ghost use Rattle.remoting_frame.specs.Tokens.{remark_tokens, first_tokens, last_tokens};
ghost use Rattle.remoting_frame.specs.Written.{texts, json_text};

use crate::fields::Fields;
use crate::header::Header;
use json::Writer;
use std::alloc::{AllocError, Global};

// How many bytes are asked for at first, which are enough for most headers.
const ROOM: usize = 256;

// A name with a whole number.
fn put_number(out: &mut Writer, name: &str, whole: i32) -> Result<(), AllocError>
    ensures ok { OnOk result (out.new.tokens ≡ out.old.tokens ++ key name.now ∷ number (number_text (of_integer whole)) ∷ []) }
    ensures before { out.new.before ≡ out.old.before }
{
    out.key(name)?;
    out.i64(whole as i64)
}

// A name with a text.
fn put_text(out: &mut Writer, name: &str, text: &str) -> Result<(), AllocError>
    ensures ok { OnOk result (out.new.tokens ≡ out.old.tokens ++ key name.now ∷ string text.now ∷ []) }
    ensures before { out.new.before ≡ out.old.before }
{
    out.key(name)?;
    out.string(text)
}

// An object of names with their texts.
fn put_texts(out: &mut Writer, pairs: &Fields) -> Result<(), AllocError>
    ensures ok { OnOk result (out.new.tokens ≡ out.old.tokens ++ begin_object ∷ members_tokens (members_outline (texts pairs.now))) }
    ensures before { out.new.before ≡ out.old.before }
{
    out.begin_object()?;
    for index in 0..pairs.len() {
        let (name, text) = pairs.at(index);
        put_text(out, name, text)?;
    }
    out.end_object()
}

// The remark with its name, only where it isn't empty.
fn put_remark(out: &mut Writer, remark: &str) -> Result<(), AllocError>
    ensures ok { OnOk result (out.new.tokens ≡ out.old.tokens ++ remark_tokens remark.now) }
    ensures before { out.new.before ≡ out.old.before }
{
    if remark.is_empty() {
        return Ok(());
    }
    put_text(out, "remark", remark)
}

// What stands in front of the remark.
fn put_first(out: &mut Writer, header: &Header) -> Result<(), AllocError>
    ensures ok { OnOk result (out.new.tokens ≡ out.old.tokens ++ first_tokens header.now) }
    ensures before { out.new.before ≡ out.old.before }
{
    out.begin_object()?;
    put_number(out, "code", header.code)?;
    out.key("extFields")?;
    put_texts(out, &header.ext)?;
    put_number(out, "flag", header.flag)?;
    put_text(out, "language", "OTHER")?;
    put_number(out, "opaque", header.opaque)
}

// The remark and what stands behind it.
fn put_last(out: &mut Writer, header: &Header) -> Result<(), AllocError>
    ensures ok { OnOk result (out.new.tokens ≡ out.old.tokens ++ last_tokens header.now) }
    ensures before { out.new.before ≡ out.old.before }
{
    put_remark(out, header.remark.as_str())?;
    put_text(out, "serializeTypeCurrentRPC", "JSON")?;
    put_number(out, "version", header.version)?;
    out.end_object()
}

/// The header's JSON text, which reads as the header.
pub(crate) fn text_of(alloc: Global, header: &Header) -> Result<Vec<u8>, AllocError>
    ensures text { IfOk result (λ text. text.items ≡ json_text header.now) }
    ensures again { OnOk result (json_header (json_text header.now) ≡ Some header.now) }
    ensures short { OnOk result (IsShort header.now → length (json_text header.now) < 2 ^ 20) }
{
    // Read once, so that their 32 bits are known of them below.
    let _numbers = (header.code, header.version, header.opaque, header.flag);
    let mut out = Writer::new(Vec::with_capacity(alloc, ROOM)?);
    put_first(&mut out, header)?;
    put_last(&mut out, header)?;
    Ok(out.into_inner())
}

/// Appends the header's JSON text, which reads as the header.
pub(crate) fn write_json(
    alloc: Global,
    header: &Header,
    out: &mut Vec<u8>,
) -> Result<(), AllocError>
    ensures text { OnOk result (out.new.items ≡ out.old.items ++ json_text header.now) }
    ensures again { OnOk result (json_header (json_text header.now) ≡ Some header.now) }
    ensures err { OnErr result (out.new.items ≡ out.old.items) }
{
    let text = text_of(alloc, header)?;
    out.extend_from_slice(text.as_slice())
}
