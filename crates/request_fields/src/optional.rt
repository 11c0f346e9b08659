//! Reads the fields of a header that may be absent, each as its kind.

ghost use Rattle.std.specs.Prelude.{◌≡◌, None, IfOk};
ghost use Rattle.request_fields.specs.Kinds.{name as name_kind, i32 as i32_kind, i64 as i64_kind, untrue as untrue_kind};
ghost use Rattle.record_codec.specs.Props.{value_of};
ghost use Rattle.request_fields.specs.Values.{text_at, i32_or, i64_or};
ghost use Rattle.request_fields.specs.Faults.{optional_fault};
ghost use Rattle.request_fields.specs.Gives.{Gives};
ghost use Rattle.request_fields.specs.Requests.{IsFieldNameOrEmpty};

use crate::fault::RequestFault;
use crate::kinds::{i32_in, is_name};
use crate::needed::{bad_number, field, given};
use crate::texts::copy_of;
use mq_bytes::{Text, read_decimal};
use remoting_frame::Header;
use std::alloc::Global;

/// The text, empty where it is absent.
#[tactic(auto, unfolding(crate::specs::Values::text_at))]
pub(crate) fn optional_text(
    alloc: Global,
    header: &Header,
    name: &str,
) -> Result<Text, RequestFault>
    ensures { Gives result None (text_at name.now header.now.ext) }
{
    match field(header, name) {
        None => Ok(Text::of(String::new(alloc))),
        Some(text) => Ok(copy_of(alloc, text)?),
    }
}

#[tactic(auto, unfolding(crate::specs::Faults::given_fault, crate::specs::Faults::kind_fault, crate::specs::Values::text_at))]
pub(crate) fn optional_name(
    alloc: Global,
    header: &Header,
    name: &str,
) -> Result<Text, RequestFault>
    ensures value { Gives result (optional_fault name_kind name.now (value_of name.now header.now.ext)) (text_at name.now header.now.ext) }
    ensures kept { IfOk result IsFieldNameOrEmpty }
{
    let Some(text) = field(header, name) else {
        return Ok(Text::of(String::new(alloc)));
    };
    if !is_name(text) {
        return Err(bad_number(alloc, name));
    }
    Ok(copy_of(alloc, text)?)
}

#[tactic(auto, unfolding(crate::specs::Faults::given_fault, crate::specs::Faults::kind_fault, crate::specs::Values::i32_or))]
pub(crate) fn optional_i32(
    alloc: Global,
    header: &Header,
    name: &str,
    default: i32,
) -> Result<i32, RequestFault>
    ensures value { Gives result (optional_fault i32_kind name.now (value_of name.now header.now.ext))
        (i32_or default name.now header.now.ext) }
{
    let Some(text) = field(header, name) else {
        return Ok(default);
    };
    given(alloc, name, i32_in(text))
}

#[tactic(auto, unfolding(crate::specs::Faults::given_fault, crate::specs::Faults::kind_fault, crate::specs::Values::i64_or))]
pub(crate) fn optional_i64(
    alloc: Global,
    header: &Header,
    name: &str,
    default: i64,
) -> Result<i64, RequestFault>
    ensures value { Gives result (optional_fault i64_kind name.now (value_of name.now header.now.ext))
        (i64_or default name.now header.now.ext) }
{
    let Some(text) = field(header, name) else {
        return Ok(default);
    };
    given(alloc, name, read_decimal(text))
}

/// Only that the text is not `true` counts.
#[tactic(auto, unfolding(crate::specs::Faults::given_fault, crate::specs::Faults::kind_fault))]
pub(crate) fn optional_untrue(
    alloc: Global,
    header: &Header,
    name: &str,
) -> Result<(), RequestFault>
    ensures { Gives result (optional_fault untrue_kind name.now (value_of name.now header.now.ext)) tt }
{
    match field(header, name) {
        Some("true") => Err(bad_number(alloc, name)),
        _ => Ok(()),
    }
}
