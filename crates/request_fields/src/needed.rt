//! Reads the fields of a header, each as its kind: those that have to be there.

ghost use Rattle.std.specs.Prelude.{◌≡◌, ◌<◌, ◌≤◌, ◌^◌, ◌⊎◌, Some, None, option_map, IfOk, IfErr, pos};
ghost use Rattle.record_codec.specs.Props.{value_of};
ghost use Rattle.request_fields.specs.Kinds.{text as text_kind, name as name_kind, i32 as i32_kind, i64 as i64_kind};
ghost use Rattle.request_fields.specs.Kinds.{u31 as u31_kind, time as time_kind, count as count_kind, verdict as verdict_kind};
ghost use Rattle.request_fields.specs.Values.{text_at, i32_or, i64_or, u31_at, time_at, count_at, verdict_at};
ghost use Rattle.request_fields.specs.Faults.{needed_fault};
ghost use Rattle.request_fields.specs.Gives.{Tells, Gives};
ghost use Rattle.request_fields.specs.Requests.{IsFieldName};
ghost use Rattle.request_fields.specs.declared.fault.RequestFault.TheVariants.{Missing, BadNumber};

use crate::fault::{Field, RequestFault};
use crate::kinds::{count_in, i32_in, is_name, time_in, u31_in, verdict_in};
use crate::texts::copy_of;
use mq_bytes::{Text, read_decimal};
use remoting_frame::Header;
use std::alloc::Global;

pub(crate) fn field<'a>(header: &'a Header, name: &str) -> Option<&'a str>
    ensures { option_map (λ value. value.now) result ≡ value_of name.now header.now.ext }
{
    let fields = &header.ext;
    for index in 0..fields.len() {
        if fields.is_named(index, name) {
            let (_, value) = fields.at(index);
            return Some(value);
        }
    }
    None
}

fn missing(alloc: Global, name: &str) -> RequestFault
    ensures { Tells result (Some (Missing (record { name = name.now }))) }
{
    match copy_of(alloc, name) {
        Ok(name) => RequestFault::Missing(Field { name }),
        Err(_) => RequestFault::Memory,
    }
}

pub(crate) fn bad_number(alloc: Global, name: &str) -> RequestFault
    ensures { Tells result (Some (BadNumber (record { name = name.now }))) }
{
    match copy_of(alloc, name) {
        Ok(name) => RequestFault::BadNumber(Field { name }),
        Err(_) => RequestFault::Memory,
    }
}

/// The text of a field that has to be there.
fn needed<'a>(alloc: Global, header: &'a Header, name: &str) -> Result<&'a str, RequestFault>
    ensures there { IfOk result (λ text. value_of name.now header.now.ext ≡ Some text.now) }
    ensures absent { IfErr result (λ fault. (value_of name.now header.now.ext ≡ None)
        × Tells fault (Some (Missing (record { name = name.now })))) }
{
    match field(header, name) {
        Some(text) => Ok(text),
        None => Err(missing(alloc, name)),
    }
}

/// What the field's text was read as, or the fault that it is not of its kind.
pub(crate) fn given<T: Copy>(alloc: Global, name: &str, read: Option<T>) -> Result<T, RequestFault>
    ensures of_kind { IfOk result (λ value. read ≡ Some value) }
    ensures bad { IfErr result (λ fault. (read ≡ None) × Tells fault (Some (BadNumber (record { name = name.now })))) }
{
    match read {
        Some(value) => Ok(value),
        None => Err(bad_number(alloc, name)),
    }
}

#[tactic(auto, unfolding(crate::specs::Faults::needed_fault, crate::specs::Faults::kind_fault, crate::specs::Values::text_at))]
pub(crate) fn needed_text(alloc: Global, header: &Header, name: &str) -> Result<Text, RequestFault>
    ensures value { Gives result (needed_fault text_kind name.now (value_of name.now header.now.ext)) (text_at name.now header.now.ext) }
{
    let text = needed(alloc, header, name)?;
    Ok(copy_of(alloc, text)?)
}

#[tactic(auto, unfolding(crate::specs::Faults::needed_fault, crate::specs::Faults::kind_fault, crate::specs::Values::text_at))]
pub(crate) fn needed_name(alloc: Global, header: &Header, name: &str) -> Result<Text, RequestFault>
    ensures value { Gives result (needed_fault name_kind name.now (value_of name.now header.now.ext)) (text_at name.now header.now.ext) }
    ensures kept { IfOk result IsFieldName }
{
    let text = needed(alloc, header, name)?;
    if !is_name(text) {
        return Err(bad_number(alloc, name));
    }
    Ok(copy_of(alloc, text)?)
}

#[tactic(auto, unfolding(crate::specs::Faults::needed_fault, crate::specs::Faults::kind_fault, crate::specs::Values::i32_or))]
pub(crate) fn needed_i32(alloc: Global, header: &Header, name: &str) -> Result<i32, RequestFault>
    ensures value { Gives result (needed_fault i32_kind name.now (value_of name.now header.now.ext))
        (i32_or (pos 0) name.now header.now.ext) }
{
    let text = needed(alloc, header, name)?;
    given(alloc, name, i32_in(text))
}

#[tactic(auto, unfolding(crate::specs::Faults::needed_fault, crate::specs::Faults::kind_fault, crate::specs::Values::i64_or))]
pub(crate) fn needed_i64(alloc: Global, header: &Header, name: &str) -> Result<i64, RequestFault>
    ensures value { Gives result (needed_fault i64_kind name.now (value_of name.now header.now.ext))
        (i64_or (pos 0) name.now header.now.ext) }
{
    let text = needed(alloc, header, name)?;
    given(alloc, name, read_decimal(text))
}

#[tactic(auto, unfolding(crate::specs::Faults::needed_fault, crate::specs::Faults::kind_fault, crate::specs::Values::u31_at))]
pub(crate) fn needed_u31(alloc: Global, header: &Header, name: &str) -> Result<u32, RequestFault>
    ensures value { Gives result (needed_fault u31_kind name.now (value_of name.now header.now.ext)) (u31_at name.now header.now.ext) }
    ensures small { IfOk result (λ n. n < 2 ^ 31) }
{
    let text = needed(alloc, header, name)?;
    given(alloc, name, u31_in(text))
}

#[tactic(auto, unfolding(crate::specs::Faults::needed_fault, crate::specs::Faults::kind_fault, crate::specs::Values::time_at))]
pub(crate) fn needed_time(alloc: Global, header: &Header, name: &str) -> Result<u64, RequestFault>
    ensures value { Gives result (needed_fault time_kind name.now (value_of name.now header.now.ext)) (time_at name.now header.now.ext) }
    ensures small { IfOk result (λ n. n < 2 ^ 62) }
{
    let text = needed(alloc, header, name)?;
    given(alloc, name, time_in(text))
}

#[tactic(auto, unfolding(crate::specs::Faults::needed_fault, crate::specs::Faults::kind_fault, crate::specs::Values::count_at))]
pub(crate) fn needed_count(alloc: Global, header: &Header, name: &str) -> Result<u32, RequestFault>
    ensures value { Gives result (needed_fault count_kind name.now (value_of name.now header.now.ext)) (count_at name.now header.now.ext) }
    ensures kept { IfOk result (λ n. (0 < n) × (n ≤ 1024)) }
{
    let text = needed(alloc, header, name)?;
    given(alloc, name, count_in(text))
}

#[tactic(auto, unfolding(crate::specs::Faults::needed_fault, crate::specs::Faults::kind_fault, crate::specs::Values::verdict_at))]
pub(crate) fn needed_verdict(alloc: Global, header: &Header, name: &str) -> Result<u8, RequestFault>
    ensures value { Gives result (needed_fault verdict_kind name.now (value_of name.now header.now.ext))
        (verdict_at name.now header.now.ext) }
    ensures kept { IfOk result (λ n. (n ≡ 0) ⊎ (n ≡ 8) ⊎ (n ≡ 12)) }
{
    let text = needed(alloc, header, name)?;
    given(alloc, name, verdict_in(text))
}
