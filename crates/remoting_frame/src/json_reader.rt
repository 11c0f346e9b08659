//! Reads a header in JSON form: one object, nested at most 127 deep.
//!
//! | name        | value                     | where absent |
//! |-------------|---------------------------|--------------|
//! | `code`      | whole number of 32 bits   | refused      |
//! | `opaque`    | whole number of 32 bits   | refused      |
//! | `flag`      | whole number of 32 bits   | 0            |
//! | `version`   | whole number of 32 bits   | 0            |
//! | `remark`    | text or null              | empty        |
//! | `extFields` | object of fields, or null | empty        |
//!
//! A field is a text, a whole number of 64 signed bits, which stands for its digits, or `true` or `false`, which stand for
//! these words. A field that is null is dropped. Other names are read over. Of a name that comes twice the last value counts,
//! and no other is looked at. A number with a point or an exponent, and `-0`, is not whole.

ghost use Rattle.std.specs.Prelude.{◌≡◌, ◌<◌, length, IfOk, OnOk, IfErr, option_map, option_and_then, string_bytes, ◌++◌, ◌∷◌, []};
ghost use Rattle.serde_json.specs.View.{view, members_view};
ghost use Rattle.mq_bytes.specs.Decimal.{decimal};
ghost use Rattle.remoting_frame.specs.Gives.{Gives};
ghost use Rattle.remoting_frame.specs.Head.{IsInOrder};
ghost use Rattle.remoting_frame.specs.Json.{data_of, whole, whole_or_zero, text_or_empty, pair_of};
ghost use Rattle.remoting_frame.specs.Json.{pairs_of, pairs_or_none, header_of, json_header};
ghost use Rattle.remoting_frame.specs.declared.fault.HeaderFault.TheVariants.{Memory};

use crate::fault::HeaderFault;
use crate::fields::Fields;
use crate::header::Header;
use crate::plain_reader::read_plain;
use itoa::Buffer;
use mq_bytes::Text;
use serde_json::{Map, Value};
use std::alloc::Global;

fn value_of(alloc: Global, bytes: &[u8]) -> Result<Value, HeaderFault>
    ensures value { Gives view result (data_of bytes.now) }
    ensures some { OnOk result (0 < length bytes.now) }
    ensures memory { IfErr result (λ e. e ≡ Memory → 0 < length bytes.now) }
{
    match Value::from_slice(alloc, bytes) {
        Ok(value) => Ok(value),
        Err(error) => {
            if error.is_memory() {
                Err(HeaderFault::Memory)
            } else {
                Err(HeaderFault::Bad)
            }
        }
    }
}

#[tactic(auto, unfolding(crate::specs::Json::whole))]
fn number_of(value: Option<&Value>) -> Result<i32, HeaderFault>
    ensures { Gives (λ n. n) result (option_and_then whole (option_map (λ v. view v.now) value.entry)) }
{
    let Some(value) = value else {
        return Err(HeaderFault::Bad);
    };
    let Some(number) = value.as_i64() else {
        return Err(HeaderFault::Bad);
    };
    if number < -2147483648 || number > 2147483647 {
        return Err(HeaderFault::Bad);
    }
    Ok(number as i32)
}

fn number_or_zero(value: Option<&Value>) -> Result<i32, HeaderFault>
    ensures { Gives (λ n. n) result (whole_or_zero (option_map (λ v. view v.now) value.entry)) }
{
    if value.is_none() {
        return Ok(0);
    }
    number_of(value)
}

fn text_or_none(alloc: Global, value: Option<&Value>) -> Result<Text, HeaderFault>
    ensures { Gives (λ t. t) result (text_or_empty (option_map (λ v. view v.now) value.entry)) }
{
    match value {
        None | Some(Value::Null) => Ok(Text::of(String::new(alloc))),
        Some(Value::String(text)) => Ok(Text::of(text.clone()?)),
        Some(_) => Err(HeaderFault::Bad),
    }
}

fn push_whole(fields: &mut Fields, name: &str, number: Option<i64>) -> Result<(), HeaderFault>
    ensures { Gives (λ _. fields.new) result (option_map (λ z. fields.old ++ (name.now, decimal z) ∷ []) number) }
{
    let Some(number) = number else {
        return Err(HeaderFault::Bad);
    };
    fields.push(name, Buffer::new().format(number))?;
    Ok(())
}

fn push_pair(fields: &mut Fields, name: String, value: Value) -> Result<(), HeaderFault>
    ensures { Gives (λ _. fields.new) result (option_map (λ p. fields.old ++ p) (pair_of (string_bytes name) (view value))) }
{
    match value {
        Value::Null => Ok(()),
        Value::String(text) => {
            fields.push(name.as_str(), text.as_str())?;
            Ok(())
        }
        Value::Bool(truth) => {
            fields.push(name.as_str(), if truth { "true" } else { "false" })?;
            Ok(())
        }
        Value::Number(number) => push_whole(fields, name.as_str(), number.as_i64()),
        _ => Err(HeaderFault::Bad),
    }
}

// The pairs, which have so many bytes at most: the text of a whole number or of a truth value is as it is spelled.
fn pairs_in(alloc: Global, map: Map<String, Value>, room: usize) -> Result<Fields, HeaderFault>
    ensures pairs { Gives (λ r. r) result (pairs_of (members_view map.entries)) }
    ensures ordered { IfOk result IsInOrder }
{
    let mut fields = Fields::with_room(alloc, map.len(), room)?;
    for (name, value) in map {
        push_pair(&mut fields, name, value)?;
    }
    Ok(fields)
}

fn no_pairs(alloc: Global) -> Fields
    ensures none { result ≡ [] }
    ensures ordered { IsInOrder result }
{
    Fields::new(alloc)
}

fn pairs_or_empty(
    alloc: Global,
    value: Option<&mut Value>,
    room: usize,
) -> Result<Fields, HeaderFault>
    ensures ordered { IfOk result IsInOrder }
    ensures pairs { Gives (λ r. r) result (pairs_or_none (option_map (λ v. view v.now) value.entry)) }
{
    let Some(value) = value else {
        return Ok(no_pairs(alloc));
    };
    match value.take() {
        Value::Null => Ok(no_pairs(alloc)),
        Value::Object(map) => pairs_in(alloc, map, room),
        _ => Err(HeaderFault::Bad),
    }
}

// The header whose text has so many bytes.
#[tactic(auto, unfolding(crate::specs::Json::header_of))]
fn header_from(alloc: Global, value: &mut Value, room: usize) -> Result<Header, HeaderFault>
    ensures { Gives (λ h. h) result (header_of (view value.old)) }
{
    let code = number_of(value.get("code"))?;
    let opaque = number_of(value.get("opaque"))?;
    let flag = number_or_zero(value.get("flag"))?;
    let version = number_or_zero(value.get("version"))?;
    let remark = text_or_none(alloc, value.get("remark"))?;
    let ext = pairs_or_empty(alloc, value.get_mut("extFields"), room)?;
    Ok(Header {
        code,
        version,
        opaque,
        flag,
        remark,
        ext,
    })
}

/// The header that the bytes are in JSON form.
pub(crate) fn read_json(alloc: Global, bytes: &[u8]) -> Result<Header, HeaderFault>
    ensures header { Gives (λ h. h) result (json_header bytes.now) }
    ensures memory { IfErr result (λ e. e ≡ Memory → 0 < length bytes.now) }
{
    if let Some(header) = read_plain(alloc, bytes) {
        return Ok(header);
    }
    let mut value = value_of(alloc, bytes)?;
    header_from(alloc, &mut value, bytes.len())
}
