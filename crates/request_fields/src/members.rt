//! The members of JSON objects: texts, names of 1 to 120 bytes, and lists.

ghost use Rattle.std.specs.Prelude.{◌≤◌, ◌<◌, length, Some, IfOk, option_and_then, option_map};
ghost use Rattle.serde_json.specs.View.{view, items_view};
ghost use Rattle.serde_json.specs.Find.{as_str};
ghost use Rattle.remoting_frame.specs.Json.{data_of};
ghost use Rattle.request_fields.specs.Clients.{IsName};
ghost use Rattle.request_fields.specs.Gives.{Finds};
ghost use Rattle.request_fields.specs.Bodies.{if_name, items_or_none, few_items, if_few};

use crate::body_fault::BodyFault;
use crate::texts::copy_of;
use mq_bytes::Text;
use serde_json::Value;
use std::alloc::Global;

/// The value that the bytes are, which is nested at most 127 deep. Of a name that comes twice it has the last value.
pub(crate) fn value_of(alloc: Global, bytes: &[u8]) -> Result<Value, BodyFault>
    ensures { Finds view result (data_of bytes.now) }
{
    match Value::from_slice(alloc, bytes) {
        Ok(value) => Ok(value),
        Err(error) => {
            if error.is_memory() {
                Err(BodyFault::Memory)
            } else {
                Err(BodyFault::Bad)
            }
        }
    }
}

/// The text.
pub(crate) fn text_in(alloc: Global, value: Option<&Value>) -> Result<Text, BodyFault>
    ensures { Finds (λ t. t) result (option_and_then as_str (option_map (λ v. view v.now) value.entry)) }
{
    match value {
        Some(Value::String(text)) => Ok(copy_of(alloc, text.as_str())?),
        _ => Err(BodyFault::Bad),
    }
}

/// The text, which has 1 to 120 bytes.
pub(crate) fn name_in(alloc: Global, value: Option<&Value>) -> Result<Text, BodyFault>
    ensures name { Finds (λ t. t) result (option_and_then if_name (option_and_then as_str (option_map (λ v. view v.now) value.entry))) }
    ensures kept { IfOk result IsName }
{
    let text = text_in(alloc, value)?;
    let len = text.as_str().len();
    if len == 0 || len > 120 {
        return Err(BodyFault::Bad);
    }
    Ok(text)
}

/// The items of a list, none where it is absent or null.
pub(crate) fn items_or_empty(value: Option<&Value>) -> Result<&[Value], BodyFault>
    ensures { Finds (λ items. items_view items.now) result (items_or_none (option_map (λ v. view v.now) value.entry)) }
{
    match value {
        None | Some(Value::Null) => Ok(&[]),
        Some(Value::Array(items)) => Ok(items.as_slice()),
        Some(_) => Err(BodyFault::Bad),
    }
}

fn few(items: &[Value]) -> Result<&[Value], BodyFault>
    ensures items { Finds (λ items. items_view items.now) result (if_few (items_view items.now)) }
    ensures few { IfOk result (λ items. length items.now ≤ 4096) }
{
    if items.len() > 4096 {
        return Err(BodyFault::Bad);
    }
    Ok(items)
}

/// The items of a list of at most 4,096, which has to be there.
pub(crate) fn few_of(value: Option<&Value>) -> Result<&[Value], BodyFault>
    ensures items { Finds (λ items. items_view items.now) result (few_items (option_map (λ v. view v.now) value.entry)) }
    ensures few { IfOk result (λ items. length items.now ≤ 4096) }
{
    match value {
        Some(Value::Array(items)) => few(items.as_slice()),
        _ => Err(BodyFault::Bad),
    }
}
