//! Splits the body of a batch. Numbers have the high byte first.
//!
//! | at     | bytes | field          |                                                               |
//! |-------:|------:|----------------|---------------------------------------------------------------|
//! | 0      | 4     | `size`         | how many bytes the message has, these among them: 22 + B + P  |
//! | 4      | 8     | words          | a magic and a checksum elsewhere, read over                   |
//! | 12     | 4     | `flag`         | signed                                                        |
//! | 16     | 4     | `body_length`  | B                                                             |
//! | 20     | B     | `body`         | any bytes                                                     |
//! | 20 + B | 2     | `props_length` | P                                                             |
//! | 22 + B | P     | `properties`   | UTF-8                                                         |
//!
//! The next message begins where one ends, and the last ends with the body.

ghost use Rattle.std.specs.Prelude.{◌≡◌, ◌+◌, ◌<◌, ◌≤◌, length, drop, option_map, IfOk, IfErr, IfSome};
ghost use Rattle.batch_records.specs.Gives.{Gives, Splits};
ghost use Rattle.batch_records.specs.Reading.{lengths_of, text_of, message_of, first_message, messages_in};
ghost use Rattle.batch_records.specs.declared.message.BatchFault.TheVariants.{Memory};

use crate::message::{BatchFault, Message};
use crate::numbers::{i32_at, u16_at, u32_at};
use bytes::Bytes;
use mq_bytes::{Rows, Text};
use std::alloc::Global;

// How many bytes a message has before its body.
const FRONT: usize = 20;

// How many bytes it has beside its body and its properties.
const FIXED: usize = 22;

// How long the body and the properties of the first message are, if it is whole and they agree with its size.
#[tactic(auto, unfolding(crate::specs::Reading::lengths_of, crate::specs::Reading::body_len_of, crate::specs::Reading::props_len_of))]
fn lengths_in(bytes: &[u8]) -> Option<(usize, usize)>
    ensures lengths { result ≡ lengths_of bytes.now }
    ensures within { IfSome result (λ lengths. 22 + lengths.0 + lengths.1 ≤ length bytes.now) }
{
    if bytes.len() < FIXED {
        return None;
    }
    let size = u32_at(bytes, 0) as usize;
    let body = u32_at(bytes, 16) as usize;
    if bytes.len() < size || size < FIXED + body {
        return None;
    }
    let props = u16_at(bytes, FRONT + body) as usize;
    if FIXED + body + props != size {
        return None;
    }
    Some((body, props))
}

fn text_in(alloc: Global, bytes: &[u8]) -> Result<Text, BatchFault>
    ensures { Gives (λ text. text) result (text_of bytes.now) }
{
    match str::from_utf8(bytes) {
        Ok(text) => Ok(Text::of(String::from_str(alloc, text)?)),
        Err(_) => Err(BatchFault::Bad),
    }
}

// The first message, whose body and properties are so long.
fn message_in(
    alloc: Global,
    bytes: &Bytes,
    body: usize,
    props: usize,
) -> Result<Message, BatchFault>
    requires { 22 + body + props ≤ length bytes.now }
    ensures { Gives (λ message. message) result (message_of bytes.now body props) }
{
    let all = bytes.as_slice();
    let start = FIXED + body;
    let props = text_in(alloc, &all[start..start + props])?;
    let flag = i32_at(all, 12);
    let body = bytes.slice(FRONT..FRONT + body)?;
    Ok(Message { flag, body, props })
}

// Takes the first message off the bytes.
#[tactic(auto, unfolding(crate::specs::Reading::first_message))]
fn take_message(alloc: Global, rest: &mut Bytes) -> Result<Message, BatchFault>
    ensures { Gives (λ message. (message, rest.new)) result (first_message rest.old) }
{
    let Some((body, props)) = lengths_in(rest.as_slice()) else {
        return Err(BatchFault::Bad);
    };
    let message = message_in(alloc, rest, body, props)?;
    rest.advance(FIXED + body + props);
    Ok(message)
}

/// The messages that the body is, in order; none where it is empty. `Bad` exactly where it isn't messages one after another to
/// its end. The bodies share the memory of this one, and none is copied.
pub fn split_batch(alloc: Global, body: Vec<u8>) -> Result<Rows<Message>, BatchFault>
    ensures { Splits (messages_in body.items) result }
{
    let mut rest = Bytes::from_vec(body)?;
    let mut messages = Vec::new(alloc);
    while !rest.is_empty() {
        let message = take_message(alloc, &mut rest)?;
        messages.push(message)?;
    }
    Ok(Rows::of(messages))
}
