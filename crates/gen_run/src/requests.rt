//! The requests of the items.

ghost use Rattle.std.specs.Prelude.{◌≡◌, ◌≤◌, ◌<◌, ◌^◌, ◌⊎◌, IfOk};
ghost use Rattle.mq_bytes.specs.Decimal.{digits_of};
ghost use Rattle.gen_run.specs.Items.{time_of as time_at, props_of as props_text, send_of, pull_of, verdict_on};

use crate::kinds::Kind;
use itoa::Buffer;
use mq_bytes::{Text, write_number};
use record_codec::Body;
use request_fields::{EndFields, PullFields, Request, SendFields};
use std::alloc::{AllocError, Global};

/// When an item is given, in milliseconds.
pub(crate) fn time_of(item: u32) -> u64
    ensures { result ≡ time_at item }
{
    1000 + u64::from(item)
}

// The property text of an item's message.
fn props_of(alloc: Global, kind: Kind, item: u32) -> Result<Text, AllocError>
    ensures { IfOk result (λ text. text ≡ props_text kind item) }
{
    let mut text = String::new(alloc);
    match kind {
        Kind::Plain => {
            text.push_str("KEYS\u{1}")?;
            text.push_str(Buffer::new().format(item))?;
            text.push_str("\u{2}")?;
        }
        Kind::Commit | Kind::RollBack => text.push_str("TRAN_MSG\u{1}true\u{2}")?,
        Kind::Delayed => text.push_str("DELAY\u{1}1\u{2}")?,
        Kind::Pull => {}
    }
    Ok(Text::of(text))
}

// The body of an item's message: its number.
fn body_of(alloc: Global, item: u32) -> Result<Body, AllocError>
    ensures { IfOk result (λ body. body ≡ digits_of item) }
{
    let mut body = Vec::new(alloc);
    write_number(u64::from(item), &mut body)?;
    Ok(Body::of(body))
}

/// The send of an item of this kind.
pub(crate) fn send_request(
    alloc: Global,
    start: u32,
    item: u32,
    kind: Kind,
) -> Result<Request, AllocError>
    requires item { item ≤ 1000000 }
    requires start { start ≤ 1000000 }
    ensures { IfOk result (λ request. request ≡ send_of start item kind) }
{
    Ok(Request::Send(SendFields {
        group: Text::of(String::from_str(alloc, "P")?),
        topic: Text::of(String::from_str(alloc, "gen")?),
        queue: ((item + start) % 4) as i32,
        sysflag: 0,
        born: time_of(item),
        flag: 0,
        default_topic: Text::of(String::from_str(alloc, "TBW102")?),
        default_queues: 4,
        props: props_of(alloc, kind, item)?,
        reconsume: 0,
        body: body_of(alloc, item)?,
    }))
}

/// The pull of an item: its queue from the start, whatever tags the messages have.
pub(crate) fn pull_request(alloc: Global, start: u32, item: u32) -> Result<Request, AllocError>
    requires item { item ≤ 1000000 }
    requires start { start ≤ 1000000 }
    ensures { IfOk result (λ request. request ≡ pull_of start item) }
{
    Ok(Request::Pull(PullFields {
        group: Text::of(String::from_str(alloc, "P")?),
        topic: Text::of(String::from_str(alloc, "gen")?),
        queue: (item + start) % 4,
        from: 0,
        most: 32,
        sysflag: 4,
        commit: -1,
        suspend: 0,
        subscription: Text::of(String::from_str(alloc, "*")?),
        expression: Text::of(String::new(alloc)),
    }))
}

/// The verdict on a half message, 8 or 12: on the one with this queue offset, at this place.
pub(crate) fn verdict_request(
    alloc: Global,
    queue_offset: u64,
    place: u64,
    verdict: u8,
) -> Result<Request, AllocError>
    requires offset { queue_offset < 2 ^ 62 }
    requires place { place < 2 ^ 62 }
    requires verdict { (verdict ≡ 8) ⊎ (verdict ≡ 12) }
    ensures { IfOk result (λ request. request ≡ verdict_on queue_offset place verdict) }
{
    Ok(Request::EndTransaction(EndFields {
        group: Text::of(String::from_str(alloc, "P")?),
        queue_offset,
        place,
        verdict,
        msg_id: Text::of(String::new(alloc)),
    }))
}
