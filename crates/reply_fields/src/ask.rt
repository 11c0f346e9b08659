//! A check-back: the question to a producer group what became of its half message, and how it is written.
//!
//! The frame has code 39, flag 2, which asks for no answer, and version 0. Its body is the record of the half message
//! with the topic and the queue that it is for. Its fields are texts:
//!
//! | name                   |                                                           |
//! |------------------------|-----------------------------------------------------------|
//! | `commitLogOffset`      | the record's physical offset                              |
//! | `msgId`                | the property `UNIQ_KEY`, or where there is none the id of the record |
//! | `offsetMsgId`          | the id of the record                                      |
//! | `tranStateTableOffset` | the record's queue offset                                 |
//! | `transactionId`        | the property `UNIQ_KEY`, or else empty                    |

ghost use Rattle.std.specs.Prelude.{◌≡◌, ◌<◌, ◌^◌, ◌++◌, ◌∷◌, [], length, codes, string_bytes, IfOk, OnOk, OnErr, Some, None};
ghost use Rattle.std.specs.Str.Parse.{digits_value};
ghost use Rattle.mq_bytes.specs.Decimal.{digits_of};
ghost use Rattle.mq_bytes.specs.Ids.{message_id_of};
ghost use Rattle.record_codec.specs.Drafts.{draft_fault, draft_size};
ghost use Rattle.record_codec.specs.Props.{value_of};
ghost use Rattle.remoting_frame.specs.Head.{IsInOrder, IsShort};
ghost use Rattle.remoting_frame.specs.Headers.{header_in, header_text};
ghost use Rattle.remoting_frame.specs.declared.frame.Form.TheVariants.{Json};
ghost use Rattle.reply_fields.specs.Asks.{text_or, real_topic as real_topic_of, real_queue as real_queue_of, real_draft};
ghost use Rattle.reply_fields.specs.Asks.{offset_id as offset_id_of, ask_fields, ask_head, ask_bytes, IsAsked};

use mq_bytes::{Text, message_id, read_decimal};
use record_codec::{Draft, Props, Record, SEGMENT_MAX, encode};
use remoting_frame::{Fields, Form, Header};
use std::alloc::{AllocError, Global};
use std::marker::Model;

// Room for the names and values of most check-backs.
const FIELDS_ROOM: usize = 256;

/// A check-back to a link, for a producer group. `view` is the newest record of the half message; it has a legal topic
/// `REAL_TOPIC` and a decimal `REAL_QID` below 1,024, and can be written with these.
#[derive(Drop)]
pub struct Ask {
    pub link: u32,
    pub group: Text,
    pub view: Record,
}

impl Model for Ask {
    ghost use Rattle.reply_fields.specs.Parts.{AskParts};

    ghost Value = { AskParts };

    ghost use Rattle.reply_fields.specs.Asks.{IsAsked};

    ghost view = { λ a. record { link = a.link; group = a.group; view = a.view } };

    ghost invariant = { λ a. IsAsked a.view };
}

// The topic that the half message is for.
fn real_topic(alloc: Global, props: &Props) -> Result<Text, AllocError>
    ensures { IfOk result (λ topic. topic ≡ real_topic_of props.now) }
{
    let topic = props.get("REAL_TOPIC").unwrap_or("");
    Ok(Text::of(String::from_str(alloc, topic)?))
}

// The number that digits without a leading zero write.
#[tactic(auto, using(crate::proofs::AskLemmas::number_read))]
fn number_in(text: &str) -> u32
    requires plain { text.now ≡ digits_of (digits_value 10 text.now) }
    requires low { digits_value 10 text.now < 1024 }
    ensures { result ≡ digits_value 10 text.now }
{
    match read_decimal(text) {
        Some(number) => number as u32,
        None => unreachable!(),
    }
}

// The queue that it is for.
fn real_queue(props: &Props) -> u32
    requires decimal { value_of (codes "REAL_QID") props.now ≡ Some (digits_of (real_queue_of props.now)) }
    requires low { real_queue_of props.now < 1024 }
    ensures { result ≡ real_queue_of props.now }
{
    number_in(props.get("REAL_QID").unwrap_or(""))
}

// The half message as the message that it will be.
fn message_of(alloc: Global, view: &Record) -> Result<Draft, AllocError>
    requires { IsAsked view.now }
    ensures { IfOk result (λ message. message ≡ real_draft view.now.draft) }
{
    let half = &view.draft;
    Ok(Draft {
        topic: real_topic(alloc, &half.props)?,
        queue: real_queue(&half.props),
        flag: half.flag,
        sysflag: half.sysflag,
        born: half.born,
        born_host: half.born_host,
        store_host: half.store_host,
        reconsume: half.reconsume,
        prepared: half.prepared,
        body: half.body.copy(alloc)?,
        props: half.props.copy(alloc)?,
    })
}

// How many bytes the record of the message has.
fn size_of(message: &Draft) -> u32
    requires { draft_fault (2 ^ 30) message.now ≡ None }
    ensures size { result ≡ draft_size message.now }
    ensures within { result < 2 ^ 30 }
{
    match message.check(SEGMENT_MAX) {
        Ok(size) => size,
        Err(_) => unreachable!(),
    }
}

fn id_at(alloc: Global, host: [u8; 8], place: u64) -> Result<String, AllocError>
    ensures id { IfOk result (λ id. string_bytes id ≡ message_id_of host place) }
    ensures host { length host ≡ 8 }
{
    message_id(alloc, host, place)
}

// Appends the id that the broker gave the record.
fn push_offset_id(
    alloc: Global,
    fields: &mut Fields,
    name: &str,
    view: &Record,
) -> Result<(), AllocError>
    ensures field { OnOk result (fields.new ≡ fields.old ++ (name.now, offset_id_of view.now) ∷ []) }
    ensures host { length view.now.draft.store_host ≡ 8 }
{
    let id = id_at(alloc, view.draft.store_host, view.place.offset)?;
    fields.push(name, id.as_str())?;
    Ok(())
}

// Appends the sender's own id, or where there is none the one that the broker gave.
fn push_id(alloc: Global, fields: &mut Fields, name: &str, view: &Record) -> Result<(), AllocError>
    ensures { OnOk result (fields.new ≡ fields.old ++ (
      name.now,
      text_or (offset_id_of view.now) (value_of (codes "UNIQ_KEY")
          view.now.draft.props),
    ) ∷ []) }
{
    match view.draft.props.get("UNIQ_KEY") {
        Some(key) => fields.push(name, key),
        None => push_offset_id(alloc, fields, name, view),
    }
}

// Appends to no fields. They are the caller's, so that no early return here has fields to drop.
fn fill_fields(alloc: Global, view: &Record, fields: &mut Fields) -> Result<(), AllocError>
    requires { fields.old ≡ [] }
    ensures fields { OnOk result (fields.new ≡ ask_fields view.now) }
    ensures host { OnOk result (length view.now.draft.store_host ≡ 8) }
{
    let key = view.draft.props.get("UNIQ_KEY").unwrap_or("");
    let (place, next) = (view.place.offset, view.place.queue_offset);
    fields.push_number("commitLogOffset", place)?;
    push_id(alloc, fields, "msgId", view)?;
    push_offset_id(alloc, fields, "offsetMsgId", view)?;
    fields.push_number("tranStateTableOffset", next)?;
    fields.push("transactionId", key)?;
    Ok(())
}

fn fields_of(alloc: Global, view: &Record) -> Result<Fields, AllocError>
    ensures fields { IfOk result (λ fields. fields ≡ ask_fields view.now) }
    ensures ordered { IfOk result IsInOrder }
    ensures host { OnOk result (length view.now.draft.store_host ≡ 8) }
{
    let mut fields = Fields::with_room(alloc, 5, FIELDS_ROOM)?;
    fill_fields(alloc, view, &mut fields)?;
    Ok(fields)
}

fn header_of(alloc: Global, view: &Record, opaque: i32) -> Result<Header, AllocError>
    requires { IsAsked view.now }
    ensures header { IfOk result (λ header. header ≡ ask_head view.now opaque) }
    ensures short { IfOk result IsShort }
{
    let ext = fields_of(alloc, view)?;
    let remark = Text::of(String::new(alloc));
    Ok(Header {
        code: 39,
        version: 0,
        opaque,
        flag: 2,
        remark,
        ext,
    })
}

impl Ask {
    /// Appends the frame of this check-back. After want of memory `out` is as before.
    pub fn write(&self, alloc: Global, opaque: i32, out: &mut Vec<u8>) -> Result<(), AllocError>
        ensures written { OnOk result (out.new.items ≡ out.old.items ++ ask_bytes opaque self.now.view) }
        ensures again { OnOk result (header_in Json (header_text Json (ask_head self.now.view opaque))
            ≡ Some (ask_head self.now.view opaque)) }
        ensures err { OnErr result (out.new.items ≡ out.old.items) }
    {
        let header = header_of(alloc, &self.view, opaque)?;
        let message = message_of(alloc, &self.view)?;
        let start = out.len();
        header.write_front(alloc, Form::Json, size_of(&message), out)?;
        match encode(&message, &self.view.place, out) {
            Ok(()) => Ok(()),
            Err(_) => {
                out.truncate(start);
                Err(AllocError)
            }
        }
    }
}
