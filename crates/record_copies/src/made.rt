//! What the broker makes of a record of its log: the committed copy, the renewal and the discarded copy of a half message, the
//! record that settles an origin, and the delivery of a delayed message.

ghost use Rattle.std.specs.Prelude.{◌≡◌, ◌<◌, ◌≤◌, ◌^◌, ◌∷◌, ◌++◌, [], codes, string_bytes, None, IfOk, OnOk};
ghost use Rattle.std.specs.Str.Parse.{digits_value};
ghost use Rattle.mq_bytes.specs.Decimal.{digits_of};
ghost use Rattle.record_codec.specs.Props.{value_of, with_prop, without};
ghost use Rattle.log_model.specs.Admissible.{IsBelow};
ghost use Rattle.log_model.specs.Drafts.{copy_draft as copy_draft_of, op_draft as op_draft_of, renewal_draft as renewal_draft_of};
ghost use Rattle.log_model.specs.Drafts.{discard_draft as discard_draft_of, delivery_draft as delivery_draft_of};
ghost use Rattle.log_model.specs.Drafts.{draft_again as draft_again_of, message_draft as message_draft_of, text_in as text_in_of};
ghost use Rattle.log_model.specs.Drafts.{without_real as without_real_of, without_transaction as without_transaction_of};
ghost use Rattle.log_model.specs.Drafts.{delivery_text as delivery_text_of};
ghost use Rattle.log_model.specs.Queues.{said_by};

use mq_bytes::{Text, read_decimal};
use record_codec::{Body, COMMITTED, Draft, Props, Record, TRANSACTION_BITS};
use std::alloc::{AllocError, Global};

fn text(alloc: Global, text: &str) -> Result<Text, AllocError>
    ensures { IfOk result (λ copy. copy ≡ text.now) }
{
    Ok(Text::of(String::from_str(alloc, text)?))
}

// A number in decimal.
fn number(alloc: Global, number: u64) -> Result<String, AllocError>
    ensures { IfOk result (λ text. string_bytes text ≡ digits_of number) }
{
    format!(in alloc; "{number}")
}

// The value of a property, and nothing where it is absent.
fn text_in<'a>(props: &'a Props, name: &str) -> &'a str
    ensures { result.now ≡ text_in_of name.now props.now }
{
    props.get(name).unwrap_or("")
}

// The record again, stored by this host.
fn draft_again(host: [u8; 8], r: Record) -> Draft
    ensures { result ≡ draft_again_of host (said_by r) }
{
    let mut draft = r.draft;
    draft.store_host = host;
    draft.prepared = 0;
    draft
}

// The queue that a message is for.
fn real_queue(props: &Props) -> u32
    requires { IsBelow 1024 (text_in_of (codes "REAL_QID") props.now) }
    ensures { result ≡ digits_value 10 (text_in_of (codes "REAL_QID") props.now) }
{
    match read_decimal(text_in(props, "REAL_QID")) {
        Some(queue) => queue as u32,
        None => unreachable!(),
    }
}

// Drops the topic and the queue that the message is for.
fn drop_real(props: &mut Props)
    ensures { props.new ≡ without_real_of props.old }
{
    props.drop_name("REAL_TOPIC");
    props.drop_name("REAL_QID");
}

// The message of a half or delayed record, in its own topic and queue.
fn message_draft(alloc: Global, host: [u8; 8], r: Record) -> Result<Draft, AllocError>
    requires { IsBelow 1024 (text_in_of (codes "REAL_QID") (said_by r).props) }
    ensures { IfOk result (λ draft. draft ≡ message_draft_of host (said_by r)) }
{
    let mut draft = draft_again(host, r);
    draft.topic = text(alloc, text_in(&draft.props, "REAL_TOPIC"))?;
    draft.queue = real_queue(&draft.props);
    drop_real(&mut draft.props);
    Ok(draft)
}

// Drops the properties that only the transaction has a use for.
fn drop_transaction(props: &mut Props)
    ensures { props.new ≡ without_transaction_of props.old }
{
    props.drop_name("TRANSACTION_CHECK_TIMES");
    props.drop_name("TRAN_PREPARED_QUEUE_OFFSET");
    props.drop_name("TRAN_MSG");
}

/// The committed copy of a half message.
pub fn commit_draft(alloc: Global, host: [u8; 8], half: Record) -> Result<Draft, AllocError>
    requires { IsBelow 1024 (text_in_of (codes "REAL_QID") (said_by half).props) }
    ensures { IfOk result (λ draft. draft ≡ copy_draft_of host (said_by half)) }
{
    let place = half.place.offset;
    let mut draft = message_draft(alloc, host, half)?;
    draft.sysflag = draft.sysflag & !TRANSACTION_BITS | COMMITTED;
    draft.prepared = place;
    drop_transaction(&mut draft.props);
    Ok(draft)
}

// The property of an op record.
fn op_props(alloc: Global) -> Result<Props, AllocError>
    ensures { IfOk result (λ props. props ≡ (codes "TAGS", codes "d") ∷ []) }
{
    let mut props = Props::new(alloc);
    props.put(alloc, "TAGS", "d")?;
    Ok(props)
}

/// The record that names a settled origin, made at this time.
pub fn op_draft(alloc: Global, host: [u8; 8], now: u64, origin: u64) -> Result<Draft, AllocError>
    ensures { IfOk result (λ draft. draft ≡ op_draft_of host now origin) }
{
    Ok(Draft {
        topic: text(alloc, "RMQ_SYS_TRANS_OP_HALF_TOPIC")?,
        queue: 0,
        flag: 0,
        sysflag: 0,
        born: now,
        born_host: host,
        store_host: host,
        reconsume: 0,
        prepared: 0,
        body: Body::of(number(alloc, origin)?.into_bytes()),
        props: op_props(alloc)?,
    })
}

// Adds the origin's queue offset and the number of a check-back.
fn put_renewal(alloc: Global, props: &mut Props, origin: u64, count: u64) -> Result<(), AllocError>
    ensures { OnOk result (props.new ≡ with_prop (codes "TRANSACTION_CHECK_TIMES") (digits_of count)
        (with_prop (codes "TRAN_PREPARED_QUEUE_OFFSET") (digits_of origin) props.old)) }
{
    let digits = number(alloc, origin)?;
    props.put(alloc, "TRAN_PREPARED_QUEUE_OFFSET", digits.as_str())?;
    let times = number(alloc, count)?;
    props.put(alloc, "TRANSACTION_CHECK_TIMES", times.as_str())
}

/// The origin again, for its check-back of this number.
pub fn renewal_draft(
    alloc: Global,
    host: [u8; 8],
    count: u64,
    origin: Record,
) -> Result<Draft, AllocError>
    ensures { IfOk result (λ draft. draft ≡ renewal_draft_of host count (said_by origin)) }
{
    let named = origin.place.queue_offset;
    let mut draft = draft_again(host, origin);
    put_renewal(alloc, &mut draft.props, named, count)?;
    Ok(draft)
}

/// A half message that is discarded.
pub fn discard_draft(alloc: Global, host: [u8; 8], half: Record) -> Result<Draft, AllocError>
    ensures { IfOk result (λ draft. draft ≡ discard_draft_of host (said_by half)) }
{
    let place = half.place.offset;
    let mut draft = draft_again(host, half);
    draft.topic = text(alloc, "TRANS_CHECK_MAX_TIME_TOPIC")?;
    draft.queue = 0;
    draft.sysflag = draft.sysflag & !TRANSACTION_BITS;
    draft.prepared = place;
    Ok(draft)
}

// The level of a delivery and its number in the level, with a dash between.
fn delivery_text(alloc: Global, level: u8, count: u64) -> Result<String, AllocError>
    ensures { IfOk result (λ text. string_bytes text ≡ delivery_text_of level count) }
{
    format!(in alloc; "{level}-{count}")
}

// Adds the level of a delivery and its number in the level, where the name has no value yet.
fn put_delivery(alloc: Global, props: &mut Props, level: u8, count: u64) -> Result<(), AllocError>
    requires { value_of (codes "DELAY_FROM") props.old ≡ None }
    ensures { OnOk result (props.new ≡ props.old ++ (codes "DELAY_FROM", delivery_text_of level count) ∷ []) }
{
    let text = delivery_text(alloc, level, count)?;
    props.put(alloc, "DELAY_FROM", text.as_str())
}

/// The delivery of a delayed message, with its number in its level.
pub fn delivery_draft(
    alloc: Global,
    host: [u8; 8],
    level: u8,
    count: u64,
    r: Record,
) -> Result<Draft, AllocError>
    requires queue { IsBelow 1024 (text_in_of (codes "REAL_QID") (said_by r).props) }
    requires free { value_of (codes "DELAY_FROM") (without (codes "DELAY") (without_real_of (said_by r).props)) ≡ None }
    ensures { IfOk result (λ draft. draft ≡ delivery_draft_of host level count (said_by r)) }
{
    let mut draft = message_draft(alloc, host, r)?;
    draft.props.drop_name("DELAY");
    put_delivery(alloc, &mut draft.props, level, count)?;
    Ok(draft)
}
