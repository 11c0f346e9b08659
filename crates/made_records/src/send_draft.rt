//! What the record of a send says, as a plain, a delayed or a half message, and what a send asks for besides being stored.

ghost use Rattle.std.specs.Prelude.{◌≡◌, ◌≤◌, true, IfOk, OnOk};
ghost use Rattle.record_codec.specs.Layout.{is_legal};
ghost use Rattle.request_fields.specs.Requests.{IsFieldName};
ghost use Rattle.broker_model.specs.Sends.{is_half_send, level_of as level_of_send, waits as waits_of};
ghost use Rattle.broker_model.specs.Sends.{kept_props as kept_props_of, plain_draft as plain_draft_of};
ghost use Rattle.broker_model.specs.Sends.{with_real, with_group, half_draft as half_draft_of, delayed_draft as delayed_draft_of};

use crate::send_rows::queue_named;
use mq_bytes::{Text, read_decimal};
use record_codec::{Draft, PREPARED, Props, TRANSACTION_BITS};
use request_fields::SendFields;
use std::alloc::{AllocError, Global};

/// Whether a send is of a half message, by its property or by its system flag.
pub fn is_half(send: &SendFields) -> bool
    ensures { result ≡ is_half_send send.now }
{
    let says = match Props::value_in(send.props.as_str(), "TRAN_MSG") {
        None => false,
        Some(value) => value.eq_ignore_ascii_case("true"),
    };
    says || send.sysflag.cast_unsigned() & TRANSACTION_BITS == PREPARED
}

/// The delay level of a send, by its `DELAY`: 1 to 18, which stands for each greater number too. `None` where it has no number
/// there, or one below 1.
pub fn level_of(send: &SendFields) -> Option<u8>
    ensures { result ≡ level_of_send send.now }
{
    match Props::value_in(send.props.as_str(), "DELAY") {
        None => None,
        Some(text) => match read_decimal(text) {
            None => None,
            Some(level) => {
                if level < 1 {
                    None
                } else if level > 18 {
                    Some(18)
                } else {
                    Some(level as u8)
                }
            }
        },
    }
}

/// Whether a message with these properties is answered once it is on the disk.
pub fn waits(props: &Props) -> bool
    ensures { result ≡ waits_of props.now }
{
    match props.get("WAIT") {
        None => true,
        Some(value) => !value.eq_ignore_ascii_case("false"),
    }
}

// The properties of a send without the names that the broker keeps for itself.
fn kept_props(alloc: Global, text: &str) -> Result<Props, AllocError>
    ensures { IfOk result (λ props. props ≡ kept_props_of text.now) }
{
    let mut props = Props::read(alloc, text)?;
    props.drop_name("TRANSACTION_CHECK_TIMES");
    props.drop_name("TRAN_PREPARED_QUEUE_OFFSET");
    props.drop_name("DELAY_FROM");
    props.drop_name("REAL_QID");
    props.drop_name("REAL_TOPIC");
    props.drop_name("SEAL");
    Ok(props)
}

fn text(alloc: Global, text: &str) -> Result<Text, AllocError>
    ensures { IfOk result (λ copy. copy ≡ text.now) }
{
    Ok(Text::of(String::from_str(alloc, text)?))
}

/// The message as it was sent, from this host, to the broker at the other one. It fails only where memory runs out.
pub fn plain_draft(
    alloc: Global,
    send: &SendFields,
    born_host: [u8; 8],
    store_host: [u8; 8],
) -> Result<Draft, AllocError>
    ensures { IfOk result (λ draft. draft ≡ plain_draft_of store_host born_host send.now) }
{
    Ok(Draft {
        topic: text(alloc, send.topic.as_str())?,
        queue: queue_named(send.queue),
        flag: send.flag,
        sysflag: send.sysflag.cast_unsigned() & !TRANSACTION_BITS,
        born: send.born,
        born_host,
        store_host,
        reconsume: send.reconsume,
        prepared: 0,
        body: send.body.copy(alloc)?,
        props: kept_props(alloc, send.props.as_str())?,
    })
}

// Adds the topic and the queue that the message is for.
fn put_real(alloc: Global, props: &mut Props, topic: &str, queue: u32) -> Result<(), AllocError>
    requires { is_legal topic.now ≡ true }
    ensures { OnOk result (props.new ≡ with_real topic.now queue props.old) }
{
    let digits = format!(in alloc; "{queue}")?;
    props.put(alloc, "REAL_TOPIC", topic)?;
    props.put(alloc, "REAL_QID", digits.as_str())
}

/// The message as a delayed one of this level. It fails only where memory runs out.
pub fn delayed_draft(alloc: Global, level: u8, d: Draft) -> Result<Draft, AllocError>
    requires low { 1 ≤ level }
    requires legal { is_legal d.topic ≡ true }
    ensures { IfOk result (λ draft. draft ≡ delayed_draft_of level d) }
{
    let mut draft = d;
    put_real(alloc, &mut draft.props, draft.topic.as_str(), draft.queue)?;
    draft.topic = text(alloc, "SCHEDULE_TOPIC_XXXX")?;
    draft.queue = u32::from(level) - 1;
    Ok(draft)
}

// Adds the producer's group, where none is named.
fn put_group(alloc: Global, props: &mut Props, group: &str) -> Result<(), AllocError>
    requires { IsFieldName group.now }
    ensures { OnOk result (props.new ≡ with_group group.now props.old) }
{
    if props.get("PGROUP").is_some() {
        return Ok(());
    }
    props.put(alloc, "PGROUP", group)
}

/// The message of this producer group as a half message, which isn't delayed. It fails only where memory runs out.
pub fn half_draft(alloc: Global, group: &str, d: Draft) -> Result<Draft, AllocError>
    requires group { IsFieldName group.now }
    requires legal { is_legal d.topic ≡ true }
    ensures { IfOk result (λ draft. draft ≡ half_draft_of group.now d) }
{
    let mut draft = d;
    draft.props.drop_name("DELAY");
    put_real(alloc, &mut draft.props, draft.topic.as_str(), draft.queue)?;
    put_group(alloc, &mut draft.props, group)?;
    draft.topic = text(alloc, "RMQ_SYS_TRANS_HALF_TOPIC")?;
    draft.queue = 0;
    Ok(draft)
}
