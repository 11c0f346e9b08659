//! The body of a lock or an unlock, a JSON object. Other names are read over.
//!
//! | name            | value                                                                       |
//! |-----------------|-----------------------------------------------------------------------------|
//! | `consumerGroup` | 1 to 120 bytes                                                              |
//! | `clientId`      | 1 to 120 bytes                                                              |
//! | `mqSet`         | a list of at most 4,096 objects with `topic`, `brokerName` and `queueId`    |
//!
//! A `topic` is legal, a `brokerName` has at most 255 bytes, a `queueId` is a whole number from 0 to 2^31 - 1.

ghost use Rattle.std.specs.Prelude.{◌≡◌, ◌<◌, ◌≤◌, ◌^◌, length, All, IfOk, true, option_and_then, option_map};
ghost use Rattle.serde_json.specs.View.{view, items_view};
ghost use Rattle.serde_json.specs.Find.{as_str, as_number, as_u64};
ghost use Rattle.record_codec.specs.Layout.{is_legal as is_legal_of};
ghost use Rattle.request_fields.specs.Gives.{Finds};
ghost use Rattle.request_fields.specs.Requests.{IsQueueName};
ghost use Rattle.request_fields.specs.Bodies.{all_of, if_legal, if_broker, if_queue, queue_name_of, lock_of, lock_in};

use crate::body_fault::BodyFault;
use crate::clients::QueueName;
use crate::fields::LockFields;
use crate::members::{few_of, name_in, text_in, value_of};
use mq_bytes::{Rows, Text};
use record_codec::is_legal_topic;
use serde_json::Value;
use std::alloc::Global;

fn topic_in(alloc: Global, value: Option<&Value>) -> Result<Text, BodyFault>
    ensures topic { Finds (λ t. t) result (option_and_then if_legal (option_and_then as_str (option_map (λ v. view v.now) value.entry))) }
    ensures legal { IfOk result (λ t. is_legal_of t ≡ true) }
{
    let topic = text_in(alloc, value)?;
    if !is_legal_topic(topic.as_str()) {
        return Err(BodyFault::Bad);
    }
    Ok(topic)
}

fn broker_in(alloc: Global, value: Option<&Value>) -> Result<Text, BodyFault>
    ensures broker { Finds (λ t. t) result (option_and_then if_broker (option_and_then as_str (option_map (λ v. view v.now) value.entry))) }
    ensures short { IfOk result (λ t. length t ≤ 255) }
{
    let broker = text_in(alloc, value)?;
    if broker.as_str().len() > 255 {
        return Err(BodyFault::Bad);
    }
    Ok(broker)
}

fn queue_in(value: Option<&Value>) -> Result<u32, BodyFault>
    ensures queue { Finds (λ n. n) result (option_and_then if_queue
        (option_and_then as_u64 (option_and_then as_number (option_map (λ v. view v.now) value.entry)))) }
    ensures small { IfOk result (λ n. n < 2 ^ 31) }
{
    let Some(value) = value else {
        return Err(BodyFault::Bad);
    };
    let Some(number) = value.as_u64() else {
        return Err(BodyFault::Bad);
    };
    if number >= 2147483648 {
        return Err(BodyFault::Bad);
    }
    Ok(number as u32)
}

#[tactic(auto, unfolding(crate::specs::Bodies::queue_name_of))]
fn queue_name_in(alloc: Global, item: &Value) -> Result<QueueName, BodyFault>
    ensures queue { Finds (λ q. q) result (queue_name_of (view item.now)) }
    ensures kept { IfOk result IsQueueName }
{
    let topic = topic_in(alloc, item.get("topic"))?;
    let broker = broker_in(alloc, item.get("brokerName"))?;
    let queue = queue_in(item.get("queueId"))?;
    Ok(QueueName {
        topic,
        broker,
        queue,
    })
}

fn queues_in(alloc: Global, items: &[Value]) -> Result<Rows<QueueName>, BodyFault>
    ensures queues { Finds (λ r. r) result (all_of queue_name_of (items_view items.now)) }
    ensures kept { IfOk result (All IsQueueName) }
    ensures few { IfOk result (λ r. length r ≡ length items.now) }
{
    let mut queues = Vec::new(alloc);
    for item in items {
        queues.push(queue_name_in(alloc, item)?)?;
    }
    Ok(Rows::of(queues))
}

#[tactic(auto, unfolding(crate::specs::Bodies::lock_of))]
fn lock_from(alloc: Global, value: &Value) -> Result<LockFields, BodyFault>
    ensures { Finds (λ b. b) result (lock_of (view value.now)) }
{
    let group = name_in(alloc, value.get("consumerGroup"))?;
    let client = name_in(alloc, value.get("clientId"))?;
    let items = few_of(value.get("mqSet"))?;
    let queues = queues_in(alloc, items)?;
    Ok(LockFields {
        group,
        client,
        queues,
    })
}

/// What a lock or an unlock says whose body this is.
pub(crate) fn lock_fields(alloc: Global, body: &[u8]) -> Result<LockFields, BodyFault>
    ensures { Finds (λ b. b) result (lock_in body.now) }
{
    let value = value_of(alloc, body)?;
    lock_from(alloc, &value)
}
