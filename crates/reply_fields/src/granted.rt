//! The body of the reply to a request for locks: the compact JSON text of an object whose one member `lockOKMQSet` is a list of
//! the granted queues, each an object:
//!
//! | name         |                                         |
//! |--------------|-----------------------------------------|
//! | `brokerName` | the name that the client gave its broker |
//! | `queueId`    | the number of the queue                 |
//! | `topic`      | its topic                               |

ghost use Rattle.std.specs.Prelude.{◌≡◌, ◌<◌, ◌≤◌, ◌^◌, ℕ, length, All, IfOk, OnOk};
ghost use Rattle.serde_json.specs.Data.{string, object, put};
ghost use Rattle.serde_json.specs.View.{view, items_view, members_view};
ghost use Rattle.reply_fields.specs.Granted.{HasShortNames, queue_data, queues_items, granted_data, granted_text};

use request_fields::QueueName;
use serde_json::{Map, Value};
use std::alloc::{AllocError, Global};

// Puts a text behind a name.
fn put_text(
    members: &mut Map<String, Value>,
    alloc: Global,
    name: &str,
    text: &str,
) -> Result<(), AllocError>
    ensures { OnOk result (members_view members.new.entries ≡ put name.now (string text.now) (members_view members.old.entries)) }
{
    serde_json::put(members, alloc, name, Value::try_from_str(alloc, text)?)
}

// What is said of one queue.
fn queue_value(alloc: Global, queue: &QueueName) -> Result<Value, AllocError>
    ensures { IfOk result (λ v. view v ≡ queue_data queue.now) }
{
    let mut members = Map::new(alloc);
    put_text(&mut members, alloc, "brokerName", queue.broker.as_str())?;
    serde_json::put(&mut members, alloc, "queueId", Value::from(queue.queue))?;
    put_text(&mut members, alloc, "topic", queue.topic.as_str())?;
    Ok(Value::from(members))
}

// The same of each of these queues.
fn queue_values(alloc: Global, queues: &[QueueName]) -> Result<Vec<Value>, AllocError>
    ensures { IfOk result (λ values. items_view values.items ≡ queues_items queues.now) }
{
    let mut values = Vec::with_capacity(alloc, queues.len())?;
    for queue in queues {
        values.push(queue_value(alloc, queue)?)?;
    }
    Ok(values)
}

fn granted_value(alloc: Global, queues: &[QueueName]) -> Result<Value, AllocError>
    ensures { IfOk result (λ v. view v ≡ granted_data queues.now) }
{
    let values = queue_values(alloc, queues)?;
    let mut members = Map::new(alloc);
    serde_json::put(&mut members, alloc, "lockOKMQSet", Value::from(values))?;
    Ok(Value::from(members))
}

/// The body for these granted queues, in their order.
pub fn granted_body(alloc: Global, queues: &[QueueName]) -> Result<Vec<u8>, AllocError>
    ensures text { IfOk result (λ body. body.items ≡ granted_text queues.now) }
    ensures short { All HasShortNames queues.now → length queues.now ≤ 4096 → IfOk result (λ body. length body.items < 2 ^ 30) }
{
    let value = granted_value(alloc, queues)?;
    value.to_vec(alloc)
}
