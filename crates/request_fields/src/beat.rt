//! The body of a heartbeat, a JSON object. Other names are read over.
//!
//! | name              | value                                                                      |
//! |-------------------|----------------------------------------------------------------------------|
//! | `clientID`        | 1 to 120 bytes                                                             |
//! | `producerDataSet` | a list of objects with `groupName`                                         |
//! | `consumerDataSet` | a list of objects with `groupName` and `subscriptionDataSet`               |
//!
//! A `groupName` has 1 to 120 bytes. A `subscriptionDataSet` is a list of objects with the texts `topic` and
//! `subString`. A list that is absent or null is empty.

ghost use Rattle.std.specs.Prelude.{All, IfOk};
ghost use Rattle.serde_json.specs.View.{view, items_view};
ghost use Rattle.request_fields.specs.Clients.{IsName};
ghost use Rattle.request_fields.specs.Gives.{Finds};
ghost use Rattle.request_fields.specs.Bodies.{all_of, producer_of, subscription_of, consumer_of, beat_of, beat_in};

use crate::body_fault::BodyFault;
use crate::clients::{Consumer, Heartbeat, Subscription};
use crate::members::{items_or_empty, name_in, text_in, value_of};
use mq_bytes::{Rows, Text};
use serde_json::Value;
use std::alloc::Global;

fn producers_in(alloc: Global, items: &[Value]) -> Result<Rows<Text>, BodyFault>
    ensures producers { Finds (λ r. r) result (all_of producer_of (items_view items.now)) }
    ensures names { IfOk result (All IsName) }
{
    let mut producers = Vec::new(alloc);
    for item in items {
        producers.push(name_in(alloc, item.get("groupName"))?)?;
    }
    Ok(Rows::of(producers))
}

#[tactic(auto, unfolding(crate::specs::Bodies::subscription_of))]
fn subscription_in(alloc: Global, item: &Value) -> Result<Subscription, BodyFault>
    ensures { Finds (λ s. s) result (subscription_of (view item.now)) }
{
    let topic = text_in(alloc, item.get("topic"))?;
    let words = text_in(alloc, item.get("subString"))?;
    Ok(Subscription { topic, words })
}

fn subscriptions_in(alloc: Global, items: &[Value]) -> Result<Rows<Subscription>, BodyFault>
    ensures { Finds (λ r. r) result (all_of subscription_of (items_view items.now)) }
{
    let mut subscriptions = Vec::new(alloc);
    for item in items {
        subscriptions.push(subscription_in(alloc, item)?)?;
    }
    Ok(Rows::of(subscriptions))
}

#[tactic(auto, unfolding(crate::specs::Bodies::consumer_of))]
fn consumer_in(alloc: Global, item: &Value) -> Result<Consumer, BodyFault>
    ensures consumer { Finds (λ c. c) result (consumer_of (view item.now)) }
    ensures name { IfOk result (λ c. IsName c.group) }
{
    let group = name_in(alloc, item.get("groupName"))?;
    let items = items_or_empty(item.get("subscriptionDataSet"))?;
    let subscriptions = subscriptions_in(alloc, items)?;
    Ok(Consumer {
        group,
        subscriptions,
    })
}

fn consumers_in(alloc: Global, items: &[Value]) -> Result<Rows<Consumer>, BodyFault>
    ensures consumers { Finds (λ r. r) result (all_of consumer_of (items_view items.now)) }
    ensures names { IfOk result (All (λ c. IsName c.group)) }
{
    let mut consumers = Vec::new(alloc);
    for item in items {
        consumers.push(consumer_in(alloc, item)?)?;
    }
    Ok(Rows::of(consumers))
}

#[tactic(auto, unfolding(crate::specs::Bodies::beat_of))]
fn beat_from(alloc: Global, value: &Value) -> Result<Heartbeat, BodyFault>
    ensures { Finds (λ b. b) result (beat_of (view value.now)) }
{
    let client = name_in(alloc, value.get("clientID"))?;
    let producer_items = items_or_empty(value.get("producerDataSet"))?;
    let producers = producers_in(alloc, producer_items)?;
    let consumer_items = items_or_empty(value.get("consumerDataSet"))?;
    let consumers = consumers_in(alloc, consumer_items)?;
    Ok(Heartbeat {
        client,
        producers,
        consumers,
    })
}

/// The heartbeat that the body is.
pub(crate) fn beat(alloc: Global, body: &[u8]) -> Result<Heartbeat, BodyFault>
    ensures { Finds (λ b. b) result (beat_in body.now) }
{
    let value = value_of(alloc, body)?;
    beat_from(alloc, &value)
}
