//! What clients say of themselves: which groups they are in, what these subscribe to, and which queues they want.

use mq_bytes::{Rows, Text};
use std::marker::Model;

/// A queue of a topic, with the name that the client knows its broker by.
#[derive(Drop)]
pub struct QueueName {
    pub topic: Text,
    pub broker: Text,
    pub queue: u32,
}

/// The words by which a consumer group chooses messages of a topic.
#[derive(Drop)]
pub struct Subscription {
    pub topic: Text,
    pub words: Text,
}

/// A consumer group and what it subscribes to.
#[derive(Drop)]
pub struct Consumer {
    pub group: Text,
    pub subscriptions: Rows<Subscription>,
}

/// A client and the groups that it is in. Each name has 1 to 120 bytes.
#[derive(Drop)]
pub struct Heartbeat {
    pub client: Text,
    pub producers: Rows<Text>,
    pub consumers: Rows<Consumer>,
}

impl Model for Heartbeat {
    ghost use Rattle.request_fields.specs.Clients.{Beat, IsBeat};

    ghost Value = { Beat };

    ghost view = { λ h. record { client = h.client; producers = h.producers; consumers = h.consumers } };

    ghost invariant = { λ h. IsBeat (record { client = h.client; producers = h.producers; consumers = h.consumers }) };
}
