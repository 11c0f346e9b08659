//! What the other requests say. Queue ids are below 2^31, offsets and places that are not signed below 2^62. Names of
//! groups and clients have 1 to 120 bytes, none of them 1 or 2; those of a lock may have these too.

use crate::clients::QueueName;
use mq_bytes::{Rows, Text};
use std::marker::Model;

/// A pull: at most `most` messages of the queue, from the queue offset `from` on. `commit` is a queue offset to be
/// stored, where it is not negative, and `suspend` how long the pull may wait, in milliseconds. `sysflag` has bits:
/// 1 says that `commit` counts, 2 that the pull may wait, 4 that `subscription` counts.
#[derive(Drop)]
pub struct PullFields {
    pub group: Text,
    pub topic: Text,
    pub queue: u32,
    pub from: i64,
    pub most: i32,
    pub sysflag: i32,
    pub commit: i64,
    pub suspend: i64,
    pub subscription: Text,
    pub expression: Text,
}

impl Model for PullFields {
    ghost use Rattle.request_fields.specs.Requests.{PullSaid, KeepsPull};

    ghost Value = { PullSaid };

    ghost view = { λ x. record {
      group = x.group;
      topic = x.topic;
      queue = x.queue;
      from = x.from;
      most = x.most;
      sysflag = x.sysflag;
      commit = x.commit;
      suspend = x.suspend;
      subscription = x.subscription;
      expression = x.expression;
    } };

    ghost invariant = { λ x. KeepsPull (record {
      group = x.group;
      topic = x.topic;
      queue = x.queue;
      from = x.from;
      most = x.most;
      sysflag = x.sysflag;
      commit = x.commit;
      suspend = x.suspend;
      subscription = x.subscription;
      expression = x.expression;
    }) };
}

/// A query by key: at most `most` messages, stored from the time `from` to the time `to`, both in milliseconds.
#[derive(Drop)]
pub struct QueryFields {
    pub topic: Text,
    pub key: Text,
    pub most: i32,
    pub from: i64,
    pub to: i64,
}

impl Model for QueryFields {
    ghost use Rattle.request_fields.specs.Requests.{QuerySaid};

    ghost Value = { QuerySaid };

    ghost view = { λ x. record { topic = x.topic; key = x.key; most = x.most; from = x.from; to = x.to } };
}

/// Which queue offset a group has stored for a queue.
#[derive(Drop)]
pub struct OffsetFields {
    pub group: Text,
    pub topic: Text,
    pub queue: u32,
}

impl Model for OffsetFields {
    ghost use Rattle.request_fields.specs.Requests.{OffsetSaid, KeepsOffset};

    ghost Value = { OffsetSaid };

    ghost view = { λ x. record { group = x.group; topic = x.topic; queue = x.queue } };

    ghost invariant = { λ x. KeepsOffset (record { group = x.group; topic = x.topic; queue = x.queue }) };
}

/// The queue offset that a group stores for a queue.
#[derive(Drop)]
pub struct SetOffsetFields {
    pub group: Text,
    pub topic: Text,
    pub queue: u32,
    pub offset: u64,
}

impl Model for SetOffsetFields {
    ghost use Rattle.request_fields.specs.Requests.{SetOffsetSaid, KeepsSetOffset};

    ghost Value = { SetOffsetSaid };

    ghost view = { λ x. record { group = x.group; topic = x.topic; queue = x.queue; offset = x.offset } };

    ghost invariant = { λ x. KeepsSetOffset (record { group = x.group; topic = x.topic; queue = x.queue; offset = x.offset }) };
}

/// A topic to be made, with the numbers of its queues for readers and for writers, each 1 to 1,024.
#[derive(Drop)]
pub struct TopicFields {
    pub topic: Text,
    pub read: u32,
    pub write: u32,
}

impl Model for TopicFields {
    ghost use Rattle.request_fields.specs.Requests.{TopicSaid, KeepsTopic};

    ghost Value = { TopicSaid };

    ghost view = { λ x. record { topic = x.topic; read = x.read; write = x.write } };

    ghost invariant = { λ x. KeepsTopic (record { topic = x.topic; read = x.read; write = x.write }) };
}

/// Which offset of a queue the time has, which is in milliseconds.
#[derive(Drop)]
pub struct SearchFields {
    pub topic: Text,
    pub queue: u32,
    pub time: i64,
}

impl Model for SearchFields {
    ghost use Rattle.request_fields.specs.Requests.{SearchSaid, KeepsSearch};

    ghost Value = { SearchSaid };

    ghost view = { λ x. record { topic = x.topic; queue = x.queue; time = x.time } };

    ghost invariant = { λ x. KeepsSearch (record { topic = x.topic; queue = x.queue; time = x.time }) };
}

/// A queue of a topic.
#[derive(Drop)]
pub struct QueueFields {
    pub topic: Text,
    pub queue: u32,
}

impl Model for QueueFields {
    ghost use Rattle.request_fields.specs.Requests.{QueueSaid, KeepsQueue};

    ghost Value = { QueueSaid };

    ghost view = { λ x. record { topic = x.topic; queue = x.queue } };

    ghost invariant = { λ x. KeepsQueue (record { topic = x.topic; queue = x.queue }) };
}

/// The place of a record, in bytes from the start of the log.
#[derive(Drop)]
pub struct ViewFields {
    pub offset: u64,
}

impl Model for ViewFields {
    ghost use Rattle.request_fields.specs.Requests.{ViewSaid, KeepsView};

    ghost Value = { ViewSaid };

    ghost view = { λ x. record { offset = x.offset } };

    ghost invariant = { λ x. KeepsView (record { offset = x.offset }) };
}

/// A client that leaves the groups that are named. A group that is not named is empty.
#[derive(Drop)]
pub struct UnregisterFields {
    pub client: Text,
    pub producer: Text,
    pub consumer: Text,
}

impl Model for UnregisterFields {
    ghost use Rattle.request_fields.specs.Requests.{UnregisterSaid, KeepsUnregister};

    ghost Value = { UnregisterSaid };

    ghost view = { λ x. record { client = x.client; producer = x.producer; consumer = x.consumer } };

    ghost invariant = { λ x. KeepsUnregister (record { client = x.client; producer = x.producer; consumer = x.consumer }) };
}

/// A producer's verdict on the half message with this queue offset, at this place in bytes from the start of the log:
/// 8 commits it, 12 rolls it back, 0 leaves it.
#[derive(Drop)]
pub struct EndFields {
    pub group: Text,
    pub queue_offset: u64,
    pub place: u64,
    pub verdict: u8,
    pub msg_id: Text,
}

impl Model for EndFields {
    ghost use Rattle.request_fields.specs.Requests.{EndSaid, KeepsEnd};

    ghost Value = { EndSaid };

    ghost view = { λ x. record {
      group = x.group;
      queue_offset = x.queue_offset;
      place = x.place;
      verdict = x.verdict;
      msg_id = x.msg_id;
    } };

    ghost invariant = { λ x. KeepsEnd (record {
      group = x.group;
      queue_offset = x.queue_offset;
      place = x.place;
      verdict = x.verdict;
      msg_id = x.msg_id;
    }) };
}

/// The queues that a client of a group wants, or no longer wants, for itself: at most 4,096.
#[derive(Drop)]
pub struct LockFields {
    pub group: Text,
    pub client: Text,
    pub queues: Rows<QueueName>,
}

impl Model for LockFields {
    ghost use Rattle.request_fields.specs.Requests.{LockSaid, KeepsLock};

    ghost Value = { LockSaid };

    ghost view = { λ x. record { group = x.group; client = x.client; queues = x.queues } };

    ghost invariant = { λ x. KeepsLock (record { group = x.group; client = x.client; queues = x.queues }) };
}
