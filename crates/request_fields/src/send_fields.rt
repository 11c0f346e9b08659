//! What a SEND says.

use mq_bytes::Text;
use record_codec::Body;
use std::marker::Model;

/// A message, as its producer sends it. `queue` is any number of 32 signed bits, `born` is in milliseconds. `props` are
/// name, byte 1, value, byte 2 for each property, if the producer keeps to that. `flag` is the producer's own.
/// `sysflag` has bits: 1 for a packed body, 2 for several tags, 4 and 8 for transactions (4 prepared, 8 committed, 12
/// rolled back), 16 and 32 for hosts with addresses of 16 bytes. `default_queues` is how many queues a new topic
/// gets, and `reconsume` how often the message was sent back.
#[derive(Drop)]
pub struct SendFields {
    pub group: Text,
    pub topic: Text,
    pub queue: i32,
    pub sysflag: i32,
    pub born: u64,
    pub flag: i32,
    pub default_topic: Text,
    pub default_queues: i32,
    pub props: Text,
    pub reconsume: i32,
    pub body: Body,
}

impl Model for SendFields {
    ghost use Rattle.request_fields.specs.Requests.{SendSaid, KeepsSend};

    ghost Value = { SendSaid };

    ghost view = { λ x. record {
      group = x.group;
      topic = x.topic;
      queue = x.queue;
      sysflag = x.sysflag;
      born = x.born;
      flag = x.flag;
      default_topic = x.default_topic;
      default_queues = x.default_queues;
      props = x.props;
      reconsume = x.reconsume;
      body = x.body;
    } };

    ghost invariant = { λ x. KeepsSend (record {
      group = x.group;
      topic = x.topic;
      queue = x.queue;
      sysflag = x.sysflag;
      born = x.born;
      flag = x.flag;
      default_topic = x.default_topic;
      default_queues = x.default_queues;
      props = x.props;
      reconsume = x.reconsume;
      body = x.body;
    }) };
}
