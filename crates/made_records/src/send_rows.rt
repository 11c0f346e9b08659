//! The refusals of a send. The first row that holds decides.
//!
//! | code | remark         | when                                                                      |
//! |-----:|----------------|---------------------------------------------------------------------------|
//! |   13 | `topic`        | the topic is empty, longer than 127 bytes or has an illegal character     |
//! |   13 | `sysFlag`      | the system flag says that a host has an address of 16 bytes               |
//! |   13 | `body`         | the body passes 4,194,304 bytes                                           |
//! |   13 | `properties`   | the property text passes 31,999 bytes                                     |
//! |   13 | `record`       | body, property text and 1,024 bytes together pass a segment               |
//! |   16 | `system topic` | the topic is one that the broker keeps for itself                         |
//! |   17 | `no topic`     | the topic isn't known, and the send names no default topic                |
//! |    1 | `queue`        | the topic has no such queue, or would be made with fewer                  |

ghost use Rattle.std.specs.Prelude.{◌≡◌, ◌<◌, ◌≤◌, pos, IfOk};
ghost use Rattle.reply_fields.specs.Parts.{plain as plain_of};
ghost use Rattle.broker_model.specs.Sends.{queue_named as queue_named_of};
ghost use Rattle.broker_model.specs.Refusals.{made_queues as made_queues_of};
ghost use Rattle.made_records.specs.SendRows.{refusal_by, refused};

use log_model::is_system_topic;
use record_codec::{BODY_MAX, HOSTS_LONG, is_legal_topic};
use reply_fields::Reply;
use request_fields::SendFields;
use std::alloc::{AllocError, Global};

/// Why a send is refused: a row of the table.
#[derive(Clone, Copy)]
pub enum Refusal {
    /// The topic has no legal name.
    Topic,
    /// The system flag says that a host has an address of 16 bytes.
    SysFlag,
    /// The body is too long.
    Body,
    /// The property text is too long.
    Properties,
    /// The record may pass a segment.
    Record,
    /// The topic is one that the broker keeps for itself.
    SystemTopic,
    /// The topic isn't known, and no default topic is named.
    NoTopic,
    /// The topic has no such queue, or would be made with fewer.
    Queue,
}

/// The most bytes of a send's property text.
const PROPERTIES_MAX: usize = 31_999;

/// What a record may have besides its body and the property text of its send.
const RESERVE: usize = 1024;

/// With how many queues a topic is made, where a send asks for this number: 1 to 8.
pub fn made_queues(asked: i32) -> u32
    ensures value { result ≡ made_queues_of asked }
    ensures few { result ≤ 8 }
{
    if asked < 1 {
        1
    } else if asked > 8 {
        8
    } else {
        asked as u32
    }
}

/// The queue that a send names: a negative number stands for 0.
pub fn queue_named(queue: i32) -> u32
    ensures { result ≡ queue_named_of queue }
{
    if queue < 0 { 0 } else { queue as u32 }
}

/// The first refusal that holds, for segments of this size and a topic that has so many queues, where it is known. `None` where the
/// send isn't refused.
#[tactic(auto, unfolding(crate::specs::SendRows::refusal_by))]
pub fn refusal_of(send: &SendFields, segment: u32, known: Option<u32>) -> Option<Refusal>
    ensures { result ≡ refusal_by segment known send.now }
{
    let body = send.body.as_slice().len();
    let properties = send.props.as_str().len();
    if !is_legal_topic(send.topic.as_str()) {
        return Some(Refusal::Topic);
    }
    if send.sysflag.cast_unsigned() & HOSTS_LONG != 0 {
        return Some(Refusal::SysFlag);
    }
    if body > BODY_MAX {
        return Some(Refusal::Body);
    }
    if properties > PROPERTIES_MAX {
        return Some(Refusal::Properties);
    }
    if body + properties + RESERVE > segment as usize {
        return Some(Refusal::Record);
    }
    if is_system_topic(send.topic.as_str()) {
        return Some(Refusal::SystemTopic);
    }
    if known.is_none() && send.default_topic.as_str().is_empty() {
        return Some(Refusal::NoTopic);
    }
    if queue_named(send.queue) >= known.unwrap_or(made_queues(send.default_queues)) {
        return Some(Refusal::Queue);
    }
    None
}

impl Refusal {
    /// What is answered: the code and the remark of the row. It fails only where memory runs out.
    pub fn reply(self, alloc: Global) -> Result<Reply, AllocError>
        ensures { IfOk result (λ reply. reply ≡ plain_of (pos (refused self).code) (refused self).remark) }
    {
        match self {
            Refusal::Topic => Reply::plain(alloc, 13, "topic"),
            Refusal::SysFlag => Reply::plain(alloc, 13, "sysFlag"),
            Refusal::Body => Reply::plain(alloc, 13, "body"),
            Refusal::Properties => Reply::plain(alloc, 13, "properties"),
            Refusal::Record => Reply::plain(alloc, 13, "record"),
            Refusal::SystemTopic => Reply::plain(alloc, 16, "system topic"),
            Refusal::NoTopic => Reply::plain(alloc, 17, "no topic"),
            Refusal::Queue => Reply::plain(alloc, 1, "queue"),
        }
    }
}
