//! A topic is made, or has more queues from now on.

ghost use Rattle.std.specs.Prelude.{◌<◌, ◌^◌, IfOk, OnErr};
ghost use Rattle.request_fields.specs.declared.request.Request.TheVariants.{MakeTopic};
ghost use Rattle.core_log.specs.Carries.{Stays, RepresentsSome};
ghost use Rattle.broker_core.specs.Asked.{CarriesRequest};

use broker_events::Said;
use core_log::Parts;
use log_model::is_system_topic;
use record_codec::is_legal_topic;
use reply_fields::Reply;
use request_fields::TopicFields;
use std::alloc::{AllocError, Global};

/// Answers a request for a topic with this many queues, which has the greater of these and its old ones from then on.
/// At `Err` nothing changes.
pub(crate) fn make_topic(
    parts: &mut Parts,
    alloc: Global,
    host: [u8; 8],
    now: u64,
    fields: &TopicFields,
) -> Result<Said, AllocError>
    requires some { RepresentsSome parts.old }
    requires now { now < 2 ^ 62 }
    ensures carries { IfOk result (λ said. CarriesRequest parts.old host now (MakeTopic fields.now) said parts.new) }
    ensures stays { OnErr result (Stays parts.old parts.new) }
{
    let topic = fields.topic.as_str();
    if !is_legal_topic(topic) {
        return Ok(Said::Reply(Reply::plain(alloc, 13, "topic")?));
    }
    if is_system_topic(topic) {
        return Ok(Said::Reply(Reply::plain(alloc, 16, "system topic")?));
    }
    let reply = Reply::plain(alloc, 0, "")?;
    let name = String::from_str(alloc, topic)?;
    parts.topics.reserve()?;
    parts.topics.make(name, fields.read.max(fields.write));
    parts.now = parts.now.max(now);
    Ok(Said::Reply(reply))
}
