//! The fields of a SEND, which codes 10 and 310 have under different names.
//!
//! | kept             | code 10                 | code 310 | kind                          |
//! |------------------|-------------------------|----------|-------------------------------|
//! | `group`          | `producerGroup`         | `a`      | name, required                |
//! | `topic`          | `topic`                 | `b`      | text, required                |
//! | `queue`          | `queueId`               | `e`      | i32, required                 |
//! | `sysflag`        | `sysFlag`               | `f`      | i32, required                 |
//! | `born`           | `bornTimestamp`         | `g`      | time, required                |
//! | `flag`           | `flag`                  | `h`      | i32, required                 |
//! | `default_topic`  | `defaultTopic`          | `c`      | text                          |
//! | `default_queues` | `defaultTopicQueueNums` | `d`      | i32, 0 where absent           |
//! | `props`          | `properties`            | `i`      | text                          |
//! | `reconsume`      | `reconsumeTimes`        | `j`      | i32, 0 where absent           |
//! |                  | `maxReconsumeTimes`     | `l`      | i32                           |
//! |                  | `unitMode`              | `k`      | text                          |
//! |                  | `batch`                 | `m`      | anything but `true`           |

ghost use Rattle.std.specs.Prelude.{◌≡◌, ◌<◌, ◌^◌, drop, IfOk};
ghost use Rattle.request_fields.specs.Faults.{first_fault, required_faults, optional_faults};
ghost use Rattle.request_fields.specs.Gives.{Gives};
ghost use Rattle.request_fields.specs.Rows.{send_row};
ghost use Rattle.request_fields.specs.Reading.{send_said, send_numbers};
ghost use Rattle.request_fields.specs.Names.{names_view};
ghost use Rattle.request_fields.specs.declared.request.Request.TheVariants.{Send};

use crate::fault::RequestFault;
use crate::needed::{needed_i32, needed_name, needed_text, needed_time};
use crate::optional::{optional_i32, optional_text, optional_untrue};
use crate::request::Request;
use crate::send_fields::SendFields;
use crate::send_names::SendNames;
use mq_bytes::Rows;
use record_codec::Body;
use remoting_frame::Header;
use std::alloc::Global;

// The numbers of a SEND.
#[derive(Clone, Copy)]
struct SendNumbers {
    queue: i32,
    sysflag: i32,
    born: u64,
    flag: i32,
    default_queues: i32,
    reconsume: i32,
}

// The numbers, or the first fault behind the group and the topic. An optional text has none.
#[tactic(auto, unfolding(crate::specs::Rows::send_row, crate::specs::Reading::send_numbers, crate::specs::Reading::send_said))]
fn numbers_of(
    alloc: Global,
    header: &Header,
    names: &SendNames<'_>,
) -> Result<SendNumbers, RequestFault>
    ensures value { Gives result (required_faults (drop 2 (send_row (names_view names.now)).required) header.now.ext
        (optional_faults (send_row (names_view names.now)).optional header.now.ext)) (send_numbers (names_view names.now) header.now.ext) }
    ensures kept { IfOk result (λ numbers. numbers.born < 2 ^ 62) }
{
    let queue = needed_i32(alloc, header, names.queue)?;
    let sysflag = needed_i32(alloc, header, names.sysflag)?;
    let born = needed_time(alloc, header, names.born)?;
    let flag = needed_i32(alloc, header, names.flag)?;
    let default_queues = optional_i32(alloc, header, names.default_queues, 0)?;
    let reconsume = optional_i32(alloc, header, names.reconsume, 0)?;
    let _max_reconsume = optional_i32(alloc, header, names.max_reconsume, 16)?;
    optional_untrue(alloc, header, names.batch)?;
    Ok(SendNumbers {
        queue,
        sysflag,
        born,
        flag,
        default_queues,
        reconsume,
    })
}

#[tactic(auto, using(crate::proofs::Later::told_first, crate::proofs::Later::told_later, crate::proofs::Later::none_of_both), unfolding(crate::specs::Rows::send_row, crate::specs::Reading::send_said))]
pub(crate) fn send(
    alloc: Global,
    header: &Header,
    body: Rows<u8>,
    names: &SendNames<'_>,
) -> Result<Request, RequestFault>
    ensures { Gives result (first_fault (send_row (names_view names.now)) header.now.ext)
        (Send (send_said (names_view names.now) header.now.ext body)) }
{
    let group = needed_name(alloc, header, names.group)?;
    let topic = needed_text(alloc, header, names.topic)?;
    let numbers = numbers_of(alloc, header, names)?;
    let default_topic = optional_text(alloc, header, names.default_topic)?;
    let props = optional_text(alloc, header, names.props)?;
    Ok(Request::Send(SendFields {
        group,
        topic,
        queue: numbers.queue,
        sysflag: numbers.sysflag,
        born: numbers.born,
        flag: numbers.flag,
        default_topic,
        default_queues: numbers.default_queues,
        props,
        reconsume: numbers.reconsume,
        body: Body::of(body.into_vec()),
    }))
}
