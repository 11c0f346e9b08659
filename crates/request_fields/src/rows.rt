//! The fields of each request but SEND, a function for each row. Required fields come first, in the order in which
//! their faults are told; then the optional ones that have a kind or are kept.

ghost use Rattle.std.specs.Prelude.{◌<◌, ◌^◌, drop, IfOk};
ghost use Rattle.request_fields.specs.Faults.{first_fault, required_faults, optional_faults};
ghost use Rattle.request_fields.specs.Gives.{Gives};
ghost use Rattle.request_fields.specs.Rows.{pull_row, query_row, offset_row, set_offset_row, topic_row};
ghost use Rattle.request_fields.specs.Rows.{search_row, queue_row, view_row, unregister_row, end_row};
ghost use Rattle.request_fields.specs.declared.request.Request.TheVariants.{Pull, Query, OffsetOf, SetOffset, MakeTopic, Search, MaxOffset};
ghost use Rattle.request_fields.specs.declared.request.Request.TheVariants.{MinOffset, ViewById, Unregister, EndTransaction};
ghost use Rattle.request_fields.specs.Reading.{pull_said, pull_numbers as pull_numbers_said, query_said, offset_said, set_offset_said};
ghost use Rattle.request_fields.specs.Reading.{topic_said, search_said, queue_said, view_said, unregister_said, end_said};

use crate::fault::RequestFault;
use crate::fields::{
    EndFields, OffsetFields, PullFields, QueryFields, QueueFields, SearchFields, SetOffsetFields,
    TopicFields, UnregisterFields, ViewFields,
};
use crate::needed::{
    needed_count, needed_i32, needed_i64, needed_name, needed_text, needed_time, needed_u31,
    needed_verdict,
};
use crate::optional::{optional_i64, optional_name, optional_text};
use crate::request::Request;
use remoting_frame::Header;
use std::alloc::Global;

// The numbers of a pull.
#[derive(Clone, Copy)]
struct PullNumbers {
    queue: u32,
    from: i64,
    most: i32,
    sysflag: i32,
    commit: i64,
    suspend: i64,
}

// The numbers, or the first fault behind the group and the topic. An optional text has none.
#[tactic(auto, unfolding(crate::specs::Rows::pull_row, crate::specs::Reading::pull_numbers, crate::specs::Reading::pull_said))]
fn pull_numbers(alloc: Global, header: &Header) -> Result<PullNumbers, RequestFault>
    ensures value { Gives result (required_faults (drop 2 pull_row.required) header.now.ext
        (optional_faults pull_row.optional header.now.ext)) (pull_numbers_said header.now.ext) }
    ensures kept { IfOk result (λ numbers. numbers.queue < 2 ^ 31) }
{
    let queue = needed_u31(alloc, header, "queueId")?;
    let from = needed_i64(alloc, header, "queueOffset")?;
    let most = needed_i32(alloc, header, "maxMsgNums")?;
    let sysflag = needed_i32(alloc, header, "sysFlag")?;
    let commit = optional_i64(alloc, header, "commitOffset", -1)?;
    let suspend = optional_i64(alloc, header, "suspendTimeoutMillis", 0)?;
    let _version = optional_i64(alloc, header, "subVersion", 0)?;
    Ok(PullNumbers {
        queue,
        from,
        most,
        sysflag,
        commit,
        suspend,
    })
}

#[tactic(auto, using(crate::proofs::Later::told_first, crate::proofs::Later::told_later, crate::proofs::Later::none_of_both), unfolding(crate::specs::Rows::pull_row, crate::specs::Reading::pull_said))]
pub(crate) fn pull(alloc: Global, header: &Header) -> Result<Request, RequestFault>
    ensures { Gives result (first_fault pull_row header.now.ext) (Pull (pull_said header.now.ext)) }
{
    let group = needed_name(alloc, header, "consumerGroup")?;
    let topic = needed_text(alloc, header, "topic")?;
    let numbers = pull_numbers(alloc, header)?;
    let subscription = optional_text(alloc, header, "subscription")?;
    let expression = optional_text(alloc, header, "expressionType")?;
    Ok(Request::Pull(PullFields {
        group,
        topic,
        queue: numbers.queue,
        from: numbers.from,
        most: numbers.most,
        sysflag: numbers.sysflag,
        commit: numbers.commit,
        suspend: numbers.suspend,
        subscription,
        expression,
    }))
}

#[tactic(auto, using(crate::proofs::Later::told_first, crate::proofs::Later::told_later, crate::proofs::Later::none_of_both), unfolding(crate::specs::Rows::query_row, crate::specs::Reading::query_said))]
pub(crate) fn query(alloc: Global, header: &Header) -> Result<Request, RequestFault>
    ensures { Gives result (first_fault query_row header.now.ext) (Query (query_said header.now.ext)) }
{
    let topic = needed_text(alloc, header, "topic")?;
    let key = needed_text(alloc, header, "key")?;
    let most = needed_i32(alloc, header, "maxNum")?;
    let from = needed_i64(alloc, header, "beginTimestamp")?;
    let to = needed_i64(alloc, header, "endTimestamp")?;
    Ok(Request::Query(QueryFields {
        topic,
        key,
        most,
        from,
        to,
    }))
}

#[tactic(auto, using(crate::proofs::Later::told_first, crate::proofs::Later::told_later, crate::proofs::Later::none_of_both), unfolding(crate::specs::Rows::offset_row, crate::specs::Reading::offset_said))]
pub(crate) fn offset_of(alloc: Global, header: &Header) -> Result<Request, RequestFault>
    ensures { Gives result (first_fault offset_row header.now.ext) (OffsetOf (offset_said header.now.ext)) }
{
    let group = needed_name(alloc, header, "consumerGroup")?;
    let topic = needed_text(alloc, header, "topic")?;
    let queue = needed_u31(alloc, header, "queueId")?;
    Ok(Request::OffsetOf(OffsetFields {
        group,
        topic,
        queue,
    }))
}

#[tactic(auto, using(crate::proofs::Later::told_first, crate::proofs::Later::told_later, crate::proofs::Later::none_of_both), unfolding(crate::specs::Rows::set_offset_row, crate::specs::Reading::set_offset_said))]
pub(crate) fn set_offset(alloc: Global, header: &Header) -> Result<Request, RequestFault>
    ensures { Gives result (first_fault set_offset_row header.now.ext) (SetOffset (set_offset_said header.now.ext)) }
{
    let group = needed_name(alloc, header, "consumerGroup")?;
    let topic = needed_text(alloc, header, "topic")?;
    let queue = needed_u31(alloc, header, "queueId")?;
    let offset = needed_time(alloc, header, "commitOffset")?;
    Ok(Request::SetOffset(SetOffsetFields {
        group,
        topic,
        queue,
        offset,
    }))
}

#[tactic(auto, using(crate::proofs::Later::told_first, crate::proofs::Later::told_later, crate::proofs::Later::none_of_both), unfolding(crate::specs::Rows::topic_row, crate::specs::Reading::topic_said))]
pub(crate) fn make_topic(alloc: Global, header: &Header) -> Result<Request, RequestFault>
    ensures { Gives result (first_fault topic_row header.now.ext) (MakeTopic (topic_said header.now.ext)) }
{
    let topic = needed_text(alloc, header, "topic")?;
    let read = needed_count(alloc, header, "readQueueNums")?;
    let write = needed_count(alloc, header, "writeQueueNums")?;
    Ok(Request::MakeTopic(TopicFields { topic, read, write }))
}

#[tactic(auto, using(crate::proofs::Later::told_first, crate::proofs::Later::told_later, crate::proofs::Later::none_of_both), unfolding(crate::specs::Rows::search_row, crate::specs::Reading::search_said))]
pub(crate) fn search(alloc: Global, header: &Header) -> Result<Request, RequestFault>
    ensures { Gives result (first_fault search_row header.now.ext) (Search (search_said header.now.ext)) }
{
    let topic = needed_text(alloc, header, "topic")?;
    let queue = needed_u31(alloc, header, "queueId")?;
    let time = needed_i64(alloc, header, "timestamp")?;
    Ok(Request::Search(SearchFields { topic, queue, time }))
}

#[tactic(auto, using(crate::proofs::Later::told_first, crate::proofs::Later::told_later, crate::proofs::Later::none_of_both), unfolding(crate::specs::Rows::queue_row, crate::specs::Reading::queue_said))]
fn queue(alloc: Global, header: &Header) -> Result<QueueFields, RequestFault>
    ensures { Gives result (first_fault queue_row header.now.ext) (queue_said header.now.ext) }
{
    let topic = needed_text(alloc, header, "topic")?;
    let queue = needed_u31(alloc, header, "queueId")?;
    Ok(QueueFields { topic, queue })
}

pub(crate) fn max_offset(alloc: Global, header: &Header) -> Result<Request, RequestFault>
    ensures { Gives result (first_fault queue_row header.now.ext) (MaxOffset (queue_said header.now.ext)) }
{
    Ok(Request::MaxOffset(queue(alloc, header)?))
}

pub(crate) fn min_offset(alloc: Global, header: &Header) -> Result<Request, RequestFault>
    ensures { Gives result (first_fault queue_row header.now.ext) (MinOffset (queue_said header.now.ext)) }
{
    Ok(Request::MinOffset(queue(alloc, header)?))
}

#[tactic(auto, using(crate::proofs::Later::told_first, crate::proofs::Later::told_later, crate::proofs::Later::none_of_both), unfolding(crate::specs::Rows::view_row, crate::specs::Reading::view_said))]
pub(crate) fn view_by_id(alloc: Global, header: &Header) -> Result<Request, RequestFault>
    ensures { Gives result (first_fault view_row header.now.ext) (ViewById (view_said header.now.ext)) }
{
    let offset = needed_time(alloc, header, "offset")?;
    Ok(Request::ViewById(ViewFields { offset }))
}

#[tactic(auto, using(crate::proofs::Later::told_first, crate::proofs::Later::told_later, crate::proofs::Later::none_of_both), unfolding(crate::specs::Rows::unregister_row, crate::specs::Reading::unregister_said))]
pub(crate) fn unregister(alloc: Global, header: &Header) -> Result<Request, RequestFault>
    ensures { Gives result (first_fault unregister_row header.now.ext) (Unregister (unregister_said header.now.ext)) }
{
    let client = needed_name(alloc, header, "clientID")?;
    let producer = optional_name(alloc, header, "producerGroup")?;
    let consumer = optional_name(alloc, header, "consumerGroup")?;
    Ok(Request::Unregister(UnregisterFields {
        client,
        producer,
        consumer,
    }))
}

#[tactic(auto, using(crate::proofs::Later::told_first, crate::proofs::Later::told_later, crate::proofs::Later::none_of_both), unfolding(crate::specs::Rows::end_row, crate::specs::Reading::end_said))]
pub(crate) fn end_transaction(alloc: Global, header: &Header) -> Result<Request, RequestFault>
    ensures { Gives result (first_fault end_row header.now.ext) (EndTransaction (end_said header.now.ext)) }
{
    let group = needed_name(alloc, header, "producerGroup")?;
    let queue_offset = needed_time(alloc, header, "tranStateTableOffset")?;
    let place = needed_time(alloc, header, "commitLogOffset")?;
    let verdict = needed_verdict(alloc, header, "commitOrRollback")?;
    let msg_id = optional_text(alloc, header, "msgId")?;
    Ok(Request::EndTransaction(EndFields {
        group,
        queue_offset,
        place,
        verdict,
        msg_id,
    }))
}
