//! What happens to the core.

use broker_events::Event;
use mq_bytes::Rows;
use remoting_frame::{Form, Frame, Header};
use request_fields::Request;
use std::alloc::Global;
use std::test::Fail;

/// What happens.
pub(crate) enum What {
    /// A request with this code comes on link 1, for a message with these properties, as JSON writes them.
    Ask(u32, &'static str),
    /// A send of 4 MiB comes, the longest body.
    SendLongest,
    /// What became of the record with this number, after so many flush turns?
    Look { number: u64, turn: u64 },
    /// Consumers see all that is on the disk.
    See,
    /// A delayed message is delivered, if one is due.
    Deliver,
    /// A half message is asked for or given up, if one is due.
    Check,
    /// Link 1 ends.
    Leave,
    /// A flush turn begins, and ends as the disk lets it.
    Flush,
}

/// A send of 2 bytes to queue 0 of topic `T`, and a pull of that queue.
pub(crate) const SEND: What = What::Ask(10, "");

pub(crate) const PULL: What = What::Ask(11, "");

/// The host of each client.
const HOST: [u8; 8] = [127, 0, 0, 1, 0, 0, 0, 0];

/// The fields of all kinds of requests, since a request ignores those of other kinds: what is asked for is queue 0 of topic `T`, the
/// key `k`, the record at place 0, and the Commit of the half message there.
const FIELDS: &str =
    r#""producerGroup":"G","consumerGroup":"G","clientID":"c1","topic":"T","queueId":"0","queueOffset":"0",
"sysFlag":"0","defaultTopic":"TBW102","defaultTopicQueueNums":"4","readQueueNums":"4","writeQueueNums":"4","bornTimestamp":"1000",
"flag":"0","maxMsgNums":"32","commitOffset":"1","timestamp":"0","key":"k","maxNum":"32","beginTimestamp":"0","endTimestamp":"9000",
"offset":"0","tranStateTableOffset":"0","commitLogOffset":"0","commitOrRollback":"8""#;

/// The 171 bytes of a heartbeat of a client that produces for the group, of a wish for a queue, and of each message but the longest.
const BODY: &str = r#"{"clientID":"c1","producerDataSet":[{"groupName":"G"}],"consumerDataSet":[],
"clientId":"c1","consumerGroup":"G","mqSet":[{"topic":"T","brokerName":"broker","queueId":0}]}"#;

// The frame of a request.
fn frame_of(alloc: Global, code: u32, props: &str, body: Vec<u8>) -> Result<Frame, Fail> {
    let text = format!(in alloc;
        "{{\"code\":{code},\"opaque\":1,\"extFields\":{{\"properties\":\"{props}\",{FIELDS}}}}}"
    )?;
    match Header::read(alloc, Form::Json, text.as_bytes()) {
        Ok(header) => Ok(Frame {
            at: 0,
            form: Form::Json,
            header,
            body: Rows::of(body),
        }),
        Err(_) => Err(Fail::from("no header")),
    }
}

// A request comes.
fn asks(alloc: Global, now: u64, code: u32, props: &str, body: Vec<u8>) -> Result<Event, Fail> {
    match Request::read(alloc, frame_of(alloc, code, props, body)?) {
        Ok(request) => Ok(Event::Request {
            link: 1,
            host: HOST,
            now,
            request,
        }),
        Err(_) => Err(Fail::from("no request")),
    }
}

/// The event that this is at this reading of the clock.
pub(crate) fn event_of(alloc: Global, now: u64, what: &What) -> Result<Event, Fail> {
    match what {
        What::Ask(code, props) => asks(
            alloc,
            now,
            *code,
            *props,
            Vec::from_slice(alloc, BODY.as_bytes())?,
        ),
        What::SendLongest => asks(alloc, now, 10, "", vec![in alloc; b'x'; 4_194_304]?),
        What::Look { number, turn } => Ok(Event::Look {
            number: *number,
            turn: *turn,
        }),
        What::See => Ok(Event::Dispatch { most: 1000 }),
        What::Deliver => Ok(Event::Deliver { now }),
        What::Check => Ok(Event::Check { now }),
        What::Leave => Ok(Event::Leave { link: 1 }),
        What::Flush => Err(Fail::from("no event of its own")),
    }
}
