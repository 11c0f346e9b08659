//! Each code once, the worked requests, and the bounds.

use mq_bytes::Rows;
use remoting_frame::{Form, Frame, Header};
use request_fields::{PullFields, Request, RequestFault};
use std::alloc::{AllocError, Global};
use std::process::Abort;
use std::test::Fail;

// A pull, with an absent offset to store and an absent time to wait, which have their defaults.
const PULL: &[u8] =
    b"{\"code\":11,\"opaque\":1,\"extFields\":{\"consumerGroup\":\"G\",\"topic\":\"T\",\"queueId\":\"2147483647\",\
\"queueOffset\":\"-5\",\"maxMsgNums\":\"32\",\"sysFlag\":\"6\",\"subscription\":\"*\"}}";

fn frame_of(alloc: Global, header: &[u8], body: &[u8]) -> Result<Frame, Fail> {
    let Ok(header) = Header::read(alloc, Form::Json, header) else {
        return Err(Fail::from("a header"));
    };
    let body = Rows::of(Vec::from_slice(alloc, body)?);
    Ok(Frame {
        at: 0,
        form: Form::Json,
        header,
        body,
    })
}

// The variant, in one word.
fn word_of(request: &Request) -> &'static str {
    match request {
        Request::Send(_) => "send",
        Request::Pull(_) => "pull",
        Request::Query(_) => "query",
        Request::OffsetOf(_) => "offset",
        Request::SetOffset(_) => "set",
        Request::MakeTopic(_) => "topic",
        Request::Search(_) => "search",
        Request::MaxOffset(_) => "max",
        Request::MinOffset(_) => "min",
        Request::ViewById(_) => "view",
        Request::Beat(_) => "beat",
        Request::Unregister(_) => "leave",
        Request::EndTransaction(_) => "end",
        Request::Lock(_) => "lock",
        Request::Unlock(_) => "unlock",
    }
}

// The fault in words, with the name of its field.
fn fault_text(alloc: Global, fault: &RequestFault) -> Result<String, AllocError> {
    match fault {
        RequestFault::Unsupported(code) => format!(in alloc; "unsupported {code}"),
        RequestFault::Missing(field) => {
            let name = field.name.as_str();
            format!(in alloc; "missing {name}")
        }
        RequestFault::BadNumber(field) => {
            let name = field.name.as_str();
            format!(in alloc; "bad {name}")
        }
        RequestFault::BadBody => String::from_str(alloc, "bad body"),
        RequestFault::Memory => String::from_str(alloc, "memory"),
    }
}

// The fields of a pull.
fn pull_text(alloc: Global, pull: &PullFields) -> Result<String, AllocError> {
    let (queue, from, most) = (pull.queue, pull.from, pull.most);
    let (commit, suspend) = (pull.commit, pull.suspend);
    let words = pull.subscription.as_str();
    format!(in alloc; "pull {queue} {from} {most} {commit} {suspend} {words}")
}

// What was read: a pull's fields, the word of another request, or the fault.
fn text_of(alloc: Global, read: &Result<Request, RequestFault>) -> Result<String, AllocError> {
    match read {
        Ok(Request::Pull(pull)) => pull_text(alloc, pull),
        Ok(request) => String::from_str(alloc, word_of(request)),
        Err(fault) => fault_text(alloc, fault),
    }
}

// What the frame is read as. It alone owns a request: a function that does is proved for each variant.
fn frame_text(alloc: Global, frame: Frame) -> Result<String, AllocError> {
    text_of(alloc, &Request::read(alloc, frame))
}

// What the header and the body are read as.
fn text_at(alloc: Global, header: &[u8], body: &[u8]) -> Result<String, Fail> {
    let frame = frame_of(alloc, header, body)?;
    Ok(frame_text(alloc, frame)?)
}

// That the header and the body are read as this.
fn expect_text<R: Abort + AllocGlobal>(
    rt: &R,
    header: &[u8],
    body: &[u8],
    text: &str,
) -> Result<(), Fail> {
    let read = text_at(rt.alloc(), header, body)?;
    assert!(rt; read.as_str() == text, "at {body:?}");
    Ok(())
}

#[test]
fn both_codes_of_a_send_are_read(rt: HostRuntime) -> Result<(), Fail> {
    let rows: [(&[u8], &[u8], &str); 2] = [
        (
            b"{\"code\":10,\"opaque\":1,\"extFields\":{\"bornTimestamp\":\"4611686018427387903\",\"defaultTopic\":\"TBW102\",\
\"defaultTopicQueueNums\":\"4\",\"flag\":\"-1\",\"producerGroup\":\"P\",\"queueId\":\"0\",\"sysFlag\":\"2\",\"topic\":\"T\",\
\"properties\":\"A\",\"reconsumeTimes\":\"3\"}}",
            b"hi",
            "send",
        ),
        (
            br#"{"code":310,"opaque":1,"extFields":{"a":"P","b":"T","e":"0","f":"2","g":"7","h":"5","m":"false"}}"#,
            b"",
            "send",
        ),
    ];
    for (header, body, word) in rows {
        expect_text(&rt, header, body, word)?;
    }
    Ok(())
}

#[test]
fn a_pull_with_its_fields_and_defaults_and_a_query_are_read(rt: HostRuntime) -> Result<(), Fail> {
    let rows: [(&[u8], &str); 2] = [
        (PULL, "pull 2147483647 -5 32 -1 0 *"),
        (
            br#"{"code":12,"opaque":1,"extFields":{"topic":"T","key":"k","maxNum":"32","beginTimestamp":"0","endTimestamp":"9000"}}"#,
            "query",
        ),
    ];
    for (header, word) in rows {
        expect_text(&rt, header, b"", word)?;
    }
    Ok(())
}

#[test]
fn offsets_topics_and_times_are_read(rt: HostRuntime) -> Result<(), Fail> {
    let rows: [(&[u8], &str); 4] = [
        (
            br#"{"code":14,"opaque":1,"extFields":{"consumerGroup":"G","topic":"T","queueId":"1"}}"#,
            "offset",
        ),
        (
            br#"{"code":15,"opaque":1,"extFields":{"consumerGroup":"G","topic":"T","queueId":"1","commitOffset":"9"}}"#,
            "set",
        ),
        (
            br#"{"code":17,"opaque":1,"extFields":{"topic":"T","readQueueNums":"1","writeQueueNums":"1024"}}"#,
            "topic",
        ),
        (
            br#"{"code":29,"opaque":1,"extFields":{"topic":"T","queueId":"1","timestamp":"1001"}}"#,
            "search",
        ),
    ];
    for (header, word) in rows {
        expect_text(&rt, header, b"", word)?;
    }
    Ok(())
}

#[test]
fn ends_of_queues_and_places_are_read(rt: HostRuntime) -> Result<(), Fail> {
    let rows: [(&[u8], &str); 3] = [
        (
            br#"{"code":30,"opaque":1,"extFields":{"topic":"T","queueId":"1"}}"#,
            "max",
        ),
        (
            br#"{"code":31,"opaque":1,"extFields":{"topic":"T","queueId":"1"}}"#,
            "min",
        ),
        (
            br#"{"code":33,"opaque":1,"extFields":{"offset":"108"}}"#,
            "view",
        ),
    ];
    for (header, word) in rows {
        expect_text(&rt, header, b"", word)?;
    }
    Ok(())
}

#[test]
fn clients_that_leave_and_verdicts_are_read(rt: HostRuntime) -> Result<(), Fail> {
    let rows: [(&[u8], &str); 3] = [
        (
            br#"{"code":35,"opaque":1,"extFields":{"clientID":"c","consumerGroup":"G"}}"#,
            "leave",
        ),
        (
            b"{\"code\":35,\"opaque\":1,\"extFields\":{\"clientID\":\"abcdefghijklmnopqrstuvwxyz0123456789ABCDabcdefghijklmnopqrstuvwxyz01\
23456789ABCDabcdefghijklmnopqrstuvwxyz0123456789ABCD\"}}",
            "leave",
        ),
        (
            b"{\"code\":37,\"opaque\":1,\"extFields\":{\"producerGroup\":\"P\",\"tranStateTableOffset\":\"1\",\
\"commitLogOffset\":\"178\",\"commitOrRollback\":\"12\",\"msgId\":\"m\"}}",
            "end",
        ),
    ];
    for (header, word) in rows {
        expect_text(&rt, header, b"", word)?;
    }
    Ok(())
}

#[test]
fn heartbeats_and_locks_are_read(rt: HostRuntime) -> Result<(), Fail> {
    let rows: [(&[u8], &[u8], &str); 3] = [
        (
            br#"{"code":34,"opaque":1,"extFields":{}}"#,
            b"{\"clientID\":\"\",\"clientID\":\"c\",\"producerDataSet\":[{\"groupName\":\"P\"}],\
\"consumerDataSet\":[{\"groupName\":\"G\",\"subscriptionDataSet\":[{\"topic\":\"T\",\"subString\":\"*\"}]},{\"groupName\":\"H\"}]}",
            "beat",
        ),
        (
            br#"{"code":41,"opaque":1,"extFields":{}}"#,
            br#"{"consumerGroup":"G","clientId":"c","mqSet":[{"topic":"T","brokerName":"b","queueId":0}]}"#,
            "lock",
        ),
        (
            br#"{"code":42,"opaque":1,"extFields":{}}"#,
            br#"{"consumerGroup":"G","clientId":"c","mqSet":[]}"#,
            "unlock",
        ),
    ];
    for (header, body, word) in rows {
        expect_text(&rt, header, body, word)?;
    }
    Ok(())
}

#[test]
fn an_unknown_code_and_absent_fields_are_told(rt: HostRuntime) -> Result<(), Fail> {
    let rows: [(&[u8], &str); 3] = [
        (
            br#"{"code":999,"opaque":1,"extFields":{}}"#,
            "unsupported 999",
        ),
        (
            br#"{"code":30,"opaque":1,"extFields":{"topic":"T"}}"#,
            "missing queueId",
        ),
        (
            b"{\"code\":10,\"opaque\":1,\"extFields\":{\"batch\":\"true\",\"bornTimestamp\":\"0\",\"producerGroup\":\"P\",\
\"queueId\":\"0\",\"sysFlag\":\"0\",\"topic\":\"T\"}}",
            "missing flag",
        ),
    ];
    for (header, fault) in rows {
        expect_text(&rt, header, b"", fault)?;
    }
    Ok(())
}

#[test]
fn numbers_past_their_ranges_are_told(rt: HostRuntime) -> Result<(), Fail> {
    let rows: [(&[u8], &str); 4] = [
        (
            br#"{"code":30,"opaque":1,"extFields":{"topic":"T","queueId":"x"}}"#,
            "bad queueId",
        ),
        (
            br#"{"code":30,"opaque":1,"extFields":{"topic":"T","queueId":"2147483648"}}"#,
            "bad queueId",
        ),
        (
            br#"{"code":33,"opaque":1,"extFields":{"offset":"4611686018427387904"}}"#,
            "bad offset",
        ),
        (
            br#"{"code":17,"opaque":1,"extFields":{"topic":"T","readQueueNums":"0","writeQueueNums":"1025"}}"#,
            "bad readQueueNums",
        ),
    ];
    for (header, fault) in rows {
        expect_text(&rt, header, b"", fault)?;
    }
    Ok(())
}

#[test]
fn batches_verdicts_and_names_that_are_none_are_told(rt: HostRuntime) -> Result<(), Fail> {
    let rows: [(&[u8], &str); 4] = [
        (
            br#"{"code":310,"opaque":1,"extFields":{"a":"P","b":"T","e":"0","f":"2","g":"7","h":"5","m":"true"}}"#,
            "bad m",
        ),
        (
            b"{\"code\":37,\"opaque\":1,\"extFields\":{\"producerGroup\":\"P\",\"tranStateTableOffset\":\"0\",\"commitLogOffset\":\"0\",\
\"commitOrRollback\":\"5\"}}",
            "bad commitOrRollback",
        ),
        (
            br#"{"code":35,"opaque":1,"extFields":{"clientID":"c","producerGroup":""}}"#,
            "bad producerGroup",
        ),
        (
            b"{\"code\":35,\"opaque\":1,\"extFields\":{\"clientID\":\"abcdefghijklmnopqrstuvwxyz0123456789ABCDabcdefghijklmnopqrstuvwxyz01\
23456789ABCDabcdefghijklmnopqrstuvwxyz0123456789ABCDx\"}}",
            "bad clientID",
        ),
    ];
    for (header, fault) in rows {
        expect_text(&rt, header, b"", fault)?;
    }
    Ok(())
}

#[test]
fn bodies_of_other_forms_are_told(rt: HostRuntime) -> Result<(), Fail> {
    let rows: [(&[u8], &[u8]); 6] = [
        (br#"{"code":34,"opaque":1,"extFields":{}}"#, b"{"),
        (
            br#"{"code":34,"opaque":1,"extFields":{}}"#,
            br#"{"clientID":"c","clientID":""}"#,
        ),
        (
            br#"{"code":41,"opaque":1,"extFields":{}}"#,
            br#"{"consumerGroup":"G","clientId":"c"}"#,
        ),
        (
            br#"{"code":41,"opaque":1,"extFields":{}}"#,
            br#"{"consumerGroup":"G","clientId":"c","mqSet":null}"#,
        ),
        (
            br#"{"code":42,"opaque":1,"extFields":{}}"#,
            br#"{"consumerGroup":"G","clientId":"c","mqSet":[{"topic":"a b","brokerName":"b","queueId":0}]}"#,
        ),
        (
            br#"{"code":41,"opaque":1,"extFields":{}}"#,
            br#"{"consumerGroup":"G","clientId":"c","mqSet":[{"topic":"T","brokerName":"b","queueId":1.0}]}"#,
        ),
    ];
    for (header, body) in rows {
        expect_text(&rt, header, body, "bad body")?;
    }
    Ok(())
}
