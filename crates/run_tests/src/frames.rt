//! Requests as bytes: sends to queue 0 of topic T, a pull of it, and a heartbeat.

use std::alloc::AllocError;

const SEND: &[u8] =
    b"{\"code\":10,\"extFields\":{\"bornTimestamp\":\"1000\",\"defaultTopic\":\"TBW102\",\"defaultTopicQueueNums\":\"4\",\"flag\":\"0\",\
\"producerGroup\":\"P\",\"queueId\":\"0\",\"sysFlag\":\"0\",\"topic\":\"T\"},\"flag\":0,\"language\":\"JAVA\",\"opaque\":7,\
\"serializeTypeCurrentRPC\":\"JSON\",\"version\":395}";

// The same, which isn't to wait for the disk.
const HASTY: &[u8] =
    b"{\"code\":10,\"extFields\":{\"bornTimestamp\":\"1000\",\"defaultTopic\":\"TBW102\",\"defaultTopicQueueNums\":\"4\",\"flag\":\"0\",\
\"producerGroup\":\"P\",\"properties\":\"WAIT\\u0001false\\u0002\",\"queueId\":\"0\",\"sysFlag\":\"0\",\"topic\":\"T\"},\
\"flag\":0,\"language\":\"JAVA\",\"opaque\":7,\"serializeTypeCurrentRPC\":\"JSON\",\"version\":395}";

// The same, which is to be delivered a second later.
const DELAYED: &[u8] =
    b"{\"code\":10,\"extFields\":{\"bornTimestamp\":\"1000\",\"defaultTopic\":\"TBW102\",\"defaultTopicQueueNums\":\"4\",\"flag\":\"0\",\
\"producerGroup\":\"P\",\"properties\":\"DELAY\\u00011\\u0002\",\"queueId\":\"0\",\"sysFlag\":\"0\",\"topic\":\"T\"},\
\"flag\":0,\"language\":\"JAVA\",\"opaque\":7,\"serializeTypeCurrentRPC\":\"JSON\",\"version\":395}";

// The same, of a half message.
const HALF: &[u8] =
    b"{\"code\":10,\"extFields\":{\"bornTimestamp\":\"1000\",\"defaultTopic\":\"TBW102\",\"defaultTopicQueueNums\":\"4\",\"flag\":\"0\",\
\"producerGroup\":\"P\",\"properties\":\"TRAN_MSG\\u0001true\\u0002PGROUP\\u0001P\\u0002\",\"queueId\":\"0\",\"sysFlag\":\"0\",\
\"topic\":\"T\"},\"flag\":0,\"language\":\"JAVA\",\"opaque\":7,\"serializeTypeCurrentRPC\":\"JSON\",\"version\":395}";

const HEARTBEAT: &[u8] = b"{\"code\":34,\"extFields\":{},\"flag\":0,\"opaque\":6,\"version\":395}";

// A client that is a producer of the group `P`.
const CLIENT: &[u8] =
    b"{\"clientID\":\"c1\",\"producerDataSet\":[{\"groupName\":\"P\"}],\"consumerDataSet\":[]}";

const PULL: &[u8] =
    b"{\"code\":11,\"opaque\":8,\"extFields\":{\"consumerGroup\":\"C\",\"topic\":\"T\",\"queueId\":\"0\",\"queueOffset\":\"0\",\
\"maxMsgNums\":\"32\",\"sysFlag\":\"0\"}}";

// Appends the beginning of a frame of this header, up to its body of so many bytes.
fn put_head(out: &mut Vec<u8>, header: &[u8], body: u32) -> Result<(), AllocError> {
    let head = header.len().min(1 << 20) as u32;
    let len = 4 + head + body.min(1 << 23);
    out.extend_from_slice(&len.to_be_bytes())?;
    out.extend_from_slice(&head.to_be_bytes())?;
    out.extend_from_slice(header)
}

// Appends a frame of this header and a body of so many bytes.
fn put_frame(out: &mut Vec<u8>, header: &[u8], body: u32) -> Result<(), AllocError> {
    put_head(out, header, body)?;
    out.resize(out.len() + body as usize, b'x')
}

/// Appends a send with a body of so many bytes.
pub fn put_send(out: &mut Vec<u8>, body: u32) -> Result<(), AllocError> {
    put_frame(out, SEND, body)
}

/// Appends a send with a body of two bytes that doesn't wait for the disk.
pub fn put_hasty_send(out: &mut Vec<u8>) -> Result<(), AllocError> {
    put_frame(out, HASTY, 2)
}

/// Appends a send with a body of two bytes whose message is to be delivered a second later.
pub fn put_delayed_send(out: &mut Vec<u8>) -> Result<(), AllocError> {
    put_frame(out, DELAYED, 2)
}

/// Appends a heartbeat of a producer of the group `P`.
pub fn put_heartbeat(out: &mut Vec<u8>) -> Result<(), AllocError> {
    put_head(out, HEARTBEAT, CLIENT.len() as u32)?;
    out.extend_from_slice(CLIENT)
}

/// Appends a send of a half message with a body of two bytes, of the group `P`.
pub fn put_half_send(out: &mut Vec<u8>) -> Result<(), AllocError> {
    put_frame(out, HALF, 2)
}

/// Appends a pull from the first message on.
pub fn put_pull(out: &mut Vec<u8>) -> Result<(), AllocError> {
    put_frame(out, PULL, 0)
}
