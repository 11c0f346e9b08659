//! The requests, each with its code.

ghost use Rattle.request_fields.specs.Reading.{Reads, request_of};

use crate::bodies::{heartbeat, lock, unlock};
use crate::clients::Heartbeat;
use crate::fault::RequestFault;
use crate::fields::{
    EndFields, LockFields, OffsetFields, PullFields, QueryFields, QueueFields, SearchFields,
    SetOffsetFields, TopicFields, UnregisterFields, ViewFields,
};
use crate::rows::{
    end_transaction, make_topic, max_offset, min_offset, offset_of, pull, query, search,
    set_offset, unregister, view_by_id,
};
use crate::send::send;
use crate::send_fields::SendFields;
use crate::send_names::{long_names, short_names};
use mq_bytes::Rows;
use remoting_frame::{Frame, Header};
use std::alloc::Global;

/// A request. What each says is within the ranges that its type keeps.
#[derive(Drop)]
pub enum Request {
    /// Codes 10 and 310.
    Send(SendFields),
    /// Code 11.
    Pull(PullFields),
    /// Code 12.
    Query(QueryFields),
    /// Code 14.
    OffsetOf(OffsetFields),
    /// Code 15.
    SetOffset(SetOffsetFields),
    /// Code 17.
    MakeTopic(TopicFields),
    /// Code 29.
    Search(SearchFields),
    /// Code 30.
    MaxOffset(QueueFields),
    /// Code 31.
    MinOffset(QueueFields),
    /// Code 33.
    ViewById(ViewFields),
    /// Code 34.
    Beat(Heartbeat),
    /// Code 35.
    Unregister(UnregisterFields),
    /// Code 37.
    EndTransaction(EndFields),
    /// Code 41.
    Lock(LockFields),
    /// Code 42.
    Unlock(LockFields),
}

impl Request {
    /// The request that the frame is, or its first fault. A SEND takes the frame's body over.
    pub fn read(alloc: Global, frame: Frame) -> Result<Request, RequestFault>
        ensures { Reads result (request_of frame.header frame.body) }
    {
        let Frame { header, body, .. } = frame;
        let request = request_in(alloc, &header, body);
        drop(header);
        request
    }
}

// The request of this header and body, or its first fault.
fn request_in(alloc: Global, header: &Header, body: Rows<u8>) -> Result<Request, RequestFault>
    ensures { Reads result (request_of header.now body) }
{
    match header.code {
        10 => send(alloc, header, body, &long_names()),
        11 => pull(alloc, header),
        12 => query(alloc, header),
        14 => offset_of(alloc, header),
        15 => set_offset(alloc, header),
        17 => make_topic(alloc, header),
        29 => search(alloc, header),
        30 => max_offset(alloc, header),
        31 => min_offset(alloc, header),
        33 => view_by_id(alloc, header),
        34 => heartbeat(alloc, body.as_slice()),
        35 => unregister(alloc, header),
        37 => end_transaction(alloc, header),
        41 => lock(alloc, body.as_slice()),
        42 => unlock(alloc, body.as_slice()),
        310 => send(alloc, header, body, &short_names()),
        code => Err(RequestFault::Unsupported(code)),
    }
}
