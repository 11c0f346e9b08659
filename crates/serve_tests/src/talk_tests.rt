//! A response, a request and a bad length, in two pieces.

use remoting_frame::FrameFault;
use request_fields::Request;
use session::Talk;
use std::test::Fail;

/// The request starts at 38, and the bad length at 117.
const STREAM: &[u8; 121] = b"\x00\x00\x00\"\x00\x00\x00\x1E{\"code\":0,\"flag\":1,\"opaque\":6}\
\x00\x00\x00K\x00\x00\x00G{\"code\":31,\"extFields\":{\"queueId\":\"0\",\"topic\":\"T\"},\"flag\":2,\"opaque\":7}\
\x00\x00\x00\x03";

#[test]
fn the_request_behind_a_response_is_heard_and_a_fault_stays(rt: HostRuntime) -> Result<(), Fail> {
    let mut talk = Talk::new(rt.alloc(), 5, [127, 0, 0, 1, 0, 0, 0, 0]);
    let stream = &STREAM[..];
    talk.feed(&stream[..50])?;
    let Ok(None) = talk.next(rt.alloc()) else {
        return Err(Fail::from("an answer before the request was whole"));
    };
    assert!(rt; talk.rest() == (38, 12));
    talk.feed(&stream[50..])?;
    let Ok(Some(heard)) = talk.next(rt.alloc()) else {
        return Err(Fail::from("no request"));
    };
    assert!(rt; (heard.opaque, heard.one_way) == (7, true));
    let Ok(Request::MinOffset(_)) = heard.request else {
        return Err(Fail::from("another request"));
    };
    for _ in 0..2 {
        let Err(fault) = talk.next(rt.alloc()) else {
            return Err(Fail::from("no fault"));
        };
        assert!(rt; fault == FrameFault::BadLength(117));
    }
    assert!(rt; (talk.link(), talk.host()[0], talk.rest()) == (5, 127, (117, 4)));
    Ok(())
}
