//! A request as it was heard: what its frame asks for, and what its reply repeats of it.
//!
//! Of a frame's flag bit 0 is set in a response, and bit 1 in a request that wants no reply.

ghost use Rattle.std.specs.Prelude.{◌≡◌};
ghost use Rattle.session.specs.Hearing.{IsHeard, is_response as is_response_of, is_one_way as is_one_way_of};

use remoting_frame::{Form, Frame, Header};
use request_fields::{Request, RequestFault};
use std::alloc::Global;

/// A request, or why its frame is none.
#[derive(Drop)]
pub struct Heard {
    /// The form of its header, which the reply has too.
    pub form: Form,
    /// What it asks for, as a number.
    pub code: i32,
    /// The sender's number of the request, which the reply repeats.
    pub opaque: i32,
    /// Nobody waits for a reply.
    pub one_way: bool,
    pub request: Result<Request, RequestFault>,
}

/// The frame is a response, which no request is.
pub(crate) fn is_response(header: &Header) -> bool
    ensures { result ≡ is_response_of header.now }
{
    header.flag.cast_unsigned() % 2 == 1
}

// Nobody waits for a reply.
fn is_one_way(header: &Header) -> bool
    ensures { result ≡ is_one_way_of header.now }
{
    header.flag.cast_unsigned() / 2 % 2 == 1
}

/// The request of a frame.
pub(crate) fn hear(alloc: Global, frame: Frame) -> Heard
    ensures { IsHeard result frame }
{
    let (form, code, opaque) = (frame.form, frame.header.code, frame.header.opaque);
    let one_way = is_one_way(&frame.header);
    Heard {
        form,
        code,
        opaque,
        one_way,
        request: Request::read(alloc, frame),
    }
}
