//! The requests that are told by their bodies.

ghost use Rattle.request_fields.specs.Bodies.{beat_in, lock_in};
ghost use Rattle.request_fields.specs.Reading.{Reads, of_body};
ghost use Rattle.request_fields.specs.declared.request.Request.TheVariants.{Beat, Lock, Unlock};

use crate::beat::beat;
use crate::fault::RequestFault;
use crate::lock::lock_fields;
use crate::request::Request;
use std::alloc::Global;

pub(crate) fn heartbeat(alloc: Global, body: &[u8]) -> Result<Request, RequestFault>
    ensures { Reads result (of_body Beat (beat_in body.now)) }
{
    Ok(Request::Beat(beat(alloc, body)?))
}

pub(crate) fn lock(alloc: Global, body: &[u8]) -> Result<Request, RequestFault>
    ensures { Reads result (of_body Lock (lock_in body.now)) }
{
    Ok(Request::Lock(lock_fields(alloc, body)?))
}

pub(crate) fn unlock(alloc: Global, body: &[u8]) -> Result<Request, RequestFault>
    ensures { Reads result (of_body Unlock (lock_in body.now)) }
{
    Ok(Request::Unlock(lock_fields(alloc, body)?))
}
