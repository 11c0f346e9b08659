//! Which requests the core answers. Its caller tells others that they are not served, with the code 3.

ghost use Rattle.std.specs.Prelude.{◌≡◌};
ghost use Rattle.broker_events.specs.Served.{is_served as is_served_of};

use request_fields::Request;

/// Whether the core answers the request: each that can be read is answered.
pub fn is_served(request: &Request) -> bool
    ensures { result ≡ is_served_of request.now }
{
    match request {
        Request::Send(_)
        | Request::Pull(_)
        | Request::OffsetOf(_)
        | Request::SetOffset(_)
        | Request::MakeTopic(_)
        | Request::Search(_)
        | Request::MaxOffset(_)
        | Request::MinOffset(_)
        | Request::Beat(_)
        | Request::Unregister(_)
        | Request::EndTransaction(_)
        | Request::Lock(_)
        | Request::Unlock(_)
        | Request::ViewById(_)
        | Request::Query(_) => true,
    }
}
