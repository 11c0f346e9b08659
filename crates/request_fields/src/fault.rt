//! Why a frame is no request.

ghost use Rattle.std.specs.Prelude.{◌≡◌};
ghost use Rattle.request_fields.specs.Gives.{request_fault};
ghost use Rattle.request_fields.specs.declared.fault.RequestFault.TheVariants.{Memory};

use crate::body_fault::BodyFault;
use mq_bytes::Text;
use std::alloc::{AllocError, AllocFailed};

/// A field, by the name that the request's code has for it.
#[derive(Debug, Drop)]
pub struct Field {
    pub name: Text,
}

/// Why a frame is no request. The first that holds is told, in the order in which they stand here; `Missing` and
/// `BadNumber` come in the order of the fields.
#[derive(Debug, Drop)]
pub enum RequestFault {
    /// No request that is known has this code.
    Unsupported(i32),
    /// A field that has to be there is absent.
    Missing(Field),
    /// A field is not of its kind, which mostly is a number of some range.
    BadNumber(Field),
    /// The body is not what the code asks for.
    BadBody,
    /// Memory ran out, which says nothing of the frame.
    Memory,
}

impl From<AllocError> for RequestFault {
    ghost from_gives = { λ _ e. e ≡ Memory };

    fn from(_e: AllocError) -> RequestFault {
        RequestFault::Memory
    }
}

impl<T: Drop> From<AllocFailed<T>> for RequestFault {
    ghost from_gives = { λ _ e. e ≡ Memory };

    fn from(_e: AllocFailed<T>) -> RequestFault {
        RequestFault::Memory
    }
}

impl From<BodyFault> for RequestFault {
    ghost from_gives = { λ fault e. e ≡ request_fault fault };

    fn from(fault: BodyFault) -> RequestFault {
        match fault {
            BodyFault::Bad => RequestFault::BadBody,
            BodyFault::Memory => RequestFault::Memory,
        }
    }
}
