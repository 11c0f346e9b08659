//! Why a body says nothing.

ghost use Rattle.std.specs.Prelude.{◌≡◌};
ghost use Rattle.request_fields.specs.declared.body_fault.BodyFault.TheVariants.{Memory};

use std::alloc::{AllocError, AllocFailed};

/// Why a body says nothing.
#[derive(Clone, Copy)]
pub(crate) enum BodyFault {
    /// It is not of its form.
    Bad,
    /// Memory ran out, which says nothing of the body.
    Memory,
}

impl From<AllocError> for BodyFault {
    ghost from_gives = { λ _ e. e ≡ Memory };

    fn from(_e: AllocError) -> BodyFault {
        BodyFault::Memory
    }
}

impl<T: Drop> From<AllocFailed<T>> for BodyFault {
    ghost from_gives = { λ _ e. e ≡ Memory };

    fn from(_e: AllocFailed<T>) -> BodyFault {
        BodyFault::Memory
    }
}
