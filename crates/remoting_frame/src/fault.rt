//! What is wrong with a header, or with the next frame of a stream.

ghost use Rattle.std.specs.Prelude.{◌≡◌};
ghost use Rattle.remoting_frame.specs.declared.fault.HeaderFault.TheVariants.{Memory};

use std::alloc::{AllocError, AllocFailed};

/// Why bytes could not be read as a header.
#[derive(Clone, Copy, Debug, PartialEq, Eq)]
pub enum HeaderFault {
    /// They are not a header of that form.
    Bad,
    /// Memory ran out, which says nothing of the bytes.
    Memory,
}

impl From<AllocError> for HeaderFault {
    ghost from_gives = { λ _ e. e ≡ Memory };

    fn from(_e: AllocError) -> HeaderFault {
        HeaderFault::Memory
    }
}

impl<T: Drop> From<AllocFailed<T>> for HeaderFault {
    ghost from_gives = { λ _ e. e ≡ Memory };

    fn from(_e: AllocFailed<T>) -> HeaderFault {
        HeaderFault::Memory
    }
}

/// Why the next frame of a stream could not be given. The number is the place at which that frame starts, counted in
/// bytes from the beginning of the stream.
#[derive(Clone, Copy, Debug, PartialEq, Eq)]
pub enum FrameFault {
    /// The length is below 4 or above 16,777,216, or the header is longer than the frame.
    BadLength(u64),
    /// The header's form is not known.
    BadForm(u64),
    /// The header bytes are not a header of their form.
    BadHeader(u64),
    /// Memory ran out, which says nothing of the stream. The call may be made again.
    Memory,
}
