//! A message of a batch, and why a body is none.

ghost use Rattle.std.specs.Prelude.{◌≡◌};
ghost use Rattle.batch_records.specs.declared.message.BatchFault.TheVariants.{Memory};

use bytes::Bytes;
use mq_bytes::Text;
use std::alloc::{AllocError, AllocFailed};

/// A message of a batch. The topic, the queue and the times are those of its request.
#[derive(Drop)]
pub struct Message {
    /// The sender's own flag.
    pub flag: i32,
    /// A piece of the request's body, whose memory it shares.
    pub body: Bytes,
    /// The properties as they were written.
    pub props: Text,
}

/// Why a body could not be split.
#[derive(Debug, Clone, Copy, PartialEq, Eq)]
pub enum BatchFault {
    /// It isn't messages one after another.
    Bad,
    /// Memory ran out, which says nothing of the body.
    Memory,
}

impl From<AllocError> for BatchFault {
    ghost from_gives = { λ _ e. e ≡ Memory };

    fn from(_e: AllocError) -> BatchFault {
        BatchFault::Memory
    }
}

impl<T: Drop> From<AllocFailed<T>> for BatchFault {
    ghost from_gives = { λ _ e. e ≡ Memory };

    fn from(_e: AllocFailed<T>) -> BatchFault {
        BatchFault::Memory
    }
}
