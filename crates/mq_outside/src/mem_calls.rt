//! The list of the calls that a disk in memory has done, for what its contract says of each moment. Nothing reads it when
//! the program runs. One buffer has name and piece of each call, one behind the other; its memory is taken at the start.

ghost use Rattle.std.specs.Prelude.{◌≡◌, ◌⊎◌, ◌+◌, ◌≤◌, ◌<◌, ◌++◌, ◌∷◌, [], length, IsTrue, ◌↔◌, IfOk, vec_capacity};
ghost use Rattle.mq_outside.specs.MemCalls.{total, events_in, event_of};

use crate::mem_files::is_within;
use std::alloc::{AllocError, Global};

/// What a call did, with the offset of a write and the length of a cut.
#[derive(Clone, Copy)]
pub enum Kind {
    Write(u64),
    Cut(u64),
    Sync,
    /// A sync that failed.
    Miss,
    /// A sync of what was written again, or had been synced before.
    Renew,
    Remove,
}

/// A call, and how many bytes of the buffer are its file's name, and how many behind it are its piece.
#[derive(Clone, Copy)]
pub struct Call {
    pub kind: Kind,
    pub name: usize,
    pub size: usize,
}

/// The calls so far, up to a number of calls and of bytes of names and pieces.
#[derive(Drop)]
pub struct MemCalls {
    calls: Vec<Call>,
    buffer: Vec<u8>,
    most_calls: usize,
    most_bytes: usize,
    ghost filled: { total calls.items ≡ length buffer.items },
    ghost calls_reserved: { most_calls ≤ vec_capacity calls },
    ghost bytes_reserved: { most_bytes ≤ vec_capacity buffer },
}

impl MemCalls {
    ghost use Rattle.mq_outside.specs.MemDisk.{events_of, HasRoomToNote, IsNoted};

    /// No calls, with room for so many calls and bytes.
    pub fn new(alloc: Global, most_calls: usize, most_bytes: usize) -> Result<MemCalls, AllocError>
        ensures empty { IfOk result (λ calls. (events_of calls ≡ []) × (calls.calls.items ≡ []) × (calls.buffer.items ≡ [])) }
        ensures calls { IfOk result (λ calls. calls.most_calls ≡ most_calls) }
        ensures bytes { IfOk result (λ calls. calls.most_bytes ≡ most_bytes) }
    {
        let calls = Vec::with_capacity(alloc, most_calls)?;
        let buffer = Vec::with_capacity(alloc, most_bytes)?;
        Ok(MemCalls {
            calls,
            buffer,
            most_calls,
            most_bytes,
        })
    }

    /// That a call with this name and a piece of this size can be noted.
    pub fn has_room(&self, name: &[u8], piece: &[u8]) -> bool
        ensures { IsTrue result ↔ HasRoomToNote self.now name.now piece.now }
    {
        self.calls.len() < self.most_calls
            && is_within(self.buffer.len(), name.len(), piece.len(), self.most_bytes)
    }

    /// Notes a call.
    pub fn note(&mut self, kind: Kind, name: &[u8], piece: &[u8])
        requires { HasRoomToNote self.old name.now piece.now }
        ensures noted { events_of self.new ≡ events_of self.old ++ event_of kind name.now piece.now ∷ [] }
        ensures takes { IsNoted self.old self.new name.now piece.now }
    {
        let call = Call {
            kind,
            name: name.len(),
            size: piece.len(),
        };
        if self.buffer.extend_from_slice(name).is_err() {
            unreachable!();
        }
        if self.buffer.extend_from_slice(piece).is_err() {
            unreachable!();
        }
        if self.calls.push(call).is_err() {
            unreachable!();
        }
    }
}
