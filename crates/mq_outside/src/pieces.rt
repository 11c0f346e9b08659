//! What is asked of frozen pieces with no reader. No answer shows whether a piece holds its bytes.

ghost use Rattle.std.specs.Prelude.{◌≡◌, ◌+◌, ◌≤◌, ◌<◌, ◌^◌, IsTrue, IfOk, IfSome, length, take, drop};
ghost use Rattle.mq_outside.specs.Readings.{IsSamePart};

use crate::frozen::Frozen;
use bytes::Bytes;
use std::alloc::AllocError;

// Whether both have the same bytes in this range.
fn are_same(first: &Bytes, next: &Bytes, at: usize, len: usize) -> bool
    requires first { at + len ≤ length first.now }
    requires next { at + len ≤ length next.now }
    ensures { IsTrue result → take len (drop at next.now) ≡ take len (drop at first.now) }
{
    &first.as_slice()[at..at + len] == &next.as_slice()[at..at + len]
}

impl Frozen {
    /// The place of the log at which the log file begins.
    pub fn base(&self) -> u64
        ensures { result ≡ self.now.base }
    {
        self.base
    }

    /// Where the piece begins in the log file.
    pub fn from(&self) -> u64
        ensures { result ≡ self.now.from }
    {
        self.from
    }

    /// How many bytes it has.
    pub fn len(&self) -> u64
        ensures { result ≡ self.now.len }
    {
        self.len
    }

    /// The piece once more. It shares what is held.
    pub fn share(&self) -> Result<Frozen, AllocError>
        ensures { IfOk result (λ piece. piece ≡ self.now) }
    {
        let held = match &self.held {
            None => None,
            Some(bytes) => Some(bytes.slice(..)?),
        };
        Ok(Frozen {
            base: self.base,
            from: self.from,
            len: self.len,
            held,
        })
    }

    /// The piece with these bytes in place of what it holds, where it holds bytes: so that a piece is kept without memory by
    /// whoever has its bytes.
    pub fn keeping(&self, bytes: Bytes) -> Frozen
        requires len { length bytes ≡ self.now.len }
        requires same { IfSome self.now.held (λ held. held ≡ bytes) }
        ensures { result ≡ self.now }
    {
        let held = match &self.held {
            None => None,
            Some(_) => Some(bytes),
        };
        Frozen {
            base: self.base,
            from: self.from,
            len: self.len,
            held,
        }
    }

    /// Whether both pieces are the same part of a log file, and a read of this range gives the same from either.
    pub fn has_same(&self, next: &Frozen, at: u64, len: u32) -> bool
        requires within { at + len ≤ next.now.len }
        ensures same { IsTrue result → IsSamePart self.now next.now at len }
        ensures fits { IsTrue result → at + len < 2 ^ 64 }
    {
        if self.base != next.base || self.from != next.from || self.len != next.len {
            return false;
        }
        match &next.held {
            None => self.held.is_none(),
            Some(held) => match &self.held {
                None => false,
                Some(other) => are_same(other, held, at as usize, len as usize),
            },
        }
    }
}
