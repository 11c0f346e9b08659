//! The body of a message with its checksum and the shift of its length. Both are taken once, where the bytes come in, and not
//! where a record is written.

ghost use Rattle.std.specs.Prelude.{◌≡◌, length, IfOk};
ghost use Rattle.mq_bytes.specs.Crc.{crc_of};
ghost use Rattle.record_codec.specs.Bodies.{bytes_of};
ghost use Rattle.record_codec.specs.Join.{shift_of};

use crate::join::shift_over;
use bytes::Bytes;
use mq_bytes::crc32;
use std::alloc::{AllocError, Global};
use std::marker::Model;

// Where the bytes of a body are.
#[derive(Debug, Drop)]
enum Held {
    /// In memory of their own.
    Own(Vec<u8>),
    /// In memory that others have bytes in too.
    Shared(Bytes),
}

/// The bytes of a message's body, any of them, with their CRC-32 and the shift of their length. Contracts see the bytes.
#[derive(Debug, Drop)]
pub struct Body {
    held: Held,
    sum: u32,
    shift: u32,
}

impl Model for Body {
    ghost use Rattle.std.specs.Prelude.{ℕ, List, ◌≡◌, length};
    ghost use Rattle.mq_bytes.specs.Crc.{crc_of};
    ghost use Rattle.record_codec.specs.Bodies.{bytes_of};
    ghost use Rattle.record_codec.specs.Join.{shift_of};

    ghost Value = { List ℕ };

    ghost view = { λ b. bytes_of b.held };

    ghost invariant = { λ b. (b.sum ≡ crc_of (bytes_of b.held)) × (b.shift ≡ shift_of (length (bytes_of b.held))) };
}

impl Held {
    fn as_slice(&self) -> &[u8]
        ensures { result.now ≡ bytes_of self.now }
    {
        match self {
            Held::Own(bytes) => bytes.as_slice(),
            Held::Shared(bytes) => bytes.as_slice(),
        }
    }

    // The same bytes. Those that are shared are not copied.
    fn copy(&self, alloc: Global) -> Result<Held, AllocError>
        ensures { IfOk result (λ copy. bytes_of copy ≡ bytes_of self.now) }
    {
        match self {
            Held::Own(bytes) => Ok(Held::Own(Vec::from_slice(alloc, bytes.as_slice())?)),
            Held::Shared(bytes) => Ok(Held::Shared(bytes.clone()?)),
        }
    }
}

// The body of these bytes.
fn body_of(held: Held) -> Body
    ensures { result ≡ bytes_of held }
{
    let bytes = held.as_slice();
    let sum = crc32(bytes);
    let shift = shift_over(bytes.len());
    Body { held, sum, shift }
}

impl Body {
    /// The body of these bytes, which are summed here.
    pub fn of(bytes: Vec<u8>) -> Body
        ensures { result ≡ bytes.items }
    {
        body_of(Held::Own(bytes))
    }

    /// The body of these bytes, which are summed here. Its copies have no memory of their own, but that of these bytes.
    pub fn shared(bytes: Bytes) -> Body
        ensures { result ≡ bytes }
    {
        body_of(Held::Shared(bytes))
    }

    /// The bytes.
    pub fn as_slice(&self) -> &[u8]
        ensures { result.now ≡ self.now }
    {
        self.held.as_slice()
    }

    /// The CRC-32 of the bytes, all of its 32 bits.
    pub fn sum(&self) -> u32
        ensures { result ≡ crc_of self.now }
    {
        self.sum
    }

    /// What `crc32_join` moves the sum of the bytes before the body by.
    pub(crate) fn shift(&self) -> u32
        ensures { result ≡ shift_of (length self.now) }
    {
        self.shift
    }

    /// The same body, apart from this one. Its sum and its shift are copied too, and its bytes where they aren't shared.
    pub fn copy(&self, alloc: Global) -> Result<Body, AllocError>
        ensures { IfOk result (λ copy. copy ≡ self.now) }
    {
        Ok(Body {
            held: self.held.copy(alloc)?,
            sum: self.sum,
            shift: self.shift,
        })
    }
}
