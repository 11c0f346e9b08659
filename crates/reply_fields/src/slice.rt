//! The slices of a reply's body: bytes that are held, or ranges of stored pieces, which are read when the reply is
//! written.

ghost use Rattle.std.specs.Prelude.{◌+◌, ◌≤◌};

use bytes::Bytes;
use mq_outside::Frozen;

/// So many bytes of a stored piece, from an offset in it on.
#[derive(Drop)]
pub struct StoredRange {
    pub piece: Frozen,
    pub at: u64,
    pub len: u32,
    ghost within: { at + len ≤ piece.len },
}

/// Bytes of a body.
#[derive(Drop)]
pub enum Slice {
    /// They are here.
    Held(Bytes),
    /// They stand in the log.
    Kept(StoredRange),
}
