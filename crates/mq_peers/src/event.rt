//! What a wait reports.

/// A link or a door that may be ready, under the token that it was registered with.
#[derive(Clone, Copy, Debug, PartialEq, Eq)]
pub struct Event {
    pub token: u32,
    /// It may have something to say, or has ended: it is worth a read, or at a door an accept.
    pub readable: bool,
    /// It may take bytes, or has ended: it is worth a write.
    pub writable: bool,
    /// Its peer has ended its side or the link broke: read on until a read says so.
    pub ended: bool,
}
