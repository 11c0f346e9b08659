//! What a read of a link brings.

/// What a read of a link brings, where it doesn't fail.
#[derive(Clone, Copy, Debug, PartialEq, Eq)]
pub enum Incoming {
    /// Nothing has come that wasn't read. More may come.
    NotNow,
    /// So many bytes, at least 1.
    Bytes(usize),
    /// Nothing has come, and nothing more will.
    End,
}
