//! Why acts for a request broke off.

/// Why flush turns, or the acts for a request, broke off.
#[derive(Clone, Copy, Debug, PartialEq, Eq)]
pub enum Broken {
    /// The batch that was taken doesn't begin where the flusher writes. Its records are pending still.
    Misplaced,
    /// Memory ran out.
    Memory,
}
