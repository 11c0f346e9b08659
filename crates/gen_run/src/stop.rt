//! Why the generator stops before its end.

/// Why the generator stops before its end.
#[derive(Clone, Copy, Debug, PartialEq, Eq)]
pub(crate) enum Stop {
    /// A flush turn failed.
    Disk,
    /// Memory ran out.
    Memory,
}
