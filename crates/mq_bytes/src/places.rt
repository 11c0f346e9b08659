//! Where the numbers of a log end.

/// Places, queue offsets and times are below this number, and a log ends here at the latest. A sum of two of them fits 64 signed bits.
pub const PLACE_END: u64 = 1 << 62;
