//! What the table keeps of a half message, in 48 bytes: no text and no body.

use log_model::OriginState;

/// A half message. What became of it, when it is due and its renewals are told of an origin, and mean nothing of a renewal.
#[derive(Clone, Copy, PartialEq, Eq)]
pub struct HalfRow {
    /// Where its record stands.
    pub place: u64,
    /// The queue offset of the half message that it names, its own where it is an origin.
    pub names: u64,
    /// From this time on it may be checked while it is open, in milliseconds.
    pub due: u64,
    /// The queue offset of the last renewal that names it, its own where there is none.
    pub last: u64,
    /// The number after that of the last record that settles it, 0 where there is none.
    pub settled: u64,
    /// How many renewals name it; 2^32 - 1 stays.
    pub checks: u32,
    pub state: OriginState,
}
