//! A check-back that is due.

/// The origin that is to be checked.
#[derive(Debug, Clone, Copy, PartialEq, Eq)]
pub struct Check {
    /// Its queue offset.
    pub origin: u64,
    /// How many renewals it has; 2^32 - 1 stays.
    pub checks: u32,
    /// After 15 renewals the queue offset of the last one: the origin is given up. `None` where it is renewed.
    pub given_up: Option<u64>,
}
