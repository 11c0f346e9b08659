//! The origin that a verdict or a check is on.

use log_model::OriginState;

/// What became of an origin.
#[derive(Clone, Copy)]
pub struct Judged {
    /// Its queue offset.
    pub origin: u64,
    pub state: OriginState,
}
