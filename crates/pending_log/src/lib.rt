//! The end of the log that is not yet on the disk: its bytes, where each record is, and the batch of a flush turn.
#![tactic(auto)]

mod batch;
mod buffer;
mod extent;
mod laws;
mod pending;
mod rows;
mod turn;

pub use laws::{removal_leaves_what_is_pending, the_pending_bytes_are_the_sizes_of_their_records};
pub use pending::{Mark, PENDING_MAX, Pending};
pub use rows::{Row, Rows};
pub use turn::{FailedTurn, Look, Out};
