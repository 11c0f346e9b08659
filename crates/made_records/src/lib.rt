//! Why a send is refused, and what its record says; and, in laws, what may be said of the records that the broker makes of a half
//! message, wherever they stand in its log.
#![tactic(auto)]

pub mod laws;
mod send_draft;
mod send_rows;

pub use send_draft::{delayed_draft, half_draft, is_half, level_of, plain_draft, waits};
pub use send_rows::{Refusal, made_queues, queue_named, refusal_of};
