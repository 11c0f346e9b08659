//! A record kept whole in memory, and what the broker makes of one: copies, renewals, deliveries, and what settles an origin.
#![tactic(auto)]

mod made;
mod whole;

pub use made::{commit_draft, delivery_draft, discard_draft, op_draft, renewal_draft};
pub use whole::Whole;
