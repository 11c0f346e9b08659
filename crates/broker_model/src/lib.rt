//! What the broker is, what one event does to it, and what a crash leaves of it.
#![tactic(auto)]

mod laws;

pub use laws::logs_grow_by_what_is_appended;
