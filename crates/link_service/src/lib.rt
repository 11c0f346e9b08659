//! A link with its session: what one pass of a loop does for it. And what the threads that serve links see of each other.
#![tactic(auto)]

mod drain;
mod laws;
mod linked;
mod shared;

pub use laws::a_link_is_answered_in_order;
pub use linked::Linked;
pub use shared::{NewLink, Port, Shared};
