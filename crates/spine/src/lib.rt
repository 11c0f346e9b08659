//! The broker for many callers: the core under a story lock, and the passes by which each caller makes its steps.
#![tactic(auto)]

mod owner;
mod pass;
mod shared;
mod spine;

pub use pass::SpinePass;
pub use shared::{Pass, Shared};
pub use spine::Spine;
