//! The table of the delay levels: how far each was delivered, and which is due.
#![tactic(auto)]

pub mod laws;
mod level;
mod levels;
mod view;

pub use view::{DelayView, LEVELS};
