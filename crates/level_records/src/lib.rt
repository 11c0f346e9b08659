//! The delayed messages of a log: how far each level was delivered, and whole what is still to be delivered.
#![tactic(auto)]

mod deliveries;
mod levels;
mod lines;
mod waiting;

pub use deliveries::delivered_level;
pub use levels::Levels;
