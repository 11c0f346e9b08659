//! The half messages of a log: what became of each, who may give a verdict on it, and whole what an open origin may still need.
#![tactic(auto)]

mod halves;
mod judged;
mod kept;
pub mod laws;
mod list;
mod load;
mod names;
mod ready;

pub use halves::Halves;
pub use judged::Judged;
pub use kept::KeptHalf;
