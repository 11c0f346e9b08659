//! Which one history do the calls of many threads make on one state? A lock round the state, and the tokens by which
//! each caller knows what it has seen of the history and added to it.
#![tactic(auto)]

mod chronicle;
mod state;
mod steps;
mod story;
mod turns;
mod view;

pub use chronicle::Chronicle;
pub use story::{Pass, Story, Turn};
pub use view::{Opening, Stage, View};
