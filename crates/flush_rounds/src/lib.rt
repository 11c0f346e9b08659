//! Who makes the next flush turn, and what else does the flusher do? What a flush turn works on is under a lock of its own. The flusher
//! makes its rounds on it, and a loop may make one turn in the flusher's place.
#![tactic(auto)]

mod asks;
mod caller;
mod flusher;
mod state;
mod timetable;
mod ways;

pub use asks::{AskWays, LOOPS, LoopAsks, Ways};
pub use caller::FlushCaller;
pub use state::FlushState;
pub use timetable::Timetable;
pub use ways::{Receiver, Sender, way};
