//! The broker over many links, from the core that is opened to the core that is left: two loops serve the links, and a flusher writes
//! what they append. And whose the entries of their history are, and which log the disk stores after it.
#![tactic(auto)]

mod laws;
mod loops;
mod served;
mod starting;
mod world;

pub use laws::a_shared_history_is_a_story;
pub use loops::Loops;
pub use served::{Devices, Served, Unserved, serve};
pub use starting::can_start_threads;
pub use world::World;
