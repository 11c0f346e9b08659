//! How is a stream of requests served, from a source to a sink, and what happens to the broker and its disk for one?
#![tactic(auto)]

mod answer;
mod asking;
mod closing;
mod held;
mod looking;
mod pipe;
mod request;
mod stop;
mod telling;

pub use answer::Answer;
pub use asking::give_request;
pub use looking::flush_and_look;
pub use pipe::serve_source;
pub use stop::{Halt, Stop};
