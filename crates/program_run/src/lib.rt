//! One run of the program, whatever its arguments ask for: a stream, or links. And where a message is that `pipe`
//! answered with 0.
#![tactic(auto)]

mod call;
mod laws;

pub use call::{Ran, Streams, run};
pub use laws::answered_sends_stand;
