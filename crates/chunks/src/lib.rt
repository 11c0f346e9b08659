//! A list in chunks that never move: for tables that grow for as long as the broker runs.
#![tactic(auto)]

mod chunks;
mod keyed;

pub use chunks::{CHUNK, Chunks};
pub use keyed::Keyed;
