//! One flush turn after another: what was written is on the disk, or the disk has failed.
#![tactic(auto)]

mod flusher;

pub use flusher::{FlushFault, Flusher};
