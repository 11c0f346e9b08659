//! The whole run of `serve`: the words, the opening, the links, and the last flush.
#![tactic(auto)]

mod run;
mod statuses;

pub use run::{Ended, Store, run_serve};
