//! Do tables say what a log says? The records of the log are gone through once, one after another, beside the tables.
#![tactic(auto)]

mod comparing;
mod keys;
mod levels;
mod queues;
mod replayed;
mod tables;
mod units;

pub use comparing::Comparing;
pub use tables::Tables;
