//! The messages of a batch: one after another in the body of one request.
#![tactic(auto)]

mod message;
mod numbers;
mod spellings;
mod split;

pub use message::{BatchFault, Message};
pub use spellings::batches_are_spelled;
pub use split::split_batch;
