//! The tables of the queues: the units of each queue's records, and how many of them consumers see.
#![tactic(auto)]

mod bounds;
mod examine;
pub mod laws;
mod numbers;
mod pulled;
mod stored;
mod table;
mod tables;
mod tags;
mod view;

pub use pulled::{FOUND, NONE_TAKEN, NOT_YET, OUTSIDE, Pulled};
pub use stored::StoredUnit;
pub use tags::Tags;
pub use view::QueueView;
