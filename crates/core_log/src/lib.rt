//! The log as the broker has it in memory: where each record stands, which bytes are not on the disk yet, and what is appended,
//! flushed and seen, with the tables that records feed.
#![tactic(auto)]

mod append;
mod append_kept;
mod append_two;
mod counts;
mod dispatch;
mod kind;
mod loaded;
mod open;
mod parts;
mod pieces;
mod room;
mod turns;

pub use counts::Counts;
pub use kind::Kind;
pub use loaded::Loaded;
pub use parts::Parts;
pub use pieces::no_pieces;
pub use room::{Room, is_past_end, size_of};
