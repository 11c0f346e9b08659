//! The table of the keys: which records have a key, found by its hash.
#![tactic(auto)]

mod keys;
mod places;
mod row;
mod rows;
mod slots;
mod view;

pub use keys::RecordKeys;
pub use log_replay::key_hash;
pub use view::KeyView;
