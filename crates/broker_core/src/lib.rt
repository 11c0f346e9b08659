//! What does one event do to the broker, and what does it say? The core holds no list of records: only where each stands, what
//! is not yet on the disk, and the tables.
#![tactic(auto)]

mod alone;
mod broker;
mod check_back;
mod consumer_offsets;
mod delivery;
mod heartbeats;
mod offsets;
mod owner;
mod pull;
mod query;
mod queue_locks;
mod replies;
mod request;
mod send;
mod send_kind;
mod store;
mod topic;
mod verdict;
mod view;

pub use alone::Alone;
pub use broker::Core;
pub use owner::Owner;
