//! Who is there: the topics with their queues, and the clients with their groups and what these subscribe to.
#![tactic(auto)]

mod beats;
mod client;
mod clients;
mod heard;
mod names;
mod rows;
mod subscriptions;
mod topics;

pub use clients::Clients;
pub use rows::TopicQueues;
pub use topics::Topics;
