//! What do the two kept files say? The offsets of consumer groups and the topics of clients, each as one compact JSON text.
#![tactic(auto)]

mod config;
mod laws;
mod reading;
mod storing;
mod text_fault;
mod writing;

pub use client_tables::TopicQueues;
pub use config::{Config, ConfigFault, load_config};
pub use group_tables::GroupOffset;
pub use laws::{offsets_have_one_text, topics_have_one_text};
pub use storing::store_config;
pub use writing::{offsets_text, topics_text};
