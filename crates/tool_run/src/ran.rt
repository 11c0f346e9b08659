//! How a tool ended.

use mq_outside::Sink;
use store_open::Status;

/// How a tool ended, with the sink that it was given.
#[derive(Drop)]
pub struct ToolRan<K: Sink + Drop> {
    pub status: Status,
    pub sink: K,
}
