//! All that a log says, at once.

use log_model::OriginState;
use mq_bytes::{Rows, Text};
use record_codec::Unit;

/// What a log says of its queues, keys, transactions and delays.
#[derive(Drop)]
pub struct Replay {
    /// The units of each queue of a topic, in the order of their first records.
    pub queues: Rows<(Text, u32, Rows<Unit>)>,
    /// Hash, place and store time of each key of each record, in the order of the log.
    pub keys: Rows<(u32, u64, u64)>,
    /// Each origin's queue offset, and what became of it.
    pub halves: Rows<(u64, OriginState)>,
    /// How many messages of each of the levels 1 to 18 were delivered.
    pub delays: [u64; 18],
}
