//! What a flush turn writes, and what it answers.

use bytes::Bytes;
use mq_outside::Frozen;

/// Records that are written together, all of one segment.
#[derive(Drop)]
pub struct Batch {
    /// The number of the first record, counted over the whole log.
    pub from: u64,
    /// How many records there are.
    pub count: u64,
    /// The place of the first record.
    pub place: u64,
    /// The place and the size of the blank that ends the segment before, where these records open a new one.
    pub blank: Option<(u64, u32)>,
    /// The records, one after another.
    pub bytes: Bytes,
}

/// Records that are written and synced.
#[derive(Drop)]
pub struct Receipt {
    /// The number of the first record, counted over the whole log.
    pub from: u64,
    /// How many records there are.
    pub count: u64,
    /// Where they stand.
    pub piece: Frozen,
}
