//! What the broker says to an event.

use log_model::Batch;
use reply_fields::{Ask, Reply};

/// What became of a record.
#[derive(Debug, Clone, Copy, PartialEq, Eq)]
pub enum Awaited {
    /// It is on the disk.
    Flushed,
    /// A flush turn that held it failed, the last one with this count of the disk's faults. It is still pending.
    Failed { count: u64 },
    /// Neither yet.
    NotYet,
}

/// A check of an origin.
#[derive(Drop)]
pub struct Checked {
    /// The queue offset of the origin.
    pub origin: u64,
    /// The number of the first record that the check appended.
    pub number: u64,
    /// Who is asked for the renewal, once that is on the disk. `None` where the origin is given up, and where its group has
    /// no client.
    pub ask: Option<Ask>,
}

/// The answer to an event.
#[derive(Drop)]
pub enum Said {
    /// The reply to a request.
    Reply(Reply),
    /// The reply, which is due once the record with this number is on the disk; so many flush turns were taken before.
    After {
        reply: Reply,
        number: u64,
        turn: u64,
    },
    /// The pending bytes and the event's records would pass 67,108,864, and nothing changed. The first pending record has
    /// this number: ask again once it is on the disk.
    Full {
        pending: u64,
    },
    /// The batch of the flush turn that begins, or none where nothing is pending or a turn is out already.
    Batch(Option<Batch>),
    /// It is done.
    Done,
    /// What became of a record.
    Awaited(Awaited),
    /// The number of records that consumers see.
    Moved(u64),
    /// A record would end past all places, and nothing changed. A request is told so by a reply.
    LogEnd,
    /// The level of the delivery, from 1 on, and its number in the level, or none where nothing is due.
    Delivered(Option<(u8, u64)>),
    /// What the check did, or none where nothing is due.
    Checked(Option<Checked>),
}
