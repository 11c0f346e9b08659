//! What may happen to the broker. Times are in milliseconds and below 2^62.

use log_model::Receipt;
use request_fields::Request;

/// What is fixed for a boot: the bytes of a segment, the broker's host (an IPv4 address and a port of four bytes each), and
/// whether a request that appended is answered once its record is on the disk.
#[derive(Debug, Clone, Copy, PartialEq, Eq)]
pub struct Setup {
    pub segment: u32,
    pub host: [u8; 8],
    pub sync: bool,
}

/// An event of the broker.
#[derive(Drop)]
pub enum Event {
    /// A request came on a link, from this host, at this reading of the clock.
    Request {
        link: u32,
        host: [u8; 8],
        now: u64,
        request: Request,
    },
    /// A flush turn begins.
    Take,
    /// The batch that is out was written and synced.
    Flushed(Receipt),
    /// It was not: this is the disk's count of faults.
    FlushFailed {
        count: u64,
    },
    /// What became of the record with this number, after so many flush turns?
    Look {
        number: u64,
        turn: u64,
    },
    /// Consumers see at most so many flushed records more.
    Dispatch {
        most: u32,
    },
    /// A delayed message is delivered, if one is due at this reading of the clock.
    Deliver {
        now: u64,
    },
    /// The group of a half message is asked what became of it, or the message is given up, if one is due at this reading of the clock.
    Check {
        now: u64,
    },
    /// A link ended.
    Leave {
        link: u32,
    },
}
