//! What a record says before it has a place, and the test that it can be written.

use crate::body::Body;
use crate::props::Props;
use crate::sysflag::HOSTS_LONG;
use crate::topic::{TOPIC_MAX, is_named};
use mq_bytes::Text;
use std::alloc::{AllocError, Global};

/// What a record says, but for its place. Times are milliseconds, hosts are an IPv4 address and a port of four bytes each.
#[derive(Drop)]
pub struct Draft {
    pub topic: Text,
    pub queue: u32,
    pub flag: i32,
    /// Bits 4 and 8 tell the kind of a transaction's record; bits 16 and 32, an address of 16 bytes for a host, can't be written.
    pub sysflag: u32,
    pub born: u64,
    pub born_host: [u8; 8],
    pub store_host: [u8; 8],
    pub reconsume: i32,
    pub prepared: u64,
    pub body: Body,
    pub props: Props,
}

/// Where a record stands: its number in its queue, its physical offset in the log, and the time at which it was stored.
#[derive(Clone, Copy)]
pub struct Place {
    pub queue_offset: u64,
    pub offset: u64,
    pub store: u64,
}

/// A record: a draft at a place. `size` is how many bytes its layout has.
#[derive(Drop)]
pub struct Record {
    pub draft: Draft,
    pub place: Place,
    pub size: u32,
}

/// Why a draft can't be written.
#[derive(Debug, Clone, Copy, PartialEq, Eq)]
pub enum DraftFault {
    /// The topic is empty, or has an illegal character.
    BadTopic,
    /// The topic has more than 127 bytes.
    TopicLong,
    /// The system flag says that a host has an address of 16 bytes.
    HostSix,
    /// The body has more than 4,194,304 bytes.
    BodyLong,
    /// The stored properties have more than 32,767 bytes, the seal's 14 among them.
    PropsLong,
    /// The record and 8 bytes behind it don't fit into a segment.
    RecordLong,
}

/// The most bytes of a body.
pub const BODY_MAX: usize = 4_194_304;

/// The fewest bytes of a segment of the log.
pub const SEGMENT_MIN: u32 = 4096;

/// The most bytes of a segment of the log.
pub const SEGMENT_MAX: u32 = 1 << 30;

impl Draft {
    ghost use Rattle.std.specs.Prelude.{◌≡◌, ℕ, None, Some, IfOk, IfErr};
    ghost use Rattle.record_codec.specs.Drafts.{draft_fault, draft_size};

    /// The same draft, apart from this one.
    pub fn copy(&self, alloc: Global) -> Result<Draft, AllocError>
        ensures { IfOk result (λ copy. copy ≡ self.now) }
    {
        Ok(Draft {
            topic: Text::copy(alloc, self.topic.as_str())?,
            queue: self.queue,
            flag: self.flag,
            sysflag: self.sysflag,
            born: self.born,
            born_host: self.born_host,
            store_host: self.store_host,
            reconsume: self.reconsume,
            prepared: self.prepared,
            body: self.body.copy(alloc)?,
            props: self.props.copy(alloc)?,
        })
    }

    /// The size of the record, in bytes, of a draft that has passed `check` with some segment.
    pub fn size(&self) -> u32
        requires { (segment : ℕ) × (draft_fault segment self.now ≡ None) }
        ensures { result ≡ draft_size self.now }
    {
        match self.props.written_len() {
            Some(props) => {
                let body = self.body.as_slice().len();
                let topic = self.topic.as_str().len();
                (105 + body + topic + props) as u32
            }
            None => unreachable!(),
        }
    }

    /// The size of the record, or the first fault that keeps it from being written into a segment of `segment` bytes.
    #[tactic(auto, unfolding(crate::specs::Drafts::draft_fault))]
    pub fn check(&self, segment: u32) -> Result<u32, DraftFault>
        ensures passes { IfOk result (λ size. (draft_fault segment self.now ≡ None) × (size ≡ draft_size self.now)) }
        ensures fault { IfErr result (λ fault. draft_fault segment self.now ≡ Some fault) }
    {
        let topic = self.topic.as_str().as_bytes();
        if !is_named(topic) {
            return Err(DraftFault::BadTopic);
        }
        if topic.len() > TOPIC_MAX {
            return Err(DraftFault::TopicLong);
        }
        if self.sysflag & HOSTS_LONG != 0 {
            return Err(DraftFault::HostSix);
        }
        let body = self.body.as_slice().len();
        if body > BODY_MAX {
            return Err(DraftFault::BodyLong);
        }
        let Some(props) = self.props.written_len() else {
            return Err(DraftFault::PropsLong);
        };
        let size = (105 + body + topic.len() + props) as u32;
        if size + 8 > segment {
            return Err(DraftFault::RecordLong);
        }
        Ok(size)
    }
}
