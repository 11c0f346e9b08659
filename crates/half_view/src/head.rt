//! What is known of a record without its body: all that a table of half messages needs of it.

ghost use Rattle.std.specs.Prelude.{◌≡◌, IfOk};
ghost use Rattle.half_view.specs.Heads.{IsHeadOf};

use crate::kinds::rolled_back;
use mq_bytes::Text;
use record_codec::{Props, View};
use std::alloc::{AllocError, Global};

/// The fields of a record that are told without its body. Times are milliseconds.
#[derive(Drop)]
pub struct Head {
    /// Where the record begins, in bytes from the start of the log.
    pub place: u64,
    /// How many bytes it has.
    pub size: u32,
    pub topic: Text,
    pub queue: u32,
    pub queue_offset: u64,
    pub store: u64,
    pub sysflag: u32,
    pub prepared: u64,
    pub props: Props,
    /// The queue offset that an op record names in its body.
    pub op: Option<u64>,
}

impl Head {
    /// What is known of the record without its body.
    pub fn of(alloc: Global, view: &View<'_>) -> Result<Head, AllocError>
        ensures { IfOk result (λ head. IsHeadOf view.now head) }
    {
        let draft = view.to_record(alloc)?.draft;
        Ok(Head {
            place: view.offset(),
            size: view.size(),
            topic: draft.topic,
            queue: view.queue(),
            queue_offset: view.queue_offset(),
            store: view.store(),
            sysflag: view.sysflag(),
            prepared: view.prepared(),
            props: draft.props,
            op: rolled_back(view),
        })
    }
}
