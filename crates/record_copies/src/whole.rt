//! A record that is kept whole in memory, in the bytes in which it is stored.

ghost use Rattle.std.specs.Prelude.{◌≡◌, IfOk};
ghost use Rattle.record_codec.specs.Drafts.{entry_of, IsEncodable};
ghost use Rattle.record_codec.specs.Layout.{IsRecord};
ghost use Rattle.log_model.specs.Queues.{said_by};

use record_codec::{Draft, Place, Record, View, encode, test};
use std::alloc::{AllocError, Global};
use std::marker::Model;

/// A record. Contracts see what it says.
#[derive(Drop)]
pub struct Whole {
    bytes: Vec<u8>,
}

impl Model for Whole {
    ghost use Rattle.record_codec.specs.Entry.{Entry};
    ghost use Rattle.record_codec.specs.Parsed.{parsed};
    ghost use Rattle.record_codec.specs.Views.{or_blank};

    ghost Value = { Entry };

    ghost view = { λ w. or_blank (parsed w.bytes.items) };
}

impl Whole {
    /// The record of this draft at this place, which has `size` bytes.
    pub fn of(alloc: Global, draft: &Draft, place: &Place, size: u32) -> Result<Whole, AllocError>
        requires { IsEncodable draft.now place.now }
        ensures { IfOk result (λ whole. whole ≡ entry_of draft.now place.now) }
    {
        let mut bytes = Vec::with_capacity(alloc, size as usize)?;
        encode(draft, place, &mut bytes)?;
        Ok(Whole { bytes })
    }

    /// The viewed record, copied as it stands in the log.
    pub fn of_view(alloc: Global, view: &View<'_>) -> Result<Whole, AllocError>
        ensures { IsRecord view.now → IfOk result (λ whole. whole ≡ view.now) }
    {
        let bytes = Vec::from_slice(alloc, view.layout())?;
        Ok(Whole { bytes })
    }

    /// The queue offset of the record.
    pub fn queue_offset(&self) -> u64
        ensures { result ≡ self.now.queue_offset }
    {
        match test(&self.bytes) {
            Some(view) => view.queue_offset(),
            None => 0,
        }
    }

    /// The record, apart from these bytes.
    pub fn copied(&self, alloc: Global) -> Result<Record, AllocError>
        requires { IsRecord self.now }
        ensures { IfOk result (λ copy. said_by copy ≡ self.now) }
    {
        match test(&self.bytes) {
            Some(view) => view.to_record(alloc),
            None => unreachable!(),
        }
    }
}
