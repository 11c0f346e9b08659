//! Where a log begins.

use std::alloc::Global;

/// What was removed from the front of a log, which begins at a segment's start then.
#[derive(Drop)]
pub struct Base {
    /// Where the log begins.
    pub place: u64,
    /// How many records stood before it.
    pub records: u64,
    /// How many of them each queue of a topic had.
    pub queues: Vec<(String, u32, u64)>,
    /// How many of them were deliveries of each level.
    pub levels: [u64; 18],
}

impl Base {
    ghost use Rattle.std.specs.Prelude.{◌≡◌};
    ghost use Rattle.log_model.specs.Bases.{no_base};
    ghost use Rattle.log_model.specs.Told.{base_of};

    /// Nothing was removed.
    pub fn none(alloc: Global) -> Base
        ensures { base_of result ≡ no_base }
    {
        Base {
            place: 0,
            records: 0,
            queues: Vec::new(alloc),
            levels: [0; 18],
        }
    }
}
