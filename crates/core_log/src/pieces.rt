//! The stored pieces of the log files that were kept.

ghost use Rattle.std.specs.Prelude.{◌≡◌, List};
ghost use Rattle.record_codec.specs.Entry.{Entry};
ghost use Rattle.core_log.specs.Loads.{whole_log};
ghost use Rattle.core_log.specs.Represents.{AreCovered};

use mq_outside::FrozenRanges;
use std::alloc::Global;

/// No pieces: none of the records is covered. Takes no memory.
pub fn no_pieces(alloc: Global) -> FrozenRanges
    ensures covered { (records : List Entry) → AreCovered result (whole_log records) 0 }
    ensures end { result.end ≡ 0 }
{
    FrozenRanges::new(alloc)
}
