//! How many records there are.

ghost use Rattle.broker_model.specs.State.{State};
ghost use Rattle.core_log.specs.Counts.{AreCountsOf};
ghost use Rattle.core_log.specs.Represents.{Represents};

use crate::parts::Parts;

/// How many records the log has, how many of them are on the disk, and how many consumers see; the removed ones are counted.
#[derive(Debug, Clone, Copy, PartialEq, Eq)]
pub struct Counts {
    pub records: u64,
    pub flushed: u64,
    pub dispatched: u64,
}

impl Parts {
    /// How many records there are.
    pub fn counts(&self) -> Counts
        ensures { (s : State) → Represents self.entry.now s → AreCountsOf s result }
    {
        Counts {
            records: self.rows.end(),
            flushed: self.pending.flushed_count(),
            dispatched: self.dispatched,
        }
    }
}
