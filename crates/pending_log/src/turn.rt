//! What a flush turn is while it is out, and what is kept of one that failed.

ghost use Rattle.std.specs.Prelude.{◌≡◌, Some};
ghost use Rattle.pending_log.specs.Looks.{kept_look};

use log_model::Batch;

/// A flush turn that is out.
#[derive(Drop)]
pub struct Out {
    /// What it writes; the bytes are shared with the batch that was given out.
    pub batch: Batch,
    /// The number after the last record that it holds up: all that were pending when it was taken.
    pub held: u64,
    /// Where the last record of the batch ends.
    pub end: u64,
}

/// The last flush turn that failed.
#[derive(Debug, Clone, Copy, PartialEq, Eq)]
pub struct FailedTurn {
    /// Its number: how many turns there were with it.
    pub turn: u64,
    /// The number after the last record that it held up.
    pub held: u64,
    /// How many operations of the disk had failed by then.
    pub count: u64,
}

/// What has become of a record.
#[derive(Debug, Clone, Copy, PartialEq, Eq)]
pub enum Look {
    /// It is on the disk.
    Flushed,
    /// A flush turn that held it failed, the last of them with this count.
    Failed(u64),
    /// Neither.
    NotYet,
}

// What the last failed turn tells of a record that is not flushed.
pub(crate) fn look_at(failed: FailedTurn, number: u64, turn: u64) -> Look
    ensures { result ≡ kept_look (Some failed) number turn }
{
    if turn < failed.turn && number < failed.held {
        Look::Failed(failed.count)
    } else {
        Look::NotYet
    }
}
