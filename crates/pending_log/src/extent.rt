//! How much of the log the next flush turn writes: the records that lie in the segment of the first.

ghost use Rattle.std.specs.Prelude.{◌≡◌, ◌<◌, ◌≤◌, ◌^◌, List, length, drop};
ghost use Rattle.pending_log.specs.Extents.{IsExtent, AreShort};

use crate::rows::Row;
use chunks::Chunks;

/// How many records there are, and how many bytes they have.
#[derive(Clone, Copy)]
pub(crate) struct Extent {
    pub(crate) count: usize,
    pub(crate) bytes: usize,
}

// The rows from index `from` on whose records lie in the segment of the first of them.
pub(crate) fn extent_from(rows: &Chunks<Row>, segment: u32, from: usize) -> Extent
    requires some { 0 < segment }
    requires within { from < length rows.now.items }
    requires short { AreShort rows.now.items from }
    ensures { IsExtent segment rows.now.items from result }
{
    let first = rows.at(from).place / u64::from(segment);
    let mut bytes = 0;
    for i in from..rows.len() {
        let row = rows.at(i);
        if row.place / u64::from(segment) != first {
            return Extent {
                count: i - from,
                bytes,
            };
        }
        bytes += row.size as usize;
    }
    Extent {
        count: rows.len() - from,
        bytes,
    }
}
