//! The bounds of a queue, and its records by their offsets, from a base on.

ghost use Rattle.std.specs.Prelude.{◌≡◌, ◌≤◌, ◌^◌, length, option_map, slice_get};
ghost use Rattle.log_model.specs.Numbered.{queue_min, queue_max, item_at as item_of};
ghost use Rattle.log_model.specs.Queues.{said_by, entries_of, queue_of as queue_of_log};
ghost use Rattle.log_model.specs.Told.{with_count, counts_in};
ghost use Rattle.log_replay.specs.Told.{log_of};

use log_model::Base;
use record_codec::Record;

// The count of this row where it is of the queue, else the one so far.
fn count_in(row: &(String, u32, u64), topic: &str, queue: u32, count: u64) -> u64
    ensures { result ≡ with_count row.now (λ t q. count) topic.now queue }
{
    if row.0.as_str() == topic && row.1 == queue {
        row.2
    } else {
        count
    }
}

// How many records of the queue stood before the base.
fn removed(base: &Base, topic: &str, queue: u32) -> u64
    ensures { result ≡ counts_in base.now.queues.items topic.now queue }
{
    let mut count = 0;
    for row in &base.queues {
        count = count_in(row, topic, queue, count);
    }
    count
}

// How many records of the queue stand in the log.
fn standing(log: &[Record], topic: &str, queue: u32) -> u64
    ensures value { result ≡ length (queue_of_log (entries_of log.now) topic.now queue) }
    ensures low { result ≤ length log.now }
{
    let mut count = 0;
    for record in log {
        if record.draft.topic.as_str() == topic && record.draft.queue == queue {
            count += 1;
        }
    }
    count
}

/// The offset of the queue's first record that still stands, and the offset after its last.
pub fn bounds_of(log: &[Record], base: &Base, topic: &str, queue: u32) -> (u64, u64)
    requires counts { queue_min (log_of base.now log.now) topic.now queue ≤ 2 ^ 62 }
    requires few { length log.now ≤ 2 ^ 62 }
    ensures minimum { result.0 ≡ queue_min (log_of base.now log.now) topic.now queue }
    ensures maximum { result.1 ≡ queue_max (log_of base.now log.now) topic.now queue }
{
    let low = removed(base, topic, queue);
    (low, low + standing(log, topic, queue))
}

// The record of the queue that has so many before it.
fn nth_of<'a>(log: &'a [Record], topic: &str, queue: u32, mut left: u64) -> Option<&'a Record>
    ensures { option_map (λ r. said_by r.now) result ≡ slice_get (queue_of_log (entries_of log.now) topic.now queue) left }
{
    for record in log {
        if record.draft.topic.as_str() == topic && record.draft.queue == queue {
            if left == 0 {
                return Some(record);
            }
            left -= 1;
        }
    }
    None
}

/// The record at this offset of the queue, where it still stands.
pub fn item_at<'a>(
    log: &'a [Record],
    base: &Base,
    topic: &str,
    queue: u32,
    offset: u64,
) -> Option<&'a Record>
    ensures { option_map (λ r. said_by r.now) result ≡ item_of (log_of base.now log.now) topic.now queue offset }
{
    let low = removed(base, topic, queue);
    if offset < low {
        return None;
    }
    nth_of(log, topic, queue, offset - low)
}
