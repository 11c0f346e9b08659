//! Units: what the file of a queue says of each of its records.

ghost use Rattle.std.specs.Prelude.{◌≡◌, ◌+◌, ◌<◌, ◌^◌, pos, option_map};
ghost use Rattle.record_codec.specs.Units.{delay_of, hash_of, tag_code as tag_code_of, unit_of as unit_of_record};

use crate::system_topics::SCHEDULE_TOPIC;
use crate::view::View;
use mq_bytes::{java_hash, level_delay};

/// The physical offset and the size of a record, and its tag code.
#[derive(Debug, Clone, Copy, PartialEq, Eq)]
pub struct Unit {
    /// In bytes, from the start of the log.
    pub offset: u64,
    /// Of the whole record, in bytes.
    pub size: u32,
    /// Java's hash of the record's tags, or the time in milliseconds at which a delayed record is due.
    pub tag: i64,
}

/// How many delay levels there are.
const LEVELS: u32 = 18;

fn tag_hash(tags: Option<&str>) -> i64
    ensures { result ≡ hash_of (option_map (λ text. text.now) tags.entry) }
{
    match tags {
        Some(tags) => {
            if tags.is_empty() {
                return 0;
            }
            i64::from(java_hash(tags))
        }
        None => 0,
    }
}

#[tactic(auto, using(crate::proofs::UnitLemmas::delay_low))]
fn delay(queue: u32) -> u64
    ensures value { result ≡ delay_of queue }
    ensures low { result < 2 ^ 32 }
{
    if queue < LEVELS {
        level_delay(queue as u8 + 1)
    } else {
        0
    }
}

fn due_time(queue: u32, store: u64) -> i64
    requires { store < 2 ^ 62 }
    ensures { result ≡ pos (store + delay_of queue) }
{
    (store + delay(queue)) as i64
}

/// The tag code of a record of this topic, with this value of the property `TAGS`: Java's hash of the tags, 0 where they are
/// absent or empty. In `SCHEDULE_TOPIC_XXXX` it is the time in milliseconds at which the record is due: the store time plus
/// the delay of the level whose number is the queue id plus 1.
#[tactic(auto, unfolding(crate::specs::Units::tag_code))]
pub fn tag_code(topic: &str, tags: Option<&str>, queue: u32, store: u64) -> i64
    requires { store < 2 ^ 62 }
    ensures { result ≡ tag_code_of topic.now (option_map (λ text. text.now) tags.entry) queue store }
{
    if topic == SCHEDULE_TOPIC {
        due_time(queue, store)
    } else {
        tag_hash(tags)
    }
}

/// The unit of a record.
pub fn unit_of(view: &View<'_>) -> Unit
    ensures { result ≡ unit_of_record view.now }
{
    Unit {
        offset: view.offset(),
        size: view.size(),
        tag: tag_code(view.topic(), view.prop("TAGS"), view.queue(), view.store()),
    }
}
