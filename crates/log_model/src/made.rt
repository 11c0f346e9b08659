//! Whether the records that the broker makes of a record can be written: how long they are at most.
//!
//! | of                | made is                           | its topic has | bytes that come | properties that go                    |
//! |-------------------|-----------------------------------|--------------:|----------------:|---------------------------------------|
//! | a half message    | a renewal, which may be discarded |      26 bytes |              74 | those that tell a renewal             |
//! | a renewal         | its discarded copy                |      26 bytes |               0 |                                       |
//! | a delayed message | its delivery                      |  `REAL_TOPIC` |              34 | `DELAY`, `REAL_TOPIC` and `REAL_QID`  |
//!
//! The committed copy of a half message is shorter than its renewal, and an op record has 158 bytes at most.

ghost use Rattle.std.specs.Prelude.{◌≡◌, ◌↔◌, ◌<◌, ◌^◌, IsTrue, codes};
ghost use Rattle.record_codec.specs.Props.{value_of};
ghost use Rattle.log_model.specs.Made.{text_size, prop_size_in, CanBeMade, CanBeRenewed, CanBeDiscarded, CanBeDelivered};

use record_codec::{BODY_MAX, View};

/// The most bytes of a draft's properties, the seal's 14 among them.
const PROPS_MAX: u64 = 32_767;

/// `DELAY_FROM` with the level, a dash and a number of 19 digits.
const DELAY_FROM: u64 = 34;

/// `TRAN_PREPARED_QUEUE_OFFSET` with 19 digits, and `TRANSACTION_CHECK_TIMES` with 2.
const RENEWAL: u64 = 74;

/// The bytes of the topic of discarded half messages.
const DISCARD_TOPIC: u64 = 26;

// How many bytes the topic has that a message which waits is for.
fn real_topic_len(view: &View<'_>) -> u64
    ensures value { result ≡ text_size (value_of (codes "REAL_TOPIC") view.now.props) }
    ensures low { result < 2 ^ 32 }
{
    let _whole = view.size();
    match view.prop("REAL_TOPIC") {
        Some(topic) => topic.len() as u64,
        None => 0,
    }
}

// How many bytes the property of this name takes in the record.
fn prop_len(view: &View<'_>, name: &str) -> u64
    ensures value { result ≡ prop_size_in name.now view.now }
    ensures low { result < 2 ^ 32 }
{
    let _whole = view.size();
    match view.prop(name) {
        Some(value) => (name.len() + value.len() + 2) as u64,
        None => 0,
    }
}

fn can_be_made(segment: u32, view: &View<'_>, topic: u64, dropped: u64, added: u64) -> bool
    requires topic { topic < 2 ^ 34 }
    requires dropped { dropped < 2 ^ 34 }
    requires added { added < 2 ^ 34 }
    ensures { IsTrue result ↔ CanBeMade segment view.now topic dropped added }
{
    let body = view.body().len();
    let rest = u64::from(view.size()) - view.topic().len() as u64;
    let props = rest - 105 - body as u64;
    body <= BODY_MAX
        && props + added + 14 <= PROPS_MAX + dropped
        && rest + topic + added + 8 <= u64::from(segment) + dropped
}

/// Whether the half message can be renewed, and its renewal discarded.
pub(crate) fn can_be_renewed(segment: u32, view: &View<'_>) -> bool
    ensures { IsTrue result ↔ CanBeRenewed segment view.now }
{
    let dropped = prop_len(view, "TRAN_PREPARED_QUEUE_OFFSET")
        + prop_len(view, "TRANSACTION_CHECK_TIMES");
    can_be_made(segment, view, DISCARD_TOPIC, dropped, RENEWAL)
}

/// Whether the half message can be discarded as it is.
pub(crate) fn can_be_discarded(segment: u32, view: &View<'_>) -> bool
    ensures { IsTrue result ↔ CanBeDiscarded segment view.now }
{
    can_be_made(segment, view, DISCARD_TOPIC, 0, 0)
}

/// Whether the delayed message can be delivered.
pub(crate) fn can_be_delivered(segment: u32, view: &View<'_>) -> bool
    ensures { IsTrue result ↔ CanBeDelivered segment view.now }
{
    let dropped = prop_len(view, "DELAY")
        + prop_len(view, "REAL_TOPIC")
        + prop_len(view, "REAL_QID");
    can_be_made(segment, view, real_topic_len(view), dropped, DELAY_FROM)
}
