//! Which records a log may have, whatever stands before them, and which half message a record names.

ghost use Rattle.std.specs.Prelude.{◌≡◌, ◌<◌, ◌↔◌, IsTrue, IsSome, IfSome, bit_and, codes, true, None};
ghost use Rattle.std.specs.Str.{bytes_eq};
ghost use Rattle.record_codec.specs.Props.{value_of};
ghost use Rattle.log_model.specs.Admissible.{is_system_topic as is_system, most_queues as most_of, is_bare as bare};
ghost use Rattle.log_model.specs.Admissible.{number_in as number_of_text, number_of as number_of_bytes, names_half};
ghost use Rattle.log_model.specs.Admissible.{half_topic, level_topic, op_topic, discard_topic, Waits, IsHalfMessage};
ghost use Rattle.log_model.specs.Admissible.{IsDelayedMessage, IsAdmissible, NamesEarlier, IsPlainTopic, IsDelayFrom};
ghost use Rattle.log_model.specs.Admissible.{IfHas};

use crate::made::{can_be_delivered, can_be_discarded, can_be_renewed};
use crate::texts::{has_number, is_below, is_delay_from, number_in, number_of};
use record_codec::{
    COMMITTED, DISCARD_TOPIC, HALF_TOPIC, OP_TOPIC, SCHEDULE_TOPIC, TRANSACTION_BITS, View,
    is_legal_topic,
};

/// The topics that the broker keeps for itself: delayed messages, half messages, what settles these, and those given up.
pub fn is_system_topic(topic: &str) -> bool
    ensures { result ≡ is_system topic.now }
{
    topic == SCHEDULE_TOPIC || topic == HALF_TOPIC || topic == OP_TOPIC || topic == DISCARD_TOPIC
}

fn most_queues(topic: &str) -> u32
    ensures { result ≡ most_of topic.now }
{
    if topic == SCHEDULE_TOPIC {
        18
    } else if is_system_topic(topic) {
        1
    } else {
        1024
    }
}

fn is_plain_topic(topic: Option<&str>) -> bool
    ensures { IsTrue result ↔ (IsSome topic.entry × IfSome topic.entry (λ topic. IsPlainTopic topic.now)) }
{
    match topic {
        Some(topic) => is_legal_topic(topic) && !is_system_topic(topic),
        None => false,
    }
}

// A message that waits, for its time or for a verdict.
fn waits(view: &View<'_>) -> bool
    ensures { IsTrue result ↔ Waits view.now }
{
    is_plain_topic(view.prop("REAL_TOPIC"))
        && is_below(view.prop("REAL_QID"), 1024)
        && view.sysflag() & TRANSACTION_BITS == 0
}

// A half message: it waits, tells its producer group, and what is made of it can be written.
fn is_half_message(segment: u32, view: &View<'_>) -> bool
    ensures { IsTrue result ↔ IsHalfMessage segment view.now }
{
    waits(view)
        && view.prop("PGROUP").is_some()
        && can_be_renewed(segment, view)
        && (view.prop("TRAN_PREPARED_QUEUE_OFFSET").is_none() || can_be_discarded(segment, view))
}

// A delayed message: it waits, and what is made of it can be written.
fn is_delayed_message(segment: u32, view: &View<'_>) -> bool
    ensures { IsTrue result ↔ IsDelayedMessage segment view.now }
{
    waits(view) && can_be_delivered(segment, view)
}

// Where the record is of a topic that the broker keeps for itself, it is as that topic asks.
fn is_of_its_topic(segment: u32, view: &View<'_>) -> bool
    ensures { IsTrue result ↔ ((bytes_eq view.now.topic discard_topic ≡ true → view.now.prepared < view.now.offset)
        × (bytes_eq view.now.topic half_topic ≡ true → IsHalfMessage segment view.now)
        × (bytes_eq view.now.topic level_topic ≡ true → IsDelayedMessage segment view.now)
        × (bytes_eq view.now.topic op_topic ≡ true → IsSome (number_of_bytes view.now.body))) }
{
    let topic = view.topic();
    if topic == DISCARD_TOPIC {
        view.prepared() < view.offset()
    } else if topic == HALF_TOPIC {
        is_half_message(segment, view)
    } else if topic == SCHEDULE_TOPIC {
        is_delayed_message(segment, view)
    } else if topic == OP_TOPIC {
        number_of(view.body()).is_some()
    } else {
        true
    }
}

// A delivery tells its level and its number there, and none of the broker's own topics has one.
fn is_delivery_marked(view: &View<'_>) -> bool
    ensures { IsTrue result ↔ (IfHas (codes "DELAY_FROM") view.now IsDelayFrom
        × (is_system view.now.topic ≡ true → value_of (codes "DELAY_FROM") view.now.props ≡ None)) }
{
    match view.prop("DELAY_FROM") {
        Some(text) => is_delay_from(text) && !is_system_topic(view.topic()),
        None => true,
    }
}

// A copy of a half message stands behind its half.
fn is_behind_its_half(view: &View<'_>) -> bool
    ensures { IsTrue result ↔ (bit_and view.now.sysflag 12 ≡ 8 → view.now.prepared < view.now.offset) }
{
    view.sysflag() & TRANSACTION_BITS != COMMITTED || view.prepared() < view.offset()
}

/// Whether a log in segments of this size may have this record, wherever it stands.
pub fn is_admissible(segment: u32, view: &View<'_>) -> bool
    ensures { IsTrue result ↔ IsAdmissible segment view.now }
{
    view.queue() < most_queues(view.topic())
        && is_behind_its_half(view)
        && is_of_its_topic(segment, view)
        && has_number(view.prop("TRAN_PREPARED_QUEUE_OFFSET"))
        && is_delivery_marked(view)
}

fn named_half(view: &View<'_>) -> Option<u64>
    ensures { result ≡ names_half view.now }
{
    let topic = view.topic();
    if topic == OP_TOPIC {
        number_of(view.body())
    } else if topic == HALF_TOPIC {
        number_in(view.prop("TRAN_PREPARED_QUEUE_OFFSET")?)
    } else {
        None
    }
}

/// Whether the record names one of so many half messages, or none.
pub fn names_earlier(view: &View<'_>, halves: u64) -> bool
    ensures { IsTrue result ↔ NamesEarlier halves view.now }
{
    match named_half(view) {
        Some(number) => number < halves,
        None => true,
    }
}
