//! What a record is to the half messages.

ghost use Rattle.std.specs.Prelude.{◌≡◌, ◌==◌, ◌&&◌, not, bit_and};
ghost use Rattle.std.specs.Str.{bytes_eq};
ghost use Rattle.log_model.specs.Admissible.{half_topic, discard_topic, number_at};
ghost use Rattle.log_model.specs.Kinds.{is_half as is_half_entry, is_op as is_op_entry};
ghost use Rattle.log_model.specs.Kinds.{is_discard as is_discard_entry, is_copy as is_copy_entry};
ghost use Rattle.log_model.specs.Kinds.{origin_text};
ghost use Rattle.half_view.specs.OfLog.{rolled_back_by};

use log_model::{number_in, number_of};
use record_codec::{COMMITTED, DISCARD_TOPIC, HALF_TOPIC, OP_TOPIC, TRANSACTION_BITS, View};

// ---- by topic and flag

pub(crate) fn is_half_topic(topic: &str) -> bool
    ensures { result ≡ bytes_eq topic.now half_topic }
{
    topic == HALF_TOPIC
}

pub(crate) fn is_discard_topic(topic: &str) -> bool
    ensures { result ≡ bytes_eq topic.now discard_topic }
{
    topic == DISCARD_TOPIC
}

// The flag of a copy that a Commit appended.
pub(crate) fn is_copy_flag(sysflag: u32) -> bool
    ensures { result ≡ (bit_and sysflag 12 == 8) }
{
    sysflag & TRANSACTION_BITS == COMMITTED
}

// ---- records

/// The record is a half message: an origin or a renewal.
pub fn is_half(view: &View<'_>) -> bool
    ensures { result ≡ is_half_entry view.now }
{
    is_half_topic(view.topic())
}

fn is_op(view: &View<'_>) -> bool
    ensures { result ≡ is_op_entry view.now }
{
    view.topic() == OP_TOPIC
}

pub(crate) fn is_discard(view: &View<'_>) -> bool
    ensures { result ≡ is_discard_entry view.now }
{
    is_discard_topic(view.topic())
}

// A copy that a Commit appended.
pub(crate) fn is_copy(view: &View<'_>) -> bool
    ensures { result ≡ is_copy_entry view.now }
{
    is_copy_flag(view.sysflag())
}

/// The queue offset that a half message names: a renewal that of its origin.
pub fn named_half(view: &View<'_>) -> Option<u64>
    ensures { result ≡ number_at (origin_text view.now) }
{
    number_in(view.prop("TRAN_PREPARED_QUEUE_OFFSET")?)
}

/// The queue offset that an op record names. `None` of each other record.
pub fn rolled_back(view: &View<'_>) -> Option<u64>
    ensures { result ≡ rolled_back_by view.now }
{
    if is_op(view) {
        number_of(view.body())
    } else {
        None
    }
}
