//! What kind a record is.

ghost use Rattle.std.specs.Prelude.{◌≡◌, ◌&&◌, is_none, option_map};
ghost use Rattle.log_model.specs.Queues.{said_by};
ghost use Rattle.log_model.specs.Kinds.{is_half as is_half_entry, is_op as is_op_entry, is_discard as is_discard_entry};
ghost use Rattle.log_model.specs.Kinds.{is_copy as is_copy_entry, origin_text as origin_text_of};
ghost use Rattle.log_replay.specs.Told.{is_of_origin};

use record_codec::{COMMITTED, DISCARD_TOPIC, HALF_TOPIC, OP_TOPIC, Record, TRANSACTION_BITS};

pub(crate) fn is_half(r: &Record) -> bool
    ensures { result ≡ is_half_entry (said_by r.now) }
{
    r.draft.topic.as_str() == HALF_TOPIC
}

pub(crate) fn is_op(r: &Record) -> bool
    ensures { result ≡ is_op_entry (said_by r.now) }
{
    r.draft.topic.as_str() == OP_TOPIC
}

pub(crate) fn is_discard(r: &Record) -> bool
    ensures { result ≡ is_discard_entry (said_by r.now) }
{
    r.draft.topic.as_str() == DISCARD_TOPIC
}

// A copy that a Commit appended.
pub(crate) fn is_copy(r: &Record) -> bool
    ensures { result ≡ is_copy_entry (said_by r.now) }
{
    r.draft.sysflag & TRANSACTION_BITS == COMMITTED
}

// The queue offset of the origin that a renewal names.
pub(crate) fn origin_text(r: &Record) -> Option<&str>
    ensures { option_map (λ text. text.now) result ≡ origin_text_of (said_by r.now) }
{
    r.draft.props.get("TRAN_PREPARED_QUEUE_OFFSET")
}

// A half message that isn't a renewal.
pub(crate) fn is_origin(r: &Record) -> bool
    ensures { result ≡ (is_half_entry (said_by r.now) && is_none (origin_text_of (said_by r.now))) }
{
    is_half(r) && origin_text(r).is_none()
}

// Whether the record is the origin of this queue offset, or a renewal of it. `digits` are the queue offset in decimal.
pub(crate) fn is_member(r: &Record, origin: u64, digits: &[u8]) -> bool
    ensures { result ≡ is_of_origin origin digits.now (said_by r.now) }
{
    if !is_half(r) {
        return false;
    }
    match origin_text(r) {
        None => r.place.queue_offset == origin,
        Some(text) => text.as_bytes() == digits,
    }
}
