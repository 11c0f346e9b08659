//! A half message is settled by its producer, who knows it by the reply to its send.

ghost use Rattle.std.specs.Prelude.{◌≡◌, ◌<◌, ◌^◌, IfSome};
ghost use Rattle.gen_run.specs.Asks.{NamesHalf};

use reply_fields::Reply;

// The number, if it can be a queue offset or a place.
fn offset_in(number: u64) -> Option<u64>
    ensures { IfSome result (λ it. (it ≡ number) × (it < 2 ^ 62)) }
{
    if number >= 4611686018427387904 {
        return None;
    }
    Some(number)
}

/// The queue offset and the place of the half message that the reply to its send names.
pub(crate) fn half_in(reply: &Reply) -> Option<(u64, u64)>
    ensures names { IfSome result (λ half. NamesHalf reply.now half.0 half.1) }
    ensures offset { IfSome result (λ half. half.0 < 2 ^ 62) }
    ensures place { IfSome result (λ half. half.1 < 2 ^ 62) }
{
    let sent = reply.ext.as_sent()?;
    let place = offset_in(sent.place)?;
    let queue_offset = offset_in(sent.queue_offset)?;
    Some((queue_offset, place))
}
