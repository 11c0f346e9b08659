//! What the core says, in words.

use broker_events::{Checked, Said};
use reply_fields::Reply;
use std::alloc::AllocError;

// The code, and how many pieces the body has: one for each record that is found.
fn put_reply(out: &mut String, reply: &Reply) -> Result<(), AllocError> {
    let pieces = reply.body.as_slice().len();
    write!(out, "{}, {pieces}", reply.code)
}

// The origin of a check, the number of its first record, and who is asked for what.
fn put_check(out: &mut String, done: &Checked) -> Result<(), AllocError> {
    write!(out, "checks {}, writes {}", done.origin, done.number)?;
    if let Some(ask) = &done.ask {
        let place = ask.view.place.offset;
        write!(out, ", asks {} for {place}", ask.link)?;
    }
    Ok(())
}

/// Appends what the core says.
pub(crate) fn put_said(out: &mut String, said: &Said) -> Result<(), AllocError> {
    match said {
        Said::Reply(reply) => put_reply(out, reply),
        Said::After {
            reply,
            number,
            turn,
        } => {
            write!(out, "after {number} from turn {turn}: ")?;
            put_reply(out, reply)
        }
        Said::Full { pending } => write!(out, "full at {pending}"),
        Said::Batch(_) => out.push_str("batch"),
        Said::Done => out.push_str("done"),
        Said::Awaited(awaited) => write!(out, "{awaited:?}"),
        Said::Moved(number) => write!(out, "sees {number}"),
        Said::LogEnd => out.push_str("log end"),
        Said::Delivered(None) | Said::Checked(None) => out.push_str("nothing due"),
        Said::Delivered(Some((level, number))) => write!(out, "delivers {number} of {level}"),
        Said::Checked(Some(done)) => put_check(out, done),
    }
}
