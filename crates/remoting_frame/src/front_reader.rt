//! Reads the front of a frame, which is all of it but the body. Numbers have the high byte first.
//!
//! | at    | bytes    | field           |                                                                    |
//! |------:|---------:|-----------------|--------------------------------------------------------------------|
//! | 0     | 4        | `length`        | how many bytes follow it: `4 + H` and the body, at most 16,777,216 |
//! | 4     | 1        | `form`          | the header's form: 0 is JSON, 1 binary                             |
//! | 5     | 3        | `header_length` | H, how many bytes the header has                                   |
//! | 8     | H        | `header`        |                                                                    |
//! | 8 + H | the rest | `body`          | any bytes                                                          |
//!
//! Faults are told in this order, each as soon as the bytes that show it are there: a length below 4 or above the
//! limit (4 bytes), another form (8), a header longer than the frame (8), bytes that are no header of the form
//! (8 + H). So a bad header is told before the body has come.

ghost use Rattle.std.specs.Prelude.{◌<◌, ◌≤◌, ◌^◌, Some};
ghost use Rattle.remoting_frame.specs.Fronts.{front_view};
ghost use Rattle.remoting_frame.specs.Frames.{Answers, first_of, with_word, with_form};

use crate::fault::{FrameFault, HeaderFault};
use crate::frame::{FORM_UNIT, FRAME_MAX, Form};
use crate::front::FrameFront;
use crate::header::Header;
use crate::numbers::u32_at;
use std::alloc::Global;

#[tactic(auto, unfolding(crate::specs::Frames::with_header))]
fn past_form(
    alloc: Global,
    at: u64,
    bytes: &[u8],
    len: u32,
    form: Form,
    header_len: u32,
) -> Result<Option<FrameFront>, FrameFault>
    requires within { len ≤ 16777216 }
    requires header_within { header_len < 2 ^ 24 }
    ensures { Answers front_view result (with_form at bytes.now len (Some form) header_len) }
{
    if len < 4 + header_len {
        return Err(FrameFault::BadLength(at));
    }
    if bytes.len() < 8 + header_len as usize {
        return Ok(None);
    }
    let header = &bytes[8..8 + header_len as usize];
    match Header::read(alloc, form, header) {
        Ok(header) => Ok(Some(FrameFront {
            form,
            header,
            header_len,
            len: len + 4,
        })),
        Err(HeaderFault::Bad) => Err(FrameFault::BadHeader(at)),
        Err(HeaderFault::Memory) => Err(FrameFault::Memory),
    }
}

fn past_word(
    alloc: Global,
    at: u64,
    bytes: &[u8],
    len: u32,
    word: u32,
) -> Result<Option<FrameFront>, FrameFault>
    requires within { len ≤ 16777216 }
    ensures { Answers front_view result (with_word at bytes.now len word) }
{
    let header_len = word % FORM_UNIT;
    match word / FORM_UNIT {
        0 => past_form(alloc, at, bytes, len, Form::Json, header_len),
        1 => past_form(alloc, at, bytes, len, Form::Binary, header_len),
        _ => Err(FrameFault::BadForm(at)),
    }
}

/// The front of the frame that begins `bytes` and starts at the place `at`, or nothing as long as it isn't whole.
#[tactic(auto, unfolding(crate::specs::Frames::first_of, crate::specs::Frames::with_length))]
pub(crate) fn front_at(
    alloc: Global,
    at: u64,
    bytes: &[u8],
) -> Result<Option<FrameFront>, FrameFault>
    ensures { Answers front_view result (first_of at bytes.now) }
{
    if bytes.len() < 4 {
        return Ok(None);
    }
    let len = u32_at(bytes, 0);
    if len < 4 || len > FRAME_MAX {
        return Err(FrameFault::BadLength(at));
    }
    if bytes.len() < 8 {
        return Ok(None);
    }
    past_word(alloc, at, bytes, len, u32_at(bytes, 4))
}
