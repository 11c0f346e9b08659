//! The place of the next record.

ghost use Rattle.std.specs.Prelude.{◌≡◌, ◌<◌, ◌≤◌, ◌^◌};
ghost use Rattle.log_model.specs.Log.{place_after};

use record_codec::BLANK_FRONT;

/// The place behind `end` for a record of `size` bytes: at `end` where it fits into the segment, else at the start of the
/// next one, and a blank fills what is between. A record fits where a blank's size and magic have room behind it.
pub fn next_place(segment: u32, end: u64, size: u32) -> u64
    requires some { 0 < segment }
    requires low { end ≤ 2 ^ 62 }
    ensures { result ≡ place_after segment end size }
{
    let segment = u64::from(segment);
    if end % segment + u64::from(size) + BLANK_FRONT <= segment {
        end
    } else {
        (end / segment + 1) * segment
    }
}
