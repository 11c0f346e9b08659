//! Whole records among bytes of a log, as they may stand behind a torn end.

ghost use Rattle.std.specs.Prelude.{◌≡◌, ◌+◌, ◌==◌, ◌<◌, ◌≤◌, length, Some, IfSome};
ghost use Rattle.record_codec.specs.Entry.{Entry};
ghost use Rattle.record_codec.specs.Parsed.{parsed};
ghost use Rattle.record_codec.specs.Wholes.{size_at as size_at_of, wholes};

use crate::lengths::u64_at;
use crate::reading::{size_in_front, test};

// So many bytes of a record show its physical offset.
const PLACED: usize = 36;

// Whether a number is the one so far behind the place. Their sum may not fit.
fn is_behind(own: u64, place: u64, behind: usize) -> bool
    ensures { result ≡ (own == (place + behind)) }
{
    if own < place {
        return false;
    }
    own - place == behind as u64
}

// Whether the record in front, if there is one, stands so many bytes behind the place. No sum is taken.
fn may_stand(bytes: &[u8], place: u64, behind: usize) -> bool
    ensures { (r : Entry) → parsed bytes.now ≡ Some r → result ≡ (r.offset == (place + behind)) }
{
    if size_in_front(bytes).is_none() {
        return false;
    }
    if bytes.len() < PLACED {
        return false;
    }
    is_behind(u64_at(bytes, 28), place, behind)
}

// The size of the record in front, where it stands so many bytes behind the place.
fn size_at(bytes: &[u8], place: u64, behind: usize) -> Option<u32>
    ensures size { result ≡ size_at_of bytes.now (place + behind) }
    ensures within { IfSome result (λ size. (0 < size) × (size ≤ length bytes.now)) }
{
    if !may_stand(bytes, place, behind) {
        return None;
    }
    let view = test(bytes)?;
    Some(view.size())
}

/// How many whole records stand among these bytes of a log, the first of which has this physical offset: where a record is
/// whose own physical offset is its place it counts, and one goes on behind it; else one goes on a byte further.
pub fn whole_records(bytes: &[u8], place: u64) -> u64
    ensures { result ≡ wholes bytes.now place }
{
    let mut count: u64 = 0;
    let mut at: usize = 0;
    while at < bytes.len() {
        match size_at(&bytes[at..], place, at) {
            Some(size) => {
                count += 1;
                at += size as usize;
            }
            None => at += 1,
        }
    }
    count
}
