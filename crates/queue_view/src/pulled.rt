//! What a pull answers.

ghost use Rattle.std.specs.Prelude.{◌≡◌, ◌==◌, pos, if◌then◌else◌};

use record_codec::Unit;

/// Nothing is there yet at the asked offset.
pub const NOT_YET: i32 = 19;
/// Units were examined, and the subscription takes none of them.
pub const NONE_TAKEN: i32 = 20;
/// The asked offset lies outside the queue.
pub const OUTSIDE: i32 = 21;
/// Units are found.
pub const FOUND: i32 = 0;

/// The answer to a pull: one of the codes above, the offset from which to pull next, the bounds of the queue, and the units
/// that are found.
#[derive(Drop)]
pub struct Pulled {
    pub code: i32,
    pub next: u64,
    pub min: u64,
    pub max: u64,
    pub units: Vec<Unit>,
}

// The code where so many units were found.
pub(crate) fn code_of(found: usize) -> i32
    ensures { result ≡ pos (if found == 0 then 20 else 0) }
{
    if found == 0 { NONE_TAKEN } else { FOUND }
}
