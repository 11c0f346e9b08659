//! Where a pull begins, and how many units it may ask for.

ghost use Rattle.std.specs.Prelude.{◌≡◌, ◌≤◌};
ghost use Rattle.log_model.specs.Keys.{asked_number};
ghost use Rattle.queue_view.specs.Bounds.{start_of as start_of_pull};

/// Where a pull begins that asks for an offset.
pub enum Start {
    /// At this offset, which a unit has.
    Within(u64),
    /// At the end of the queue: nothing is there yet. The next pull is from this offset.
    AtEnd(u64),
    /// Outside the queue. The next pull is from this offset.
    Outside(u64),
}

// Where a pull of a queue of these bounds begins.
pub(crate) fn start_of(from: i64, min: u64, max: u64) -> Start
    ensures { result ≡ start_of_pull from min max }
{
    if from < 0 {
        return Start::Outside(min);
    }
    let from = from as u64;
    if max == 0 && from == 0 {
        Start::AtEnd(0)
    } else if from < min {
        Start::Outside(min)
    } else if from == max {
        Start::AtEnd(max)
    } else if from > max {
        Start::Outside(max)
    } else {
        Start::Within(from)
    }
}

/// The most units that one pull gives.
const UNITS_MAX: i32 = 32;

// How many units a pull gives that asks for so many.
pub(crate) fn asked(most: i32) -> usize
    ensures { result ≡ asked_number 32 most }
{
    most.max(1).min(UNITS_MAX) as usize
}
