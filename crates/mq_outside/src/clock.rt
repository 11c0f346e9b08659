//! The clock that gives records their store time.

ghost use Rattle.std.specs.Prelude.{◌≡◌, ◌<◌, ◌^◌, ◌++◌, ◌∷◌, [], ℕ, List, IfOk, OnErr};
ghost use Rattle.mq_outside.specs.Counts.{CountsFailure};

use crate::faults::Failed;

/// A clock. What it gave is said where `tells` holds; of a real clock nothing is said. Readings may fall.
pub trait Clock {
    /// That it tells what it gave.
    ghost tells: { Type 0 };

    /// The readings that it gave so far.
    ghost readings: { Self → List ℕ };

    /// How often it failed.
    ghost faults: { Self → ℕ };

    /// Milliseconds since 1970, below 2^62.
    fn now(&mut self) -> Result<u64, Failed>
        ensures small { IfOk result (λ now. now < 2 ^ 62) }
        ensures given { tells → IfOk result (λ now. readings self.new ≡ readings self.old ++ now ∷ []) }
        ensures still { tells → OnErr result (readings self.new ≡ readings self.old) }
        ensures cause { CountsFailure result (faults self.old) (faults self.new) };
}
