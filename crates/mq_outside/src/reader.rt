//! Reading frozen ranges of the log, in any thread.

ghost use Rattle.std.specs.Prelude.{◌≡◌, ◌+◌, ◌≤◌, ℕ, length, OnOk};
ghost use Rattle.mq_outside.specs.Counts.{Counted, CountsFailure};
ghost use Rattle.mq_outside.specs.Readings.{Giving, GivesHeld, GivesParts, GivesAlike};

use crate::faults::Failed;
use crate::frozen::Frozen;

/// Reads frozen ranges.
pub trait Reader {
    /// How often it failed.
    ghost faults: { Self → ℕ };

    /// How many reads were asked of it.
    ghost reads: { Self → ℕ };

    /// Which bytes a read of a piece at an offset gives. Only a read that answered Ok shows it.
    ghost gives: { Giving };

    /// How often it failed, as a number: a refusal is told to the client with it.
    fn fault_count(&self) -> u64
        ensures { result ≡ faults self.now };

    /// Fills `out` with what the piece has from this offset in it on.
    fn read(&mut self, piece: &Frozen, at: u64, out: &mut [u8]) -> Result<(), Failed>
        requires { at + length out.old ≤ piece.now.len }
        ensures gives { OnOk result (gives piece.now at out.new) }
        ensures cause { CountsFailure result (faults self.old) (faults self.new) }
        ensures reads { Counted 1 (reads self.old) (reads self.new) };

    /// Of a piece that holds its bytes it gives these.
    ghost held: { GivesHeld gives };

    /// What it gives at once it gives in parts.
    ghost parts: { GivesParts gives };

    /// It gives the same of pieces that are alike.
    ghost alike: { GivesAlike gives };
}
