//! Streams of bytes: where requests come from, and where replies go.

ghost use Rattle.std.specs.Prelude.{◌≡◌, ◌≤◌, ◌<◌, ◌++◌, [], ℕ, List, length, take, IfOk, OnErr};
ghost use Rattle.mq_outside.specs.Counts.{CountsFailure};

use crate::faults::Failed;

/// Bytes that come one after another. What it gave is said where `tells` holds; of a real stream nothing is said.
pub trait Source {
    /// That it tells what it gave and has left.
    ghost tells: { Type 0 };

    /// The bytes that it gave so far.
    ghost given: { Self → List ℕ };

    /// The bytes that it has left.
    ghost left: { Self → List ℕ };

    /// How often it failed.
    ghost faults: { Self → ℕ };

    /// Reads the next bytes, at most `out`, and answers how many. 0 for an `out` that isn't empty means the end.
    fn read(&mut self, out: &mut [u8]) -> Result<usize, Failed>
        ensures within { IfOk result (λ n. n ≤ length out.old) }
        ensures given { tells → IfOk result (λ n. given self.new ≡ given self.old ++ take n out.new) }
        ensures left { tells → IfOk result (λ n. left self.old ≡ take n out.new ++ left self.new) }
        ensures end { tells → IfOk result (λ n. n ≡ 0 → 0 < length out.old → left self.old ≡ []) }
        ensures given_still { tells → OnErr result (given self.new ≡ given self.old) }
        ensures left_still { tells → OnErr result (left self.new ≡ left self.old) }
        ensures cause { CountsFailure result (faults self.old) (faults self.new) };
}

/// Takes bytes one after another. What it took is said where `tells` holds; of a real stream nothing is said.
pub trait Sink {
    /// That it tells what it took.
    ghost tells: { Type 0 };

    /// The bytes that it took so far.
    ghost taken: { Self → List ℕ };

    /// How often it failed.
    ghost faults: { Self → ℕ };

    /// Takes first bytes of the piece and answers how many, at least 1 of a piece that isn't empty.
    fn write(&mut self, piece: &[u8]) -> Result<usize, Failed>
        ensures within { IfOk result (λ n. n ≤ length piece.now) }
        ensures some { IfOk result (λ n. 0 < length piece.now → 0 < n) }
        ensures taken { tells → IfOk result (λ n. taken self.new ≡ taken self.old ++ take n piece.now) }
        ensures still { tells → OnErr result (taken self.new ≡ taken self.old) }
        ensures cause { CountsFailure result (faults self.old) (faults self.new) };

    /// Nothing more will be written.
    fn done(&mut self)
        ensures taken { tells → taken self.new ≡ taken self.old }
        ensures faults { faults self.old ≤ faults self.new };
}
