//! A link to a peer: its two ends in one object, neither of which waits.

ghost use Rattle.std.specs.Prelude.{◌≡◌, ◌≤◌, ◌<◌, ◌++◌, [], ℕ, List, length, IfOk, IfSome};
ghost use Rattle.mq_outside.specs.Counts.{CountsFailure};
ghost use Rattle.mq_peers.specs.Passing.{IfBytes, bytes_read, bytes_taken};

use crate::incoming::Incoming;
use mq_outside::Failed;

/// A link to a peer. 'Not now' changes nothing and counts nothing. What it gave and took is said where `tells` holds;
/// of a real link nothing is said but its peer and its count.
pub trait Link {
    /// That it tells what it gave, has left and took.
    ghost tells: { Type 0 };

    /// The bytes that it gave so far.
    ghost given: { Self → List ℕ };

    /// The bytes that it has left to give.
    ghost left: { Self → List ℕ };

    /// The bytes that it took so far.
    ghost taken: { Self → List ℕ };

    /// The peer's address and port.
    ghost peer: { Self → List ℕ };

    /// How often it failed.
    ghost faults: { Self → ℕ };

    /// Reads the next bytes, at most `out`. Into no room it brings nothing, and then it may answer 'not now'.
    fn read(&mut self, out: &mut [u8]) -> Result<Incoming, Failed>
        ensures within { IfBytes result (λ n. n ≤ length out.old) }
        ensures some { IfBytes result (λ n. 0 < n) }
        ensures given { tells → given self.new ≡ given self.old ++ bytes_read result out.new }
        ensures left { tells → left self.old ≡ bytes_read result out.new ++ left self.new }
        ensures end { tells → result ≡ Ok Incoming.End → left self.old ≡ [] }
        ensures taken { tells → taken self.new ≡ taken self.old }
        ensures peer { peer self.new ≡ peer self.old }
        ensures cause { CountsFailure result (faults self.old) (faults self.new) };

    /// Takes first bytes of the piece and answers how many, at least 1 of a piece that isn't empty; `None` is 'not now'.
    fn write(&mut self, piece: &[u8]) -> Result<Option<usize>, Failed>
        ensures within { IfOk result (λ took. IfSome took (λ n. n ≤ length piece.now)) }
        ensures some { IfOk result (λ took. IfSome took (λ n. 0 < length piece.now → 0 < n)) }
        ensures taken { tells → taken self.new ≡ taken self.old ++ bytes_taken result piece.now }
        ensures given { tells → given self.new ≡ given self.old }
        ensures left { tells → left self.new ≡ left self.old }
        ensures peer { peer self.new ≡ peer self.old }
        ensures cause { CountsFailure result (faults self.old) (faults self.new) };

    /// Nothing more will be written: the peer sees the end after all that was taken. Reads go on.
    fn done(&mut self)
        ensures given { tells → given self.new ≡ given self.old }
        ensures left { tells → left self.new ≡ left self.old }
        ensures taken { tells → taken self.new ≡ taken self.old }
        ensures peer { peer self.new ≡ peer self.old }
        ensures faults { faults self.new ≡ faults self.old };

    /// Nothing more will be read or written: the peer sees the end, and what the system held for the link is free again.
    /// Later reads and writes fail.
    fn close(&mut self)
        ensures given { tells → given self.new ≡ given self.old }
        ensures left { tells → left self.new ≡ left self.old }
        ensures taken { tells → taken self.new ≡ taken self.old }
        ensures peer { peer self.new ≡ peer self.old }
        ensures faults { faults self.new ≡ faults self.old };

    /// The peer: four bytes of its IPv4 address, then its port in four bytes, the high byte first.
    fn peer(&self) -> [u8; 8]
        ensures { result ≡ peer self.now };
}
