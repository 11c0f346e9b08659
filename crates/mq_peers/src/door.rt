//! The door at which peers come in.

ghost use Rattle.std.specs.Prelude.{◌≡◌, ◌+◌, [], ℕ, IfOk, IfSome};
ghost use Rattle.mq_outside.specs.Counts.{CountsFailure};
ghost use Rattle.mq_peers.specs.Passing.{links_in};

use crate::link::Link;
use mq_outside::Failed;

/// A door. What concerns one peer alone, as one that left before it was let in, isn't a failure of the door.
pub trait Door {
    /// The links that it gives.
    type Link: Link;

    /// How often it failed.
    ghost faults: { Self → ℕ };

    /// How many links it gave.
    ghost gave: { Self → ℕ };

    /// Listens on the port. The door isn't open before.
    fn open(&mut self, port: u16) -> Result<(), Failed>
        ensures gave { gave self.new ≡ gave self.old }
        ensures cause { CountsFailure result (faults self.old) (faults self.new) };

    /// The next link, which is counted, or `None` for 'not now'. A link that it gives has given and taken nothing, and never failed.
    fn accept(&mut self) -> Result<Option<Self::Link>, Failed>
        ensures given { Self.Link.tells → IfOk result (λ came. IfSome came (λ link. Self.Link.given link ≡ [])) }
        ensures taken { Self.Link.tells → IfOk result (λ came. IfSome came (λ link. Self.Link.taken link ≡ [])) }
        ensures faults { IfOk result (λ came. IfSome came (λ link. Self.Link.faults link ≡ 0)) }
        ensures counted { gave self.new ≡ gave self.old + links_in result }
        ensures cause { CountsFailure result (faults self.old) (faults self.new) };
}
