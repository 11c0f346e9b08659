//! Waiting until a link may have something to say, or may take something.

ghost use Rattle.std.specs.Prelude.{◌≡◌, [], ℕ, IfOk, OnErr};
ghost use Rattle.mq_outside.specs.Counts.{CountsDiskFault, CountsFailure};

use crate::door::Door;
use crate::ends::Ends;
use crate::event::Event;
use crate::link::Link;
use crate::wake::Wake;
use mq_outside::{DiskFault, Failed};
use std::alloc::AllocError;

/// Waits for the links and doors that are registered with it. Nothing is claimed of what it reports: a report may be
/// spurious, and what it doesn't report may be ready.
///
/// A report comes at a change, and what was ready before it was registered counts as one. So after a report go on with
/// that link until it says 'not now' or brings less than there was room for, and where the report says `ended` until
/// the end or a failure; with a door until it says 'not now'. Who stops before that has to come back by itself.
pub trait Ready {
    /// The links that it waits for.
    type Link: Link + Send + Drop;
    /// The doors that it waits for.
    type Door: Door<Link = Self::Link> + Send + Drop;
    /// Where its links go that have ended.
    type Ends: Ends<Self::Link> + Send + Drop;
    /// What ends its waits.
    type Waker: Wake + Send + Sync + Drop;

    /// How often it failed.
    ghost faults: { Self → ℕ };

    /// Another of its kind, with nothing registered and count 0, for another thread.
    fn twin(&mut self) -> Result<Self, DiskFault>
        ensures fresh { IfOk result (λ twin. faults twin ≡ 0) }
        ensures cause { CountsDiskFault result (faults self.old) (faults self.new) };

    /// A ledger of links that have ended, which has none yet.
    fn ends(&self) -> Self::Ends
        ensures none { Self.Ends.tells → Self.Ends.entries result ≡ [] };

    /// A waker of its waits. It fails for want of memory alone.
    fn waker(&self) -> Result<Self::Waker, AllocError>;

    /// Reports the link under this token from now on. No two that are registered have one token.
    fn register(&mut self, link: &mut Self::Link, token: u32) -> Result<(), DiskFault>
        ensures same { link.new ≡ link.old }
        ensures cause { CountsDiskFault result (faults self.old) (faults self.new) };

    /// Reports the door under this token from now on.
    fn register_door(&mut self, door: &mut Self::Door, token: u32) -> Result<(), DiskFault>
        ensures same { door.new ≡ door.old }
        ensures cause { CountsDiskFault result (faults self.old) (faults self.new) };

    /// Reports the link no longer. It was registered under this token. A link that is closed needs no such call.
    fn deregister(&mut self, link: &mut Self::Link, token: u32) -> Result<(), Failed>
        ensures same { link.new ≡ link.old }
        ensures cause { CountsFailure result (faults self.old) (faults self.new) };

    /// Waits until something that is registered may be ready, a waker is woken or so many milliseconds have passed;
    /// `None` sets no time. What may be ready is in `out` then, and nothing else; after a failure `out` is empty.
    fn wait(&mut self, timeout_millis: Option<u64>, out: &mut Vec<Event>) -> Result<(), DiskFault>
        ensures none { OnErr result (out.new.items ≡ []) }
        ensures cause { CountsDiskFault result (faults self.old) (faults self.new) };
}
