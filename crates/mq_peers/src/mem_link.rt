//! A link in memory: it gives pieces of bytes and takes bytes into a room, and says 'not now' at marked calls.

ghost use Rattle.std.specs.Prelude.{◌≡◌, ◌≤◌, ◌<◌, ◌++◌, [], length, IfOk, IfSome, IsErr, OnErr, false, true};
ghost use Rattle.mq_outside.specs.Counts.{CountsFailure, Rises};
ghost use Rattle.mq_peers.specs.Passing.{IfBytes, bytes_read, bytes_taken};

use crate::calls::{Calls, Marked};
use crate::incoming::Incoming;
use crate::link::Link;
use mq_outside::{Failed, MemSink, MemSource, Sink, Source};

/// A link whose reads give the source's pieces and whose writes go to the sink. Each fails where that one does, and
/// once it is closed; a marked call that isn't past the close says 'not now'. It tells what it gave, has left and took.
#[derive(Drop)]
pub struct MemLink {
    peer: [u8; 8],
    source: MemSource,
    sink: MemSink,
    quiet: Marked,
    full: Marked,
    closed: bool,
    faults: u64,
}

impl MemLink {
    ghost use Rattle.mq_peers.specs.Calls.{IsMarked, after_call};

    /// A link of these two ends, which never says 'not now'.
    pub fn new(peer: [u8; 8], source: MemSource, sink: MemSink) -> MemLink
        ensures peer { ⟦<MemLink as Link>⟧.peer result ≡ peer }
        ensures given { ⟦<MemLink as Link>⟧.given result ≡ ⟦<MemSource as Source>⟧.given source }
        ensures left { ⟦<MemLink as Link>⟧.left result ≡ ⟦<MemSource as Source>⟧.left source }
        ensures taken { ⟦<MemLink as Link>⟧.taken result ≡ ⟦<MemSink as Sink>⟧.taken sink }
        ensures faults { ⟦<MemLink as Link>⟧.faults result ≡ 0 }
        ensures source { result.source ≡ source }
        ensures sink { result.sink ≡ sink }
        ensures quiet { result.quiet ≡ record { calls = Calls.Never; asked = 0 } }
        ensures full { result.full ≡ record { calls = Calls.Never; asked = 0 } }
        ensures open { result.closed ≡ false }
    {
        MemLink {
            peer,
            source,
            sink,
            quiet: Marked::new(Calls::Never),
            full: Marked::new(Calls::Never),
            closed: false,
            faults: 0,
        }
    }

    /// The same link, of whose reads these say 'not now'. The next read is number 1.
    pub fn quiet_at(self, reads: Calls) -> MemLink
        ensures { result ≡ record self { quiet = record { calls = reads; asked = 0 } } }
    {
        let mut link = self;
        link.quiet = Marked::new(reads);
        link
    }

    /// The same link, of whose writes these say 'not now'. The next write is number 1.
    pub fn full_at(self, writes: Calls) -> MemLink
        ensures { result ≡ record self { full = record { calls = writes; asked = 0 } } }
    {
        let mut link = self;
        link.full = Marked::new(writes);
        link
    }

    /// The bytes that it took.
    pub fn bytes(&self) -> &[u8]
        ensures { result.now ≡ ⟦<MemLink as Link>⟧.taken self.now }
    {
        self.sink.bytes()
    }

    /// Whether it was closed.
    pub fn is_closed(&self) -> bool
        ensures { result ≡ self.now.closed }
    {
        self.closed
    }

    // Counts a failure.
    fn fail(&mut self) -> Failed
        ensures faults { Rises self.old.faults self.new.faults }
        ensures rest { self.new ≡ record self.old { faults = self.new.faults } }
    {
        self.faults = self.faults.saturating_add(1);
        Failed
    }
}

impl Link for MemLink {
    ghost use Rattle.mq_peers.specs.Calls.{IsMarked, after_call};

    ghost tells = { Unit {0} };

    ghost given = { λ s. ⟦<MemSource as Source>⟧.given s.source };

    ghost left = { λ s. ⟦<MemSource as Source>⟧.left s.source };

    ghost taken = { λ s. ⟦<MemSink as Sink>⟧.taken s.sink };

    ghost peer = { λ s. s.peer };

    ghost faults = { λ s. s.faults };

    fn read(&mut self, out: &mut [u8]) -> Result<Incoming, Failed>
        ensures within { IfBytes result (λ n. n ≤ length out.old) }
        ensures some { IfBytes result (λ n. 0 < n) }
        ensures given { ⟦<MemLink as Link>⟧.given self.new ≡ ⟦<MemLink as Link>⟧.given self.old ++ bytes_read result out.new }
        ensures left { ⟦<MemLink as Link>⟧.left self.old ≡ bytes_read result out.new ++ ⟦<MemLink as Link>⟧.left self.new }
        ensures end { result ≡ Ok Incoming.End → ⟦<MemLink as Link>⟧.left self.old ≡ [] }
        ensures taken { ⟦<MemLink as Link>⟧.taken self.new ≡ ⟦<MemLink as Link>⟧.taken self.old }
        ensures peer { self.new.peer ≡ self.old.peer }
        ensures cause { CountsFailure result self.old.faults self.new.faults }

        // It says 'not now' exactly at a marked read and into no room, and fails once it is closed and where its source does.
        ensures quiet { self.old.closed ≡ false → IsMarked self.old.quiet → result ≡ Ok Incoming.NotNow }
        ensures heard { result ≡ Ok Incoming.NotNow → 0 < length out.old → IsMarked self.old.quiet }
        ensures closed { self.old.closed ≡ true → IsErr result }
        ensures refused { self.old.closed ≡ false → OnErr result
            (Rises (⟦<MemSource as Source>⟧.faults self.old.source) (⟦<MemSource as Source>⟧.faults self.new.source)) }
        ensures asks { self.new.quiet ≡ after_call self.old.quiet }
        ensures sink { self.new.sink ≡ self.old.sink }
        ensures full { self.new.full ≡ self.old.full }
        ensures stays { self.new.closed ≡ self.old.closed }
    {
        let is_quiet = self.quiet.next();
        if self.closed {
            return Err(self.fail());
        }
        if is_quiet || out.is_empty() {
            return Ok(Incoming::NotNow);
        }
        match self.source.read(out) {
            Ok(0) => Ok(Incoming::End),
            Ok(n) => Ok(Incoming::Bytes(n)),
            Err(Failed) => Err(self.fail()),
        }
    }

    fn write(&mut self, piece: &[u8]) -> Result<Option<usize>, Failed>
        ensures within { IfOk result (λ took. IfSome took (λ n. n ≤ length piece.now)) }
        ensures some { IfOk result (λ took. IfSome took (λ n. 0 < length piece.now → 0 < n)) }
        ensures taken { ⟦<MemLink as Link>⟧.taken self.new ≡ ⟦<MemLink as Link>⟧.taken self.old ++ bytes_taken result piece.now }
        ensures given { ⟦<MemLink as Link>⟧.given self.new ≡ ⟦<MemLink as Link>⟧.given self.old }
        ensures left { ⟦<MemLink as Link>⟧.left self.new ≡ ⟦<MemLink as Link>⟧.left self.old }
        ensures peer { self.new.peer ≡ self.old.peer }
        ensures cause { CountsFailure result self.old.faults self.new.faults }

        // It says 'not now' exactly at a marked write, and fails once it is closed and where its sink does.
        ensures full { self.old.closed ≡ false → IsMarked self.old.full → result ≡ Ok None }
        ensures took { result ≡ Ok None → IsMarked self.old.full }
        ensures closed { self.old.closed ≡ true → IsErr result }
        ensures refused { self.old.closed ≡ false → OnErr result
            (Rises (⟦<MemSink as Sink>⟧.faults self.old.sink) (⟦<MemSink as Sink>⟧.faults self.new.sink)) }
        ensures asks { self.new.full ≡ after_call self.old.full }
        ensures source { self.new.source ≡ self.old.source }
        ensures quiet { self.new.quiet ≡ self.old.quiet }
        ensures stays { self.new.closed ≡ self.old.closed }
    {
        let is_full = self.full.next();
        if self.closed {
            return Err(self.fail());
        }
        if is_full {
            return Ok(None);
        }
        match self.sink.write(piece) {
            Ok(n) => Ok(Some(n)),
            Err(Failed) => Err(self.fail()),
        }
    }

    fn done(&mut self) {
        self.sink.done();
    }

    fn close(&mut self)
        ensures { self.new ≡ record self.old { closed = true } }
    {
        self.closed = true;
    }

    fn peer(&self) -> [u8; 8] {
        self.peer
    }
}
