//! Text on its way to a sink. It is held until there is a piece of it, so that memory stays bounded and a sink takes few
//! writes.

ghost use Rattle.std.specs.Prelude.{◌≡◌, ◌++◌, OnOk, OnErr};
ghost use Rattle.mq_outside.specs.Counts.{CountsFailure};
ghost use Rattle.tool_run.specs.Tools.{TookFront};

use mq_outside::{Failed, Sink};
use std::alloc::{AllocError, Global};

// So many bytes are held before they are written.
const PIECE: usize = 1 << 16;

/// Text that goes to a sink.
#[derive(Drop)]
pub struct Lines<K: Sink + Drop> {
    pub sink: K,
    pub held: Vec<u8>,
    /// Whether the sink failed. Nothing is written from then on.
    pub failed: bool,
}

// Writes the whole piece. At a failure first bytes of it may have been taken.
fn write_all<K: Sink>(sink: &mut K, piece: &[u8]) -> Result<(), Failed>
    ensures whole { K.tells → OnOk result (K.taken sink.new ≡ K.taken sink.old ++ piece.now) }
    ensures part { K.tells → OnErr result (TookFront (K.taken sink.old) (K.taken sink.new) piece.now) }
    ensures cause { CountsFailure result (K.faults sink.old) (K.faults sink.new) }
{
    let mut at = 0;
    while at < piece.len() {
        at += sink.write(&piece[at..])?;
    }
    Ok(())
}

impl<K: Sink + Drop> Lines<K> {
    ghost use Rattle.std.specs.Prelude.{◌≡◌, List, ℕ, [], true, false, OnOk, OnErr};
    ghost use Rattle.tool_run.specs.Tools.{Failed as SinkFailed, TookAll, seen_of};
    ghost use Rattle.tool_run.specs.Writes.{Told, Broke};

    /// No text for this sink.
    pub fn new(alloc: Global, sink: K) -> Lines<K>
        ensures sink { result.sink ≡ sink }
        ensures held { result.held.items ≡ [] }
        ensures well { result.failed ≡ false }
    {
        Lines {
            sink,
            held: Vec::new(alloc),
            failed: false,
        }
    }

    /// Writes what is held. `Err`: the sink failed.
    pub(crate) fn flush(&mut self) -> Result<(), AllocError>
        ensures empty { OnOk result (self.new.held.items ≡ []) }
        ensures told { (first : K) (text : List ℕ) → Told K.Sink first self.old text → OnOk result (Told K.Sink first self.new text) }
        ensures broke { (first : K) (text : List ℕ) → Told K.Sink first self.old text → OnErr result (Broke K.Sink first self.new text) }
        ensures failed { OnErr result (self.new.failed ≡ true) }
    {
        match write_all(&mut self.sink, self.held.as_slice()) {
            Ok(()) => {
                self.held.clear();
                Ok(())
            }
            Err(Failed) => {
                self.failed = true;
                Err(AllocError)
            }
        }
    }

    /// Writes what is held, if it is a piece. `Err`: the sink failed.
    pub(crate) fn flush_piece(&mut self) -> Result<(), AllocError>
        ensures told { (first : K) (text : List ℕ) → Told K.Sink first self.old text → OnOk result (Told K.Sink first self.new text) }
        ensures broke { (first : K) (text : List ℕ) → Told K.Sink first self.old text → OnErr result (Broke K.Sink first self.new text) }
    {
        if self.held.len() >= PIECE {
            return self.flush();
        }
        Ok(())
    }

    /// Writes what is held. The sink comes back, and whether all was written.
    pub(crate) fn finish(self) -> (K, bool)
        ensures all { (first : K) (text : List ℕ) → Told K.Sink first self text → result.1 ≡ true
            → TookAll (seen_of K.Sink first result.0) text }
        ensures failed { (first : K) (text : List ℕ) → Told K.Sink first self text → result.1 ≡ false
            → SinkFailed (seen_of K.Sink first result.0) text }
    {
        let mut lines = self;
        match lines.flush() {
            Ok(()) => (lines.sink, true),
            Err(AllocError) => (lines.sink, false),
        }
    }
}
