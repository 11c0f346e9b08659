//! Standard input as a source, and standard output as a sink. Neither is buffered: what was written has left the process. Where
//! another program made them non-blocking, they wait all the same.

ghost use Rattle.std.specs.Prelude.{◌≡◌, ◌≤◌, ◌<◌, [], length, IfOk};
ghost use Rattle.mq_outside.specs.Counts.{CountsFailure};
ghost use Rattle.std.specs.Io.KnownBytes.{ReadConsumes, WriteAppends};

use crate::faults::Failed;
use crate::stream::{Sink, Source};
use libc::net::{POLLIN, POLLOUT, poll};
use libc::types::pollfd;
use libc::{STDIN_FILENO, STDOUT_FILENO};
use std::io::{ErrorKind, Read, Stdin, Stdout, Write};

/// A reader as a source, standard input where none is named. It says nothing of the bytes that come.
#[derive(Drop)]
pub struct StdSource<R: Read + Drop = Stdin> {
    input: R,
    // What is waited for where a read would block; none: such a read is a failure.
    awaited: Option<i32>,
    faults: u64,
}

/// A writer as a sink, standard output where none is named. It says nothing of the bytes that went.
#[derive(Drop)]
pub struct StdSink<W: Write + Drop = Stdout> {
    output: W,
    // What is waited for where a write would block; none: such a write is a failure.
    awaited: Option<i32>,
    faults: u64,
}

// Waits until this descriptor is ready, or a signal comes: the call that is made again tells which. Answers whether there is one.
fn is_awaited(descriptor: Option<i32>, events: i16) -> bool {
    let Some(fd) = descriptor else {
        return false;
    };
    let mut asked = [pollfd {
        fd,
        events,
        revents: 0,
    }];
    poll(&mut asked, -1);
    true
}

// Whether a call that failed so is made again: a signal interrupted it, or it would have blocked and the descriptor was waited for.
fn goes_on(kind: ErrorKind, descriptor: Option<i32>, events: i16) -> bool {
    match kind {
        ErrorKind::Interrupted => true,
        ErrorKind::WouldBlock => is_awaited(descriptor, events),
        _ => false,
    }
}

// One read, tried again where a signal interrupts it, or where it would block and there is a descriptor to wait for.
pub(crate) fn read_some<R: Read>(
    reader: &mut R,
    awaited: Option<i32>,
    out: &mut [u8],
) -> Result<usize, Failed>
    ensures within { IfOk result (λ n. n ≤ length out.old) }
    ensures bytes { ReadConsumes (R.remaining reader.old) (R.remaining reader.new) result out.new }
{
    for _ in 0..u64::MAX {
        match reader.read(out) {
            Ok(n) => return Ok(n),
            Err(e) => {
                if !goes_on(e.kind(), awaited, POLLIN) {
                    return Err(Failed);
                }
            }
        }
    }
    Err(Failed)
}

// One write, tried again as a read is. A write that takes nothing of a piece is a failure.
pub(crate) fn write_some<W: Write>(
    writer: &mut W,
    awaited: Option<i32>,
    piece: &[u8],
) -> Result<usize, Failed>
    ensures within { IfOk result (λ n. n ≤ length piece.now) }
    ensures some { IfOk result (λ n. 0 < length piece.now → 0 < n) }
    ensures bytes { WriteAppends (W.contents writer.old) (W.contents writer.new) result piece.now }
{
    for _ in 0..u64::MAX {
        match writer.write(piece) {
            Ok(n) => {
                if n == 0 && !piece.is_empty() {
                    return Err(Failed);
                }
                return Ok(n);
            }
            Err(e) => {
                if !goes_on(e.kind(), awaited, POLLOUT) {
                    return Err(Failed);
                }
            }
        }
    }
    Err(Failed)
}

impl<R: Read + Drop> StdSource<R> {
    /// This reader, from where it stands. A read of it that would block is a failure.
    pub fn over(input: R) -> StdSource<R>
        ensures given { result.input ≡ input }
        ensures fresh { result.faults ≡ 0 }
    {
        StdSource {
            input,
            awaited: None,
            faults: 0,
        }
    }
}

impl<W: Write + Drop> StdSink<W> {
    /// This writer. A write to it that would block is a failure.
    pub fn over(output: W) -> StdSink<W>
        ensures given { result.output ≡ output }
        ensures fresh { result.faults ≡ 0 }
    {
        StdSink {
            output,
            awaited: None,
            faults: 0,
        }
    }
}

impl StdSource<Stdin> {
    /// Standard input of this process, from where it stands. A read of it waits, also where the input is non-blocking.
    pub fn new(rt: HostRuntime) -> StdSource<Stdin>
        ensures { result.faults ≡ 0 }
    {
        StdSource {
            input: rt.stdin(),
            awaited: Some(STDIN_FILENO),
            faults: 0,
        }
    }
}

impl StdSink<Stdout> {
    /// Standard output of this process. A write to it waits, also where the output is non-blocking.
    pub fn new(rt: HostRuntime) -> StdSink<Stdout>
        ensures { result.faults ≡ 0 }
    {
        StdSink {
            output: rt.stdout(),
            awaited: Some(STDOUT_FILENO),
            faults: 0,
        }
    }
}

impl<R: Read + Drop> Source for StdSource<R> {
    ghost tells = { ⊥ };

    ghost given = { λ _. [] };

    ghost left = { λ _. [] };

    ghost faults = { λ s. s.faults };

    fn read(&mut self, out: &mut [u8]) -> Result<usize, Failed>
        ensures within { IfOk result (λ n. n ≤ length out.old) }
        ensures bytes { ReadConsumes (R.remaining self.old.input) (R.remaining self.new.input) result out.new }
        ensures cause { CountsFailure result self.old.faults self.new.faults }
    {
        match read_some(&mut self.input, self.awaited, out) {
            Ok(n) => Ok(n),
            Err(Failed) => {
                self.faults = self.faults.saturating_add(1);
                Err(Failed)
            }
        }
    }
}

impl<W: Write + Drop> Sink for StdSink<W> {
    ghost tells = { ⊥ };

    ghost taken = { λ _. [] };

    ghost faults = { λ s. s.faults };

    fn write(&mut self, piece: &[u8]) -> Result<usize, Failed>
        ensures within { IfOk result (λ n. n ≤ length piece.now) }
        ensures some { IfOk result (λ n. 0 < length piece.now → 0 < n) }
        ensures bytes { WriteAppends (W.contents self.old.output) (W.contents self.new.output) result piece.now }
        ensures cause { CountsFailure result self.old.faults self.new.faults }
    {
        match write_some(&mut self.output, self.awaited, piece) {
            Ok(n) => Ok(n),
            Err(Failed) => {
                self.faults = self.faults.saturating_add(1);
                Err(Failed)
            }
        }
    }

    fn done(&mut self) {}
}
