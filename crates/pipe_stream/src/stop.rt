//! What ends the reading.

ghost use Rattle.std.specs.Prelude.{◌≡◌};
ghost use Rattle.pipe_stream.specs.Telling.{stopped_by};

use worker_turns::Broken;

/// What ends the reading before the source does.
#[derive(Clone, Copy, Debug, PartialEq, Eq)]
pub enum Stop {
    /// The clock failed.
    Clock,
    /// The sink failed.
    Sink,
    /// There is no memory.
    Memory,
    /// A batch doesn't begin where the flusher writes. It never comes where one caller has the broker alone.
    Misplaced,
}

// What broke acts off ends the reading.
pub(crate) fn stop_of(broken: Broken) -> Stop
    ensures { result ≡ stopped_by broken }
{
    match broken {
        Broken::Misplaced => Stop::Misplaced,
        Broken::Memory => Stop::Memory,
    }
}

/// Why reading ended before the source's end.
#[derive(Clone, Copy, Debug, PartialEq, Eq)]
pub enum Halt {
    /// No frame stands at this place of the stream, or the stream is too long.
    BadFrame(u64),
    /// The source failed.
    Read,
    /// The serving of a frame ended it.
    Stopped(Stop),
}
