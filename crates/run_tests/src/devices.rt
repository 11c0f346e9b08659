//! One call of `pipe` over devices in memory.

ghost use Rattle.std.specs.Prelude.{◌<◌, length};
ghost use Rattle.mq_outside.specs.MemSource.{HasNoEmptyPiece};

use broker_run::run_pipe;
use mq_outside::{MemClock, MemDisk, MemKeep, MemSink, MemSource, Room};
use std::alloc::{AllocError, Global};
use store_open::Status;

/// The log's first file.
const LOG: &str = "commitlog/00000000000000000000";

/// The calls of a device that are to fail, from the first number up to the last: numbers begin with 1.
pub(crate) type Calls = (u64, u64);

/// No call fails.
pub(crate) const NONE: Calls = (1, 0);

/// Which calls fail.
#[derive(Clone, Copy)]
pub(crate) struct Failing {
    pub(crate) source: Calls,
    pub(crate) sink: Calls,
    pub(crate) disk: Calls,
    pub(crate) keep: Calls,
    pub(crate) clock: Calls,
}

/// All devices do what they are asked for.
pub(crate) const NOTHING: Failing = Failing {
    source: NONE,
    sink: NONE,
    disk: NONE,
    keep: NONE,
    clock: NONE,
};

/// How a call ended: its status, with the device that it names, and how many bytes the log's first file has.
#[derive(Clone, Copy, Debug, PartialEq, Eq)]
pub(crate) struct Ended {
    pub(crate) code: u8,
    pub(crate) device: &'static str,
    pub(crate) log: usize,
}

fn numbers_of(alloc: Global, calls: Calls) -> Result<Vec<u64>, AllocError> {
    let mut numbers = Vec::new(alloc);
    for number in calls.0..calls.1.saturating_add(1) {
        numbers.push(number)?;
    }
    Ok(numbers)
}

fn device_in(status: &Status) -> &'static str {
    match status.name.as_str() {
        "clock" => "clock",
        "keep" => "keep",
        _ => "",
    }
}

fn ended_as(status: &Status, disk: &MemDisk) -> Ended {
    Ended {
        code: status.code,
        device: device_in(status),
        log: disk.bytes(LOG).unwrap_or(&[]).len(),
    }
}

fn with_keep(
    alloc: Global,
    words: &[&str],
    source: &mut MemSource,
    sink: &mut MemSink,
    disk: &mut MemDisk,
    clock: &mut MemClock,
    calls: Calls,
) -> Result<Ended, AllocError> {
    let fails = numbers_of(alloc, calls)?;
    let mut keep = MemKeep::new(alloc, Vec::new(alloc), fails)?;
    let status = run_pipe(alloc, words, source, sink, disk, &mut keep, clock);
    Ok(ended_as(&status, disk))
}

fn with_disk(
    alloc: Global,
    words: &[&str],
    source: &mut MemSource,
    sink: &mut MemSink,
    clock: &mut MemClock,
    failing: &Failing,
) -> Result<Ended, AllocError> {
    let room = Room {
        bytes: 140_000_000,
        files: 4,
        calls: 256,
    };
    let fails = numbers_of(alloc, failing.disk)?;
    let mut disk = MemDisk::new(alloc, Vec::new(alloc), room, fails)?;
    with_keep(alloc, words, source, sink, &mut disk, clock, failing.keep)
}

fn with_clock(
    alloc: Global,
    words: &[&str],
    source: &mut MemSource,
    sink: &mut MemSink,
    failing: &Failing,
) -> Result<Ended, AllocError> {
    let readings = vec![in alloc; 2000]?;
    let fails = numbers_of(alloc, failing.clock)?;
    let mut clock = MemClock::new(alloc, readings, fails)?;
    with_disk(alloc, words, source, sink, &mut clock, failing)
}

fn with_sink(
    alloc: Global,
    words: &[&str],
    source: &mut MemSource,
    failing: &Failing,
    written: &mut Vec<u8>,
) -> Result<Ended, AllocError> {
    let fails = numbers_of(alloc, failing.sink)?;
    let mut sink = MemSink::new(alloc, 8192, 64, fails)?;
    let ended = with_clock(alloc, words, source, &mut sink, failing)?;
    written.extend_from_slice(sink.bytes())?;
    Ok(ended)
}

/// Serves these bytes over an empty store by a call with these arguments, and appends what is written. The source gives the bytes in one
/// piece.
pub(crate) fn serve_as(
    alloc: Global,
    words: &[&str],
    bytes: Vec<u8>,
    failing: &Failing,
    written: &mut Vec<u8>,
) -> Result<Ended, AllocError> {
    if bytes.is_empty() {
        return Err(AllocError);
    }
    let pieces = vec![in alloc; bytes]?;
    let fails = numbers_of(alloc, failing.source)?;
    let mut source = MemSource::new(alloc, pieces, fails)?;
    with_sink(alloc, words, &mut source, failing, written)
}

/// The same, by a call without options.
pub(crate) fn serve(
    alloc: Global,
    bytes: Vec<u8>,
    failing: &Failing,
    written: &mut Vec<u8>,
) -> Result<Ended, AllocError> {
    serve_as(alloc, &["pipe"], bytes, failing, written)
}
