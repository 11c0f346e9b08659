//! Reads the stream of requests to its end, and serves each as soon as it is whole.

ghost use Rattle.std.specs.Prelude.{◌≡◌, ◌^◌, ◌≤◌, ◌<◌, ◌+◌, ◌-◌, ◌++◌, min, List, [], OnErr, IfOk, length, take, ℕ};
ghost use Rattle.mq_outside.specs.Counts.{CountsFailure};
ghost use Rattle.log_model.specs.Stored.{StaysOutside};
ghost use Rattle.segment_files.specs.Turn.{IsInside};
ghost use Rattle.worker_turns.specs.Acts.{IsFree, place_of, view_of, change_of};
ghost use Rattle.pipe_stream.specs.Serving.{sides_of, point_of, point_at};
ghost use Rattle.pipe_stream.specs.Piping.{CountsPipe, EndsHere, Piped, source_of};
ghost use Rattle.pipe_stream.specs.Telling.{fault_counts};

use crate::closing::close;
use crate::held::serve_held;
use crate::stop::{Halt, Stop};
use broker_events::Calls;
use group_flush::Flusher;
use mq_outside::{Clock, Disk, Failed, Reader, Sink, Source};
use session::Talk;
use std::alloc::Global;

/// How many bytes a stream may have.
const LIMIT: u64 = 1 << 62;

/// How many bytes are read at once.
const PIECE: usize = 1 << 16;

// The host of every sender: 127.0.0.1, port 0.
const BORN_HOST: [u8; 8] = [127, 0, 0, 1, 0, 0, 0, 0];

// How many bytes may be read behind `total`, into a buffer of `room` bytes: as many as fit and the limit leaves.
fn most_of(total: u64, room: usize) -> usize
    requires total { total < 2 ^ 62 }
    requires room { 0 < room }
    ensures most { result ≡ min room (2 ^ 62 - total) }
    ensures some { 0 < result }
    ensures room { result ≤ room }
    ensures within { total + result ≤ 2 ^ 62 }
{
    if LIMIT - total < room as u64 {
        (LIMIT - total) as usize
    } else {
        room
    }
}

// Reads the next bytes of a stream of which `total` were read. None is the end.
fn read_piece<S: Source>(source: &mut S, total: u64, input: &mut [u8]) -> Result<usize, Failed>
    requires total { total < 2 ^ 62 }
    requires room { 0 < length input.old }
    ensures room { IfOk result (λ n. n ≤ length input.old) }
    ensures within { IfOk result (λ n. total + n ≤ 2 ^ 62) }
    ensures given { S.tells → IfOk result (λ n. S.given source.new ≡ S.given source.old ++ take n input.new) }
    ensures end { S.tells → IfOk result (λ n. n ≡ 0 → S.left source.new ≡ []) }
    ensures still { S.tells → OnErr result (S.given source.new ≡ S.given source.old) }
    ensures cause { CountsFailure result (S.faults source.old) (S.faults source.new) }
{
    let most = most_of(total, input.len());
    source.read(&mut input[..most])
}

// The source has no more: it ended between two frames, or inside one.
fn end_of(talk: &Talk) -> Result<(), Halt>
    ensures { EndsHere talk.now.cutter result }
{
    let (at, held) = talk.rest();
    if held == 0 {
        Ok(())
    } else {
        Err(Halt::BadFrame(at))
    }
}

// Serves what is read into the buffer, piece by piece, and makes the last turns where the source ends between two frames.
#[tactic(auto, using(log_model::proofs::OutsideLemmas::outside_start))]
fn serve_stream<S: Source, C: Calls, D: Disk, R: Reader, K: Sink, T: Clock>(
    alloc: Global,
    source: &mut S,
    input: &mut [u8],
    talk: &mut Talk,
    calls: &mut C,
    flusher: &mut Flusher,
    disk: &mut D,
    reader: &mut R,
    asked: &mut u32,
    buffer: &mut Vec<u8>,
    sink: &mut K,
    clock: &mut T,
) -> Result<(), Halt>
    requires room { 0 < length input.old }
    requires start { talk.old.cutter ≡ record { at = 0; bytes = [] } }
    requires free { IsFree (C.has_key calls.old) (C.shown calls.old) }
    requires inside { D.tells → IsInside flusher.old.file.base flusher.old.file.offset (D.state disk.old) }
    ensures served { Piped (sides_of C.makes R.gives (view_of D.tells D.state D.faults D.syncs) K.tells T.tells) result
        (source_of S.tells (S.given source.old) (S.given source.new) (S.left source.new))
        (change_of calls.old (point_at (place_of flusher.old.file disk.old)
        (R.faults reader.old) (K.taken sink.old) (T.readings clock.old) asked.old)
        calls.new (point_at (place_of flusher.new.file disk.new)
        (R.faults reader.new) (K.taken sink.new) (T.readings clock.new) asked.new)) }
    ensures cause { CountsPipe result (fault_counts (S.faults source.old) (S.faults source.new))
        (fault_counts (K.faults sink.old) (K.faults sink.new)) (fault_counts (T.faults clock.old) (T.faults clock.new)) }
    ensures free { IsFree (C.has_key calls.new) (C.shown calls.new) }
    ensures inside { D.tells → IsInside flusher.new.file.base flusher.new.file.offset (D.state disk.new) }
    ensures outside { D.tells → StaysOutside (D.state disk.old) (D.state disk.new) }
{
    let mut total: u64 = 0;
    while total < LIMIT {
        let read = match read_piece(source, total, input) {
            Err(_) => return Err(Halt::Read),
            Ok(read) => read,
        };
        if read == 0 {
            match end_of(talk) {
                Err(halt) => return Err(halt),
                Ok(()) => {
                    return close(alloc, calls, flusher, disk, asked, buffer, sink, clock);
                }
            }
        }
        total += read as u64;
        match talk.feed(&input[..read]) {
            Err(_) => return Err(Halt::Stopped(Stop::Memory)),
            Ok(()) => {}
        }
        match serve_held(
            alloc, talk, calls, flusher, disk, reader, asked, buffer, sink, clock,
        ) {
            Err(halt) => return Err(halt),
            Ok(()) => {}
        }
    }
    Err(Halt::BadFrame(LIMIT))
}

/// Serves the requests of the source, up to its end or to what ends the reading before.
#[tactic(auto, using(log_model::proofs::OutsideLemmas::outside_start))]
pub fn serve_source<S: Source, C: Calls, D: Disk, R: Reader, K: Sink, T: Clock>(
    alloc: Global,
    source: &mut S,
    calls: &mut C,
    flusher: &mut Flusher,
    disk: &mut D,
    reader: &mut R,
    buffer: &mut Vec<u8>,
    sink: &mut K,
    clock: &mut T,
) -> Result<(), Halt>
    requires free { IsFree (C.has_key calls.old) (C.shown calls.old) }
    requires inside { D.tells → IsInside flusher.old.file.base flusher.old.file.offset (D.state disk.old) }
    ensures served { Piped (sides_of C.makes R.gives (view_of D.tells D.state D.faults D.syncs) K.tells T.tells) result
        (source_of S.tells (S.given source.old) (S.given source.new) (S.left source.new))
        (change_of calls.old (point_of (place_of flusher.old.file disk.old)
        (R.faults reader.old) (K.taken sink.old) (T.readings clock.old))
        calls.new (point_of (place_of flusher.new.file disk.new)
        (R.faults reader.new) (K.taken sink.new) (T.readings clock.new))) }
    ensures cause { CountsPipe result (fault_counts (S.faults source.old) (S.faults source.new))
        (fault_counts (K.faults sink.old) (K.faults sink.new)) (fault_counts (T.faults clock.old) (T.faults clock.new)) }
    ensures grows { D.faults disk.old ≤ D.faults disk.new }
    ensures free { IsFree (C.has_key calls.new) (C.shown calls.new) }
    ensures inside { D.tells → IsInside flusher.new.file.base flusher.new.file.offset (D.state disk.new) }
    ensures outside { D.tells → StaysOutside (D.state disk.old) (D.state disk.new) }
{
    let Ok(mut input) = vec![in alloc; 0u8; PIECE] else {
        return Err(Halt::Stopped(Stop::Memory));
    };
    let mut talk = Talk::new(alloc, 0, BORN_HOST);
    let mut asked: u32 = 0;
    serve_stream(
        alloc,
        source,
        input.as_mut_slice(),
        &mut talk,
        calls,
        flusher,
        disk,
        reader,
        &mut asked,
        buffer,
        sink,
        clock,
    )
}
