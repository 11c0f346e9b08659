//! Serves the requests of a source from a log that is open, and flushes what is left at the end.

ghost use Rattle.std.specs.Prelude.{◌≡◌, ◌≢◌, List, ℕ, None};
ghost use Rattle.record_codec.specs.Entry.{Entry};
ghost use Rattle.log_model.specs.Stored.{StaysOutside};
ghost use Rattle.segment_files.specs.Turn.{IsInside};
ghost use Rattle.store_open.specs.Statuses.{FitsTable};
ghost use Rattle.broker_model.specs.State.{Saved};
ghost use Rattle.config_store.specs.Configs.{OFFSETS, TOPICS};
ghost use Rattle.log_opening.specs.Opens.{OpensWith};
ghost use Rattle.worker_turns.specs.Acts.{IsFree, place_of, view_of};
ghost use Rattle.pipe_stream.specs.Serving.{sides_of, point_of};
ghost use Rattle.pipe_stream.specs.Piping.{source_of};
ghost use Rattle.broker_run.specs.Closing.{ServesToEnd, CountsRun, ReadsPlaced, FlushesPlaced, ending_of};
ghost use Rattle.broker_run.specs.Promise.{StatusOf, StatusTells, ServedOver, CountsEnd};
ghost use Rattle.broker_events.specs.declared.event.Setup.{Setup as TheSetup};
ghost use Rattle.pipe_stream.specs.Telling.{fault_counts};

use crate::ended::Ended;
use broker_core::Alone;
use broker_events::Calls;
use exit_status::status_kept;
use group_flush::Flusher;
use keeper_turns::keep_core;
use log_opening::Opened;
use mq_outside::{Clock, Disk, Keep, Sink, Source};
use pipe_stream::{Halt, Stop, serve_source};
use std::alloc::Global;
use store_open::Status;
use worker_turns::{Broken, flush_all};

// Serves the requests of the source, and makes the last flush turns whatever ended the reading.
#[tactic(auto, using(log_model::proofs::OutsideLemmas::outside_start))]
fn serve_to_end<S: Source, C: Calls, D: Disk, K: Sink, T: Clock>(
    alloc: Global,
    source: &mut S,
    calls: &mut C,
    flusher: &mut Flusher,
    disk: &mut D,
    reader: D::Reader,
    sink: &mut K,
    clock: &mut T,
) -> Ended
    requires free { IsFree (C.has_key calls.old) (C.shown calls.old) }
    requires inside { D.tells → IsInside flusher.old.file.base flusher.old.file.offset (D.state disk.old) }
    ensures served { ServesToEnd (sides_of C.makes D.Reader.gives (view_of D.tells D.state D.faults D.syncs) K.tells T.tells) result
        (source_of S.tells (S.given source.old) (S.given source.new) (S.left source.new))
        calls.old (point_of (place_of flusher.old.file disk.old)
        (D.Reader.faults reader) (K.taken sink.old) (T.readings clock.old))
        (ending_of calls.new disk.new (K.taken sink.new) (T.readings clock.new)) }
    ensures outside { D.tells → StaysOutside (D.state disk.old) (D.state disk.new) }
    ensures cause { CountsRun result (fault_counts (S.faults source.old) (S.faults source.new))
        (fault_counts (K.faults sink.old) (K.faults sink.new)) (fault_counts (D.faults disk.old) (D.faults disk.new))
        (fault_counts (T.faults clock.old) (T.faults clock.new)) }
{
    let mut reader = reader;
    let mut buffer = Vec::new(alloc);
    let reading = serve_source(
        alloc,
        source,
        calls,
        flusher,
        disk,
        &mut reader,
        &mut buffer,
        sink,
        clock,
    );
    let last = flush_all(alloc, calls, flusher, disk);
    disk.take_back(reader);
    Ended { reading, last }
}

// The status that tells what ended the reading, and behind a source that ended the last flush turn.
fn status_of_reading(alloc: Global, reading: Result<(), Halt>, last: Option<u64>) -> Status
    requires placed { ReadsPlaced reading }
    ensures tells { StatusTells result reading last }
    ensures table { FitsTable result }
{
    match reading {
        Ok(()) => match last {
            None => Status::plain(alloc, 0),
            Some(_) => Status::plain(alloc, 5),
        },
        Err(Halt::BadFrame(place)) => Status::at(alloc, 2, place),
        Err(Halt::Read) => Status::plain(alloc, 3),
        Err(Halt::Stopped(Stop::Sink)) => Status::plain(alloc, 4),
        Err(Halt::Stopped(Stop::Memory)) => Status::plain(alloc, 7),
        Err(Halt::Stopped(Stop::Clock)) => Status::named(alloc, 10, "clock"),
        Err(Halt::Stopped(Stop::Misplaced)) => unreachable!(),
    }
}

// The status of a run: out of memory in the last flush turns comes before all else.
fn status_of(alloc: Global, ended: Ended) -> Status
    requires reading { ReadsPlaced ended.reading }
    requires last { FlushesPlaced ended.last }
    ensures tells { StatusOf result ended.reading ended.last }
    ensures table { FitsTable result }
{
    match ended.last {
        Err(Broken::Memory) => Status::plain(alloc, 7),
        Err(Broken::Misplaced) => unreachable!(),
        Ok(last) => status_of_reading(alloc, ended.reading, last),
    }
}

/// Serves the requests of the source from a log that is open, replaces the kept files by the texts of the broker then, and answers
/// the status.
#[tactic(auto, using(log_model::proofs::OutsideLemmas::outside_start))]
pub(crate) fn serve_log<S: Source, K: Sink, D: Disk, P: Keep, T: Clock>(
    alloc: Global,
    opened: Opened,
    reader: D::Reader,
    source: &mut S,
    sink: &mut K,
    disk: &mut D,
    keep: &mut P,
    clock: &mut T,
) -> Status
    requires over { (setup : TheSetup) × (saved : Saved) × (log : List Entry) × OpensWith setup saved log opened }
    requires inside { D.tells → IsInside opened.flusher.file.base opened.flusher.file.offset (D.state disk.old) }
    ensures served { ServedOver opened result
        (record {
          source = record { tells = S.tells; given = S.given source.old; given_then = S.given source.new; left_then = S.left source.new };
          gives = D.Reader.gives;
          disk = view_of D.tells D.state D.faults D.syncs;
          sink = K.tells;
          clock = T.tells;
          old = disk.old;
          new = disk.new;
          taken = K.taken sink.old;
          taken_then = K.taken sink.new;
          readings = T.readings clock.old;
          readings_then = T.readings clock.new;
        })
        (record {
          tells = P.tells;
          old = P.state keep.old;
          new = P.state keep.new;
          failed = P.faults keep.old;
          failed_then = P.faults keep.new;
        }) }
    ensures outside { D.tells → StaysOutside (D.state disk.old) (D.state disk.new) }
    ensures others { P.tells → (name : List ℕ) → name ≢ OFFSETS → name ≢ TOPICS
        → (P.state keep.new).reads name ≡ (P.state keep.old).reads name }
    ensures table { FitsTable result }
    ensures cause { CountsEnd result (fault_counts (S.faults source.old) (S.faults source.new))
        (fault_counts (K.faults sink.old) (K.faults sink.new)) (fault_counts (D.faults disk.old) (D.faults disk.new))
        (fault_counts (T.faults clock.old) (T.faults clock.new)) (fault_counts (P.faults keep.old) (P.faults keep.new)) }
{
    let Opened { core, flusher } = opened;
    let mut calls = Alone::new(core);
    let mut flusher = flusher;
    let ended = serve_to_end(
        alloc,
        source,
        &mut calls,
        &mut flusher,
        disk,
        reader,
        sink,
        clock,
    );
    let core = calls.into_core();
    let kept = keep_core(alloc, &core, keep);
    status_kept(alloc, status_of(alloc, ended), kept)
}
