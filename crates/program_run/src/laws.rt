//! What a call of `pipe` answered with 0 stands on the disk, whatever crashes.

ghost use Rattle.std.specs.Prelude.{List, ℕ};
ghost use Rattle.worker_turns.specs.Acts.{view_of};
ghost use Rattle.store_open.specs.declared.status.Status.{Status};
ghost use Rattle.program_run.specs.Stand.{AnswersAreKept};

use mq_outside::{Clock, Disk, Keep, Sink, Source};

/// Each message that a call of `pipe` answered with 0 once it was on the disk stands there, from a moment of the call on: whatever
/// crashes, its record is at the place that the reply names, and recovery keeps it. The devices are those before the call, and behind
/// it.
pub fn answered_sends_stand<S: Source, K: Sink, D: Disk, P: Keep, T: Clock>(
    source: &S,
    source_then: &S,
    sink: &K,
    sink_then: &K,
    disk: &D,
    disk_then: &D,
    keep: &P,
    keep_then: &P,
    clock: &T,
    clock_then: &T,
)
    ensures { (words : List (List ℕ)) (status : Status) → AnswersAreKept words status
        (record {
          source = record {
            tells = S.tells;
            given = S.given source.now;
            given_then = S.given source_then.now;
            left_then = S.left source_then.now;
          };
          gives = D.Reader.gives;
          disk = view_of D.tells D.state D.faults D.syncs;
          sink = K.tells;
          clock = T.tells;
          old = disk.now;
          new = disk_then.now;
          taken = K.taken sink.now;
          taken_then = K.taken sink_then.now;
          readings = T.readings clock.now;
          readings_then = T.readings clock_then.now;
        })
        (record {
          tells = P.tells;
          old = P.state keep.now;
          new = P.state keep_then.now;
          failed = P.faults keep.now;
          failed_then = P.faults keep_then.now;
        }) }
{}
