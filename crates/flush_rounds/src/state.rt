//! What a flush turn works on, as the lock keeps it.

ghost use Rattle.std.specs.Prelude.{false};

use crate::asks::AskWays;
use crate::timetable::Timetable;
use broker_core::Owner;
use group_flush::Flusher;
use mq_outside::{Clock, Disk};
use story_lock::Chronicle;
use worker_turns::FlushEnd;

/// Who takes batches out of the broker, the log's last file, the disk, the check-backs that wait for their records, and the flusher's
/// clock.
#[derive(Drop)]
pub struct FlushState<C: Owner + Drop, D: Disk + Drop, K: Clock + Drop> {
    /// It has the key.
    pub calls: C,
    pub flusher: Flusher,
    pub disk: D,
    pub ways: AskWays,
    /// How the last flush turn ended.
    pub last: FlushEnd,
    /// A turn leaves it as it is, whoever makes it.
    pub timetable: Timetable<K>,
}

// The history is of no interest: that the state was worked on from the opening on is all that a caller has to know.
impl<C: Owner + Drop, D: Disk + Drop, K: Clock + Drop> Chronicle for FlushState<C, D, K> {
    ghost use Rattle.worker_turns.specs.Acts.{view_of};
    ghost use Rattle.flush_rounds.specs.Timing.{clock_view};
    ghost use Rattle.flush_rounds.specs.Working.{Worked};

    type Event = ();

    type Said = ();

    ghost represents = { λ start log now. Worked C.makes C.has_key C.shown (view_of D.tells D.state D.faults D.syncs)
        (clock_view K.tells K.readings) start now };

    ghost keyed = { λ event said. false };
}
