//! What is done on the state while one has it: flush turns, each one write and one sync for all that is pending; and between them
//! deliveries of delayed messages, checks of half messages, and check-backs for the loops.

ghost use Rattle.std.specs.Prelude.{◌≡◌, None, true};
ghost use Rattle.worker_turns.specs.declared.flush.FlushEnd.TheVariants.{Idle};
ghost use Rattle.segment_files.specs.Turn.{IsInside};
ghost use Rattle.worker_turns.specs.Acts.{view_of};
ghost use Rattle.worker_turns.specs.Turning.{IsDispatch};
ghost use Rattle.flush_rounds.specs.Timing.{clock_view};
ghost use Rattle.flush_rounds.specs.Working.{IsReady, Worked};

use crate::state::FlushState;
use broker_core::Owner;
use broker_events::Calls;
use event_loops::{Around, wake_waiting};
use link_service::Shared;
use mq_outside::{Clock, Disk};
use mq_peers::Ready;
use std::alloc::Global;
use std::sync::Wait;
use worker_turns::{FlushEnd, dispatch_turn, flush_turn};

// Lets consumers see what is flushed. Answers how many records they see.
fn show<C: Calls>(alloc: Global, calls: &mut C) -> u64
    requires key { C.has_key calls.old }
    requires none_out { (C.shown calls.old).out ≡ None }
    ensures key { C.has_key calls.new }
    ensures none_out { (C.shown calls.new).out ≡ None }
    ensures made { IsDispatch C.makes calls.old calls.new }
{
    dispatch_turn(alloc, calls, u32::MAX)
}

/// Whether nothing was pending.
pub(crate) fn is_idle(end: FlushEnd) -> bool
    ensures { result ≡ true → end ≡ Idle }
{
    matches!(end, FlushEnd::Idle)
}

// The number below which all records are flushed, where consumers see so many behind a turn that ended like this. Where it left its
// batch pending, any record may have been held by it.
fn flushed_by(end: FlushEnd, seen: u64) -> u64 {
    match end {
        FlushEnd::Idle | FlushEnd::Done => seen,
        FlushEnd::Failed(_) | FlushEnd::Misplaced | FlushEnd::Memory => u64::MAX,
    }
}

impl<C: Owner + Drop, D: Disk + Drop, K: Clock + Drop> FlushState<C, D, K> {
    // Makes one flush turn. Where something was pending it lets consumers see what is flushed, and counts the turn, so that turns are
    // counted in the order in which they are made. Answers how it ended.
    pub(crate) fn turn(&mut self, alloc: Global, shared: &Shared) -> FlushEnd
        requires { IsReady C.has_key C.shown (view_of D.tells D.state D.faults D.syncs) self.old }
        ensures { Worked C.makes C.has_key C.shown (view_of D.tells D.state D.faults D.syncs) (clock_view K.tells K.readings)
            self.old self.new }
    {
        let end = flush_turn(alloc, &mut self.calls, &mut self.flusher, &mut self.disk);
        self.last = end;
        if is_idle(end) {
            return end;
        }
        let seen = show(alloc, &mut self.calls);
        shared.count_turn(flushed_by(end, seen));
        end
    }

    // Makes flush turns until nothing is pending or one fails, and after each wakes the loops that wait for it. Answers how the last one
    // ended.
    pub(crate) fn flush_all<W: Wait, P: Ready>(&mut self, around: &Around<'_, W, P>) -> FlushEnd
        requires { IsReady C.has_key C.shown (view_of D.tells D.state D.faults D.syncs) self.old }
        ensures { Worked C.makes C.has_key C.shown (view_of D.tells D.state D.faults D.syncs) (clock_view K.tells K.readings)
            self.old self.new }
    {
        for _ in around.rt.forever() {
            let end = self.turn(around.alloc, around.shared);
            if is_idle(end) {
                return end;
            }
            wake_waiting(around.ports);
            if end != FlushEnd::Done {
                return end;
            }
        }
        unreachable!()
    }

    // Sends the check-backs whose records are flushed, and delivers and checks what is due, where the last flush turn ended like this.
    // Answers how many milliseconds the flusher may sleep then.
    pub(crate) fn attend<W: Wait, P: Ready>(
        &mut self,
        around: &Around<'_, W, P>,
        end: FlushEnd,
    ) -> Option<u64>
        requires key { C.has_key self.old.calls }
        requires none_out { (C.shown self.old.calls).out ≡ None }
        requires inside { D.tells → IsInside self.old.flusher.file.base self.old.flusher.file.offset (D.state self.old.disk) }
        ensures { Worked C.makes C.has_key C.shown (view_of D.tells D.state D.faults D.syncs) (clock_view K.tells K.readings)
            self.old self.new }
    {
        self.ways
            .hand_out(around.alloc, &mut self.calls, around.ports);
        self.timetable.work(
            around.alloc,
            &mut self.calls,
            &mut self.ways,
            end,
            around.shared.turns(),
        )
    }

    // One round: flush turns until nothing is pending or one fails, and then, unless it is the last round, what is due. Answers how many
    // milliseconds the flusher may sleep then. What was pending when a turn failed is tried again in the next round.
    pub(crate) fn round<W: Wait, P: Ready>(
        &mut self,
        around: &Around<'_, W, P>,
        is_last: bool,
    ) -> Option<u64>
        requires { IsReady C.has_key C.shown (view_of D.tells D.state D.faults D.syncs) self.old }
        ensures { Worked C.makes C.has_key C.shown (view_of D.tells D.state D.faults D.syncs) (clock_view K.tells K.readings)
            self.old self.new }
    {
        let end = self.flush_all(around);
        if is_last {
            return None;
        }
        self.attend(around, end)
    }
}
