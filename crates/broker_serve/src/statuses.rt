//! The statuses that `serve` alone has.

ghost use Rattle.std.specs.Prelude.{◌≡◌, ◌≢◌};
ghost use Rattle.store_open.specs.Statuses.{FitsTable};
ghost use Rattle.broker_serve.specs.Causes.{StatusTellsMaking};
ghost use Rattle.broker_serve.specs.Statuses.{StatusTellsEnd, StatusTellsLoops, StatusTellsReader};

use event_loops::LoopEnd;
use mq_outside::DiskFault;
use std::alloc::Global;
use store_open::Status;
use worker_turns::FlushEnd;

// The status of a reader that could not be made.
pub(crate) fn status_of_reader(alloc: Global, fault: DiskFault) -> Status
    ensures tells { StatusTellsReader result fault }
    ensures status { (result.code ≢ 1) × (result.code ≢ 6) × FitsTable result }
{
    match fault {
        DiskFault::Failed => Status::plain(alloc, 5),
        DiskFault::Memory => Status::plain(alloc, 7),
    }
}

// The status of loops that could not be made.
pub(crate) fn status_of_making(alloc: Global, end: LoopEnd) -> Status
    ensures tells { StatusTellsMaking result end }
    ensures status { (result.code ≢ 1) × (result.code ≢ 6) × FitsTable result }
{
    match end {
        LoopEnd::Memory => Status::plain(alloc, 7),
        LoopEnd::Done | LoopEnd::Stopped | LoopEnd::Clock | LoopEnd::Door | LoopEnd::Poll => {
            Status::named(alloc, 10, "door")
        }
    }
}

// The status of why the loops ended, with this code where they ended of themselves. Loops that were all stopped by others, which no
// clause excludes, are told as want of memory.
fn status_of_loops(alloc: Global, end: LoopEnd, code: u8) -> Status
    requires { (code ≢ 1) × (code ≢ 6) }
    ensures tells { StatusTellsLoops code result end }
    ensures status { (result.code ≢ 1) × (result.code ≢ 6) × FitsTable result }
{
    match end {
        LoopEnd::Done => Status::plain(alloc, code),
        LoopEnd::Clock => Status::named(alloc, 10, "clock"),
        LoopEnd::Door | LoopEnd::Poll => Status::named(alloc, 10, "door"),
        LoopEnd::Stopped | LoopEnd::Memory => Status::plain(alloc, 7),
    }
}

// The status of loops that ended like this, where the last flush turn ended like that.
pub(crate) fn last_status(alloc: Global, end: LoopEnd, last: FlushEnd) -> Status
    ensures tells { StatusTellsEnd result end last }
    ensures status { (result.code ≢ 1) × (result.code ≢ 6) × FitsTable result }
{
    match last {
        FlushEnd::Idle | FlushEnd::Done => status_of_loops(alloc, end, 0),
        FlushEnd::Failed(_) => status_of_loops(alloc, end, 5),
        FlushEnd::Misplaced | FlushEnd::Memory => Status::plain(alloc, 7),
    }
}
