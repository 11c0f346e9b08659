//! The broker over many links, from the core that is opened to the core that is left.

ghost use Rattle.std.specs.Prelude.{◌≡◌, ◌≢◌, ◌≤◌, ◌+◌, ℕ, List, [], ◌∷◌, length, true, false};
ghost use Rattle.std.specs.Prelude.{Some, None, IfSome, IsSome, IfOk, IfErr};
ghost use Rattle.log_model.specs.Stored.{StaysOutside};
ghost use Rattle.segment_files.specs.Turn.{IsInside};
ghost use Rattle.segment_files.specs.declared.last_file.LastFile.{LastFile};
ghost use Rattle.core_log.specs.Shows.{shown_of};
ghost use Rattle.story_lock.specs.Passes.{IsPassOf, HasSeat, HasKey, start_of, seats_of as seats_in, seen_by, mine_of, numbers_of};
ghost use Rattle.spine.specs.Seen.{shown_by};
ghost use Rattle.worker_turns.specs.Acts.{Place, change_of, place_of, view_of};
ghost use Rattle.event_loops.specs.Causes.{door_faults, loop_faults};
ghost use Rattle.event_loops.specs.Doors.{GaveAll};
ghost use Rattle.event_loops.specs.declared.event_loop.LoopEnd.TheVariants.{Done, Memory};
ghost use Rattle.flush_rounds.specs.Ways.{ArePair, put_by, taken_by};
ghost use Rattle.flush_rounds.specs.Asking.{HasNoneAsked, IsFrontOf};
ghost use Rattle.loop_threads.specs.Kept.{keep_over};
ghost use Rattle.serve_threads.specs.Loops.{AreLoops};
ghost use Rattle.serve_threads.specs.Worlds.{IsParted, Readings, readings_of};
ghost use Rattle.serve_threads.specs.Kept.{PutsAlong};
ghost use Rattle.serve_threads.specs.Links.{AreAllThatCame, AreWhole, links_over};
ghost use Rattle.serve_threads.specs.Served.{AreCut, AreMet, Meets, HasMade, IsLeft, by_thread};
ghost use Rattle.serve_threads.specs.Served.{clocks_over, views_of};
ghost use Rattle.flush_rounds.specs.Causes.{BlamesDisk};
ghost use Rattle.serve_threads.specs.Causes.{BlamesKeep, BlamesWorld, HasCauses, HasDoor, IsFirstFault};
ghost use Rattle.serve_threads.specs.Causes.{both_faults, counts_of, world_faults};

use crate::loops::Loops;
use crate::world::World;
use broker_core::Core;
use event_loops::{
    Around, Bounds, EventLoop, LoopEnd, Outside, each_link_of_a_loop_is_answered_in_order,
};
use flush_rounds::{AskWays, FlushState, LoopAsks, Timetable, Ways};
use group_flush::Flusher;
use keeper_turns::keep_core;
use link_service::Shared;
use loop_threads::{CALLERS, Keeping, Ran, Worker, run_all};
use mq_outside::{Clock, Disk, DiskFault, Keep, Reader};
use mq_peers::Ready;
use spine::{Pass, Spine, SpinePass};
use std::alloc::Global;
use std::sync::Wait;
use std::thread::Threads;
use story_lock::Story;
use worker_turns::FlushEnd;

/// What is left of a run.
#[derive(Drop)]
pub struct Served<
    P: Ready + Drop,
    K: Clock + Drop,
    D: Disk + Drop,
    R: Reader + Drop,
    E: Keep + Drop,
> {
    /// The core, once all threads have ended.
    pub core: Core,
    pub disk: D,
    /// The readers of the loops.
    pub readers: (R, R),
    pub keep: E,
    /// How the last replacement of the kept files ended.
    pub kept: Result<(), DiskFault>,
    /// Why the loops ended: the first fault, if one had any.
    pub end: LoopEnd,
    /// How the last flush turn ended.
    pub last: FlushEnd,
    /// What was around the loops.
    pub world: World<P, K>,
    /// The links that have ended, loop by loop. Where one is missing, for want of memory, none is told.
    pub ends: Option<(P::Ends, P::Ends)>,
}

// The first of two ends that is a fault, and where none is, but one loop was stopped, that. Where a link is missing there was no
// memory.
fn first_fault(whole: bool, first: LoopEnd, second: LoopEnd) -> LoopEnd
    ensures fault { IsFirstFault first second result }
    ensures whole { whole ≡ false → result ≡ Memory }
{
    if !whole {
        return LoopEnd::Memory;
    }
    match (first, second) {
        (LoopEnd::Done, _) => second,
        (LoopEnd::Stopped, LoopEnd::Done) => first,
        (LoopEnd::Stopped, _) => second,
        _ => first,
    }
}

// What the threads leave. The pass has each seat number.
struct Left<P: Ready + Drop, K: Clock + Drop, D: Disk + Drop, R: Reader + Drop, E: Keep + Drop> {
    world: World<P, K>,
    ends: Option<(P::Ends, P::Ends)>,
    end: LoopEnd,
    last: FlushEnd,
    readers: (R, R),
    disk: D,
    keep: E,
    pass: Pass,
}

/// What a run works with, besides its links and its clock.
#[derive(Drop)]
pub struct Devices<D: Disk + Drop, R: Reader + Drop, E: Keep + Drop> {
    pub flusher: Flusher,
    pub disk: D,
    /// A reader for each loop.
    pub readers: (R, R),
    pub keep: E,
}

/// What a run was to work with, where there was no memory to begin.
#[derive(Drop)]
pub struct Unserved<
    P: Ready + Drop,
    K: Clock + Drop,
    D: Disk + Drop,
    R: Reader + Drop,
    E: Keep + Drop,
> {
    pub devices: Devices<D, R, E>,
    pub world: World<P, K>,
}

// A caller for each thread.
struct Seats<'a, W: Wait> {
    flusher: SpinePass<'a, W>,
    first: SpinePass<'a, W>,
    second: SpinePass<'a, W>,
    keeper: SpinePass<'a, W>,
}

// A pass for each thread, cut from the one that has each seat number. The flusher's has the key.
fn seats_of<'a, W: Wait>(spine: &'a Spine, rt: &'a W, pass: Pass) -> Seats<'a, W>
    requires of { IsPassOf spine.now.story pass }
    requires numbers { numbers_of pass ≡ 0 ∷ 1 ∷ 2 ∷ 3 ∷ [] }
    requires first { seen_by pass ≡ [] }
    requires none_out { (shown_of (start_of spine.now.story).core).out ≡ None }
    ensures cut { AreCut spine.now.story pass
        (by_thread result.flusher.pass result.first.pass result.second.pass result.keeper.pass) }
    ensures key { IfSome result.flusher.pass (λ p. HasKey p) }
    ensures none_out { (shown_by result.flusher.pass).out ≡ None }
    ensures keeper { result.keeper.spine.now ≡ spine.now }
{
    let mut flusher = spine.seat(rt, pass);
    let first = flusher.twin();
    let second = flusher.twin();
    let keeper = flusher.twin();
    Seats {
        flusher,
        first,
        second,
        keeper,
    }
}

// What a loop leaves: its pass, its reader, what was outside it, how it ended, where check-backs came from, and itself.
fn left_of<W: Wait, P: Ready + Drop, K: Clock + Drop, R: Reader + Drop>(
    worker: Worker<P, K, SpinePass<'_, W>, R>,
) -> (Pass, R, Outside<P, K>, LoopEnd, LoopAsks, EventLoop<P>)
    ensures pass { worker.entry.calls.pass ≡ Some result.0 }
    ensures reader { result.1 ≡ worker.entry.reader }
    ensures outside { result.2 ≡ worker.entry.outside }
    ensures end { result.3 ≡ worker.entry.end }
    ensures asks { result.4 ≡ worker.entry.asks }
    ensures links { result.5.links ≡ worker.entry.event_loop.links }
{
    let Worker {
        event_loop,
        outside,
        asks,
        calls,
        reader,
        end,
    } = worker;
    (calls.leave(), reader, outside, end, asks, event_loop)
}

// How many links came in by the door of this loop.
fn came_by<P: Ready + Drop, K: Clock + Drop>(outside: &Outside<P, K>) -> u32
    ensures { IfSome outside.now.entrance (λ e. result ≡ e.came) }
{
    match &outside.entrance {
        Some(entrance) => entrance.came,
        None => 0,
    }
}

// Whether each link that came in is in one of the ledgers of both loops. No clause follows a link from loop to loop, so they are
// counted.
fn are_whole<P: Ready + Drop>(came: u32, first: &EventLoop<P>, second: &EventLoop<P>) -> bool
    ensures first { result ≡ true → (first.now.links.ledger.lost ≡ false) × (first.now.links.newest ≤ came) }
    ensures second { result ≡ true → (second.now.links.ledger.lost ≡ false) × (second.now.links.newest ≤ came) }
    ensures many { P.Ends.tells → result ≡ true → length (P.Ends.entries first.now.links.ledger.ends)
        + length (P.Ends.entries second.now.links.ledger.ends) ≡ came }
{
    if !first.is_whole(came) {
        return false;
    }
    if !second.is_whole(came) {
        return false;
    }
    match first.count_ended().checked_add(second.count_ended()) {
        Some(many) => many == u64::from(came),
        None => false,
    }
}

// The ledgers of both loops, if each link that came in is in one of them.
fn ends_of<P: Ready + Drop>(
    came: u32,
    first: EventLoop<P>,
    second: EventLoop<P>,
) -> Option<(P::Ends, P::Ends)>
    ensures { IfSome result (λ ends. AreWhole P.Ends.tells P.Ends.entries came first.links second.links ends) }
{
    if !are_whole(came, &first, &second) {
        drop(first);
        drop(second);
        return None;
    }
    Some((first.into_ends(), second.into_ends()))
}

// Compares the ends of both ways, which are in one thread again: each loop took the first of what was put on its way.
fn compare(ways: AskWays, first: LoopAsks, second: LoopAsks)
    requires pairs { ArePair ways.first first.way × ArePair ways.second second.way }
    ensures first { IsFrontOf (taken_by first.way) (put_by ways.first) }
    ensures second { IsFrontOf (taken_by second.way) (put_by ways.second) }
{
    let AskWays {
        first: mut to_first,
        second: mut to_second,
        held: _,
    } = ways;
    let LoopAsks {
        way: mut from_first,
    } = first;
    let LoopAsks {
        way: mut from_second,
    } = second;
    let _ = from_first.count_beside(&mut to_first);
    let _ = from_second.count_beside(&mut to_second);
}

// One pass of four, with the entries and the seat numbers of all.
fn together<W: Wait>(spine: &Spine, rt: &W, turns: Pass, loops: (Pass, Pass), keeper: Pass) -> Pass
    requires turns { IsPassOf spine.now.story turns × HasSeat turns }
    requires loops { IsPassOf spine.now.story loops.0 × IsPassOf spine.now.story loops.1 }
    requires keeper { IsPassOf spine.now.story keeper }
    ensures of { IsPassOf spine.now.story result }
    ensures meets { Meets turns loops.0 loops.1 keeper result }
{
    let (first, second) = loops;
    let mut pass = spine.seat(rt, turns);
    pass.learn(first);
    pass.learn(second);
    pass.learn(keeper);
    pass.leave()
}

// What the threads leave, whose passes are one again.
fn gather<
    W: Wait,
    P: Ready + Drop,
    K: Clock + Drop,
    D: Disk + Drop,
    R: Reader + Drop,
    E: Keep + Drop,
>(spine: &Spine, rt: &W, ran: Ran<P, D, K, SpinePass<'_, W>, R, E>) -> Left<P, K, D, R, E>
    requires door { HasDoor (door_faults P.Door.faults ran.first.outside.entrance) }
    requires turns { IfSome ran.flushing.calls.pass (λ p. IsPassOf spine.now.story p) }
    requires first { IfSome ran.first.calls.pass (λ p. IsPassOf spine.now.story p) }
    requires second { IfSome ran.second.calls.pass (λ p. IsPassOf spine.now.story p) }
    requires keeper { IfSome ran.keeping.calls.pass (λ p. IsPassOf spine.now.story p) }
    requires pairs { ArePair ran.flushing.ways.first ran.first.asks.way × ArePair ran.flushing.ways.second ran.second.asks.way }
    ensures fronts { IsFrontOf (taken_by ran.entry.first.asks.way) (put_by ran.entry.flushing.ways.first)
        × IsFrontOf (taken_by ran.entry.second.asks.way) (put_by ran.entry.flushing.ways.second) }
    ensures of { IsPassOf spine.now.story result.pass }
    ensures met { AreMet (by_thread ran.entry.flushing.calls.pass ran.entry.first.calls.pass ran.entry.second.calls.pass
        ran.entry.keeping.calls.pass) result.pass }
    ensures disk { result.disk ≡ ran.entry.flushing.disk }
    ensures readers { (result.readers.0 ≡ ran.entry.first.reader) × (result.readers.1 ≡ ran.entry.second.reader) }
    ensures keep { result.keep ≡ ran.entry.keeping.keep }
    ensures last { result.last ≡ ran.entry.flushing.last }
    ensures end { IsFirstFault ran.entry.first.end ran.entry.second.end result.end }
    ensures whole { result.end ≢ Memory → IsSome result.ends }
    ensures ends { (came : ℕ) × IfSome ran.entry.first.outside.entrance (λ e. came ≡ e.came)
        × IfSome result.ends (λ ends. AreWhole P.Ends.tells P.Ends.entries came
        ran.entry.first.event_loop.links ran.entry.second.event_loop.links ends) }
    ensures counts { world_faults P.faults P.Door.faults K.faults result.world ≡ both_faults
        (loop_faults P.faults P.Door.faults K.faults ran.entry.first.outside)
        (loop_faults P.faults P.Door.faults K.faults ran.entry.second.outside) }
    ensures door { IfSome ran.entry.first.outside.entrance (λ e. result.world.door ≡ e.door) }
    ensures clocks { (result.world.clocks.0 ≡ ran.entry.first.outside.clock)
        × (result.world.clocks.1 ≡ ran.entry.second.outside.clock) × (result.world.timer ≡ ran.entry.flushing.timetable.clock) }
{
    let Ran {
        flushing,
        keeping,
        first,
        second,
    } = ran;
    let FlushState {
        calls,
        flusher: _,
        disk,
        ways,
        last,
        timetable,
    } = flushing;
    let Keeping {
        calls: keeper,
        keep,
    } = keeping;
    let (first_pass, first_reader, near, first_end, first_asks, first_loop) = left_of(first);
    let (second_pass, second_reader, far, second_end, second_asks, second_loop) = left_of(second);
    compare(ways, first_asks, second_asks);
    let ends = ends_of(came_by(&near), first_loop, second_loop);
    let turns = calls.leave();
    let looks = keeper.leave();
    Left {
        world: World::join(near, far, timetable.into_clock()),
        end: first_fault(ends.is_some(), first_end, second_end),
        ends,
        last,
        readers: (first_reader, second_reader),
        disk,
        keep,
        pass: together(spine, rt, turns, (first_pass, second_pass), looks),
    }
}

// What a run was to work with, and the pass that has the key, where there was no memory for the lock of the flush turns.
fn unbegun<
    W: Wait,
    P: Ready + Drop,
    K: Clock + Drop,
    D: Disk + Drop,
    R: Reader + Drop,
    E: Keep + Drop,
>(
    state: FlushState<SpinePass<'_, W>, D, K>,
    readers: (R, R),
    keep: E,
    loops: (Outside<P, K>, Outside<P, K>),
) -> (Pass, Unserved<P, K, D, R, E>)
    requires door { HasDoor (door_faults P.Door.faults loops.0.entrance) }
    ensures pass { state.entry.calls.pass ≡ Some result.0 }
    ensures devices { result.1.devices
        ≡ record { flusher = state.entry.flusher; disk = state.entry.disk; readers = readers; keep = keep } }
    ensures world { IsParted result.1.world loops.0 loops.1 state.entry.timetable.clock }
{
    let FlushState {
        calls,
        flusher,
        disk,
        ways,
        last: _,
        timetable,
    } = state;
    drop(ways);
    let world = World::join(loops.0, loops.1, timetable.into_clock());
    let devices = Devices {
        flusher,
        disk,
        readers,
        keep,
    };
    (calls.leave(), Unserved { devices, world })
}

// Runs all threads, each with a pass of its own, the flusher with the key, and three of them with one for flush turns. In the end the
// passes are one again. At `Err` there is no memory to begin, and it gives the pass that has the key.
fn run_seated<
    W: Wait + Threads + Sync,
    P: Ready + Send + Sync + Drop,
    D: Disk + Send + Drop,
    K: Clock + Send + Drop,
    R: Reader + Send + Drop,
    E: Keep + Send + Drop,
>(
    around: &Around<'_, W, P>,
    spine: &Spine,
    pass: Pass,
    loops: (EventLoop<P>, EventLoop<P>),
    world: World<P, K>,
    bounds: Bounds,
    ways: Ways,
    devices: Devices<D, R, E>,
) -> Result<Left<P, K, D, R, E>, (Pass, Unserved<P, K, D, R, E>)>
where
    D::Reader: Send,
    requires of { IsPassOf spine.now.story pass }
    requires numbers { numbers_of pass ≡ 0 ∷ 1 ∷ 2 ∷ 3 ∷ [] }
    requires first { (seen_by pass ≡ []) × (mine_of pass ≡ []) }
    requires loops { AreLoops P.Ends.tells P.Ends.entries loops.0 loops.1 }
    requires none_out { (shown_of (start_of spine.now.story).core).out ≡ None }
    requires pairs { ArePair ways.sends.first ways.first.way × ArePair ways.sends.second ways.second.way }
    requires none_asked { HasNoneAsked ways.sends × (taken_by ways.first.way ≡ []) × (taken_by ways.second.way ≡ []) }
    requires inside { D.tells → IsInside devices.flusher.file.base devices.flusher.file.offset (D.state devices.disk) }
    ensures outside { D.tells → IfOk result (λ it. StaysOutside (D.state devices.disk) (D.state it.disk)) }
    ensures of { IfOk result (λ it. IsPassOf spine.now.story it.pass) }
    ensures made { IfOk result (λ it. HasMade (views_of (links_over P.Link.tells P.Ends.tells P.Ends.entries it.ends) R.gives
        (clocks_over K.tells (readings_of K.readings world) (readings_of K.readings it.world))
        (view_of D.tells D.state D.faults D.syncs)) (R.faults it.readers.0, R.faults it.readers.1)
        (place_of devices.flusher.file devices.disk) it.pass it.disk) }
    ensures kept { E.tells → IfOk result (λ it. PutsAlong (start_of spine.now.story).core (seen_by it.pass)
        (E.state devices.keep) (E.state it.keep)) }
    ensures whole { IfOk result (λ it. it.end ≢ Memory → IsSome it.ends) }
    ensures all { IfOk result (λ it. AreAllThatCame (P.Door.gave world.door) (P.Door.gave it.world.door)
        (links_over P.Link.tells P.Ends.tells P.Ends.entries it.ends)) }
    ensures came { IfOk result (λ it. it.end ≡ Done
        → GaveAll bounds.most (P.Door.gave world.door) (P.Door.gave it.world.door)) }
    ensures cause { IfOk result (λ it. BlamesWorld it.end (world_faults P.faults P.Door.faults K.faults world)
        (world_faults P.faults P.Door.faults K.faults it.world)) }
    ensures disk_cause { IfOk result (λ it. BlamesDisk it.last (D.faults devices.disk) (D.faults it.disk)) }
    ensures keep_grows { IfOk result (λ it. E.faults devices.keep ≤ E.faults it.keep) }
    ensures err { IfErr result (λ back. IsPassOf spine.now.story back.0 × (back.1.devices ≡ devices) × (back.1.world ≡ world)) }
{
    let Devices {
        flusher,
        disk,
        readers,
        keep,
    } = devices;
    let Seats {
        flusher: calls,
        first,
        second,
        keeper,
    } = seats_of(spine, around.rt, pass);
    let (near, far, timer) = world.part(bounds);
    let timetable = Timetable::new(timer);
    let state = FlushState {
        calls,
        flusher,
        disk,
        ways: ways.sends,
        last: FlushEnd::Idle,
        timetable,
    };
    let (lock, turns) = match Story::new(around.alloc, state, CALLERS) {
        Ok(opened) => opened,
        Err((state, _)) => {
            drop(loops);
            return Err(unbegun(state, readers, keep, (near, far)));
        }
    };
    let first = Worker {
        event_loop: loops.0,
        outside: near,
        asks: ways.first,
        calls: first,
        reader: readers.0,
        end: LoopEnd::Done,
    };
    let second = Worker {
        event_loop: loops.1,
        outside: far,
        asks: ways.second,
        calls: second,
        reader: readers.1,
        end: LoopEnd::Done,
    };
    let keeping = Keeping {
        calls: keeper,
        keep,
    };
    let ran = run_all(around, first, second, keeping, lock, turns);
    each_link_of_a_loop_is_answered_in_order::<P::Link, R>();
    Ok(gather(spine, around.rt, ran))
}

// The core is taken out of the spine, and the kept files are replaced by its texts.
fn close<
    W: Wait,
    P: Ready + Drop,
    K: Clock + Drop,
    D: Disk + Drop,
    R: Reader + Drop,
    E: Keep + Drop,
>(rt: &W, alloc: Global, spine: Spine, left: Left<P, K, D, R, E>) -> Served<P, K, D, R, E>
    requires of { IsPassOf spine.story left.pass }
    requires seats { seats_in spine.story ≡ 4 }
    ensures disk { result.disk ≡ left.disk }
    ensures left { (place : Place D) (before : E) (given : Readings)
        → HasMade (views_of (links_over P.Link.tells P.Ends.tells P.Ends.entries left.ends) R.gives
        (clocks_over K.tells given (readings_of K.readings left.world)) (view_of D.tells D.state D.faults D.syncs))
        (R.faults left.readers.0, R.faults left.readers.1) place left.pass left.disk
        → (E.tells → PutsAlong (start_of spine.story).core (seen_by left.pass) (E.state before) (E.state left.keep))
        → (file : LastFile) × IsLeft (views_of (links_over P.Link.tells P.Ends.tells P.Ends.entries left.ends) R.gives
        (clocks_over K.tells given (readings_of K.readings left.world)) (view_of D.tells D.state D.faults D.syncs))
        (R.faults left.readers.0, R.faults left.readers.1)
        (change_of (start_of spine.story).core place result.core (place_of file result.disk))
        (keep_over E.tells (E.state before) (E.state result.keep)) result.kept }
    ensures ends { (result.end ≡ left.end) × (result.last ≡ left.last) × (result.world ≡ left.world)
        × (result.ends ≡ left.ends) }
    ensures readers { result.readers ≡ left.readers }
    ensures cause { (before : ℕ) → before ≤ E.faults left.keep → BlamesKeep result.kept before (E.faults result.keep) }
{
    let Left {
        world,
        ends,
        end,
        last,
        readers,
        disk,
        mut keep,
        pass,
    } = left;
    let core = spine.close(rt, pass);
    let kept = keep_core(alloc, &core, &mut keep);
    Served {
        core,
        disk,
        readers,
        keep,
        kept,
        end,
        last,
        world,
        ends,
    }
}

/// Serves links until the door is done and all of them have ended, or a fault ends it, and flushes what is left. Meanwhile the
/// kept files follow the core, and at the end they are replaced by its texts. At `Err` there is no memory to begin.
pub fn serve<
    W: Wait + Threads + Sync,
    P: Ready + Send + Sync + Drop,
    D: Disk + Send + Drop,
    K: Clock + Send + Drop,
    R: Reader + Send + Drop,
    E: Keep + Send + Drop,
>(
    rt: &W,
    alloc: Global,
    core: Core,
    loops: Loops<P, K>,
    devices: Devices<D, R, E>,
) -> Result<Served<P, K, D, R, E>, Unserved<P, K, D, R, E>>
where
    D::Reader: Send,
    requires loops { AreLoops P.Ends.tells P.Ends.entries loops.first loops.second }
    requires none_out { (shown_of core).out ≡ None }
    requires inside { D.tells → IsInside devices.flusher.file.base devices.flusher.file.offset (D.state devices.disk) }
    ensures left { IfOk result (λ it. (file : LastFile) × IsLeft
        (views_of (links_over P.Link.tells P.Ends.tells P.Ends.entries it.ends) R.gives
        (clocks_over K.tells (readings_of K.readings loops.world) (readings_of K.readings it.world))
        (view_of D.tells D.state D.faults D.syncs)) (R.faults it.readers.0, R.faults it.readers.1)
        (change_of core (place_of devices.flusher.file devices.disk) it.core (place_of file it.disk))
        (keep_over E.tells (E.state devices.keep) (E.state it.keep)) it.kept) }
    ensures outside { D.tells → IfOk result (λ it. StaysOutside (D.state devices.disk) (D.state it.disk)) }
    ensures err { IfErr result (λ back. (back.devices ≡ devices) × (back.world ≡ loops.world)) }

    // The links that have ended are all that the door gave, unless there was no memory.
    ensures whole { IfOk result (λ it. it.end ≢ Memory → IsSome it.ends) }
    ensures all { IfOk result (λ it. AreAllThatCame (P.Door.gave loops.world.door) (P.Door.gave it.world.door)
        (links_over P.Link.tells P.Ends.tells P.Ends.entries it.ends)) }

    // Where the loops ended of themselves the door gave as many links as the bounds ask for.
    ensures came { IfOk result (λ it. it.end ≡ Done
        → GaveAll loops.bounds.most (P.Door.gave loops.world.door) (P.Door.gave it.world.door)) }

    // A fault that is told is one of a device whose count rose.
    ensures cause { IfOk result (λ it. HasCauses it.end it.last it.kept
        (counts_of (D.faults devices.disk) (E.faults devices.keep) (world_faults P.faults P.Door.faults K.faults loops.world))
        (counts_of (D.faults it.disk) (E.faults it.keep) (world_faults P.faults P.Door.faults K.faults it.world))) }
{
    let Ok(ways) = Ways::new(alloc) else {
        drop(core);
        return Err(Unserved {
            devices,
            world: loops.leave(),
        });
    };
    let (spine, pass) = match Spine::open(alloc, core, 4) {
        Ok(opened) => opened,
        Err(refused) => {
            // Let go by name, which is proved once a type, and not anew at each end of a scope.
            drop(refused);
            drop(ways);
            return Err(Unserved {
                devices,
                world: loops.leave(),
            });
        }
    };
    let shared = Shared::new();
    let Loops {
        first,
        second,
        ports,
        world,
        bounds,
    } = loops;
    let around = Around {
        rt: &*rt,
        alloc,
        shared: &shared,
        ports: ports.as_slice(),
    };
    match run_seated(
        &around,
        &spine,
        pass,
        (first, second),
        world,
        bounds,
        ways,
        devices,
    ) {
        Ok(left) => Ok(close(rt, alloc, spine, left)),
        Err((pass, back)) => {
            drop(spine.close(rt, pass));
            Err(back)
        }
    }
}
