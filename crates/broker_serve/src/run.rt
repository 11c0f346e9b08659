//! The whole run of `serve`: the words, the opening, the links, and the last flush.

ghost use Rattle.std.specs.Prelude.{◌≡◌, ◌≢◌, ◌+◌, ℕ, List, All, Some, None, IfSome, IfNone, IfOk, IfErr, codes};
ghost use Rattle.mq_outside.specs.Counts.{Counted, CountsDiskFault};
ghost use Rattle.mq_outside.specs.Disk.{Moves, Rests};
ghost use Rattle.mq_outside.specs.Files.{Same};
ghost use Rattle.log_model.specs.Log.{IsSegmentSize};
ghost use Rattle.log_model.specs.Stored.{StaysOutside};
ghost use Rattle.segment_files.specs.Turn.{IsInside};
ghost use Rattle.core_log.specs.Shows.{shown_of};
ghost use Rattle.store_open.specs.Openings.{FORMAT, IsForeign, IsOpened, own_format, store_told};
ghost use Rattle.store_open.specs.Words.{texts_of};
ghost use Rattle.store_open.specs.ServeWords.{IsServeCommand, IsFirstWrongOfServe};
ghost use Rattle.store_open.specs.Statuses.{FitsTable};
ghost use Rattle.store_open.specs.declared.format.Sizes.{Sizes as TheSizes};
ghost use Rattle.store_open.specs.declared.serve_words.ServeCommand.{ServeCommand as ACommand};
ghost use Rattle.config_store.specs.Configs.{OFFSETS, TOPICS};
ghost use Rattle.config_store.specs.Texts.{IsKeptTopic};
ghost use Rattle.group_tables.specs.Offsets.{IsOffset};
ghost use Rattle.log_opening.specs.Opens.{saved_as};
ghost use Rattle.worker_turns.specs.Acts.{view_of};
ghost use Rattle.event_loops.specs.Doors.{GaveAll};
ghost use Rattle.loop_threads.specs.Kept.{keep_over};
ghost use Rattle.serve_threads.specs.Loops.{AreLoops};
ghost use Rattle.serve_threads.specs.Worlds.{readings_of};
ghost use Rattle.serve_threads.specs.Links.{links_over};
ghost use Rattle.serve_threads.specs.Served.{clocks_over, views_of};
ghost use Rattle.serve_threads.specs.Causes.{HasCauses, ServeFaults as TheFaults, counts_of, world_faults};
ghost use Rattle.broker_serve.specs.Causes.{BlamesDoor, Causes};
ghost use Rattle.broker_serve.specs.Serves.{AllLinks, EndsOver, HasServed, IsAlike, PutsAllAlong, ServesLog, ServesStore};
ghost use Rattle.broker_serve.specs.Serves.{run_over, setup_by};
ghost use Rattle.exit_status.specs.Statuses.{TellsDevice};
ghost use Rattle.exit_status.specs.Stores.{store_over};
ghost use Rattle.broker_serve.specs.Statuses.{IsDamagedIn, IsDamagedLog, ShutOut, StatusLeft, TellsWhy, Unopened};
ghost use Rattle.broker_serve.specs.Statuses.{Unserved as UnservedBy};
ghost use Rattle.broker_serve.specs.Unserved.{ServesNobody};

use crate::statuses::{last_status, status_of_making, status_of_reader};
use broker_core::Core;
use broker_events::Setup;
use config_store::{Config, load_config};
use event_loops::Bounds;
use exit_status::{status_kept, status_of_config, status_of_fault};
use log_opening::{Opened, open_log_with};
use mq_outside::{Clock, Disk, DiskFault, Failed, Keep};
use mq_peers::{Door, Ready};
use serve_threads::{Devices, Loops, Served, Unserved, World, can_start_threads, serve};
use std::alloc::Global;
use std::sync::Wait;
use std::thread::Threads;
use store_open::{ServeCommand, Status, open_format, read_serve_words};

/// Where `serve` has its messages, and beside them its format, its offsets and its topics.
#[derive(Drop)]
pub struct Store<D: Disk + Drop, E: Keep + Drop> {
    pub disk: D,
    pub keep: E,
}

/// How a run ended.
#[derive(Drop)]
pub struct Ended<P: Ready + Drop, K: Clock + Drop, D: Disk + Drop, E: Keep + Drop> {
    /// The status, by the table of `store_open`.
    pub status: Status,
    /// The core that is left, where links were served.
    pub core: Option<Core>,
    pub store: Store<D, E>,
    pub world: World<P, K>,
    /// The links that have ended, by the loop that served them, where links were served. None is told where memory ran out.
    pub ends: Option<(P::Ends, P::Ends)>,
}

// A run that ended before links were served.
fn unserved<P: Ready + Drop, K: Clock + Drop, D: Disk + Drop, E: Keep + Drop>(
    store: Store<D, E>,
    world: World<P, K>,
    status: Status,
) -> Ended<P, K, D, E>
    ensures status { result.status ≡ status }
    ensures core { result.core ≡ None }
    ensures store { result.store ≡ store }
    ensures world { result.world ≡ world }
{
    Ended {
        status,
        core: None,
        store,
        world,
        ends: None,
    }
}

// The port at which the arguments say to listen.
fn port_of(command: &ServeCommand) -> u16 {
    let [_, _, _, _, _, _, high, low] = command.listen;
    u16::from_be_bytes([high, low])
}

// How many links the words let in.
fn bounds_of(command: &ServeCommand) -> Bounds
    ensures open { result.open ≡ command.now.links }
    ensures most { result.most ≡ command.now.connections }
{
    Bounds {
        open: command.links,
        most: command.connections,
    }
}

// A reader for each loop.
fn readers_of<D: Disk>(alloc: Global, disk: &mut D) -> Result<(D::Reader, D::Reader), DiskFault>
    ensures rests { D.tells → Rests (D.state disk.old) (D.state disk.new) }
    ensures cause { CountsDiskFault result (D.faults disk.old) (D.faults disk.new) }
    ensures syncs { D.syncs disk.new ≡ D.syncs disk.old }
{
    let one = disk.reader(alloc)?;
    match disk.reader(alloc) {
        Ok(two) => Ok((one, two)),
        Err(fault) => {
            disk.take_back(one);
            Err(fault)
        }
    }
}

// Gives the readers back to the disk.
fn give_back<D: Disk>(disk: D, readers: (D::Reader, D::Reader)) -> D
    ensures alike { IsAlike (view_of D.tells D.state D.faults D.syncs) disk result }
    ensures counted { Counted (D.Reader.faults readers.0 + D.Reader.faults readers.1) (D.reader_faults disk)
        (D.reader_faults result) }
{
    let mut disk = disk;
    let (one, two) = readers;
    disk.take_back(one);
    disk.take_back(two);
    disk
}

// The status of a run of which this is left, and the rest of it.
fn ended_of<P: Ready + Drop, K: Clock + Drop, D: Disk + Drop, E: Keep + Drop>(
    alloc: Global,
    served: Served<P, K, D, D::Reader, E>,
) -> Ended<P, K, D, E>
    ensures status { (result.status.code ≢ 1) × (result.status.code ≢ 6) × FitsTable result.status }
    ensures tells { StatusLeft result.status served.end served.last served.kept }
    ensures core { result.core ≡ Some served.core }
    ensures keep { result.store.keep ≡ served.keep }
    ensures world { result.world ≡ served.world }
    ensures ends { result.ends ≡ served.ends }
    ensures alike { IsAlike (view_of D.tells D.state D.faults D.syncs) served.disk result.store.disk }
    ensures counted { Counted (D.Reader.faults served.readers.0 + D.Reader.faults served.readers.1) (D.reader_faults served.disk)
        (D.reader_faults result.store.disk) }
    ensures cause { (before : TheFaults) → HasCauses served.end served.last served.kept before
        (counts_of (D.faults served.disk) (E.faults served.keep) (world_faults P.faults P.Door.faults K.faults served.world))
        → Causes result.status before (counts_of (D.faults result.store.disk) (E.faults result.store.keep)
        (world_faults P.faults P.Door.faults K.faults result.world)) }
{
    let Served {
        core,
        disk,
        readers,
        keep,
        kept,
        end,
        last,
        world,
        ends,
    } = served;
    Ended {
        status: status_kept(alloc, last_status(alloc, end, last), kept),
        core: Some(core),
        store: Store {
            disk: give_back(disk, readers),
            keep,
        },
        world,
        ends,
    }
}

// Serves links over an open log, and gives the readers back.
fn serve_open<
    W: Wait + Threads + Sync,
    P: Ready + Send + Sync + Drop,
    D: Disk + Send + Drop,
    K: Clock + Send + Drop,
    E: Keep + Send + Drop,
>(
    rt: &W,
    alloc: Global,
    core: Core,
    loops: Loops<P, K>,
    devices: Devices<D, D::Reader, E>,
) -> Ended<P, K, D, E>
where
    D::Reader: Send,
    requires loops { AreLoops P.Ends.tells P.Ends.entries loops.first loops.second }
    requires none_out { (shown_of core).out ≡ None }
    requires inside { D.tells → IsInside devices.flusher.file.base devices.flusher.file.offset (D.state devices.disk) }
    ensures status { (result.status.code ≢ 1) × (result.status.code ≢ 6) × FitsTable result.status }
    ensures why { IfNone result.core (result.status.code ≡ 7) }
    ensures ends { EndsOver (views_of (links_over P.Link.tells P.Ends.tells P.Ends.entries result.ends) D.Reader.gives
        (clocks_over K.tells (readings_of K.readings loops.world) (readings_of K.readings result.world))
        (view_of D.tells D.state D.faults D.syncs))
        (record { core = core; flusher = devices.flusher }) result.core
        (run_over result.status devices.disk result.store.disk D.reader_faults
        (keep_over E.tells (E.state devices.keep) (E.state result.store.keep))) }
    ensures outside { D.tells → StaysOutside (D.state devices.disk) (D.state result.store.disk) }
    ensures came { IfSome result.core (λ core. result.status.code ≡ 0
        → GaveAll loops.bounds.most (P.Door.gave loops.world.door) (P.Door.gave result.world.door)) }
    ensures links { IfSome result.core (λ core. AllLinks P.Ends.tells result.status
        (P.Door.gave loops.world.door, P.Door.gave result.world.door) (links_over P.Link.tells P.Ends.tells P.Ends.entries result.ends)) }
    ensures cause { Causes result.status
        (counts_of (D.faults devices.disk) (E.faults devices.keep) (world_faults P.faults P.Door.faults K.faults loops.world))
        (counts_of (D.faults result.store.disk) (E.faults result.store.keep) (world_faults P.faults P.Door.faults K.faults result.world)) }
{
    match serve(rt, alloc, core, loops, devices) {
        Err(refused) => {
            let Unserved { devices, world } = refused;
            let Devices {
                flusher: _,
                disk,
                readers,
                keep,
            } = devices;
            let store = Store {
                disk: give_back(disk, readers),
                keep,
            };
            unserved(store, world, Status::plain(alloc, 7))
        }
        Ok(served) => ended_of(alloc, served),
    }
}

// Makes a reader for each loop and serves links over an open log.
fn serve_loops<
    W: Wait + Threads + Sync,
    P: Ready + Send + Sync + Drop,
    D: Disk + Send + Drop,
    K: Clock + Send + Drop,
    E: Keep + Send + Drop,
>(
    rt: &W,
    alloc: Global,
    opened: Opened,
    loops: Loops<P, K>,
    store: Store<D, E>,
) -> Ended<P, K, D, E>
where
    D::Reader: Send,
    requires loops { AreLoops P.Ends.tells P.Ends.entries loops.first loops.second }
    requires none_out { (shown_of opened.core).out ≡ None }
    requires inside { D.tells → IsInside opened.flusher.file.base opened.flusher.file.offset (D.state store.disk) }
    ensures status { (result.status.code ≢ 1) × (result.status.code ≢ 6) × FitsTable result.status }
    ensures why { IfNone result.core (ShutOut result.status (D.faults store.disk) (D.faults result.store.disk)) }
    ensures ends { EndsOver (views_of (links_over P.Link.tells P.Ends.tells P.Ends.entries result.ends) D.Reader.gives
        (clocks_over K.tells (readings_of K.readings loops.world) (readings_of K.readings result.world))
        (view_of D.tells D.state D.faults D.syncs)) opened
        result.core (run_over result.status store.disk result.store.disk D.reader_faults
        (keep_over E.tells (E.state store.keep) (E.state result.store.keep))) }
    ensures outside { D.tells → StaysOutside (D.state store.disk) (D.state result.store.disk) }
    ensures came { IfSome result.core (λ core. result.status.code ≡ 0
        → GaveAll loops.bounds.most (P.Door.gave loops.world.door) (P.Door.gave result.world.door)) }
    ensures links { IfSome result.core (λ core. AllLinks P.Ends.tells result.status
        (P.Door.gave loops.world.door, P.Door.gave result.world.door) (links_over P.Link.tells P.Ends.tells P.Ends.entries result.ends)) }
    ensures cause { Causes result.status
        (counts_of (D.faults store.disk) (E.faults store.keep) (world_faults P.faults P.Door.faults K.faults loops.world))
        (counts_of (D.faults result.store.disk) (E.faults result.store.keep) (world_faults P.faults P.Door.faults K.faults result.world)) }
{
    let Store { mut disk, keep } = store;
    match readers_of(alloc, &mut disk) {
        Err(fault) => {
            // Let go by name, which is proved once a type, and not anew at each end of a scope.
            drop(opened);
            let status = status_of_reader(alloc, fault);
            unserved(Store { disk, keep }, loops.leave(), status)
        }
        Ok(readers) => {
            let Opened { core, flusher } = opened;
            let devices = Devices {
                flusher,
                disk,
                readers,
                keep,
            };
            serve_open(rt, alloc, core, loops, devices)
        }
    }
}

// Opens the door, and makes the loops. At `Err` the status tells why there are none, and the world comes back.
fn open_loops<P: Ready + Drop, K: Clock + Drop>(
    alloc: Global,
    command: &ServeCommand,
    world: World<P, K>,
) -> Result<Loops<P, K>, (Status, World<P, K>)>
    ensures loops { IfOk result (λ it. AreLoops P.Ends.tells P.Ends.entries it.first it.second) }
    ensures counts { IfOk result (λ it. world_faults P.faults P.Door.faults K.faults it.world
        ≡ world_faults P.faults P.Door.faults K.faults world) }
    ensures clocks { IfOk result (λ it. (it.world.clocks ≡ world.clocks) × (it.world.timer ≡ world.timer)) }
    ensures most { IfOk result (λ it. it.bounds.most ≡ command.now.connections) }
    ensures gave { IfOk result (λ it. P.Door.gave it.world.door ≡ P.Door.gave world.door) }
    ensures status { IfErr result (λ it. (it.0.code ≢ 1) × (it.0.code ≢ 6) × FitsTable it.0) }
    ensures tells { IfErr result (λ it. TellsDevice it.0 (codes "door")) }
    ensures cause { IfErr result (λ it. BlamesDoor it.0 (world_faults P.faults P.Door.faults K.faults world)
        (world_faults P.faults P.Door.faults K.faults it.1)) }
{
    let mut world = world;
    match world.door.open(port_of(command)) {
        Err(Failed) => Err((Status::named(alloc, 10, "door"), world)),
        Ok(()) => match Loops::new(alloc, world, bounds_of(command)) {
            Err((end, world)) => Err((status_of_making(alloc, end), world)),
            Ok(loops) => Ok(loops),
        },
    }
}

// Opens the door and serves links over an open log.
fn serve_log<
    W: Wait + Threads + Sync,
    P: Ready + Send + Sync + Drop,
    D: Disk + Send + Drop,
    K: Clock + Send + Drop,
    E: Keep + Send + Drop,
>(
    rt: &W,
    alloc: Global,
    command: &ServeCommand,
    opened: Opened,
    world: World<P, K>,
    store: Store<D, E>,
) -> Ended<P, K, D, E>
where
    D::Reader: Send,
    requires none_out { (shown_of opened.core).out ≡ None }
    requires inside { D.tells → IsInside opened.flusher.file.base opened.flusher.file.offset (D.state store.disk) }
    ensures status { (result.status.code ≢ 1) × (result.status.code ≢ 6) × FitsTable result.status }
    ensures why { IfNone result.core (ShutOut result.status (D.faults store.disk) (D.faults result.store.disk)) }
    ensures ends { EndsOver (views_of (links_over P.Link.tells P.Ends.tells P.Ends.entries result.ends) D.Reader.gives
        (clocks_over K.tells (readings_of K.readings world) (readings_of K.readings result.world))
        (view_of D.tells D.state D.faults D.syncs)) opened
        result.core (run_over result.status store.disk result.store.disk D.reader_faults
        (keep_over E.tells (E.state store.keep) (E.state result.store.keep))) }
    ensures outside { D.tells → StaysOutside (D.state store.disk) (D.state result.store.disk) }
    ensures came { IfSome result.core (λ core. result.status.code ≡ 0
        → GaveAll command.now.connections (P.Door.gave world.door) (P.Door.gave result.world.door)) }
    ensures links { IfSome result.core (λ core. AllLinks P.Ends.tells result.status
        (P.Door.gave world.door, P.Door.gave result.world.door) (links_over P.Link.tells P.Ends.tells P.Ends.entries result.ends)) }
    ensures cause { Causes result.status
        (counts_of (D.faults store.disk) (E.faults store.keep) (world_faults P.faults P.Door.faults K.faults world))
        (counts_of (D.faults result.store.disk) (E.faults result.store.keep) (world_faults P.faults P.Door.faults K.faults result.world)) }
{
    match open_loops(alloc, command, world) {
        Err((status, world)) => {
            // Let go by name, as above.
            drop(opened);
            unserved(store, world, status)
        }
        Ok(loops) => serve_loops(rt, alloc, opened, loops, store),
    }
}

// Opens the log with what is kept beside it, and serves links.
fn serve_config<
    W: Wait + Threads + Sync,
    P: Ready + Send + Sync + Drop,
    D: Disk + Send + Drop,
    K: Clock + Send + Drop,
    E: Keep + Send + Drop,
>(
    rt: &W,
    alloc: Global,
    command: &ServeCommand,
    segment: u32,
    config: Config,
    world: World<P, K>,
    store: Store<D, E>,
) -> Ended<P, K, D, E>
where
    D::Reader: Send,
    requires size { IsSegmentSize segment }
    requires offsets { All IsOffset config.offsets.items }
    requires topics { All IsKeptTopic config.topics.items }
    ensures status { (result.status.code ≢ 1) × (result.status.code ≢ 6) × FitsTable result.status }
    ensures why { IfNone result.core (Unopened (IsDamagedLog D.tells segment (D.state store.disk).reads) result.status
        (D.faults store.disk) (D.faults result.store.disk)) }
    ensures served { ServesLog (views_of (links_over P.Link.tells P.Ends.tells P.Ends.entries result.ends) D.Reader.gives
        (clocks_over K.tells (readings_of K.readings world) (readings_of K.readings result.world))
        (view_of D.tells D.state D.faults D.syncs))
        (setup_by command.now segment) (saved_as config.offsets.items config.topics.items) result.core
        (run_over result.status store.disk result.store.disk D.reader_faults
        (keep_over E.tells (E.state store.keep) (E.state result.store.keep))) }
    ensures outside { D.tells → StaysOutside (D.state store.disk) (D.state result.store.disk) }
    ensures came { IfSome result.core (λ core. result.status.code ≡ 0
        → GaveAll command.now.connections (P.Door.gave world.door) (P.Door.gave result.world.door)) }
    ensures links { IfSome result.core (λ core. AllLinks P.Ends.tells result.status
        (P.Door.gave world.door, P.Door.gave result.world.door) (links_over P.Link.tells P.Ends.tells P.Ends.entries result.ends)) }
    ensures cause { Causes result.status
        (counts_of (D.faults store.disk) (E.faults store.keep) (world_faults P.faults P.Door.faults K.faults world))
        (counts_of (D.faults result.store.disk) (E.faults result.store.keep) (world_faults P.faults P.Door.faults K.faults result.world)) }
{
    let setup = Setup {
        segment,
        host: command.host,
        sync: command.sync,
    };
    let Store { mut disk, keep } = store;
    let offsets = config.offsets.as_slice();
    let topics = config.topics.as_slice();
    match open_log_with(alloc, &mut disk, setup, offsets, topics) {
        Err(fault) => unserved(Store { disk, keep }, world, status_of_fault(alloc, fault)),
        Ok(opened) => {
            let opened = opened.with_zeros(segment, &disk);
            serve_log(rt, alloc, command, opened, world, Store { disk, keep })
        }
    }
}

// Loads the kept files, opens the log and serves links.
fn serve_store<
    W: Wait + Threads + Sync,
    P: Ready + Send + Sync + Drop,
    D: Disk + Send + Drop,
    K: Clock + Send + Drop,
    E: Keep + Send + Drop,
>(
    rt: &W,
    alloc: Global,
    command: &ServeCommand,
    segment: u32,
    world: World<P, K>,
    store: Store<D, E>,
) -> Ended<P, K, D, E>
where
    D::Reader: Send,
    requires size { IsSegmentSize segment }
    ensures status { (result.status.code ≢ 1) × (result.status.code ≢ 6) × FitsTable result.status }
    ensures why { IfNone result.core (UnservedBy
        (IsDamagedIn segment (store_told D.tells (D.state store.disk).reads E.tells (E.state store.keep).reads)) result.status
        (D.faults store.disk) (D.faults result.store.disk) (E.faults store.keep) (E.faults result.store.keep)) }
    ensures served { ServesStore (views_of (links_over P.Link.tells P.Ends.tells P.Ends.entries result.ends) D.Reader.gives
        (clocks_over K.tells (readings_of K.readings world) (readings_of K.readings result.world))
        (view_of D.tells D.state D.faults D.syncs))
        (setup_by command.now segment) result.core (run_over result.status store.disk result.store.disk D.reader_faults
        (keep_over E.tells (E.state store.keep) (E.state result.store.keep))) }
    ensures outside { D.tells → StaysOutside (D.state store.disk) (D.state result.store.disk) }
    ensures came { IfSome result.core (λ core. result.status.code ≡ 0
        → GaveAll command.now.connections (P.Door.gave world.door) (P.Door.gave result.world.door)) }
    ensures links { IfSome result.core (λ core. AllLinks P.Ends.tells result.status
        (P.Door.gave world.door, P.Door.gave result.world.door) (links_over P.Link.tells P.Ends.tells P.Ends.entries result.ends)) }
    ensures cause { Causes result.status
        (counts_of (D.faults store.disk) (E.faults store.keep) (world_faults P.faults P.Door.faults K.faults world))
        (counts_of (D.faults result.store.disk) (E.faults result.store.keep) (world_faults P.faults P.Door.faults K.faults result.world)) }
{
    let Store { disk, mut keep } = store;
    match load_config(alloc, &mut keep) {
        Err(fault) => unserved(Store { disk, keep }, world, status_of_config(alloc, fault)),
        Ok(config) => serve_config(
            rt,
            alloc,
            command,
            segment,
            config,
            world,
            Store { disk, keep },
        ),
    }
}

/// Serves links over TCP, or whatever the door gives: the words are those of the command line, `serve` the first. Each request's
/// record is on the disk before its reply is sent, unless the words say `--flush async`. Consumers resume at the offsets of the
/// kept files, which follow a few seconds behind, and are replaced at the end. It returns after as many links as
/// `--connections` says, once all of them have ended, or after a fault. Where threads can't be started it returns
/// status 9, before it asks any device.
pub fn run_serve<
    W: Wait + Threads + Sync,
    P: Ready + Send + Sync + Drop,
    D: Disk + Send + Drop,
    K: Clock + Send + Drop,
    E: Keep + Send + Drop,
>(
    rt: &W,
    alloc: Global,
    words: &[&str],
    world: World<P, K>,
    store: Store<D, E>,
) -> Ended<P, K, D, E>
where
    D::Reader: Send,
    // Status 1 comes exactly where the words are no command, with the place of the first that doesn't fit. No device is asked.
    ensures usage { result.status.code ≡ 1 → IsFirstWrongOfServe (texts_of words.now) result.status.place }
    ensures wrong { ((command : ACommand) → IsServeCommand (texts_of words.now) command → ⊥) → result.status.code ≡ 1 }
    ensures idle { result.status.code ≡ 1 → (result.store ≡ store) × (result.world ≡ world) }

    // Where links were served, they were served by the core of the log with what the kept files had. The core that is left stands
    // for one history of steps since, each of which is the flusher's, one link's or the keeper's. A loop gives the requests of each of
    // its passes to the broker at the reading that its clock gave for this pass. The disk stores the log of a state
    // that this core represents, and the kept files have texts of states of this history. From the given disk to the one that comes
    // back there is nothing but the opening, this history, and readers that are lent.
    ensures served { IfSome result.core (λ core. (command : ACommand) × (sizes : TheSizes) × (IsServeCommand (texts_of words.now) command
        × IsOpened command.sizes sizes
        (store_told D.tells (D.state store.disk).reads E.tells (E.state store.keep).reads) (E.state result.store.keep))
        × HasServed (views_of (links_over P.Link.tells P.Ends.tells P.Ends.entries result.ends) D.Reader.gives
        (clocks_over K.tells (readings_of K.readings world) (readings_of K.readings result.world))
        (view_of D.tells D.state D.faults D.syncs))
        (setup_by command sizes.segment) (run_over result.status store.disk result.store.disk D.reader_faults
        (keep_over E.tells (E.state store.keep) (E.state result.store.keep)))
        (λ start history. PutsAllAlong (own_format ((E.state store.keep).reads FORMAT) command.sizes) start history
        (E.state store.keep) (E.state result.store.keep)) core) }

    // Else what was flushed stays, whatever crashes. No device was asked, or the store or its kept files were refused and the disk is
    // as it was, or the log was not recovered, or it was opened and is what recovery keeps. Of the keep only the format of a new store
    // was written.
    ensures unserved { IfNone result.core (ServesNobody (texts_of words.now) result.status
        (store_over D.tells (D.state store.disk) (D.state result.store.disk) E.tells (E.state store.keep) (E.state result.store.keep))) }

    // Then the status tells why: the words, no threads, another's store, damage, a device that failed, or no memory.
    ensures why { IfNone result.core (TellsWhy (texts_of words.now)
        (store_told D.tells (D.state store.disk).reads E.tells (E.state store.keep).reads) result.status
        (counts_of (D.faults store.disk) (E.faults store.keep) (world_faults P.faults P.Door.faults K.faults world))
        (counts_of (D.faults result.store.disk) (E.faults result.store.keep)
        (world_faults P.faults P.Door.faults K.faults result.world))) }

    // Status 6 comes where the store is another's, with the name of what shows it. The keep stays as it is.
    ensures foreign { D.tells → E.tells → result.status.code ≡ 6 → (command : ACommand)
        × IsServeCommand (texts_of words.now) command
        × IsForeign (D.state store.disk).reads ((E.state store.keep).reads FORMAT) command.sizes result.status.name }
    ensures theirs { E.tells → result.status.code ≡ 6 → Moves Same (E.state store.keep) (E.state result.store.keep) }

    // The disk's files outside the log's folder stay. So does a format that stands, and besides the two kept files no other text of
    // the keep is touched.
    ensures outside { D.tells → StaysOutside (D.state store.disk) (D.state result.store.disk) }
    ensures stands { E.tells → (text : List ℕ) → (E.state store.keep).reads FORMAT ≡ Some text
        → (E.state result.store.keep).reads FORMAT ≡ Some text }
    ensures kept { E.tells → (name : List ℕ) → name ≢ FORMAT → name ≢ OFFSETS → name ≢ TOPICS
        → (E.state result.store.keep).reads name ≡ (E.state store.keep).reads name }

    // With status 0 the door gave as many links as the words ask for.
    ensures came { result.status.code ≡ 0 → (command : ACommand) × IsServeCommand (texts_of words.now) command
        × GaveAll command.connections (P.Door.gave world.door) (P.Door.gave result.world.door) }

    // Each link that the door gave had a number of its own, from 1 on, was served by one loop, and is among those that have ended;
    // with status 7 one may be missing, and then none is told.
    ensures links { IfSome result.core (λ core. AllLinks P.Ends.tells result.status
        (P.Door.gave world.door, P.Door.gave result.world.door) (links_over P.Link.tells P.Ends.tells P.Ends.entries result.ends)) }

    // The status has a place and a name only where the table names one. It blames a device only where the count of this one rose.
    ensures table { FitsTable result.status }
    ensures cause { Causes result.status
        (counts_of (D.faults store.disk) (E.faults store.keep) (world_faults P.faults P.Door.faults K.faults world))
        (counts_of (D.faults result.store.disk) (E.faults result.store.keep) (world_faults P.faults P.Door.faults K.faults result.world)) }
{
    let command = match read_serve_words(words) {
        Err(place) => return unserved(store, world, Status::at(alloc, 1, place)),
        Ok(command) => command,
    };
    if !can_start_threads(rt) {
        return unserved(store, world, Status::plain(alloc, 9));
    }
    let Store { mut disk, mut keep } = store;
    match open_format(alloc, &mut disk, &mut keep, &command.sizes) {
        Err(status) => unserved(Store { disk, keep }, world, status),
        Ok(sizes) => serve_store(
            rt,
            alloc,
            &command,
            sizes.segment,
            world,
            Store { disk, keep },
        ),
    }
}
