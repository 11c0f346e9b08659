//! A run over the real devices: the folder of the store, standard input and output, the machine's clock and TCP.

use crate::asked::{Target, texts_of};
use crate::descriptors::open_files_limit;
use crate::room::{LEAST_FILES, Room, limit_for, links_within, with_links};
use crate::telling::warn;
use broker_serve::Store;
use exit_status::{Scene, status_line};
use mq_bytes::Text;
use mq_folder::{FolderDisk, FolderKeep};
use mq_outside::{MachineClock, StdSink, StdSource};
use mq_peers::{TcpDoor, TcpReady};
use program_run::{Streams, run};
use serve_threads::World;
use std::alloc::{AllocError, Global};
use std::net::Ipv4Addr;
use std::sync::Wait;
use std::thread::Threads;
use store_open::{Status, Verb};

// The status where the disk failed, the one of damage, and the one where another device failed.
const DISK: u8 = 5;

const DAMAGED: u8 = 8;

const DEVICE: u8 = 10;

/// The store's devices.
pub(crate) type FolderStore = Store<FolderDisk<HostRuntime>, FolderKeep<HostRuntime>>;

// The readiness of both loops, the clocks, and the door.
type TcpWorld = World<TcpReady<HostRuntime>, MachineClock<HostRuntime>>;

// An address and its port, as the arguments write them.
fn address_text(alloc: Global, listen: &[u8; 8]) -> Result<String, AllocError> {
    let [a, b, c, d, _, _, high, low] = *listen;
    let port = u16::from_be_bytes([high, low]);
    format!(in alloc; "{a}.{b}.{c}.{d}:{port}")
}

// Why the device of the store failed that this status blames, where it says so.
fn cause_in<'a>(store: &'a FolderStore, status: &Status) -> Option<&'a str> {
    match status.code {
        DISK => store.disk.fault_text(),
        DEVICE => store.keep.fault_text(),
        _ => None,
    }
}

/// The devices of the store in this folder, to be read alone: they make nothing.
pub(crate) fn store_to_read(
    rt: HostRuntime,
    alloc: Global,
    folder: &str,
) -> Result<FolderStore, AllocError> {
    Ok(Store {
        disk: FolderDisk::for_reading(rt, String::from_str(alloc, folder)?),
        keep: FolderKeep::for_reading(rt, String::from_str(alloc, folder)?),
    })
}

/// The devices of the store in this folder. Nothing is made yet.
pub(crate) fn store_in(
    rt: HostRuntime,
    alloc: Global,
    folder: &str,
) -> Result<FolderStore, AllocError> {
    Ok(Store {
        disk: FolderDisk::new(rt, String::from_str(alloc, folder)?),
        keep: FolderKeep::new(rt, String::from_str(alloc, folder)?),
    })
}

// The world of `serve`, which listens at this address alone. `None` where the system gives nothing that waits for connections.
fn world_at(rt: HostRuntime, alloc: Global, listen: &[u8; 8]) -> Option<TcpWorld> {
    let [a, b, c, d, _, _, _, _] = *listen;
    let (Ok(one), Ok(two)) = (TcpReady::new(rt, alloc), TcpReady::new(rt, alloc)) else {
        return None;
    };
    Some(World {
        ready: (one, two),
        clocks: (MachineClock::new(rt), MachineClock::new(rt)),
        timer: MachineClock::new(rt),
        door: TcpDoor::at(rt, Ipv4Addr::new(a, b, c, d)),
    })
}

// What bounds the connections besides the arguments, as the first line of `serve` says it.
fn room_text(alloc: Global, room: Option<Room>) -> Result<String, AllocError> {
    match room {
        None => Ok(String::new(alloc)),
        Some(Room { links, limit }) => format!(in alloc;
            ", at most {links} connections, since the limit of open files is {limit}"
        ),
    }
}

// Prints what `serve` is about to do.
fn tell_start(
    rt: HostRuntime,
    alloc: Global,
    target: &Target,
    address: &str,
    room: Option<Room>,
) -> Result<(), AllocError> {
    if target.verb == Verb::Serve {
        let store = target.store;
        let bound = room_text(alloc, room)?;
        let bound = bound.as_str();
        warn(
            rt,
            format!(in alloc;
                "mq_broker: opening store {store}, will serve on {address}{bound}"
            )?.as_str(),
        );
    }
    Ok(())
}

// Prints how the run ended: nothing of a run of `pipe` with status 0.
fn tell_end(
    rt: HostRuntime,
    alloc: Global,
    verb: Verb,
    status: &Status,
    scene: &Scene,
) -> Result<(), AllocError> {
    if status.code != 0 {
        warn(rt, status_line(alloc, status, scene)?.as_str());
    } else if verb == Verb::Serve {
        warn(rt, "mq_broker: serve ended (status 0)");
    }
    Ok(())
}

// The status where the system gives nothing that waits for connections.
fn no_world(alloc: Global) -> Result<Status, AllocError> {
    Ok(Status {
        code: DEVICE,
        place: 0,
        name: Text::of(String::from_str(alloc, "poll")?),
    })
}

// Prints how the log is damaged, and answers the status of damage: the model knows only of a disk that failed.
fn tell_damage(rt: HostRuntime, alloc: Global, damage: &str) -> Result<u8, AllocError> {
    let line = format!(in alloc; "mq_broker: {damage}")?;
    warn(rt, line.as_str());
    Ok(DAMAGED)
}

// Prints that another process has the store, and answers the exit status: no disk failed.
fn tell_taken(rt: HostRuntime, alloc: Global, cause: &str) -> Result<u8, AllocError> {
    let line = format!(in alloc;
        "mq_broker: {cause} (status 5): end it, then run again; what was answered is stored"
    )?;
    warn(rt, line.as_str());
    Ok(DISK)
}

/// Prints how a run in this folder ended, whose devices these are, and answers the exit status.
pub(crate) fn tell_run<'a>(
    rt: HostRuntime,
    alloc: Global,
    verb: Verb,
    folder: &'a str,
    address: &'a str,
    store: &'a FolderStore,
    status: &Status,
) -> Result<u8, AllocError> {
    if status.code == DISK
        && let Some(damage) = store.disk.damage()
    {
        return tell_damage(rt, alloc, damage);
    }
    let cause = cause_in(store, status);
    if let Some(text) = cause
        && text.ends_with("another process has the store")
    {
        return tell_taken(rt, alloc, text);
    }
    let scene = Scene {
        store: folder,
        address,
        cause,
    };
    tell_end(rt, alloc, verb, status, &scene)?;
    Ok(status.code)
}

// Prints that the system gives nothing that waits for connections, and answers the exit status.
fn tell_no_world<'a>(
    rt: HostRuntime,
    alloc: Global,
    verb: Verb,
    folder: &'a str,
    address: &'a str,
) -> Result<u8, AllocError> {
    let status = no_world(alloc)?;
    let scene = Scene {
        store: folder,
        address,
        cause: None,
    };
    tell_end(rt, alloc, verb, &status, &scene)?;
    Ok(status.code)
}

// Prints that too few files may be open to serve, and answers the exit status.
fn tell_few_files(
    rt: HostRuntime,
    alloc: Global,
    limit: u64,
    links: u32,
) -> Result<u8, AllocError> {
    let wanted = limit_for(links);
    let line = format!(in alloc;
        "mq_broker: the limit of open files is {limit} (status 10): \
         raise it, by ulimit -n {wanted} for {links} connections; nothing was made"
    )?;
    warn(rt, line.as_str());
    Ok(DEVICE)
}

// Runs as these arguments say, over the real devices, and answers the exit status. They are those of this target, with as many
// connections as there is room for.
fn run_within<W: Wait + Threads + Sync>(
    threads: &W,
    rt: HostRuntime,
    alloc: Global,
    words: &[&str],
    target: &Target,
    room: Option<Room>,
) -> Result<u8, AllocError> {
    let text = address_text(alloc, &target.listen)?;
    let address = text.as_str();
    let Some(world) = world_at(rt, alloc, &target.listen) else {
        return tell_no_world(rt, alloc, target.verb, target.store, address);
    };
    let store = store_in(rt, alloc, target.store)?;
    let streams = Streams {
        source: StdSource::new(rt),
        sink: StdSink::new(rt),
    };
    tell_start(rt, alloc, target, address, room)?;
    let mut ended = run(threads, alloc, words, streams, world, store).ended;
    let code = tell_run(
        rt,
        alloc,
        target.verb,
        target.store,
        address,
        &ended.store,
        &ended.status,
    )?;
    if code == 0 {
        ended.store.disk.end_in_order();
    }
    Ok(code)
}

/// Runs as the arguments ask, over the real devices, and answers the exit status. These are the arguments of this target. `serve`
/// has no more connections than the limit of open files leaves.
pub(crate) fn run_target<W: Wait + Threads + Sync>(
    threads: &W,
    rt: HostRuntime,
    alloc: Global,
    words: &[&str],
    target: &Target,
) -> Result<u8, AllocError> {
    let (Some(asked), Some(limit)) = (target.links, open_files_limit()) else {
        return run_within(threads, rt, alloc, words, target, None);
    };
    if limit < LEAST_FILES {
        return tell_few_files(rt, alloc, limit, asked);
    }
    let links = links_within(asked, limit);
    if links == u64::from(asked) {
        return run_within(threads, rt, alloc, words, target, None);
    }
    let lowered = with_links(alloc, words, links)?;
    let texts = texts_of(alloc, lowered.as_slice())?;
    let room = Some(Room { links, limit });
    run_within(threads, rt, alloc, texts.as_slice(), target, room)
}
