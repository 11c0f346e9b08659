//! One call of `serve` over links in memory.

ghost use Rattle.std.specs.Prelude.{◌≡◌, ◌<◌, ◌^◌, [], IfOk};
ghost use Rattle.mq_outside.specs.MemSource.{HasNoEmptyPiece};

use broker_core::Core;
use broker_serve::{Ended, Store, run_serve};
use mq_outside::{Disk, MemClock, MemDisk, MemKeep, MemSink, MemSource, Room};
use mq_peers::{Calls, Link, MemDoor, MemEnds, MemLink, MemReady};
use run_tests::put_send;
use serve_threads::World;
use std::alloc::{AllocError, Global};
use std::sync::Wait;
use std::thread::Threads;

/// The log's first file.
const LOG: &str = "commitlog/00000000000000000000";

/// What the clocks of the loops say, in milliseconds.
pub(crate) const NOW: u64 = 2_000;

/// Room for a reply.
pub(crate) const ROOM: u64 = 4096;

/// How a call ended: its status, with the device that it names, how many records the core that is left has and how many of them are
/// on the disk, and how many bytes the log's first file has before the zeros that were written ahead.
#[derive(Clone, Copy, Debug, PartialEq, Eq)]
pub(crate) struct Left {
    pub(crate) code: u8,
    pub(crate) device: &'static str,
    pub(crate) records: Option<(u64, u64)>,
    pub(crate) log: usize,
}

// A piece for each byte.
fn pieces_of(alloc: Global, bytes: &[u8]) -> Result<Vec<Vec<u8>>, AllocError>
    ensures { IfOk result (λ pieces. HasNoEmptyPiece pieces.items) }
{
    let mut pieces = Vec::new(alloc);
    for byte in bytes {
        pieces.push(vec![in alloc; *byte]?)?;
    }
    Ok(pieces)
}

// A link that says one send, a byte at a time with pauses between, and then ends. It takes so many bytes, with pauses too.
fn link(alloc: Global, room: u64) -> Result<MemLink, AllocError>
    ensures given { IfOk result (λ link. ⟦<MemLink as Link>⟧.given link ≡ []) }
    ensures taken { IfOk result (λ link. ⟦<MemLink as Link>⟧.taken link ≡ []) }
    ensures faults { IfOk result (λ link. ⟦<MemLink as Link>⟧.faults link ≡ 0) }
{
    let mut bytes = Vec::new(alloc);
    put_send(&mut bytes, 2)?;
    let source = MemSource::new(alloc, pieces_of(alloc, &bytes)?, Vec::new(alloc))?;
    let sink = MemSink::new(alloc, room, 64, Vec::new(alloc))?;
    let link = MemLink::new([127, 0, 0, 1, 0, 0, 0, 9], source, sink);
    Ok(link.quiet_at(Calls::EveryOther).full_at(Calls::EveryOther))
}

/// A door with two links that say one send each, the first of which takes so many bytes. Of the door's calls these fail.
pub(crate) fn door(alloc: Global, fails: Calls, room: u64) -> Result<MemDoor<MemLink>, AllocError> {
    let mut door = MemDoor::new(alloc, fails);
    door.put(link(alloc, room)?)?;
    door.put(link(alloc, ROOM)?)?;
    Ok(door)
}

/// An empty disk, with room for the zeros that are written ahead: 64 pieces of 4 KiB.
pub(crate) fn disk(alloc: Global) -> Result<MemDisk, AllocError> {
    let room = Room {
        bytes: 1 << 20,
        files: 4,
        calls: 256,
    };
    MemDisk::new(alloc, Vec::new(alloc), room, Vec::new(alloc))
}

/// How many records a core has, and how many of them are on the disk.
pub(crate) fn records_in(core: &Core) -> (u64, u64) {
    let counts = core.counts();
    (counts.records, counts.flushed)
}

// How many of these bytes come before the zeros at their end.
fn len_before_zeros(bytes: &[u8]) -> usize {
    let mut len = 0;
    for at in 0..bytes.len() {
        if bytes[at] != 0 {
            len = at + 1;
        }
    }
    len
}

/// A disk that has one in memory below, or is one.
pub(crate) trait OverMemory {
    /// The disk in memory.
    fn below(&self) -> &MemDisk;
}

impl OverMemory for MemDisk {
    fn below(&self) -> &MemDisk {
        self
    }
}

/// The numbers of the links that ended first, of each loop.
pub(crate) type Firsts = (Option<u32>, Option<u32>);

// The number of the first link that has ended.
fn number_in<L: Link + Drop>(ends: &MemEnds<L>) -> Option<u32> {
    ends.links().first().map(|it| it.number)
}

fn firsts_of<L: Link + Send + Sync + Drop, D: Disk + Drop>(
    ended: &Ended<MemReady<L>, MemClock, D, MemKeep>,
) -> Firsts {
    match &ended.ends {
        Some((first, second)) => (number_in(first), number_in(second)),
        None => (None, None),
    }
}

fn left_of<L: Link + Send + Sync + Drop, D: Disk + OverMemory + Drop>(
    ended: &Ended<MemReady<L>, MemClock, D, MemKeep>,
) -> Left {
    Left {
        code: ended.status.code,
        device: if ended.status.name.as_str() == "door" {
            "door"
        } else {
            ""
        },
        records: ended.core.as_ref().map(|core| records_in(core)),
        log: len_before_zeros(ended.store.disk.below().bytes(LOG).unwrap_or(&[])),
    }
}

// A clock at which it is always this time.
fn clock(alloc: Global, now: u64) -> Result<MemClock, AllocError>
    requires { now < 2 ^ 62 }
{
    MemClock::new(alloc, vec![in alloc; now]?, Vec::new(alloc))
}

/// Serves the links of this door over this disk and an empty keep. For the loops it is always `NOW`, and for the flusher `timer`.
/// It is for any link and any disk, so that what a whole broker owns is dropped here, and its drop isn't proved for each kind anew.
pub(crate) fn serve_over<
    W: Wait + Threads + Sync,
    L: Link + Send + Sync + Drop,
    D: Disk + OverMemory + Send + Drop,
>(
    rt: &W,
    alloc: Global,
    words: &[&str],
    door: MemDoor<L>,
    disk: D,
    timer: u64,
) -> Result<(Left, Firsts), AllocError>
where
    D::Reader: Send,
    requires { timer < 2 ^ 62 }
{
    let world = World {
        ready: (
            MemReady::new(alloc, u64::MAX),
            MemReady::new(alloc, u64::MAX),
        ),
        clocks: (clock(alloc, NOW)?, clock(alloc, NOW)?),
        timer: clock(alloc, timer)?,
        door,
    };
    let keep = MemKeep::new(alloc, Vec::new(alloc), Vec::new(alloc))?;
    let ended = run_serve(rt, alloc, words, world, Store { disk, keep });
    let found = (left_of(&ended), firsts_of(&ended));
    drop(ended);
    Ok(found)
}
