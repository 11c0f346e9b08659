//! A disk whose first sync behind a write is held until something has happened elsewhere.

use crate::journal::{Journal, LOOKS, Note};
use crate::links::OverMemory;
use bytes::Bytes;
use mq_outside::{Disk, DiskFault, Failed, Frozen, MemDisk};
use std::alloc::Global;
use std::sync::Wait;
use std::time::Clock;

// What a sync is held by.
#[derive(Drop)]
struct Hold<'a, W: Wait + Clock> {
    journal: &'a Journal<'a, W>,
    // It is held until this was noted, and not at all where this is none.
    until: Option<Note>,
    // Whether anything was written.
    wrote: bool,
}

impl<'a, W: Wait + Clock> Hold<'a, W> {
    // Holds the first sync of what was written until it is let go. No later one is held.
    fn wait(&mut self) {
        if !self.wrote {
            return;
        }
        let Some(until) = self.until.take() else {
            return;
        };
        self.journal.note(Note::Held);
        for _ in 0..LOOKS {
            if self.journal.has(until) {
                return;
            }
            self.journal.rest();
        }
        self.journal.note(Note::Missed);
    }
}

/// A disk over another one, whose first sync behind a write is held. It tells what that one tells.
#[derive(Drop)]
pub(crate) struct HeldDisk<'a, D: Disk + Drop, W: Wait + Clock> {
    // The disk below.
    disk: D,
    hold: Hold<'a, W>,
}

impl<'a, D: Disk + Drop, W: Wait + Clock> HeldDisk<'a, D, W> {
    /// A disk whose first sync behind a write is noted and held until this is noted, but for no more than `LOOKS` looks; where there is
    /// nothing to wait for no sync is held.
    pub(crate) fn new(
        disk: D,
        journal: &'a Journal<'a, W>,
        until: Option<Note>,
    ) -> HeldDisk<'a, D, W> {
        HeldDisk {
            disk,
            hold: Hold {
                journal,
                until,
                wrote: false,
            },
        }
    }
}

impl<'a, D: Disk + Drop, W: Wait + Clock> Disk for HeldDisk<'a, D, W> {
    type Reader = D::Reader;

    ghost tells = { D.tells };

    ghost state = { λ held. D.state held.disk };

    ghost faults = { λ held. D.faults held.disk };

    ghost syncs = { λ held. D.syncs held.disk };

    ghost given = { λ held. D.given held.disk };

    ghost reader_faults = { λ held. D.reader_faults held.disk };

    ghost reads_is_image = { λ held tells. D.reads_is_image held.disk tells };

    fn fault_count(&self) -> u64 {
        self.disk.fault_count()
    }

    fn list(&mut self, alloc: Global) -> Result<Vec<String>, DiskFault> {
        self.disk.list(alloc)
    }

    fn len(&mut self, file: &str) -> Result<u64, Failed> {
        self.disk.len(file)
    }

    fn read_at(&mut self, file: &str, at: u64, out: &mut [u8]) -> Result<usize, Failed> {
        self.disk.read_at(file, at, out)
    }

    fn write_at(&mut self, file: &str, at: u64, piece: &[u8]) -> Result<(), Failed> {
        self.hold.wrote = true;
        self.disk.write_at(file, at, piece)
    }

    fn cut(&mut self, file: &str, len: u64) -> Result<(), Failed> {
        self.disk.cut(file, len)
    }

    fn sync(&mut self, file: &str) -> Result<(), Failed> {
        self.hold.wait();
        self.disk.sync(file)
    }

    fn renew(&mut self, file: &str) -> Result<(), Failed> {
        self.disk.renew(file)
    }

    fn sync_ended(&mut self, file: &str, next: &str) -> Result<(), Failed> {
        self.disk.sync_ended(file, next)
    }

    fn remove(&mut self, file: &str) -> Result<(), Failed> {
        self.disk.remove(file)
    }

    fn freeze(&mut self, base: u64, from: u64, bytes: Bytes) -> Frozen {
        self.disk.freeze(base, from, bytes)
    }

    fn freeze_stored(
        &mut self,
        alloc: Global,
        base: u64,
        from: u64,
        to: u64,
    ) -> Result<Frozen, DiskFault> {
        self.disk.freeze_stored(alloc, base, from, to)
    }

    fn reader(&mut self, alloc: Global) -> Result<D::Reader, DiskFault> {
        self.disk.reader(alloc)
    }

    fn take_back(&mut self, reader: D::Reader) {
        self.disk.take_back(reader);
    }
}

impl<'a, W: Wait + Clock> OverMemory for HeldDisk<'a, MemDisk, W> {
    fn below(&self) -> &MemDisk {
        &self.disk
    }
}
