//! What the disk and the peers of a run note, in one order, so that each can wait for what another one did.

use crate::replies::Reply;
use std::alloc::Global;
use std::sync::{Mutex, Wait};
use std::thread;
use std::time::{Clock, Duration};

/// So often a device looks for what it waits for, with a rest between. It takes a few tens of looks where others go on.
pub(crate) const LOOKS: u32 = 5_000;

const REST_MILLIS: u64 = 1;

/// Something that happened outside of the broker. A peer is named by its number.
#[derive(Clone, Copy, Debug, PartialEq, Eq)]
pub(crate) enum Note {
    /// The disk's first sync behind a write was asked for, and is held.
    Held,
    /// The peer takes none of a reply.
    Full(u8),
    /// The peer took this reply.
    Took(u8, Reply),
    /// The peer has all that it wanted, and ends its side.
    Done(u8),
    /// What a device waited for has not come, and it goes on without.
    Missed,
}

/// What has happened, each thing where it happened first.
#[derive(Drop)]
pub(crate) struct Journal<'a, W: Wait + Clock> {
    rt: &'a W,
    notes: Mutex<Vec<Note>>,
}

impl<'a, W: Wait + Clock> Journal<'a, W> {
    /// Nothing has happened.
    pub(crate) fn new(rt: &'a W, alloc: Global) -> Journal<'a, W> {
        Journal {
            rt,
            notes: Mutex::new(Vec::new(alloc)),
        }
    }

    /// Notes that this has happened. Where there is no memory it isn't noted.
    pub(crate) fn note(&self, note: Note) {
        let mut notes = self.notes.lock(self.rt);
        if !notes.contains(&note) {
            let _ = notes.push(note);
        }
    }

    /// Whether this has happened.
    pub(crate) fn has(&self, note: Note) -> bool {
        self.notes.lock(self.rt).contains(&note)
    }

    /// Lets others go on for a while.
    pub(crate) fn rest(&self) {
        thread::sleep(self.rt, Duration::from_millis(REST_MILLIS));
    }

    /// What has happened, in order.
    pub(crate) fn into_notes(self) -> Vec<Note> {
        let Journal { rt: _, notes } = self;
        notes.into_inner()
    }
}
