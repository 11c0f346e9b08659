//! A peer that says its next request once it took the reply to the one before.

ghost use Rattle.std.specs.Prelude.{◌≡◌, ◌≤◌, ◌∷◌, [], length, IfSome};

use crate::journal::{Journal, LOOKS, Note};
use crate::replies::{Reply, first_frame, reply_in};
use mq_outside::Failed;
use mq_peers::{Incoming, Link};
use std::sync::Wait;
use std::time::Clock;

/// A peer is sent fewer frames than this.
const FRAMES_MAX: u32 = 16;

/// What a peer says, and when.
#[derive(Drop)]
pub(crate) struct Script {
    /// The peer's number.
    pub(crate) number: u8,
    /// It says nothing before this was noted.
    pub(crate) after: Option<Note>,
    /// What it says first.
    pub(crate) first: Vec<u8>,
    /// What it says each time that it took a reply.
    pub(crate) again: Vec<u8>,
    /// It says nothing more once it took this reply, and ends its side.
    pub(crate) last: Reply,
    /// Where this is something it ends its side no sooner than this was noted.
    pub(crate) stays: Option<Note>,
    /// Where this is something it takes no reply, and is gone once this was noted.
    pub(crate) gone: Option<Note>,
}

// A peer but for its count of failures.
#[derive(Drop)]
struct Saying<'a, W: Wait + Clock> {
    journal: &'a Journal<'a, W>,
    script: Script,
    // How often it looks for what it waits for, before it ends.
    looks: u32,
    // Whether it waits for a reply, has said anything, and has all that it wanted.
    waits: bool,
    began: bool,
    done: bool,
}

// Copies all of the piece, and answers how many bytes it has; 0 where there is no room for it.
fn copy(piece: &[u8], out: &mut [u8]) -> usize
    ensures { result ≤ length out.old }
{
    let len = piece.len();
    if out.len() < len {
        return 0;
    }
    out[..len].copy_from_slice(piece);
    len
}

impl<'a, W: Wait + Clock> Saying<'a, W> {
    // Counts a look and rests. False where it has looked too often.
    fn look(&mut self) -> bool {
        if self.looks == 0 {
            self.journal.note(Note::Missed);
            return false;
        }
        self.looks -= 1;
        self.journal.rest();
        true
    }

    // Whether this was noted, where it is something.
    fn has(&self, note: Option<Note>) -> bool {
        match note {
            Some(note) => self.journal.has(note),
            None => true,
        }
    }

    // What it says now, or nothing.
    fn piece(&self) -> &[u8] {
        if self.waits || self.done || !self.has(self.script.after) {
            &[]
        } else if self.began {
            &self.script.again
        } else {
            &self.script.first
        }
    }

    // Says what it has to say now, of so many bytes, which may be none. `None` where it has ended.
    fn say(&mut self, out: &mut [u8]) -> Option<usize>
        ensures { IfSome result (λ n. n ≤ length out.old) }
    {
        let is_over = self.done && self.has(self.script.stays);
        if is_over || !self.look() {
            return None;
        }
        let said = copy(self.piece(), out);
        if said > 0 {
            self.waits = true;
            self.began = true;
        }
        Some(said)
    }

    // Takes what it is sent.
    fn take(&mut self, piece: &[u8]) {
        let mut rest = piece;
        for _ in 0..FRAMES_MAX {
            if rest.is_empty() {
                return;
            }
            let (frame, behind) = first_frame(rest);
            self.take_frame(frame);
            rest = behind;
        }
    }

    // Takes a reply, or a check-back.
    fn take_frame(&mut self, frame: &[u8]) {
        let reply = reply_in(frame);
        self.journal.note(Note::Took(self.script.number, reply));
        self.waits = false;
        if reply == self.script.last {
            self.journal.note(Note::Done(self.script.number));
            self.done = true;
        }
    }

    // Takes no reply. False where it is gone.
    fn refuse(&mut self, gone: Note) -> bool {
        self.journal.note(Note::Full(self.script.number));
        !self.journal.has(gone) && self.look()
    }
}

/// A peer over a link in memory. It waits for no more than `LOOKS` looks, and then ends.
#[derive(Drop)]
pub(crate) struct Peer<'a, W: Wait + Clock> {
    saying: Saying<'a, W>,
    faults: u64,
}

impl<'a, W: Wait + Clock> Peer<'a, W> {
    /// A peer that has said and taken nothing.
    pub(crate) fn new(journal: &'a Journal<'a, W>, script: Script) -> Peer<'a, W>
        ensures { result.faults ≡ 0 }
    {
        Peer {
            saying: Saying {
                journal,
                script,
                looks: LOOKS,
                waits: false,
                began: false,
                done: false,
            },
            faults: 0,
        }
    }
}

impl<'a, W: Wait + Clock> Link for Peer<'a, W> {
    ghost tells = { ⊥ };

    ghost given = { λ _. [] };

    ghost left = { λ _. [] };

    ghost taken = { λ _. [] };

    ghost peer = { λ _. 127 ∷ 0 ∷ 0 ∷ 1 ∷ 0 ∷ 0 ∷ 0 ∷ 9 ∷ [] };

    ghost faults = { λ s. s.faults };

    fn read(&mut self, out: &mut [u8]) -> Result<Incoming, Failed> {
        match self.saying.say(out) {
            None => Ok(Incoming::End),
            Some(0) => Ok(Incoming::NotNow),
            Some(n) => Ok(Incoming::Bytes(n)),
        }
    }

    fn write(&mut self, piece: &[u8]) -> Result<Option<usize>, Failed> {
        let Some(gone) = self.saying.script.gone else {
            self.saying.take(piece);
            return Ok(Some(piece.len()));
        };
        if self.saying.refuse(gone) {
            return Ok(None);
        }
        self.faults = self.faults.saturating_add(1);
        Err(Failed)
    }

    fn done(&mut self) {}

    fn close(&mut self) {}

    fn peer(&self) -> [u8; 8] {
        [127, 0, 0, 1, 0, 0, 0, 9]
    }
}
