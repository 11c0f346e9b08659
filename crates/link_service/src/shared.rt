//! What the threads of a running broker see of each other: who sleeps, what has ended, and links on their way to a loop.

ghost use Rattle.std.specs.Prelude.{◌≡◌, []};

use mq_peers::{Link, Ready, Wake};
use std::alloc::Global;
use std::collections::VecDeque;
use std::sync::atomic::{AtomicU64, Ordering};
use std::sync::{Mutex, Wait};
use std::thread::Parker;
use std::time::Duration;

/// A link that was let in, with its number. It has given and taken nothing yet.
#[derive(Drop)]
pub struct NewLink<L: Link + Drop> {
    pub number: u32,
    pub link: L,
    pub ghost given: { L.tells → L.given link ≡ [] },
    pub ghost taken: { L.tells → L.taken link ≡ [] },
}

/// A loop, as the other threads see it.
#[derive(Drop)]
pub struct Port<P: Ready> {
    inbox: Mutex<VecDeque<NewLink<P::Link>>>,
    // 1 while the loop waits for a flush turn.
    awaits: AtomicU64,
    waker: P::Waker,
}

impl<P: Ready> Port<P> {
    /// A loop that these wakes reach.
    pub fn new(alloc: Global, waker: P::Waker) -> Port<P> {
        Port {
            inbox: Mutex::new(VecDeque::new(alloc)),
            awaits: AtomicU64::new(0),
            waker,
        }
    }

    /// Hands a link over. Answers whether it did: where there is no memory for it, it is dropped, which closes it.
    pub fn hand_over<R: Wait>(&self, rt: &R, link: NewLink<P::Link>) -> bool {
        let is_there = self.inbox.lock(rt).push_back(link).is_ok();
        self.waker.wake();
        is_there
    }

    /// The next link that was handed over.
    pub fn take<R: Wait>(&self, rt: &R) -> Option<NewLink<P::Link>> {
        self.inbox.lock(rt).pop_front()
    }

    /// Whether no link is on its way to the loop.
    pub fn is_empty<R: Wait>(&self, rt: &R) -> bool {
        self.inbox.lock(rt).is_empty()
    }

    /// From now on the end of a flush turn wakes the loop.
    pub fn await_turn(&self) {
        self.awaits.store(1, Ordering::SeqCst);
    }

    /// Whether the loop waits for a flush turn.
    pub fn is_awaiting(&self) -> bool {
        self.awaits.load(Ordering::SeqCst) == 1
    }

    /// A flush turn has ended: wakes the loop if it waits for one.
    pub fn turn_ended(&self) {
        if self.awaits.swap(0, Ordering::SeqCst) == 1 {
            self.waker.wake();
        }
    }

    /// Wakes the loop.
    pub fn wake(&self) {
        self.waker.wake();
    }
}

/// What all threads share.
#[derive(Drop)]
pub struct Shared {
    // What the flusher sleeps on, and 1 while it sleeps for long.
    bell: Parker,
    dozes: AtomicU64,
    // How many threads are at a flush turn, or wait to be.
    turning: AtomicU64,
    // How many flush turns have ended.
    turns: AtomicU64,
    // A record that isn't below this number waits for another turn. A hint: it is at its maximum where none is known to.
    flushed: AtomicU64,
    // 1 once the loops are to end, and once they have.
    ending: AtomicU64,
    over: AtomicU64,
    // 1 once no further link is let in.
    closed: AtomicU64,
    // How many links were let in and have not ended.
    open: AtomicU64,
    // 1 once a link has ended, until the door was asked again.
    retry: AtomicU64,
}

impl Shared {
    pub fn new() -> Shared {
        Shared {
            bell: Parker::new(),
            dozes: AtomicU64::new(0),
            turning: AtomicU64::new(0),
            turns: AtomicU64::new(0),
            flushed: AtomicU64::new(u64::MAX),
            ending: AtomicU64::new(0),
            over: AtomicU64::new(0),
            closed: AtomicU64::new(0),
            open: AtomicU64::new(0),
            retry: AtomicU64::new(0),
        }
    }

    /// Something is pending: the flusher makes a turn.
    pub fn ring(&self) {
        self.bell.unpark();
    }

    /// Sleeps until something is pending, or so many milliseconds have passed.
    pub fn sleep<R: Wait>(&self, rt: &R, most: Option<u64>) {
        match most {
            Some(millis) => self.bell.park_timeout(rt, Duration::from_millis(millis)),
            None => self.bell.park(rt),
        }
    }

    /// The same, where the flusher may sleep for long. It looks from time to time what is due, and knows nothing of the turns that loops
    /// make while it sleeps: so it doesn't sleep if more turns have ended than these, and the first one that a loop makes then wakes
    /// it.
    pub fn sleep_long<R: Wait>(&self, rt: &R, most: Option<u64>, turns: u64) {
        self.dozes.store(1, Ordering::SeqCst);
        // Looked at once a turn's end would wake it, so that no end falls between.
        if self.turns() == turns {
            self.sleep(rt, most);
        }
        self.dozes.store(0, Ordering::SeqCst);
    }

    /// Wakes the flusher if it sleeps for long: a loop has made a flush turn.
    pub fn rouse(&self) {
        if self.dozes.swap(0, Ordering::SeqCst) == 1 {
            self.bell.unpark();
        }
    }

    /// The flusher is at a flush turn now, or waits to be. That somebody is at one is a hint, by which no loop waits for another's
    /// sync: what the turns share has a lock of its own, which keeps them in order.
    pub fn begin_turn(&self) {
        self.turning.fetch_add(1, Ordering::SeqCst);
    }

    /// A loop is at a flush turn now, if nobody else is. Answers whether it is.
    pub fn try_begin_turn(&self) -> bool {
        self.turning
            .compare_exchange(0, 1, Ordering::SeqCst, Ordering::SeqCst)
            .is_ok()
    }

    /// Whoever was at a flush turn isn't any more.
    pub fn end_turn(&self) {
        self.turning.fetch_sub(1, Ordering::SeqCst);
    }

    /// How many flush turns have ended, up to overflow.
    pub fn turns(&self) -> u64 {
        self.turns.load(Ordering::SeqCst)
    }

    /// One more flush turn has ended. From now on each record that isn't below `flushed` waits for a later one; it is `u64::MAX` where
    /// that isn't known, as after a turn that failed.
    pub fn count_turn(&self, flushed: u64) {
        self.flushed.store(flushed, Ordering::SeqCst);
        // Last: a loop that knows of the turn knows how it ended.
        self.turns.fetch_add(1, Ordering::SeqCst);
    }

    /// A record that isn't below this number waits for a flush turn that has not ended yet. Before the first one none is known to.
    pub fn flushed(&self) -> u64 {
        self.flushed.load(Ordering::SeqCst)
    }

    /// How many links were let in and have not ended.
    pub fn open_links(&self) -> u64 {
        self.open.load(Ordering::SeqCst)
    }

    /// A link was let in.
    pub fn link_opened(&self) {
        self.open.fetch_add(1, Ordering::SeqCst);
    }

    /// A link has ended, so that the door may let in another.
    pub fn link_ended(&self) {
        self.open.fetch_sub(1, Ordering::SeqCst);
        self.retry.store(1, Ordering::SeqCst);
    }

    /// Whether a link has ended since this was asked.
    pub fn take_retry(&self) -> bool {
        self.retry.swap(0, Ordering::SeqCst) == 1
    }

    /// No further link is let in.
    pub fn close(&self) {
        self.closed.store(1, Ordering::SeqCst);
    }

    /// Whether no further link is let in.
    pub fn is_closed(&self) -> bool {
        self.closed.load(Ordering::SeqCst) == 1
    }

    /// The loops are to end.
    pub fn end(&self) {
        self.ending.store(1, Ordering::SeqCst);
    }

    /// Whether the loops are to end.
    pub fn is_ending(&self) -> bool {
        self.ending.load(Ordering::SeqCst) == 1
    }

    /// The loops have ended: the flusher makes its last turns.
    pub fn loops_ended(&self) {
        self.over.store(1, Ordering::SeqCst);
        self.ring();
    }

    /// Whether the loops have ended.
    pub fn is_over(&self) -> bool {
        self.over.load(Ordering::SeqCst) == 1
    }
}
