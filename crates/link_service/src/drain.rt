//! How a link ends whose stream is no frame. Once its replies have left it is shut for writing, so that its peer sees
//! the end, and then it is read on for a while. To close it at once would reset it where its peer had said more, and
//! replies on their way would be lost.

ghost use Rattle.std.specs.Prelude.{◌≡◌, []};
ghost use Rattle.link_service.specs.Transcripts.{WentOnUnread, seen_of};

use crate::linked::Linked;
use mq_peers::Link;

/// Once so many bytes of a garbled link were read on it is closed.
const DRAIN_BYTES: u64 = 1 << 20;

/// It is read on for so many milliseconds at most, by the clock of its loop.
const DRAIN_MILLIS: u64 = 2_000;

impl<L: Link + Drop> Linked<L> {
    /// Whether it is read on until a time has passed, so that its loop has to look at the clock.
    pub fn is_timed(&self) -> bool {
        !self.broken && !self.deaf && self.drained_since.is_some()
    }

    // Whether it can be shut or read on at once.
    pub(crate) fn may_drain(&self) -> bool {
        self.has_left() && (self.readable || self.drained_since.is_none())
    }

    // Whether it was read on as far as it is to be. A clock that fell ends it too.
    fn is_drained(&self, now: u64) -> bool {
        let Some(since) = self.drained_since else {
            return false;
        };
        let (_, held) = self.session.rest();
        held >= self.drained_to || now < since || now - since >= DRAIN_MILLIS
    }

    // Whether all that is due to it has left, and nothing says that it is over.
    fn has_left(&self) -> bool {
        !self.deaf && self.is_settled()
    }

    // Shuts it for writing, once, and notes how far it is to be read on from now.
    fn shut(&mut self, now: u64)
        ensures went { WentOnUnread L.tells (seen_of L.given L.taken self.old) [] (seen_of L.given L.taken self.new) }
    {
        if self.drained_since.is_some() {
            return;
        }
        let (_, held) = self.session.rest();
        self.link.done();
        self.drained_since = Some(now);
        self.drained_to = held.saturating_add(DRAIN_BYTES);
    }

    /// One pass of a garbled link: nothing while replies are left to be sent, then it is shut, and read on. Nothing of
    /// what it says is served.
    pub(crate) fn drain(&mut self, buffer: &mut [u8], now: u64)
        ensures went { WentOnUnread L.tells (seen_of L.given L.taken self.old) [] (seen_of L.given L.taken self.new) }
    {
        if !self.has_left() {
            return;
        }
        self.shut(now);
        self.read(buffer);
        self.deaf |= self.is_drained(now);
    }
}
