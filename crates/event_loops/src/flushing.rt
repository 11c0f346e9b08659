//! Who makes a flush turn. A loop makes it itself where it has one link alone, which waits for it, and no link of another loop does, so
//! that no thread has to be woken for one request. Elsewhere the flusher makes it: a loop serves nobody while the disk syncs, and what
//! came meanwhile would miss the next turn.

use crate::event_loop::{Around, EventLoop};
use link_service::{Port, Shared};
use mq_peers::Ready;
use std::alloc::Global;
use std::sync::Wait;

/// Who makes a flush turn in place of the flusher.
pub trait Flushes {
    /// Makes one flush turn, lets consumers see what it flushed, and counts it (`Shared::count_turn`). Answers whether anything was
    /// pending: the loops that wait are to be woken then.
    fn flush(&mut self, alloc: Global, shared: &Shared) -> bool;
}

/// Wakes the loops that wait for a flush turn: one was counted.
pub fn wake_waiting<P: Ready>(ports: &[Port<P>]) {
    for port in ports {
        port.turn_ended();
    }
}

// Whether a loop other than this one waits for a flush turn.
fn is_other_awaiting<P: Ready>(ports: &[Port<P>], number: usize) -> bool {
    for i in 0..ports.len() {
        if i != number && ports[i].is_awaiting() {
            return true;
        }
    }
    false
}

impl<P: Ready + Drop> EventLoop<P> {
    // Whether its only link waits for a flush turn, and nobody else does. Asked before the replies: a link whose first reply waits for
    // nothing doesn't count, and the flusher makes its turn.
    fn may_flush<W: Wait>(&self, around: &Around<'_, W, P>) -> bool {
        self.links.has_one()
            && self.links.is_awaiting()
            && !is_other_awaiting(around.ports, self.links.number)
    }

    // Makes the flush turn for what was given to the broker, or rings for the flusher. Answers whether it made one.
    pub(crate) fn flush_or_ring<W: Wait, F: Flushes>(
        &self,
        around: &Around<'_, W, P>,
        flusher: &mut F,
    ) -> bool {
        if !self.may_flush(around) || !around.shared.try_begin_turn() {
            around.shared.ring();
            return false;
        }
        if flusher.flush(around.alloc, around.shared) {
            wake_waiting(around.ports);
        }
        around.shared.end_turn();
        around.shared.rouse();
        true
    }

    // Rings for the flusher where a link still waits behind a turn that the loop made: it may have ended before the last record, or
    // had no memory.
    pub(crate) fn ring_for_rest<W: Wait>(&self, around: &Around<'_, W, P>, made: bool) {
        if made && self.links.is_awaiting() {
            around.shared.ring();
        }
    }
}
