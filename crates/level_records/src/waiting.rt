//! The messages of one level that are to be delivered, in their order.

ghost use Rattle.std.specs.Prelude.{◌≡◌, ◌<◌, ◌≤◌, ◌+◌, [], slice_get, option_map, OnOk};
ghost use Rattle.level_records.specs.Lines.{with_room, with_message, without_first};

use record_copies::Whole;
use std::alloc::{AllocError, Global};
use std::collections::VecDeque;
use std::marker::Model;

/// Messages, the next one first.
#[derive(Drop)]
pub struct Waiting {
    messages: VecDeque<Whole>,
}

impl Model for Waiting {
    ghost use Rattle.level_records.specs.Lines.{Line};

    ghost Value = { Line };

    ghost use Rattle.std.specs.Prelude.{◌-◌};
    ghost use Rattle.std.specs.VecDeque.{deque_len, deque_capacity};

    ghost view = { λ w. record { messages = w.messages.items; spare = deque_capacity w.messages - deque_len w.messages } };
}

impl Waiting {
    // None.
    pub(crate) fn new(alloc: Global) -> Waiting
        ensures { result.messages ≡ [] }
    {
        Waiting {
            messages: VecDeque::new(alloc),
        }
    }

    // Makes room for one more. No message changes, at `Err` either.
    pub(crate) fn reserve(&mut self) -> Result<(), AllocError>
        ensures same { self.new ≡ with_room self.old self.new.spare }
        ensures spare { OnOk result (0 < self.new.spare) }
        ensures kept { self.old.spare ≤ self.new.spare }
    {
        self.messages.reserve(1)
    }

    // Adds one, for which there is room.
    pub(crate) fn push(&mut self, message: Whole)
        requires { 0 < self.old.spare }
        ensures messages { self.new ≡ with_message self.old message self.new.spare }
        ensures spare { self.old.spare ≤ self.new.spare + 1 }
    {
        self.messages.push_back_reserved(message);
    }

    // Lets the first one go.
    pub(crate) fn pop(&mut self)
        ensures messages { self.new ≡ without_first self.old self.new.spare }
        ensures spare { self.old.spare ≤ self.new.spare }
    {
        drop(self.messages.pop_front());
    }

    // The first one.
    pub(crate) fn first(&self) -> Option<&Whole>
        ensures { option_map (λ whole. whole.now) result ≡ slice_get self.now.messages 0 }
    {
        self.messages.front()
    }
}
