//! The topics of clients. A look-up makes no text, and after `reserve` a topic is made without memory.

ghost use Rattle.std.specs.Prelude.{◌≡◌, ◌<◌, ◌≤◌, ◌+◌, List, ℕ, max, All, Some, None, OnOk, IfOk, if◌then◌else◌, string_bytes};
ghost use Rattle.std.specs.Option.{unwrap_or};
ghost use Rattle.std.specs.Str.{bytes_eq};
ghost use Rattle.broker_model.specs.Tables.{queues_in};
ghost use Rattle.client_tables.specs.Counts.{queues_of, room_in};

use crate::rows::{TopicQueues, rows_of};
use indexmap::IndexMap;
use std::alloc::{AllocError, Global};

/// The topics, each with the number of its queues.
#[derive(Drop)]
pub struct Topics {
    counts: IndexMap<String, u32>,
}

impl Topics {
    /// No topics; takes no memory.
    pub fn new(alloc: Global) -> Topics
        ensures { (topic : List ℕ) → queues_of result topic ≡ None }
    {
        Topics {
            counts: IndexMap::new(alloc),
        }
    }

    /// How many queues a topic has, or `None` where it isn't known.
    pub fn find(&self, topic: &str) -> Option<u32>
        ensures { result ≡ queues_of self.now topic.now }
    {
        self.counts.get(topic).copied()
    }

    /// The topics, a row for each, in any order.
    pub fn rows(&self, alloc: Global) -> Result<Vec<TopicQueues>, AllocError>
        ensures same { IfOk result (λ rows. (topic : List ℕ) → queues_in rows.items topic ≡ queues_of self.now topic) }
        ensures each { IfOk result (λ rows. All (λ row. queues_of self.now row.topic ≡ Some row.queues) rows.items) }
    {
        rows_of(alloc, &self.counts)
    }

    /// Makes room for one topic more. No topic changes.
    pub fn reserve(&mut self) -> Result<(), AllocError>
        ensures same { (topic : List ℕ) → queues_of self.new topic ≡ queues_of self.old topic }
        ensures spare { OnOk result (0 < room_in self.new) }
    {
        self.counts.reserve(1)
    }

    /// The topic has the greater of its old number of queues and this one. Takes no memory.
    pub fn make(&mut self, topic: String, queues: u32)
        requires { 0 < room_in self.old }
        ensures { (other : List ℕ) → queues_of self.new other
            ≡ (if bytes_eq (string_bytes topic) other then Some (max (unwrap_or (queues_of self.old (string_bytes topic)) 0) queues)
            else queues_of self.old other) }
    {
        let had = self.find(topic.as_str()).unwrap_or(0);
        match self.counts.insert(topic, had.max(queues)) {
            Ok(_) => (),
            Err(_) => unreachable!(),
        }
    }
}
