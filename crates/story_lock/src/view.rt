//! What a seat at the table knows, and the rule of the table.
//!
//! The table has two words and one slot. Word 0 is the next ticket, and word 1 the ticket that is served. The slot is where
//! the state lies while nobody has it.

use crate::chronicle::Chronicle;
use atomic_table::{Seat, Table, TableRule};
use std::alloc::Global;
use std::collections::LinkedList;
use std::snapshot::Snapshot;

/// How far a pass is with its turn.
/// `Idle -> Waits [draw]`, `Waits -> Served [look]`, `Served -> Done [commit]`, `Done -> Idle [pass on]`
pub enum Stage {
    /// It has no ticket.
    Idle,
    /// It has drawn this ticket.
    Waits(u64),
    /// Its ticket is served: the state is out with it.
    Served(u64),
    /// The same, and its entry is made.
    Done(u64),
}

/// What a pass knows. It exists in proofs alone: no value of it is made.
pub struct View<S, E, A> {
    /// The state at the opening, and the number of seats. A pass that was joined to another is left with none.
    pub opened: Option<(S, u32)>,
    /// The history as far as it was seen.
    pub seen: LinkedList<(E, A)>,
    /// The shorter of two histories that met in a join.
    pub shorter_seen: LinkedList<(E, A)>,
    /// The places of its own entries in the history.
    pub mine: LinkedList<u64>,
    /// Its seat numbers.
    pub numbers: LinkedList<u32>,
    /// How far it is with its turn.
    pub stage: Stage,
}

/// What the table is told once, when it is made.
#[derive(Drop)]
pub struct Opening<S> {
    /// The state at that time.
    pub start: Snapshot<S>,
    /// The number of seats.
    pub seats: u32,
}

/// The rule of the table: the state represents one history, and each pass knows what its view says of it.
pub struct OneHistory;

impl<S: Chronicle> TableRule<Option<S>, View<S, S::Event, S::Said>, Opening<S>> for OneHistory {
    ghost use Rattle.story_lock.specs.Rule.{Holds, opening_view};

    ghost holds = { λ opening. Holds S.represents S.keyed opening.start.value opening.seats };

    ghost first = { λ opening. opening_view opening.start.value opening.seats };
}

/// The table of a story.
pub type Board<S, E, A> = Table<Option<S>, View<S, E, A>, Opening<S>, OneHistory, Global>;

/// A seat at it.
pub type Place<S, E, A> = Seat<Option<S>, View<S, E, A>>;
