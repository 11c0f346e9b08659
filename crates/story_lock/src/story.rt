//! A story, its passes and its turns; and how passes are split and joined, which needs no turn.
//!
//! A story has one history, a list of entries that exists in proofs alone. A pass shows how much of it one caller has
//! seen, which entries are the caller's own, and which seat numbers it has. A seat number is in one pass at a time, and
//! the pass with the number 0 has the key. A turn has the state, taken out.

ghost use Rattle.std.specs.Prelude.{None, ◌≡◌, [], ◌∷◌};
ghost use Rattle.story_lock.specs.declared.view.Stage.TheVariants.{Idle, Served};
ghost use Rattle.story_lock.specs.Rule.{IsSeatAt, HasSeat};

use crate::chronicle::Chronicle;
use crate::steps::{Cut, Meet, Settle, Watch};
use crate::view::{Board, Opening, Place};
use atomic_table::{Refused, Table};
use std::alloc::{AllocError, AllocFailed, Global};
use std::snapshot::Snapshot;
use std::sync::{Mutex, MutexGuard};

/// A lock round a state, with the one history of what was done to it.
pub struct Story<S: Chronicle> {
    pub(crate) board: Board<S, S::Event, S::Said>,
    // Taken before the ticket is drawn, so that the ticket is served at once: a caller sleeps here and nowhere else.
    pub(crate) gate: Mutex<()>,
    pub(crate) ghost sized: { (board.shared.table_id.words ≡ 2) × (board.shared.table_id.slots ≡ 1) },
}

/// What one caller has seen of the history and added to it. It has no bytes. Where one is dropped, nobody has each seat
/// number any more.
#[derive(Drop)]
pub struct Pass<S: Chronicle> {
    pub(crate) seat: Place<S, S::Event, S::Said>,
    pub(crate) ghost empty: { seat.me.1 ≡ [] },
    pub(crate) ghost idle: { seat.me.0.stage ≡ Idle },
}

/// The state, taken out. It can't be dropped: a turn has to be ended.
pub struct Turn<'a, S: Chronicle> {
    pub(crate) story: &'a Story<S>,
    pub(crate) seat: Place<S, S::Event, S::Said>,
    pub(crate) ticket: u64,
    pub(crate) gate: MutexGuard<'a, ()>,
    pub(crate) state: S,
    pub(crate) ghost of: { IsSeatAt story.now.board.shared.table_id story.now.board.shared.key seat },
    pub(crate) ghost takes: { seat.me.1 ≡ (0, None) ∷ [] },
    pub(crate) ghost at: { seat.me.0.stage ≡ Served ticket },
    pub(crate) ghost seated: { HasSeat seat.me.0 },
}

impl<S: Chronicle> Story<S> {
    ghost use Rattle.std.specs.Prelude.{◌≡◌, ◌+◌, ◌<◌, ◌≤◌, [], ◌∷◌, ◌++◌, length, IfOk, IfErr};
    ghost use Rattle.story_lock.specs.Counts.{StartsWith, IsDistinct, numbers_below, greatest, without};
    ghost use Rattle.story_lock.specs.Rule.{longer, shorter};
    ghost use Rattle.story_lock.specs.Passes.{start_of, seats_of, IsPassOf, IsSamePass, seen_by, mine_of, numbers_of};

    /// A story with an empty history, and its first pass, which has each seat number. At `Err` memory ran out, and the
    /// state is given back.
    pub fn new(alloc: Global, state: S, seats: u32) -> Result<(Story<S>, Pass<S>), (S, AllocError)>
        requires seats { 0 < seats }
        requires opens { S.represents state [] state }
        ensures story { IfOk result (λ r. (start_of r.0 ≡ state) × (seats_of r.0 ≡ seats)) }
        ensures pass { IfOk result (λ r. IsPassOf r.0 r.1 × (seen_by r.1 ≡ []) × (mine_of r.1 ≡ [])) }
        ensures numbers { IfOk result (λ r. (numbers_of r.1 ≡ numbers_below seats) × (length (numbers_of r.1) ≡ seats)) }
        ensures err { IfErr result (λ e. e.0 ≡ state) }
    {
        let opening = Opening {
            start: Snapshot::of(&state),
            seats,
        };
        let mut slots = Vec::new(alloc);
        if let Err(failed) = slots.push(Some(state)) {
            let AllocFailed { value } = failed;
            slots.destroy_empty();
            let Some(state) = value else { unreachable!() };
            return Err((state, AllocError));
        }
        match Table::new(alloc, &[0, 0], slots, &opening) {
            Ok((board, seat)) => Ok((
                Story {
                    board,
                    gate: Mutex::new(()),
                },
                Pass { seat },
            )),
            Err(refused) => {
                let Refused { mut slots } = refused;
                let Some(Some(state)) = slots.pop() else {
                    unreachable!()
                };
                slots.destroy_empty();
                Err((state, AllocError))
            }
        }
    }

    /// Moves the greatest seat number of a pass to a new one, which has seen as much and has made no entry.
    pub fn split(&self, pass: Pass<S>) -> (Pass<S>, Pass<S>)
        requires of { IsPassOf self.now pass }
        requires two { 2 ≤ length (numbers_of pass) }
        ensures of { IsPassOf self.now result.0 × IsPassOf self.now result.1 }
        ensures seen { (seen_by result.0 ≡ seen_by pass) × (seen_by result.1 ≡ seen_by pass) }
        ensures mine { (mine_of result.0 ≡ mine_of pass) × (mine_of result.1 ≡ []) }
        ensures first { numbers_of result.0 ≡ without (greatest (numbers_of pass)) (numbers_of pass) }
        ensures second { numbers_of result.1 ≡ greatest (numbers_of pass) ∷ [] }
        ensures count { length (numbers_of result.0) + 1 ≡ length (numbers_of pass) }
    {
        let Pass { mut seat } = pass;
        let other = self.board.shared.split_seat::<Cut>(&mut seat);
        (Pass { seat }, Pass { seat: other })
    }

    /// The pass as it is, and a new one that has seen as much, with no seat number.
    pub fn watch(&self, pass: Pass<S>) -> (Pass<S>, Pass<S>)
        requires of { IsPassOf self.now pass }
        ensures of { IsPassOf self.now result.0 × IsPassOf self.now result.1 }
        ensures seen { (seen_by result.0 ≡ seen_by pass) × (seen_by result.1 ≡ seen_by pass) }
        ensures mine { (mine_of result.0 ≡ mine_of pass) × (mine_of result.1 ≡ []) }
        ensures first { IsSamePass pass result.0 }
        ensures second { numbers_of result.1 ≡ [] }
    {
        let Pass { mut seat } = pass;
        let other = self.board.shared.split_seat::<Watch>(&mut seat);
        (Pass { seat }, Pass { seat: other })
    }

    /// Two passes as one. The shorter of the histories that they had seen begins the longer, and no entry is of both.
    pub fn join(&self, one: Pass<S>, other: Pass<S>) -> Pass<S>
        requires one { IsPassOf self.now one }
        requires other { IsPassOf self.now other }
        ensures of { IsPassOf self.now result }
        ensures seen { seen_by result ≡ longer (seen_by one) (seen_by other) }
        ensures begins { StartsWith (seen_by result) (shorter (seen_by one) (seen_by other)) }
        ensures mine { (mine_of result ≡ mine_of one ++ mine_of other) × IsDistinct (mine_of result) }
        ensures numbers { numbers_of result ≡ numbers_of one ++ numbers_of other }
    {
        let Pass { mut seat } = one;
        let Pass { seat: other } = other;
        self.board.shared.join_seat::<Meet>(&mut seat, other);
        self.board.shared.load::<Settle>(&mut seat, 0);
        Pass { seat }
    }
}
