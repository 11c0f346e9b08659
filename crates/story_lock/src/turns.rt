//! A turn: the ticket is drawn and waited for, the state is taken out, an entry is made, and the state is put back.

ghost use Rattle.std.specs.Prelude.{None, ◌≡◌, ◌+◌, ◌<◌, ◌≤◌, true, List, [], ◌∷◌, ◌++◌, length};
ghost use Rattle.story_lock.specs.declared.view.Stage.TheVariants.{Idle, Waits, Served, Done};
ghost use Rattle.story_lock.specs.Rule as rule;
ghost use Rattle.story_lock.specs.Rule.{IsSeatAt, Comes, at_stage, after};
ghost use Rattle.story_lock.specs.Passes.{start_of, IsPassOf, HasSeat, IsTurnOf, Finds, Adds, seen_by, mine_of, numbers_of};
ghost use Rattle.story_lock.specs.Passes.{history_of, turn_mine, turn_numbers, TurnHasKey};

use crate::chronicle::Chronicle;
use crate::steps::{Appended, Commit, Draw, Look, PassOn};
use crate::story::{Pass, Story, Turn};
use crate::view::Place;
use std::marker::Brand;
use std::sync::Wait;
use std::thread;

impl<S: Chronicle> Story<S> {
    // Draws a ticket. Once there are no more it sleeps for ever.
    fn draw<R: Wait>(&self, rt: &R, seat: &mut Place<S, S::Event, S::Said>) -> u64
        requires of { IsSeatAt self.now.board.shared.table_id self.now.board.shared.key seat.old }
        requires idle { seat.old.me.0.stage ≡ Idle }
        ensures same { seat.new.table_id ≡ seat.old.table_id }
        ensures draws { seat.new.me ≡ (at_stage seat.old.me.0 (Waits result), seat.old.me.1) }
    {
        let mut next = self.board.shared.peek(0);
        for _ in rt.forever() {
            if next < u64::MAX {
                let found = self
                    .board
                    .shared
                    .compare_exchange::<Draw>(seat, 0, next, next + 1);
                if found == next {
                    return next;
                }
                next = found;
            } else {
                self.board.shared.park(rt, 0, u32::MAX);
            }
        }
        unreachable!()
    }

    // Looks until the ticket is served. At run time the first look finds it, since tickets are drawn under the gate.
    fn wait<R: Wait>(&self, rt: &R, seat: &mut Place<S, S::Event, S::Said>, ticket: u64)
        requires of { IsSeatAt self.now.board.shared.table_id self.now.board.shared.key seat.old }
        requires waits { seat.old.me.0.stage ≡ Waits ticket }
        ensures same { seat.new.table_id ≡ seat.old.table_id }
        ensures comes { Comes S.represents S.keyed ticket seat.old.me seat.new.me }
    {
        for _ in rt.forever() {
            if self.board.shared.load::<Look>(seat, 1) == ticket {
                return;
            }
            thread::yield_now();
        }
        unreachable!()
    }

    // Takes the state out: its seat, its ticket and the state.
    fn take<R: Wait>(&self, rt: &R, pass: Pass<S>) -> (Place<S, S::Event, S::Said>, u64, S)
        requires of { IsPassOf self.now pass }
        ensures same { (result.0.table_id ≡ pass.seat.table_id) × (result.0.me.0.opened ≡ pass.seat.me.0.opened) }
        ensures own { (result.0.me.0.mine ≡ mine_of pass) × (result.0.me.0.numbers ≡ numbers_of pass) }
        ensures finds { Finds self.now pass result.0.me.0.seen result.2 }
        ensures takes { (result.0.me.1 ≡ (0, None) ∷ []) × (result.0.me.0.stage ≡ Served result.1) }
    {
        let Pass { mut seat } = pass;
        let ticket = self.draw(rt, &mut seat);
        self.wait(rt, &mut seat, ticket);
        let Some(state) = self.board.shared.exchange(&mut seat, 0, None) else {
            unreachable!()
        };
        (seat, ticket, state)
    }

    /// Waits for the pass's turn, and takes the state out.
    pub fn enter<'a, R: Wait>(&'a self, rt: &R, pass: Pass<S>) -> Turn<'a, S>
        requires of { IsPassOf self.now pass }
        requires seat { HasSeat pass }
        ensures story { result.story.now ≡ self.now }
        ensures turn { IsTurnOf pass result }
        ensures finds { Finds self.now pass (history_of result) result.state }
    {
        let gate = self.gate.lock(rt);
        let (seat, ticket, state) = self.take(rt, pass);
        Turn {
            story: self,
            seat,
            ticket,
            gate,
            state,
        }
    }

    // The entry joins the history.
    fn commit<J: Appended<S::Event, S::Said>>(
        &self,
        seat: &mut Place<S, S::Event, S::Said>,
        ticket: u64,
        event: &S::Event,
        said: &S::Said,
    )
        requires appended { J.appended ≡ (event.now, said.now) ∷ [] }
        requires of { IsSeatAt self.now.board.shared.table_id self.now.board.shared.key seat.old }
        requires served { seat.old.me.0.stage ≡ Served ticket }
        requires seat { rule.HasSeat seat.old.me.0 }
        requires key { S.keyed event.now said.now ≡ true → rule.HasKey seat.old.me.0 }
        ensures same { seat.new.table_id ≡ seat.old.table_id }
        ensures commits { seat.new.me ≡ (after seat.old.me.0 ((event.now, said.now) ∷ []) ticket, seat.old.me.1) }
    {
        let _ = event;
        let _ = said;
        self.board.shared.load::<Commit<J>>(seat, 1);
    }

    // The state is home again, and the next ticket is served.
    fn put_back(&self, seat: &mut Place<S, S::Event, S::Said>, ticket: u64, state: S)
        requires of { IsSeatAt self.now.board.shared.table_id self.now.board.shared.key seat.old }
        requires takes { seat.old.me.1 ≡ (0, None) ∷ [] }
        requires done { seat.old.me.0.stage ≡ Done ticket }
        requires represented { S.represents (start_of self.now) seat.old.me.0.seen state }
        ensures same { seat.new.table_id ≡ seat.old.table_id }
        ensures passes { seat.new.me ≡ (at_stage seat.old.me.0 Idle, []) }
    {
        let left = self.board.shared.exchange(seat, 0, Some(state));
        let None = left else { unreachable!() };
        self.board.shared.fetch_add::<PassOn>(seat, 1, 1);
    }
}

impl<S: Chronicle + Drop> Story<S> {
    /// Waits for a turn as `enter` does, and gives the state. Where the pass has each seat number, its `seen` is the
    /// whole history, and each entry is its own.
    pub fn close<R: Wait>(self, rt: &R, pass: Pass<S>) -> S
        requires { IsPassOf self pass }
        ensures { (history : List (S.Event × S.Said)) × Finds self pass history result }
    {
        let (_, _, state) = self.take(rt, pass);
        let Story { board, gate: _ } = self;
        let mut closed = board.close();
        drop(closed.take(0));
        closed.free();
        state
    }
}

impl<'a, S: Chronicle> Turn<'a, S> {
    /// Adds the entry to the history, and puts the state back.
    pub fn end(self, event: &S::Event, said: &S::Said) -> Pass<S>
        requires represented { S.represents (start_of self.story.now) (history_of self ++ (event.now, said.now) ∷ []) self.state }
        requires key { S.keyed event.now said.now ≡ true → TurnHasKey self }
        ensures of { IsPassOf self.entry.story.now result }
        ensures numbers { numbers_of result ≡ turn_numbers self.entry }
        ensures seen { seen_by result ≡ history_of self.entry ++ (event.now, said.now) ∷ [] }
        ensures mine { mine_of result ≡ turn_mine self.entry ++ length (history_of self.entry) ∷ [] }

        // For the pass that entered, the turn is one entry of its own.
        ensures adds { (pass : _) (state : S) → Finds self.entry.story.now pass (history_of self.entry) state → IsTurnOf pass self.entry
            → Adds pass event.now said.now result }
    {
        let Turn {
            story,
            mut seat,
            ticket,
            gate,
            state,
        } = self;
        story.commit::<Brand>(&mut seat, ticket, event, said);
        story.put_back(&mut seat, ticket, state);
        drop(gate);
        Pass { seat }
    }
}
