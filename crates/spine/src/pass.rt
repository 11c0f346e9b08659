//! A pass at its spine: it makes steps as `Calls` says, each by one turn with one entry.

ghost use Rattle.std.specs.Prelude.{◌≡◌, ◌≤◌, length, Some, IsSome, IfSome, IfOk, OnErr};
ghost use Rattle.std.proofs.Props.{props};
ghost use Rattle.broker_events.specs.Steps.{IsKeyed, IsAnswerTo, MayTakeMemory, said_in};
ghost use Rattle.broker_events.specs.Shown.{Accepts};
ghost use Rattle.story_lock.specs.Passes.{IsPassOf, HasSeat, HasKey, numbers_of};
ghost use Rattle.story_lock.specs.Owned.{StepsBy};
ghost use Rattle.spine.specs.Entries.{Fits};
ghost use Rattle.spine.specs.Seen.{shown_by};
ghost use Rattle.spine.specs.Passes.{ArePasses, Splits, Joins};

use crate::shared::Pass;
use crate::spine::Spine;
use broker_events::{Calls, Event, Said};
use std::alloc::{AllocError, Global};
use std::sync::Wait;

/// A pass with its spine, and with what its calls wait for the lock by.
#[derive(Drop)]
pub struct SpinePass<'a, R: Wait> {
    pub(crate) spine: &'a Spine,
    pub(crate) rt: &'a R,
    // It is there but while a call uses it.
    pub(crate) pass: Option<Pass>,
    pub(crate) ghost here: { IsSome pass } by { Prim.hlevel props },
    pub(crate) ghost of: { IfSome pass (λ p. IsPassOf spine.now.story p × HasSeat p) } by { Prim.hlevel props },
}

impl<'a, R: Wait> SpinePass<'a, R> {
    /// The pass alone.
    pub fn leave(self) -> Pass
        ensures pass { self.entry.pass ≡ Some result }
        ensures of { IsPassOf self.entry.spine.now.story result × HasSeat result }
    {
        let SpinePass {
            spine: _,
            rt: _,
            pass,
        } = self;
        let Some(pass) = pass else { unreachable!() };
        pass
    }

    /// A second pass at the same spine, which gets the greatest seat number and has seen as much. The key stays where it is.
    pub fn twin(&mut self) -> SpinePass<'a, R>
        requires two { IfSome self.old.pass (λ p. 2 ≤ length (numbers_of p)) }
        ensures spine { (self.new.spine.now ≡ self.old.spine.now) × (result.spine.now ≡ self.old.spine.now) }
        ensures splits { ArePasses self.old.pass self.new.pass (λ p q. IfSome result.pass (λ r. Splits p q r)) }
    {
        let Some(pass) = self.pass.take() else {
            unreachable!()
        };
        let (pass, other) = self.spine.story.split(pass);
        self.pass = Some(pass);
        SpinePass {
            spine: self.spine,
            rt: self.rt,
            pass: Some(other),
        }
    }

    /// Takes a pass of the spine over, with what it had seen, its entries and its seat numbers.
    pub fn learn(&mut self, other: Pass)
        requires of { IsPassOf self.old.spine.now.story other }
        ensures spine { self.new.spine.now ≡ self.old.spine.now }
        ensures joins { ArePasses self.old.pass self.new.pass (λ p q. Joins p other q) }
    {
        let Some(pass) = self.pass.take() else {
            unreachable!()
        };
        self.pass = Some(self.spine.story.join(pass, other));
    }

    // One turn, with one entry: the event with what was said.
    pub(crate) fn turn(&mut self, alloc: Global, event: &Event) -> Option<Said>
        requires key { IsKeyed event.now → IfSome self.old.pass (λ p. HasKey p) }
        requires accepted { Accepts (shown_by self.old.pass) event.now }
        ensures spine { self.new.spine.now ≡ self.old.spine.now }
        ensures makes { StepsBy (λ x. x.pass) self.old event.now result self.new }
        ensures fits { Fits event.now result }
    {
        let Some(pass) = self.pass.take() else {
            unreachable!()
        };
        let mut turn = self.spine.story.enter(self.rt, pass);
        let said = turn.state().step(alloc, event);
        self.pass = Some(turn.end(event, &said));
        said
    }
}

impl<'a, R: Wait> Calls for SpinePass<'a, R> {
    ghost use Rattle.std.specs.Prelude.{IfSome};
    ghost use Rattle.std.proofs.Common.{refl};
    ghost use Rattle.story_lock.specs.Passes.{HasKey};
    ghost use Rattle.story_lock.specs.Owned.{StepsBy};
    ghost use Rattle.spine.specs.Seen.{shown_by, key_kept, shown_moved};

    ghost makes = { λ x event said y. StepsBy (λ z. z.pass) x event said y };

    ghost has_key = { λ x. IfSome x.pass (λ p. HasKey p) };

    ghost shown = { λ x. shown_by x.pass };

    // Besides what the trait says, the pass stays at its spine.
    fn call(&mut self, alloc: Global, event: &Event) -> Result<Said, AllocError>
        requires key { IsKeyed event.now → IfSome self.old.pass (λ p. HasKey p) }
        requires accepted { Accepts (shown_by self.old.pass) event.now }
        ensures spine { self.new.spine.now ≡ self.old.spine.now }
        ensures makes { StepsBy (λ x. x.pass) self.old event.now (said_in result) self.new }
        ensures answer { IfOk result (IsAnswerTo event.now) }
        ensures memory { OnErr result (MayTakeMemory event.now) }
    {
        match self.turn(alloc, event) {
            Some(said) => Ok(said),
            None => Err(AllocError),
        }
    }

    ghost key_stays = { λ x event said y step key. key_kept x.pass y.pass event said step key };

    ghost shown_moves = { λ x event said y step key. shown_moved x.pass y.pass event said step key (λ e a. refl) };
}
