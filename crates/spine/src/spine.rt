//! The spine: a story over the core.

ghost use Rattle.std.specs.Prelude.{◌≡◌};

use crate::pass::SpinePass;
use crate::shared::{Pass, Shared};
use broker_core::Core;
use std::alloc::{AllocError, Global};
use std::sync::Wait;
use story_lock::Story;

/// The broker for many callers.
pub struct Spine {
    pub(crate) story: Story<Shared>,
}

impl Spine {
    ghost use Rattle.std.specs.Prelude.{◌≡◌, ◌<◌, List, [], Option, Some, length, IfOk, IfErr};
    ghost use Rattle.broker_events.specs.declared.event.Event.{Event as AnEvent};
    ghost use Rattle.broker_events.specs.declared.said.Said.{Said as ASaid};
    ghost use Rattle.story_lock.specs.Counts.{numbers_below};
    ghost use Rattle.story_lock.specs.Passes.{start_of, seats_of, IsPassOf, HasSeat, Finds, seen_by, mine_of, numbers_of};
    ghost use Rattle.spine.specs.Stands.{StandsFor};

    /// The core under the lock with an empty history, and the first pass, which has each seat number. At `Err` memory ran
    /// out, and the core is given back.
    pub fn open(alloc: Global, core: Core, seats: u32) -> Result<(Spine, Pass), (Core, AllocError)>
        requires seats { 0 < seats }
        ensures spine { IfOk result (λ r. ((start_of r.0.story).core ≡ core) × (seats_of r.0.story ≡ seats)) }
        ensures pass { IfOk result (λ r. IsPassOf r.0.story r.1 × (seen_by r.1 ≡ []) × (mine_of r.1 ≡ [])) }
        ensures numbers { IfOk result (λ r. (numbers_of r.1 ≡ numbers_below seats) × (length (numbers_of r.1) ≡ seats)) }
        ensures err { IfErr result (λ e. e.0 ≡ core) }
    {
        let shared = match Shared::new(alloc, core) {
            Ok(shared) => shared,
            Err(refused) => return Err(refused),
        };
        match Story::new(alloc, shared, seats) {
            Ok((story, pass)) => Ok((Spine { story }, pass)),
            Err((shared, fault)) => Err((shared.into_core(), fault)),
        }
    }

    /// The pass with its spine, and with what its calls wait for the lock by.
    pub fn seat<'a, R: Wait>(&'a self, rt: &'a R, pass: Pass) -> SpinePass<'a, R>
        requires of { IsPassOf self.now.story pass }
        requires seat { HasSeat pass }
        ensures spine { result.spine.now ≡ self.now }
        ensures pass { result.pass ≡ Some pass }
    {
        SpinePass {
            spine: self,
            rt,
            pass: Some(pass),
        }
    }

    /// Waits for a turn, and gives the core, which stands for the history. Where the pass has each seat number, its `seen`
    /// is the whole history, and each entry is its own.
    pub fn close<R: Wait>(self, rt: &R, pass: Pass) -> Core
        requires { IsPassOf self.story pass }
        ensures { (history : List (AnEvent × Option ASaid)) × StandsFor self.story pass history result }
    {
        let Spine { story } = self;
        story.close(rt, pass).into_core()
    }
}
