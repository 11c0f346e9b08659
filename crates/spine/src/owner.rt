//! A pass reads the core: one turn, with a look for its entry, at which a closure is given the core.

ghost use Rattle.std.specs.Prelude.{◌≡◌};

use crate::pass::SpinePass;
use broker_core::{Core, Owner};
use broker_events::Event;
use std::alloc::Global;
use std::sync::Wait;

impl<'a, R: Wait> Owner for SpinePass<'a, R> {
    ghost use Rattle.std.specs.Prelude.{◌≡◌};
    ghost use Rattle.story_lock.specs.Passes.{start_of};
    ghost use Rattle.spine.specs.Owner.{Sees};

    ghost sees = { λ x core y. Sees (λ z. z.pass) (start_of x.spine.now.story) x core y × (y.spine.now ≡ x.spine.now) };

    fn look<T, F: FnOnce(&Core) -> T>(&mut self, alloc: Global, f: F) -> T {
        let Some(pass) = self.pass.take() else {
            unreachable!()
        };
        let mut turn = self.spine.story.enter(self.rt, pass);
        let event = Event::Look { number: 0, turn: 0 };
        let (said, answer) = turn.state().step_and_read(alloc, &event, f);
        self.pass = Some(turn.end(&event, &said));
        drop(event);
        drop(said);
        answer
    }

    ghost sees_at_a_step = { λ x core y sees. (sees.0.what, sees.0.step) };
}
