//! Who reads the core itself: one look makes a step, and a closure is given the core as it is then.

ghost use Rattle.std.specs.Prelude.{Some};
ghost use Rattle.std.specs.Fn.{FnOnceReturnsAt};
ghost use Rattle.broker_events.specs.declared.said.Said.{Said as ASaid};
ghost use Rattle.core_log.specs.declared.parts.Parts.{Parts};
ghost use Rattle.broker_core.specs.Makes.{MakesStep};
ghost use Rattle.broker_core.specs.Owner.{plain_look};

use crate::alone::Alone;
use crate::broker::Core;
use broker_events::{Calls, Event};
use core_log::Parts;
use std::alloc::Global;

/// An object that makes steps of a core, and can read it.
pub trait Owner: Calls {
    // One reading: the object before, the core that was read, and the object after.
    ghost sees: { Self → Parts → Self → Type 0 };

    /// What `f` gives on the core at one step, which is a look for the record 0 after no turn. It takes no memory itself.
    fn look<T, F: FnOnce(&Core) -> T>(&mut self, alloc: Global, f: F) -> T
        requires { F.IsAlwaysCallable f }
        ensures { (core : Parts) × sees self.old core self.new × FnOnceReturnsAt F.FnOnce f core result };

    // It is one step, with that event.
    ghost sees_at_a_step: { (x : Self) (core : Parts) (y : Self) → sees x core y → (what : ASaid) × Self.makes x plain_look (Some what) y };
}

impl Alone {
    // The step of a look for no record in particular, which takes no memory.
    fn make_look(&mut self, alloc: Global)
        ensures { (what : ASaid) × MakesStep self.old.core plain_look (Some what) self.new.core }
    {
        let event = Event::Look { number: 0, turn: 0 };
        let said = self.core.apply(alloc, &event);
        drop(event);
        match said {
            Ok(said) => drop(said),
            Err(_) => unreachable!(),
        }
    }
}

impl Owner for Alone {
    ghost use Rattle.broker_core.specs.Owner.{SeesAlone};

    ghost sees = { λ x core y. SeesAlone x.core core y.core };

    fn look<T, F: FnOnce(&Core) -> T>(&mut self, alloc: Global, f: F) -> T {
        self.make_look(alloc);
        f(&self.core)
    }

    ghost sees_at_a_step = { λ x core y sees. (sees.what, sees.step) };
}
