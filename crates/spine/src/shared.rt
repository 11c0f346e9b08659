//! The core as the lock keeps it, and what it is for it to stand for a history.

ghost use Rattle.std.specs.Prelude.{◌≡◌, Option, IfOk, IfErr};
ghost use Rattle.std.specs.Fn.{FnOnceReturnsAt};
ghost use Rattle.broker_events.specs.Shown.{Accepts};
ghost use Rattle.broker_core.specs.Makes.{MakesStep};
ghost use Rattle.core_log.specs.Shows.{shown_of};
ghost use Rattle.spine.specs.Entries.{Fits};

use broker_core::Core;
use broker_events::{Event, Said};
use std::alloc::{AllocError, AllocFailed, Global};
use std::marker::Model;
use story_lock::Chronicle;

/// The broker under the lock. An entry of its history is an event with what was said, or nothing where memory ran out.
#[derive(Drop)]
pub struct Shared {
    // In a box, since each turn takes it out of the lock and puts it back.
    core: Box<Core>,
}

impl Model for Shared {
    ghost use Rattle.spine.specs.Boxed.{SharedParts, shared_code};

    ghost Value = { SharedParts };

    ghost coded = { shared_code };

    ghost view = { λ s. record { core = s.core.value } };
}

/// What one caller has seen of the history and added to it, as `story_lock` has it.
pub type Pass = story_lock::Pass<Shared>;

impl Chronicle for Shared {
    ghost use Rattle.spine.specs.Entries.{is_keyed};
    ghost use Rattle.spine.specs.Stands.{Stands};

    type Event = Event;

    type Said = Option<Said>;

    ghost represents = { λ start log now. Stands start.core log now.core };

    ghost keyed = { λ event said. is_keyed event };
}

impl Shared {
    /// The core, to be put under a lock. At `Err` memory ran out, and the core is given back.
    pub(crate) fn new(alloc: Global, core: Core) -> Result<Shared, (Core, AllocError)>
        ensures ok { IfOk result (λ it. it.core ≡ core) }
        ensures err { IfErr result (λ e. e.0 ≡ core) }
    {
        match Box::new(alloc, core) {
            Ok(core) => Ok(Shared { core }),
            Err(failed) => {
                let AllocFailed { value } = failed;
                Err((value, AllocError))
            }
        }
    }

    /// The core alone.
    pub(crate) fn into_core(self) -> Core
        ensures { result ≡ self.core }
    {
        let Shared { core } = self;
        Box::into_inner(core)
    }

    /// Makes one step of the core, and answers what was said, nothing where memory ran out.
    pub(crate) fn step(&mut self, alloc: Global, event: &Event) -> Option<Said>
        requires accepted { Accepts (shown_of self.old.core) event.now }
        ensures step { MakesStep self.old.core event.now result self.new.core }
        ensures fits { Fits event.now result }
    {
        match self.core.apply(alloc, event) {
            Ok(said) => Some(said),
            Err(_) => None,
        }
    }

    /// Makes one step, and answers besides what `f` gives on the core after it.
    pub(crate) fn step_and_read<T, F: FnOnce(&Core) -> T>(
        &mut self,
        alloc: Global,
        event: &Event,
        f: F,
    ) -> (Option<Said>, T)
        requires accepted { Accepts (shown_of self.old.core) event.now }
        requires callable { F.IsAlwaysCallable f }
        ensures step { MakesStep self.old.core event.now result.0 self.new.core }
        ensures fits { Fits event.now result.0 }
        ensures read { FnOnceReturnsAt F.FnOnce f self.new.core result.1 }
    {
        let said = self.step(alloc, event);
        (said, f(self.core.as_ref()))
    }
}
