//! The core without a lock, for one caller.

ghost use Rattle.std.specs.Prelude.{◌≡◌};

use crate::broker::Core;
use broker_events::{Calls, Event, Said};
use std::alloc::{AllocError, Global};

/// The broker for a caller that has it alone, and with it the key.
#[derive(Drop)]
pub struct Alone {
    pub(crate) core: Core,
}

impl Alone {
    /// The broker alone.
    pub fn new(core: Core) -> Alone
        ensures { result.core ≡ core }
    {
        Alone { core }
    }

    /// The broker, to be shared or closed.
    pub fn into_core(self) -> Core
        ensures { result ≡ self.core }
    {
        self.core
    }
}

impl Calls for Alone {
    ghost use Rattle.std.specs.Prelude.{◌≡◌};
    ghost use Rattle.broker_events.specs.Shown.{moved};
    ghost use Rattle.broker_core.specs.Makes.{MakesStep};
    ghost use Rattle.core_log.specs.Shows.{shown_of};

    ghost makes = { λ x event said y. MakesStep x.core event said y.core };

    ghost has_key = { λ x. Unit {0} };

    ghost shown = { λ x. shown_of x.core };

    fn call(&mut self, alloc: Global, event: &Event) -> Result<Said, AllocError> {
        self.core.apply(alloc, event)
    }

    ghost key_stays = { λ x event said y makes key. tt };

    ghost shown_moves = { λ x event said y makes key. makes.shown };
}
