//! The state of a turn, lent. It has a file of its own, since its clause names the row of `Turn`.

ghost use Rattle.std.specs.Prelude.{◌≡◌, []};
ghost use mir.Syntax.{named};
ghost use Rattle.std.specs.Borrow.{sem, Lends};
ghost use Rattle.story_lock.specs.contracts.story.Turn.{the_row};
ghost use Rattle.story_lock.specs.Lent.{with_state};

use crate::chronicle::Chronicle;
use crate::story::Turn;

impl<'a, S: Chronicle> Turn<'a, S> {
    /// The state. When the borrow ends, the turn has what was written through it.
    pub fn state(&mut self) -> &mut S
        ensures* writes_back { sem 𝓛 (Lends (the_row (record { mir = named 1; lft = [] }) S.row S.Event.row S.Said.row S.Chronicle) S.row
            self.entry result (with_state self.old)) }
        ensures value { result.now ≡ self.old.state }
    {
        &mut self.state
    }
}
