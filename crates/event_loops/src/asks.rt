//! Where the check-backs come from that a loop writes.

ghost use Rattle.std.specs.Prelude.{List, [], ◌++◌};
ghost use Rattle.reply_fields.specs.Parts.{AskParts};
ghost use Rattle.event_loops.specs.Takings.{picked_list};

use reply_fields::Ask;

/// What was taken.
#[derive(Drop)]
pub enum Picked {
    Ask(Ask),
    /// None has arrived that was not taken yet.
    Nothing,
}

/// A loop's end of a way by which check-backs come.
pub trait Takes {
    /// That it was the first, these were taken in this order, and it is the second since.
    ghost takes: { Self → List AskParts → Self → Type 0 };

    /// The next check-back that has arrived. It doesn't wait.
    fn take(&mut self) -> Picked
        ensures { takes self.old (picked_list result) self.new };

    /// Where nothing is asked of it, nothing was taken.
    ghost takes_none: { (end : Self) → takes end [] end };

    /// What was taken first, and what was taken then.
    ghost takes_more: { (old : Self) (first : List AskParts) (mid : Self) (rest : List AskParts) (new : Self)
        → takes old first mid → takes mid rest new → takes old (first ++ rest) new };
}

/// A way by which no check-back comes.
#[derive(Debug, Clone, Copy, PartialEq, Eq)]
pub struct NoAsks;

impl Takes for NoAsks {
    ghost use Rattle.event_loops.specs.Takings.{TakesNone, none_at_first, none_at_all};

    ghost takes = { λ old taken new. TakesNone old taken new };

    fn take(&mut self) -> Picked {
        Picked::Nothing
    }

    ghost takes_none = { none_at_first };

    ghost takes_more = { none_at_all };
}
