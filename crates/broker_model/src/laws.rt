//! What holds of every step. No call is made: the clauses speak of the definitions.

ghost use Rattle.std.specs.Prelude.{◌≡◌, Some};
ghost use Rattle.log_model.specs.Numbered.{with_appended};
ghost use Rattle.broker_model.specs.State.{State};
ghost use Rattle.broker_model.specs.Events as events;
ghost use Rattle.broker_model.specs.Appended.{appended};
ghost use Rattle.broker_model.specs.Step.{Step};
ghost use Rattle.broker_model.specs.Laws.{IsRemoval};

/// But for a removal, a step appends to the log the records that its event says, and changes nothing else of it.
pub fn logs_grow_by_what_is_appended()
    ensures { (s new : State) (e : events.Event) (answer : events.Answer) → ¬ IsRemoval e → Step s e (Some answer) new
        → new.log ≡ with_appended s.log (appended s e) }
{}
