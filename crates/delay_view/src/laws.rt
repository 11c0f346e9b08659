//! What a record does to the levels that is neither a delayed message nor a delivery, and what a removal does to all levels. No
//! call is made: the clauses speak of the definitions.

ghost use Rattle.std.specs.Prelude.{◌≡◌, ℕ, ◌+◌, ◌≤◌, ◌∷◌, [], List, length, slice_get, Some, false};
ghost use Rattle.record_codec.specs.Entry.{Entry};
ghost use Rattle.log_model.specs.Kinds.{is_delayed};
ghost use Rattle.log_model.specs.Admissible.{level_topic};
ghost use Rattle.log_model.specs.Bases.{Base};
ghost use Rattle.log_model.specs.Numbered.{Log, above, count_of, record_at, with_appended};
ghost use Rattle.delay_view.specs.Levels.{Level, cut_at};
ghost use Rattle.delay_view.specs.OfLog.{AreLevelsOf, CutsLevels, IsOther};

/// The levels stay those of the log where another record is appended or dispatched.
pub fn another_record_changes_no_level()
    ensures appended { (log : Log) (d : ℕ) (r : Entry) (levels : List Level) → AreLevelsOf log d levels → d ≤ count_of log → IsOther r
        → AreLevelsOf (with_appended log (r ∷ [])) d levels }
    ensures dispatched { (log : Log) (d : ℕ) (r : Entry) (levels : List Level) → AreLevelsOf log d levels → record_at log d ≡ Some r
        → is_delayed r ≡ false → AreLevelsOf log (d + 1) levels }
{}

/// Where each level is cut at the later base's count of its messages, the levels are those of the log above that base.
pub fn levels_that_are_cut_are_those_of_the_rest()
    ensures { (log : Log) (d n : ℕ) (later : Base) (levels left : List Level) → AreLevelsOf log d levels → CutsLevels log n later
        → later.records ≤ d → length left ≡ length levels
        → ((k : ℕ) (l m : Level) → slice_get levels k ≡ Some l → slice_get left k ≡ Some m → m ≡ cut_at l (later.queues level_topic k))
        → AreLevelsOf (above log later) d left }
{}
