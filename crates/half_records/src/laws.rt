//! What one record more does to the half messages of a log, where nothing is called for it. No call is made: the clause speaks
//! of the definitions.

ghost use Rattle.std.specs.Prelude.{◌≡◌, ℕ, ◌∷◌, [], false};
ghost use Rattle.record_codec.specs.Entry.{Entry};
ghost use Rattle.log_model.specs.Bases.{geometry};
ghost use Rattle.log_model.specs.Kinds.{is_half};
ghost use Rattle.log_model.specs.Log.{Follows, IsWellFormed};
ghost use Rattle.log_model.specs.Numbered.{Log, count_of, with_appended};
ghost use Rattle.half_view.specs.OfLog.{with_settlement};
ghost use Rattle.half_records.specs.declared.halves.Halves.{Halves};
ghost use Rattle.half_records.specs.OfLog.{HasHalves};

/// The half messages stay those of the log where a record is appended that is none and settles none.
pub fn what_settles_nothing_leaves_the_half_messages()
    ensures { (segment : ℕ) (log : Log) (r : Entry) (h : Halves) → IsWellFormed (geometry segment log.base) log.records
        → Follows (geometry segment log.base) log.records r → HasHalves log h → is_half r ≡ false
        → with_settlement h.view r (count_of log) ≡ h.view → HasHalves (with_appended log (r ∷ [])) h }
{}
