//! What one record more does to the table of a log, told of the table's own changes. No call is made: the clauses speak of the
//! definitions.

ghost use Rattle.std.specs.Prelude.{◌≡◌, ℕ, ◌∷◌, [], true, false};
ghost use Rattle.record_codec.specs.Entry.{Entry};
ghost use Rattle.log_model.specs.Bases.{geometry};
ghost use Rattle.log_model.specs.Kinds.{is_half};
ghost use Rattle.log_model.specs.Log.{Follows, IsWellFormed};
ghost use Rattle.log_model.specs.Numbered.{Log, count_of, with_appended};
ghost use Rattle.half_view.specs.Halves.{HalfTable, with_half};
ghost use Rattle.half_view.specs.OfLog.{AreHalvesOf, named_by, with_settlement};

/// The table stays that of the log where a half message is added, and where what another record settles is settled.
pub fn a_table_goes_on_with_its_log()
    ensures half { (segment : ℕ) (log : Log) (r : Entry) (t : HalfTable) → IsWellFormed (geometry segment log.base) log.records
        → Follows (geometry segment log.base) log.records r → AreHalvesOf log t → is_half r ≡ true
        → (spare : ℕ) → AreHalvesOf (with_appended log (r ∷ [])) (with_half t (named_by r) r.offset r.store spare) }
    ensures other { (segment : ℕ) (log : Log) (r : Entry) (t : HalfTable) → IsWellFormed (geometry segment log.base) log.records
        → Follows (geometry segment log.base) log.records r → AreHalvesOf log t → is_half r ≡ false
        → AreHalvesOf (with_appended log (r ∷ [])) (with_settlement t r (count_of log)) }
{}
