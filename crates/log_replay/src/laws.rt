//! What one record more does to a log. No call is made: the clauses speak of the definitions.

ghost use Rattle.std.specs.Prelude.{◌≡◌, ℕ, ◌+◌, ◌++◌, ◌∷◌, [], ◌||◌, ◌&&◌, ◌<◌, ◌≤◌, List, ℤ};
ghost use Rattle.std.specs.Prelude.{Some, None, true, false, length, filter, if◌then◌else◌};
ghost use Rattle.record_codec.specs.Entry.{Entry};
ghost use Rattle.log_model.specs.Bases.{Geometry};
ghost use Rattle.log_model.specs.Delays.{progress, next_delayed, is_due, due_delayed};
ghost use Rattle.log_model.specs.Keys.{is_match};
ghost use Rattle.log_model.specs.Kinds.{is_delivery};
ghost use Rattle.log_model.specs.Log.{Follows, IsWellFormed};
ghost use Rattle.log_model.specs.Numbered.{Log, with_appended, queue_min, queue_max};
ghost use Rattle.log_model.specs.Queues.{queue_of, units_of};
ghost use Rattle.log_model.specs.Transactions.{family, origins, names_it, copies_it, discards_it};
ghost use Rattle.log_model.specs.Transactions.{settles, is_settled, copies, transaction_state};
ghost use Rattle.log_replay.specs.Replays.{entries_in, key_entries};
ghost use Rattle.log_replay.specs.Settling.{state_after};

/// A record goes to the end of its queue, and to no other.
pub fn a_record_ends_its_queue()
    ensures records { (log : List Entry) (r : Entry) (topic : List ℕ) (queue : ℕ)
        → queue_of (log ++ r ∷ []) topic queue ≡ queue_of log topic queue ++ queue_of (r ∷ []) topic queue }
    ensures units { (log : List Entry) (r : Entry) (topic : List ℕ) (queue : ℕ)
        → units_of (log ++ r ∷ []) topic queue ≡ units_of log topic queue ++ units_of (r ∷ []) topic queue }
    ensures minimum { (log : Log) (r : Entry) (topic : List ℕ) (queue : ℕ)
        → queue_min (with_appended log (r ∷ [])) topic queue ≡ queue_min log topic queue }
    ensures maximum { (log : Log) (r : Entry) (topic : List ℕ) (queue : ℕ)
        → queue_max (with_appended log (r ∷ [])) topic queue ≡ queue_max log topic queue + length (queue_of (r ∷ []) topic queue) }
{}

/// A record adds its keys, and is the last of those that have one of them.
pub fn a_record_adds_its_keys()
    ensures entries { (log : List Entry) (r : Entry) → key_entries (log ++ r ∷ []) ≡ key_entries log ++ entries_in r }
    ensures matches { (log : List Entry) (r : Entry) (hash : ℕ) (from to : ℤ)
        → filter (is_match hash from to) (log ++ r ∷ [])
        ≡ filter (is_match hash from to) log ++ (if is_match hash from to r then r ∷ [] else []) }
{}

/// A half message is the last of its family; of an origin it is the origin.
pub fn a_half_joins_its_family()
    ensures family { (log : List Entry) (r : Entry) (h : ℕ) → family (log ++ r ∷ []) h ≡ family log h ++ family (r ∷ []) h }
    ensures origins { (log : List Entry) (r : Entry) → origins (log ++ r ∷ []) ≡ origins log ++ origins (r ∷ []) }
{}

/// What a record that follows a log does to an origin is seen by the record and the families of the log before it.
pub fn a_record_settles_by_earlier_halves()
    ensures copies { (S : Geometry) (log : List Entry) (r : Entry) (h : ℕ) → IsWellFormed S log → Follows S log r
        → copies (log ++ r ∷ []) h ≡ copies log h + (if copies_it log h r then 1 else 0) }
    ensures settled { (S : Geometry) (log : List Entry) (r : Entry) (h : ℕ) → IsWellFormed S log → Follows S log r
        → is_settled (log ++ r ∷ []) h ≡ (is_settled log h || settles log h r) }
    ensures state { (S : Geometry) (log : List Entry) (r : Entry) (h : ℕ) → IsWellFormed S log → Follows S log r
        → transaction_state (log ++ r ∷ []) h
        ≡ state_after (transaction_state log h) (names_it h r) (copies_it log h r) (discards_it log h r) }
{}

/// A delivery raises the progress of its level by one.
pub fn a_delivery_is_progress()
    ensures { (log : Log) (r : Entry) (level : ℕ)
        → progress (with_appended log (r ∷ [])) level ≡ progress log level + (if is_delivery level r then 1 else 0) }
{}

/// Of the levels that are due the lowest is delivered, with its next message; none is where none is due.
pub fn the_lowest_due_level_is_delivered()
    ensures due { (log : Log) (d now level : ℕ) (r : Entry) → due_delayed log d now ≡ Some (level, r)
        → (is_due log d now level ≡ true) × (next_delayed log d level ≡ Some r) }
    ensures lowest { (log : Log) (d now level lower : ℕ) (r : Entry) → due_delayed log d now ≡ Some (level, r)
        → 1 ≤ lower → lower < level → is_due log d now lower ≡ false }
    ensures none { (log : Log) (d now level : ℕ) → due_delayed log d now ≡ None → 1 ≤ level → level ≤ 18
        → is_due log d now level ≡ false }
{}
