//! What holds of every run of steps, savings and crashes from an opening. No call is made: the clauses speak of the definitions.

ghost use Rattle.std.specs.Prelude.{◌≡◌, ◌≢◌, ◌⊎◌, ◌+◌, ◌-◌, ◌^◌, ◌<◌, ◌≤◌, ℕ, max, List, [], ◌∷◌, take};
ghost use Rattle.std.specs.Prelude.{drop, map, slice_get, Bool, true, false, codes, Option, Some, None};
ghost use Rattle.record_codec.specs.Entry.{Entry};
ghost use Rattle.record_codec.specs.Props.{value_of};
ghost use Rattle.log_model.specs.Drafts.{delivery_text};
ghost use Rattle.log_model.specs.Numbered.{Log, count_of, records_of};
ghost use Rattle.log_model.specs.Kinds.{is_copy, is_delayed};
ghost use Rattle.log_model.specs.Transactions.{Open, Committed, RolledBack, copies, is_origin, is_renewal, transaction_state};
ghost use Rattle.request_fields.specs.Requests.{PullSaid, EndSaid};
ghost use Rattle.request_fields.specs.declared.request.Request.TheVariants.{Pull, EndTransaction};
ghost use Rattle.broker_model.specs.Tables.{OffsetRow};
ghost use Rattle.broker_model.specs.State.{State, Setup, seen};
ghost use Rattle.broker_model.specs.Events as events;
ghost use Rattle.broker_model.specs.Answers.{pull_words, half_waits, done_reply};
ghost use Rattle.broker_model.specs.Refusals.{named_half};
ghost use Rattle.broker_model.specs.Run.{Boot, Move, Steps, Crashes, Goes, Run, RunWith, IsOpening};
ghost use Rattle.broker_model.specs.Acknowledged.{AnswersAfter, AnswersAtOnce, IsAcknowledged, StandsAt, StandsOrRemoved, is_verdict_on};
ghost use Rattle.core_laws.specs.CommitExamples as commits;
ghost use Rattle.core_laws.specs.Delays.{Delivers, InOrder};
ghost use Rattle.core_laws.specs.DeliveryExamples as deliveries;
ghost use Rattle.core_laws.specs.Examples as examples;
ghost use Rattle.core_laws.specs.Halves.{IsMadeByCommit, NoCommitOn, IsCopyAt, IsCommittedOrRemoved, StaysRolledBack};
ghost use Rattle.core_laws.specs.Offsets.{AllRows, IsAllowed, IsWithin, StoresOnly};
ghost use Rattle.core_laws.specs.Pulls.{IsSliceOf};
ghost use Rattle.core_laws.specs.RemovalExamples as removals;
ghost use Rattle.core_laws.specs.Removed.{IsSettledBehind, IsDeliveredBehind, WasDelivered};
ghost use Rattle.core_laws.specs.Replay.{Tables, StandsFor, IsReplayOf};
ghost use Rattle.core_laws.specs.ReplayExamples as replays;

/// What was acknowledged stays, whatever crashes, until it is removed. A crash keeps the records from the saved base's number up to
/// a number that is no lower than the flushed one.
pub fn acknowledged_stay()
    ensures crash { (b c : Boot) (k : ℕ) (setup : Setup) → Goes b (Crashes k setup) c
        → (b.now.flushed ≤ k) × (c.now.log.base ≡ b.now.saved.base)
        × (c.now.log.records ≡ drop (b.now.saved.base.records - b.now.log.base.records)
        (take (k - b.now.log.base.records) b.now.log.records)) }
    ensures flushed { (b c : Boot) (moves : List Move) (n : ℕ) (r : Entry) → IsOpening b
        → (acknowledged : IsAcknowledged b moves c n r) → n < acknowledged.answers.answered.now.flushed }
    ensures stays { (b c : Boot) (moves : List Move) (n : ℕ) (r : Entry) → IsOpening b → IsAcknowledged b moves c n r
        → (n < c.now.flushed) × (n < count_of c.now.log) × StandsOrRemoved c.now n r }
{}

/// The tables that stand for a state are the replay of its whole log once all of it is dispatched, as it is after an opening and
/// after each crash.
pub fn tables_are_replay()
    ensures dispatched { (s : State) (tables : Tables) → s.dispatched ≡ count_of s.log → StandsFor tables s → IsReplayOf tables s.log }
    ensures opened { (b : Boot) (tables : Tables) → IsOpening b → StandsFor tables b.now → IsReplayOf tables b.now.log }
    ensures crashed { (b c : Boot) (k : ℕ) (setup : Setup) (tables : Tables) → Goes b (Crashes k setup) c → StandsFor tables c.now
        → IsReplayOf tables c.now.log }
{}

/// The body of each pull is a piece of its queue among the dispatched records. These are on the disk, they never get fewer in a run,
/// whatever crashes, and what was pulled stays until it is removed.
pub fn pulls_are_slices()
    ensures slice { (b c : Boot) (a : events.Asked) (p : PullSaid) (reply : events.Reply) → a.request ≡ Pull p
        → Goes b (Steps (events.Asks a) (Some (events.Replies reply))) c
        → IsSliceOf (records_of (seen b.now) p.topic p.queue) (pull_words b.now p) reply.body }
    ensures flushed { (b c : Boot) (moves : List Move) → IsOpening b → Run b moves c → c.now.dispatched ≤ c.now.flushed }
    ensures grows { (b c d : Boot) (moves more : List Move) → IsOpening b → Run b moves c → Run c more d
        → (c.now.dispatched ≤ d.now.dispatched) × (c.now.flushed ≤ d.now.flushed) }
    ensures stays { (b c d e : Boot) (moves more : List Move) (a : events.Asked) (p : PullSaid) (reply : events.Reply) (k : ℕ) (r : Entry)
        → IsOpening b → Run b moves c → a.request ≡ Pull p → Goes c (Steps (events.Asks a) (Some (events.Replies reply))) d → Run d more e
        → slice_get reply.body k ≡ Some r → (n : ℕ) × (n < c.now.dispatched) × StandsAt c.now n r × StandsOrRemoved e.now n r }
{}

/// In every state of a run each offset lies within its queue, whatever was saved. Where the saved offsets of the opening do too, each
/// offset after a crash is one of these, or one that an update or a commit bit of its group, topic and queue stored, and wasn't cut.
pub fn offsets_hold()
    ensures within { (b c : Boot) (moves : List Move) → IsOpening b → Run b moves c → AllRows (IsWithin c.now) c.now.offsets }
    ensures stored { (b c d : Boot) (moves : List Move) (k : ℕ) (setup : Setup) (allowed : OffsetRow → Bool) → IsOpening b
        → AllRows (IsAllowed allowed b.now) b.now.saved.offsets → RunWith (StoresOnly allowed) b moves c → Goes c (Crashes k setup) d
        → AllRows (IsAllowed allowed d.now) d.now.offsets × (d.now.offsets ≡ c.now.saved.offsets) }
{}

/// A copy of a half message comes only by a Commit of one of its family while its origin is open, so without a Commit there is none,
/// and whatever crashes there is at most one, or what the opening's log had. Where a Commit is answered, its copy stays until it is
/// removed, whether this Commit made it or an earlier one. Queue offsets are below 2^64.
pub fn halves_hold()
    ensures only { (b c d : Boot) (moves : List Move) (e : events.Event) (said : Option events.Answer) (n : ℕ) (r : Entry) → IsOpening b
        → Run b moves c → Goes c (Steps e said) d → count_of c.now.log ≤ n → StandsAt d.now n r → is_copy r ≡ true
        → IsMadeByCommit c.now e r }
    ensures none { (b c : Boot) (moves : List Move) (h : ℕ) → h < 2 ^ 64 → IsOpening b → copies b.now.log.records h ≡ 0
        → RunWith (NoCommitOn h) b moves c → copies c.now.log.records h ≡ 0 }
    ensures once { (b c : Boot) (moves : List Move) (h : ℕ) → h < 2 ^ 64 → IsOpening b → Run b moves c
        → copies c.now.log.records h ≤ max 1 (copies b.now.log.records h) }
    ensures stays { (b c : Boot) (moves : List Move) (e : events.Event) (reply : events.Reply) (number h : ℕ) → IsOpening b
        → (answers : AnswersAfter b moves c e reply number) → is_verdict_on answers.asked.now h 8 e ≡ true
        → (n : ℕ) × (copy : Entry) × IsCopyAt answers.heard.now h n copy × (n < c.now.flushed) × StandsOrRemoved c.now n copy }
    // At once: in sync mode, of a half message that waits, such a Commit was said before.
    ensures stays_at_once { (b c : Boot) (moves : List Move) (a : events.Asked) (end : EndSaid) (reply : events.Reply) (h : ℕ) → IsOpening b
        → a.request ≡ EndTransaction end → (answers : AnswersAtOnce b moves c (events.Asks a) reply)
        → is_verdict_on answers.asked.now h 8 (events.Asks a) ≡ true → answers.asked.now.setup.sync ≡ true
        → half_waits (named_half answers.asked.now end) ≡ true
        → (n : ℕ) × (copy : Entry) × IsCopyAt answers.heard.now h n copy × (n < c.now.flushed) × StandsOrRemoved c.now n copy }
{}

/// Where a Commit is answered, its origin stood when it came, and is committed in every later state of the run, whatever crashes and
/// whoever says a verdict on it again, until it is removed.
pub fn commits_stay()
    ensures stays { (b c : Boot) (moves : List Move) (e : events.Event) (reply : events.Reply) (number h : ℕ) → IsOpening b
        → (answers : AnswersAfter b moves c e reply number) → is_verdict_on answers.asked.now h 8 e ≡ true
        → (i : ℕ) × (origin : Entry) × StandsAt answers.asked.now i origin × (is_origin h origin ≡ true) × IsCommittedOrRemoved c.now h i }
    // At once: in sync mode, of a half message that waits, such a Commit was said before.
    ensures stays_at_once { (b c : Boot) (moves : List Move) (a : events.Asked) (end : EndSaid) (reply : events.Reply) (h : ℕ) → IsOpening b
        → a.request ≡ EndTransaction end → (answers : AnswersAtOnce b moves c (events.Asks a) reply)
        → is_verdict_on answers.asked.now h 8 (events.Asks a) ≡ true → answers.asked.now.setup.sync ≡ true
        → half_waits (named_half answers.asked.now end) ≡ true
        → (i : ℕ) × (origin : Entry) × StandsAt answers.asked.now i origin × (is_origin h origin ≡ true) × IsCommittedOrRemoved c.now h i }
{}

/// Where a Rollback is answered, its origin stood when it came, and is rolled back in every later state of the run, whatever crashes and
/// whoever says a verdict on it again, until it is removed: no Commit that comes later makes the message.
pub fn rollbacks_stay()
    ensures stays { (b c : Boot) (moves : List Move) (e : events.Event) (reply : events.Reply) (number h : ℕ) → IsOpening b
        → (answers : AnswersAfter b moves c e reply number) → is_verdict_on answers.asked.now h 12 e ≡ true
        → StaysRolledBack answers.asked.now c.now h }
    // At once: in sync mode, of a half message that waits, such a Rollback was said before.
    ensures stays_at_once { (b c : Boot) (moves : List Move) (a : events.Asked) (end : EndSaid) (reply : events.Reply) (h : ℕ) → IsOpening b
        → a.request ≡ EndTransaction end → (answers : AnswersAtOnce b moves c (events.Asks a) reply)
        → is_verdict_on answers.asked.now h 12 (events.Asks a) ≡ true → answers.asked.now.setup.sync ≡ true
        → half_waits (named_half answers.asked.now end) ≡ true → StaysRolledBack answers.asked.now c.now h }
{}

/// The deliveries of each level are numbered one after another, each is that of the message with its number, and none comes twice,
/// whatever crashes: where one was on the disk, and there is one later, they are one record, or the first was removed.
pub fn delays_once()
    ensures empty { (log : Log) → log.records ≡ [] → InOrder log }
    ensures order { (b c : Boot) (moves : List Move) → IsOpening b → InOrder b.now.log → Run b moves c → InOrder c.now.log }
    ensures once { (b c : Boot) (moves : List Move) (i k level number : ℕ) (x y : Entry) → IsOpening b → InOrder b.now.log
        → Run b moves c → 1 ≤ level → level ≤ 18 → number < 2 ^ 64 → slice_get c.now.log.records i ≡ Some x
        → slice_get c.now.log.records k ≡ Some y → Delivers level number x → Delivers level number y → i ≡ k }
    ensures ever { (b c d : Boot) (moves more : List Move) (n k level number : ℕ) (x y : Entry) → IsOpening b → InOrder b.now.log
        → Run b moves c → Run c more d → 1 ≤ level → level ≤ 18 → number < 2 ^ 64 → n < c.now.flushed → StandsAt c.now n x
        → StandsAt d.now k y → Delivers level number x → Delivers level number y → (n < d.now.log.base.records) ⊎ (n ≡ k) }
{}

/// What is removed was done. Nothing is removed but what the saved base counts, and all of that is on the disk and dispatched. Each
/// half message of it is settled, and goes with its renewals, and each delayed message of it is delivered, by a record on the disk that
/// stands behind it. So a removal takes no half message that is open and no delayed message that still waits.
pub fn removed_are_done()
    ensures flushed { (b c : Boot) (moves : List Move) → IsOpening b → Run b moves c
        → (c.now.log.base.records ≤ c.now.saved.base.records) × (c.now.saved.base.records ≤ c.now.dispatched)
        × (c.now.dispatched ≤ c.now.flushed) }
    ensures removed { (b c : Boot) (move : Move) (n : ℕ) (r : Entry) → Goes b move c → StandsAt b.now n r → n < c.now.log.base.records
        → n < b.now.saved.base.records }
    ensures settled { (b c : Boot) (moves : List Move) (n h : ℕ) (origin : Entry) → IsOpening b → Run b moves c → StandsAt c.now n origin
        → is_origin h origin ≡ true → n < c.now.saved.base.records
        → IsSettledBehind c.now h n × (transaction_state c.now.log.records h ≢ Open) }
    // A half message goes with its renewals.
    ensures families { (b c : Boot) (moves : List Move) (n m h : ℕ) (origin renewal : Entry) → IsOpening b → Run b moves c
        → StandsAt c.now n origin → is_origin h origin ≡ true → n < c.now.saved.base.records → StandsAt c.now m renewal
        → is_renewal h renewal ≡ true → m < c.now.saved.base.records }
    // Whatever the opening's log: the message was delivered in a state of this boot.
    ensures was_delivered { (b c : Boot) (moves : List Move) (n : ℕ) (item : Entry) → IsOpening b → Run b moves c
        → StandsAt c.now n item → is_delayed item ≡ true → n < c.now.saved.base.records → WasDelivered c n item }
    // Where the deliveries of the opening's log are in order, as those of an empty log are, it still is.
    ensures delivered { (b c : Boot) (moves : List Move) (n : ℕ) (item : Entry) → IsOpening b → InOrder b.now.log → Run b moves c
        → StandsAt c.now n item → is_delayed item ≡ true → n < c.now.saved.base.records → IsDeliveredBehind c.now item n }
{}

/// The laws speak of something: `hi` is sent to an empty store, acknowledged, dispatched and pulled; the offset 9 is stored as 1, the
/// end of its queue, and saved; then all crashes, and the record and the offset are kept. A saved offset past its queue is cut.
pub fn a_run_happens()
    ensures opening { IsOpening examples.at_opening }
    ensures acknowledged { IsAcknowledged examples.at_opening examples.until_crash examples.at_crash 0 examples.hi_record }
    ensures dispatched { Run examples.at_opening examples.until_dispatch examples.at_dispatch }
    ensures pulled { Goes examples.at_dispatch (Steps (events.Asks examples.asked_pull) (Some (events.Replies examples.pull_said)))
        examples.at_pull }
    ensures later { Run examples.at_pull examples.from_pull examples.at_crash }
    ensures found { slice_get examples.pull_said.body 0 ≡ Some examples.hi_record }
    ensures saved { RunWith (StoresOnly examples.is_one) examples.at_opening examples.until_saving examples.at_saving }
    ensures crash { Goes examples.at_saving (Crashes 1 examples.setup) examples.at_crash }
    ensures kept { slice_get examples.at_crash.now.log.records 0 ≡ Some examples.hi_record }
    ensures offset { map (λ row. row.offset) examples.at_crash.now.offsets ≡ 1 ∷ [] }
    ensures cut { IsOpening examples.at_cut × (map (λ row. row.offset) examples.at_cut.now.offsets ≡ 0 ∷ []) }
{}

/// The law on tables speaks of something: each state has tables that stand for it. A record that is on the disk is in its queue there
/// once it is dispatched, and not before; behind an opening over a log its records are in queues and under their keys. A crash that keeps
/// a copy keeps a half message committed, and one that keeps a delivery keeps the progress of its level.
pub fn a_replay_happens()
    ensures tables { (s : State) → StandsFor (examples.tables_of s) s }
    ensures waits { (count_of examples.at_look.now.log ≡ 1) × ((examples.tables_of examples.at_look.now).queues (codes "T") 0 ≡ []) }
    ensures dispatched { (examples.at_dispatch.now.dispatched ≡ count_of examples.at_dispatch.now.log)
        × ((examples.tables_of examples.at_dispatch.now).queues (codes "T") 0 ≡ examples.hi_record ∷ []) }
    ensures opened { IsOpening replays.at_keyed
        × ((examples.tables_of replays.at_keyed.now).queues (codes "T") 0 ≡ replays.keyed_record ∷ [])
        × ((examples.tables_of replays.at_keyed.now).keys replays.hash_of_key ≡ replays.keyed_record ∷ []) }
    ensures crashed { Goes commits.at_commit (Crashes 2 examples.setup) commits.at_kept_copy
        × ((examples.tables_of commits.at_kept_copy.now).states 0 ≡ Committed) }
    ensures delivered { Goes deliveries.at_delivered (Crashes 2 examples.setup) deliveries.at_crash
        × ((examples.tables_of deliveries.at_crash.now).levels 1 ≡ 1) }
{}

/// The laws on halves and on Commits speak of something: a half message is sent and flushed, and a Commit of it is answered once its
/// copy and op record are flushed. Or a crash keeps the copy alone: the Commit that is said again is answered at once, and there is still
/// one copy. Or it is rolled back, and a Commit is refused.
pub fn a_commit_happens()
    ensures answered { (answers : AnswersAfter examples.at_opening commits.until_told commits.at_told commits.commits done_reply 2)
        × (is_verdict_on answers.asked.now 0 8 commits.commits ≡ true) }
    ensures appended { Goes commits.at_flushed (Steps commits.commits (Some (events.After done_reply 2 1))) commits.at_commit
        × ((copy : Entry) × StandsAt commits.at_commit.now 1 copy × (is_copy copy ≡ true) × (count_of commits.at_flushed.now.log ≤ 1)) }
    ensures copied { copies commits.at_commit.now.log.records 0 ≡ 1 }
    ensures again { (answers : AnswersAtOnce examples.at_opening commits.until_again commits.at_again commits.commits done_reply)
        × (is_verdict_on answers.asked.now 0 8 commits.commits ≡ true) × (answers.asked.now.setup.sync ≡ true)
        × (half_waits (named_half answers.asked.now commits.commit_said) ≡ true) }
    ensures once { copies commits.at_again.now.log.records 0 ≡ 1 }
    ensures committed { (transaction_state commits.at_told.now.log.records 0 ≡ Committed)
        × (transaction_state commits.at_again.now.log.records 0 ≡ Committed) }
    // Rolled back: a Commit that is refused is none.
    ensures rolled_back { RunWith (NoCommitOn 0) examples.at_opening commits.until_refused commits.at_refused
        × (transaction_state commits.at_refused.now.log.records 0 ≡ RolledBack) }
{}

/// The law on Rollbacks speaks of something: a half message is sent and flushed, and a Rollback of it is answered once its op record is
/// flushed. Then all crashes: the Rollback that is said again is answered at once, and a Commit is refused.
pub fn a_rollback_happens()
    ensures answered { (answers : AnswersAfter examples.at_opening commits.until_rolled_back commits.at_undone commits.rolls_back done_reply 1)
        × (is_verdict_on answers.asked.now 0 12 commits.rolls_back ≡ true) }
    ensures again { (answers : AnswersAtOnce examples.at_opening commits.until_undone_again commits.at_undone_again commits.rolls_back done_reply)
        × (is_verdict_on answers.asked.now 0 12 commits.rolls_back ≡ true) × (answers.asked.now.setup.sync ≡ true)
        × (half_waits (named_half answers.asked.now commits.rollback_said) ≡ true) }
    ensures rolled_back { (transaction_state commits.at_undone.now.log.records 0 ≡ RolledBack)
        × (transaction_state commits.at_undone_again.now.log.records 0 ≡ RolledBack) }
    ensures refused { is_verdict_on commits.at_undone_again.now 0 8 commits.commits ≡ false }
{}

/// The law on delays speaks of something: `hi` is sent with the delay level 1 to an empty store, flushed and dispatched, and delivered
/// once its time has come. The delivery, with the number 0 of its level, is flushed too. Then all crashes, and the delivery that is asked
/// for again comes to nothing.
pub fn a_delivery_happens()
    ensures opening { IsOpening examples.at_opening × InOrder examples.at_opening.now.log }
    ensures run { Run examples.at_opening deliveries.until_delivered deliveries.at_delivered }
    ensures delivered { (x : Entry) × StandsAt deliveries.at_delivered.now 1 x × Delivers 1 0 x }
    ensures flushed { deliveries.at_delivered.now.flushed ≡ 2 }
    ensures crash { Run deliveries.at_delivered deliveries.until_again deliveries.at_again
        × ((y : Entry) × StandsAt deliveries.at_again.now 1 y × Delivers 1 0 y)
        × (map (λ r. value_of (codes "DELAY_FROM") r.props) deliveries.at_again.now.log.records ≡ None ∷ Some (delivery_text 1 0) ∷ []) }
{}

/// The law on removal speaks of something: in segments of 4,096 bytes a half message is sent, asked for and committed, `hi` is sent with
/// the delay level 1 and delivered, and two long messages follow, of which the second begins the next segment. All is flushed and
/// dispatched. The base of the first segment may be saved, and counts the half message, its renewal and the delayed message; once it is
/// taken over, or once all crashes, the log begins with the last message.
pub fn a_removal_happens()
    ensures opening { IsOpening removals.at_empty × InOrder removals.at_empty.now.log }
    ensures saved { Run removals.at_empty removals.until_saved removals.at_saved }
    ensures half { (origin : Entry) × StandsAt removals.at_saved.now 0 origin × (is_origin 0 origin ≡ true)
        × (0 < removals.at_saved.now.saved.base.records) }
    ensures renewal { (renewal : Entry) × StandsAt removals.at_saved.now 1 renewal × (is_renewal 0 renewal ≡ true) }
    ensures delayed { (item : Entry) × StandsAt removals.at_saved.now 4 item × (is_delayed item ≡ true)
        × (4 < removals.at_saved.now.saved.base.records) }
    ensures removed { Goes removals.at_saved (examples.answered removals.at_saved (events.Trim removals.next_base)) removals.at_removed
        × (removals.at_removed.now.log.base.records ≡ 7)
        × (map (λ r. r.offset) removals.at_removed.now.log.records ≡ 4096 ∷ []) }
    ensures crash { Goes removals.at_saved (Crashes 8 removals.small) removals.at_restart
        × (map (λ r. r.offset) removals.at_restart.now.log.records ≡ 4096 ∷ []) }
{}
