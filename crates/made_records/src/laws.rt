//! The records that the broker makes of a half message may stand in its log, each of its own kind. No call is made: the clauses
//! speak of the definitions.

ghost use Rattle.std.specs.Prelude.{◌≡◌, ◌<◌, ◌≤◌, ◌^◌, ℕ, List, Some, IsSome, slice_get, true};
ghost use Rattle.record_codec.specs.Entry.{Entry};
ghost use Rattle.record_codec.specs.Layout.{IsRecord};
ghost use Rattle.record_codec.specs.Drafts.{entry_of};
ghost use Rattle.record_codec.specs.declared.draft.Place.{Place};
ghost use Rattle.record_codec.specs.declared.draft.Record.{Record};
ghost use Rattle.log_model.specs.declared.origin.OriginState.TheVariants.{Committed, RolledBack, Discarded};
ghost use Rattle.log_model.specs.Admissible.{IsAdmissible};
ghost use Rattle.log_model.specs.Kinds.{is_half, origin_text};
ghost use Rattle.log_model.specs.Drafts.{copy_draft, op_draft, renewal_draft, discard_draft};
ghost use Rattle.log_model.specs.Numbered.{Log, IsLawful};
ghost use Rattle.log_model.specs.Queues.{said_by};
ghost use Rattle.log_model.specs.Transactions.{origin_of};
ghost use Rattle.reply_fields.specs.Asks.{IsAsked};
ghost use Rattle.half_view.specs.Halves.{HalfTable, family_at, with_settled};
ghost use Rattle.half_view.specs.OfLog.{AreHalvesOf, with_settlement};
ghost use Rattle.made_records.specs.Made.{CanStand, IsCopyOfHalf, IsDiscardOfHalf, IsOpOf, IsHalfOf};

/// The committed copy of a half message may stand anywhere behind it.
pub fn a_committed_copy_may_stand()
    ensures { (S halves : ℕ) (h : Entry) (host : List ℕ) (p : Place) → IsRecord h → IsAdmissible S h → is_half h ≡ true
        → h.offset < p.offset
        → CanStand S halves (copy_draft host h) p × IsCopyOfHalf h (entry_of (copy_draft host h) p) }
{}

/// The discarded copy of a renewal may stand anywhere behind it.
pub fn a_discarded_copy_may_stand()
    ensures { (S halves : ℕ) (h : Entry) (host : List ℕ) (p : Place) → IsRecord h → IsAdmissible S h → is_half h ≡ true
        → IsSome (origin_text h) → h.offset < p.offset
        → CanStand S halves (discard_draft host h) p × IsDiscardOfHalf h (entry_of (discard_draft host h) p) }
{}

/// The record that names a settled origin may stand anywhere in a log that has the origin.
pub fn an_op_record_may_stand()
    ensures { (S halves now origin : ℕ) (host : List ℕ) (p : Place) → 4096 ≤ S → now < 2 ^ 62 → origin < halves → origin < 2 ^ 62
        → CanStand S halves (op_draft host now origin) p × IsOpOf origin (entry_of (op_draft host now origin) p) }
{}

/// Each of the 15 renewals of a half message may stand anywhere in a log that has it, and is a half message that names it.
pub fn a_renewal_may_stand()
    ensures { (S halves n : ℕ) (h : Entry) (host : List ℕ) (p : Place) → IsRecord h → IsAdmissible S h → is_half h ≡ true
        → n ≤ 15 → h.queue_offset < halves
        → CanStand S halves (renewal_draft host n h) p × IsHalfOf (Some h.queue_offset) (entry_of (renewal_draft host n h) p) }
{}

/// A half message that names its origin can be sent to its producer as the message that it will be.
pub fn a_renewal_can_be_asked_for()
    ensures { (S n : ℕ) (view : Record) → IsRecord (said_by view) → IsAdmissible S (said_by view) → IsHalfOf (Some n) (said_by view)
        → IsAsked view }
{}

/// The table of a log has the origin of each half message at the place of this.
pub fn a_table_has_each_origin()
    ensures { (segment k : ℕ) (log : Log) (t : HalfTable) (h o : Entry) → IsLawful segment log → AreHalvesOf log t
        → slice_get log.records k ≡ Some h → is_half h ≡ true → origin_of log.records h ≡ Some o
        → family_at t h.offset ≡ Some o.queue_offset }
{}

/// What a copy, a discarded copy and an op record settle, where the table has the origin at the place of the half message.
pub fn each_settles_its_origin()
    ensures copy { (t : HalfTable) (h r : Entry) (origin number : ℕ) → IsCopyOfHalf h r → family_at t h.offset ≡ Some origin
        → with_settlement t r number ≡ with_settled t (Some origin) Committed number }
    ensures discard { (t : HalfTable) (h r : Entry) (origin number : ℕ) → IsDiscardOfHalf h r → family_at t h.offset ≡ Some origin
        → with_settlement t r number ≡ with_settled t (Some origin) Discarded number }
    ensures op { (t : HalfTable) (r : Entry) (origin number : ℕ) → IsOpOf origin r
        → with_settlement t r number ≡ with_settled t (Some origin) RolledBack number }
{}
