//! What holds of the pending part of a log. No call is made: the clauses speak of the definitions.

ghost use Rattle.std.specs.Prelude.{◌≡◌, ◌<◌, ◌≤◌, length, sum_by};
ghost use Rattle.record_codec.specs.Layout.{size};
ghost use Rattle.log_model.specs.Bases.{Base};
ghost use Rattle.log_model.specs.Numbered.{Log, above, records_from};
ghost use Rattle.pending_log.specs.Parts.{PendingPart};
ghost use Rattle.pending_log.specs.Pending.{IsPendingOf};

/// Where flushed records are removed from the front of a log, and not all of them, what is pending stays.
pub fn removal_leaves_what_is_pending()
    ensures { (log : Log) (base : Base) (p : PendingPart) → log.base.records ≤ base.records → base.records < p.flushed
        → IsPendingOf log p → IsPendingOf (above log base) p }
{}

/// As many bytes are pending as the sizes of the pending records say.
pub fn the_pending_bytes_are_the_sizes_of_their_records()
    ensures { (log : Log) (p : PendingPart) → IsPendingOf log p → length p.bytes ≡ sum_by size (records_from log p.flushed) }
{}
