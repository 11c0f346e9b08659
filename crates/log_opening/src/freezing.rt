//! The files of a log that was recovered become pieces, one for each file.

ghost use Rattle.std.specs.Prelude.{◌≡◌, ◌+◌, ◌*◌, ◌/◌, ◌%◌, ◌^◌, ◌<◌, ◌≤◌, ℕ, Some, IsSome, length, take, IfOk, IfSome, OnOk};
ghost use Rattle.mq_bytes.specs.Names.{log_file};
ghost use Rattle.mq_outside.specs.Counts.{CountsFailure};
ghost use Rattle.mq_outside.specs.Disk.{Rests, Moves, IsDurable};
ghost use Rattle.mq_outside.specs.Files.{Files, Same, bytes_of};
ghost use Rattle.log_model.specs.Bases.{whole};
ghost use Rattle.log_model.specs.Log.{IsSegmentSize};
ghost use Rattle.log_model.specs.Segments.{segment_file};
ghost use Rattle.log_recovery.specs.Recovered.{OnDamage, CountsRecoverFault};
ghost use Rattle.log_opening.specs.Freezes.{HasUpTo, ArePieces};

use log_recovery::RecoverFault;
use mq_bytes::LogFile;
use mq_outside::{Disk, Failed, Frozen, FrozenRanges};
use std::alloc::Global;

// Makes the log file of this base durable. The next one begins at `next`, and is there if the log goes on past it. The end of
// the last file is written again: a process that died may have failed to sync it, and then a sync alone answers Ok without it.
fn make_durable<D: Disk>(disk: &mut D, base: u64, next: u64, end: u64) -> Result<(), Failed>
    requires ordered { base < next }
    requires made { D.tells → next < end → IsSome ((D.state disk.old).reads (log_file next)) }
    ensures durable { D.tells → OnOk result (IsDurable (log_file base) (D.state disk.new)) }
    ensures moves { D.tells → Moves Same (D.state disk.old) (D.state disk.new) }
    ensures cause { CountsFailure result (D.faults disk.old) (D.faults disk.new) }
    ensures syncs { D.syncs disk.new ≤ D.syncs disk.old + 1 }
{
    let file = LogFile::of(base);
    if next < end {
        let behind = LogFile::of(next);
        return disk.sync_ended(file.as_str(), behind.as_str());
    }
    disk.renew(file.as_str())
}

// The first bytes of the log file of this base as a piece, so many, of a log that ends at `end`. The file is synced first: one
// that was copied here, or written by a process that died, may not be on the disk yet.
fn freeze_file<D: Disk>(
    alloc: Global,
    disk: &mut D,
    base: u64,
    len: u64,
    end: u64,
) -> Result<Frozen, RecoverFault>
    requires some { 0 < len }
    requires low { base + len ≤ 2 ^ 62 }
    requires within { D.tells → len ≤ length (bytes_of (D.state disk.old).reads (log_file base)) }
    requires made { D.tells → base + len < end → IsSome ((D.state disk.old).reads (log_file (base + len))) }
    ensures range { IfOk result (λ piece. (piece.base ≡ base) × (piece.from ≡ 0) × (piece.len ≡ len)) }
    ensures held { D.tells → IfOk result (λ piece. piece.held ≡ Some (take len (bytes_of (D.state disk.old).reads (log_file base)))) }
    ensures no_others { IfOk result (λ piece. IfSome piece.held (λ held. D.tells)) }
    ensures rests { D.tells → Rests (D.state disk.old) (D.state disk.new) }
    ensures damage { OnDamage result (λ place name. ⊥) }
    ensures cause { CountsRecoverFault result (D.faults disk.old) (D.faults disk.new) }
    ensures syncs { D.syncs disk.new ≤ D.syncs disk.old + 1 }
{
    make_durable(disk, base, base + len, end)?;
    let piece = disk.freeze_stored(alloc, base, 0, len)?;
    Ok(piece)
}

// Adds the piece of a segment's file, of so many bytes, behind those of the segments before it, of a log that ends at `end`.
fn add_file<D: Disk>(
    alloc: Global,
    disk: &mut D,
    segment: u32,
    number: u64,
    len: u64,
    end: u64,
    stored: &mut FrozenRanges,
) -> Result<(), RecoverFault>
    requires some { 0 < len }
    requires short { len ≤ segment }
    requires low { number * segment + len ≤ 2 ^ 62 }
    requires behind { stored.old.end ≤ number * segment }
    requires within { D.tells → len ≤ length (bytes_of (D.state disk.old).reads (segment_file (whole segment) number)) }
    requires made { D.tells → number * segment + len < end
        → IsSome ((D.state disk.old).reads (log_file (number * segment + len))) }
    ensures pieces { (files : Files) → (D.tells → (D.state disk.old).reads ≡ files)
        → ArePieces D.tells segment (number * segment) files stored.old
        → OnOk result (ArePieces D.tells segment (number * segment + len) files stored.new) }
    ensures end { OnOk result (stored.new.end ≡ number * segment + len) }
    ensures rests { D.tells → Rests (D.state disk.old) (D.state disk.new) }
    ensures damage { OnDamage result (λ place name. ⊥) }
    ensures cause { CountsRecoverFault result (D.faults disk.old) (D.faults disk.new) }
    ensures syncs { D.syncs disk.new ≤ D.syncs disk.old + 1 }
{
    let base = number * u64::from(segment);
    let piece = freeze_file(alloc, disk, base, len, end)?;
    stored.reserve()?;
    stored.push(piece);
    Ok(())
}

// Adds the pieces of the first segments, so many, each of which is whole, of a log that ends at `end`.
fn add_whole<D: Disk>(
    alloc: Global,
    disk: &mut D,
    segment: u32,
    count: u64,
    end: u64,
    stored: &mut FrozenRanges,
) -> Result<(), RecoverFault>
    requires size { IsSegmentSize segment }
    requires low { count * segment ≤ 2 ^ 62 }
    requires none { stored.old.end ≡ 0 }
    requires within { D.tells → (k : ℕ) → k < count
        → segment ≤ length (bytes_of (D.state disk.old).reads (segment_file (whole segment) k)) }
    requires made { D.tells → (k : ℕ) → k * segment < end → IsSome ((D.state disk.old).reads (segment_file (whole segment) k)) }
    ensures pieces { (files : Files) → (D.tells → (D.state disk.old).reads ≡ files) → ArePieces D.tells segment 0 files stored.old
        → OnOk result (ArePieces D.tells segment (count * segment) files stored.new) }
    ensures end { OnOk result (stored.new.end ≤ count * segment) }
    ensures rests { D.tells → Rests (D.state disk.old) (D.state disk.new) }
    ensures damage { OnDamage result (λ place name. ⊥) }
    ensures cause { CountsRecoverFault result (D.faults disk.old) (D.faults disk.new) }
    ensures syncs { D.syncs disk.new ≤ D.syncs disk.old + count }
{
    for i in 0..count {
        add_file(alloc, disk, segment, i, u64::from(segment), end, stored)?;
    }
    Ok(())
}

/// The pieces of a log that ends here, one for each of its files.
pub(crate) fn freeze_log<D: Disk>(
    alloc: Global,
    disk: &mut D,
    segment: u32,
    end: u64,
) -> Result<FrozenRanges, RecoverFault>
    requires size { IsSegmentSize segment }
    requires low { end ≤ 2 ^ 62 }
    requires has { D.tells → HasUpTo segment end (D.state disk.old).reads }
    ensures pieces { (files : Files) → (D.tells → (D.state disk.old).reads ≡ files) → IfOk result (ArePieces D.tells segment end files) }
    ensures rests { D.tells → Rests (D.state disk.old) (D.state disk.new) }
    ensures damage { OnDamage result (λ place name. ⊥) }
    ensures cause { CountsRecoverFault result (D.faults disk.old) (D.faults disk.new) }
    ensures syncs { D.syncs disk.new ≤ D.syncs disk.old + (end / segment + 1) }
{
    let mut stored = FrozenRanges::new(alloc);
    let count = end / u64::from(segment);
    add_whole(alloc, disk, segment, count, end, &mut stored)?;
    let rest = end % u64::from(segment);
    if rest > 0 {
        add_file(alloc, disk, segment, count, rest, end, &mut stored)?;
    }
    Ok(stored)
}
