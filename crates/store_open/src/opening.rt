//! Opens the store: it has a format of this program, or none yet and no file.
//!
//! A store that stands is told by its format: `open_format` answers its sizes. What its files hold is not looked at here. Behind
//! it the format stays through a crash, so a log is never written that could be left without one.

ghost use Rattle.std.specs.Prelude.{◌≡◌, ◌≢◌, ◌⊎◌, List, ℕ, [], codes, map, None, Some, slice_get, string_bytes, IfErr, IfOk, OnOk};
ghost use Rattle.mq_outside.specs.Counts.{Rises};
ghost use Rattle.mq_outside.specs.Files.{HasNoFile, Same, At, OldOrNew};
ghost use Rattle.mq_outside.specs.Disk.{IsDurable, Moves};
ghost use Rattle.store_open.specs.declared.format.Sizes.{Sizes as TheSizes};
ghost use Rattle.store_open.specs.Formats.{AreAllowed, AreSizes, IsFormatFor};
ghost use Rattle.store_open.specs.Openings.{FORMAT, IsForeign, IsOpened, OpeningCause, PutsOnly, own_format, store_told};
ghost use Rattle.store_open.specs.Statuses.{FitsTable};

use crate::format::{AskedSizes, Sizes, read_format, write_format};
use crate::status::Status;
use mq_outside::{Disk, DiskFault, Keep};
use std::alloc::Global;

// The first file of the disk, if there is one.
fn foreign_file(alloc: Global, names: &[String]) -> Result<(), Status>
    ensures none { OnOk result (names.now ≡ []) }
    ensures first { IfErr result (λ status. (status.code ≡ 7) ⊎ ((status.code ≡ 6)
        × (slice_get (map (λ name. string_bytes name) names.now) 0 ≡ Some status.name))) }
    ensures table { IfErr result FitsTable }
{
    match names.first() {
        Some(name) => Err(Status::named(alloc, 6, name.as_str())),
        None => Ok(()),
    }
}

// The sizes that a format says, where no others were asked for.
fn kept_sizes(alloc: Global, text: &[u8], asked: &AskedSizes) -> Result<Sizes, Status>
    ensures are { IfOk result (IsFormatFor text.now asked.now) }
    ensures other { IfErr result (λ status. (status.code ≡ 7) ⊎ ((status.code ≡ 6) × (status.name ≡ FORMAT)
        × ((sizes : TheSizes) → IsFormatFor text.now asked.now sizes → ⊥))) }
    ensures table { IfErr result FitsTable }
{
    match read_format(text) {
        Some(sizes) => {
            if asked.agree(&sizes) {
                return Ok(sizes);
            }
            Err(Status::named(alloc, 6, "format"))
        }
        None => Err(Status::named(alloc, 6, "format")),
    }
}

// Puts the text under `format`, where it then stays through a crash.
fn put_format<P: Keep>(alloc: Global, keep: &mut P, text: &[u8]) -> Result<(), Status>
    ensures done { P.tells → OnOk result ((P.state keep.new).reads FORMAT ≡ Some text.now) }
    ensures durable { P.tells → OnOk result (IsDurable FORMAT (P.state keep.new)) }
    ensures moves { P.tells → Moves (At FORMAT (OldOrNew text.now)) (P.state keep.old) (P.state keep.new) }
    ensures cause { IfErr result (λ status. (status.code ≡ 7) ⊎ ((status.code ≡ 10) × (status.name ≡ codes "keep")
        × Rises (P.faults keep.old) (P.faults keep.new))) }
    ensures still { OnOk result (P.faults keep.new ≡ P.faults keep.old) }
    ensures table { IfErr result FitsTable }
{
    match keep.replace(alloc, "format", text) {
        Ok(()) => Ok(()),
        Err(DiskFault::Failed) => Err(Status::named(alloc, 10, "keep")),
        Err(DiskFault::Memory) => Err(Status::plain(alloc, 7)),
    }
}

/// Opens the store, and answers its sizes. Where it has no format and no file, its format is written: with the sizes that were
/// asked for, and the defaults for the rest. A format that stands is put once more as it is, since it may come from a replacement
/// that failed after it could be read, and need not be durable yet.
pub fn open_format<D: Disk, P: Keep>(
    alloc: Global,
    disk: &mut D,
    keep: &mut P,
    asked: &AskedSizes,
) -> Result<Sizes, Status>
    // The sizes, where they come from, and the format that stands behind the call.
    ensures opened { IfOk result (λ sizes. IsOpened asked.now sizes
        (store_told D.tells (D.state disk.old).reads P.tells (P.state keep.old).reads) (P.state keep.new)) }
    ensures allowed { AreAllowed asked.now → IfOk result AreSizes }
    ensures empty { D.tells → P.tells → (P.state keep.old).reads FORMAT ≡ None → OnOk result (HasNoFile (D.state disk.old).reads) }

    // Status 6 tells what makes the store foreign, and no such store is opened.
    ensures foreign { D.tells → P.tells → IfErr result (λ status. status.code ≡ 6
        → IsForeign (D.state disk.old).reads ((P.state keep.old).reads FORMAT) asked.now status.name) }
    ensures cause { IfErr result (λ status. OpeningCause status (D.faults disk.old) (D.faults disk.new) (P.faults keep.old)
        (P.faults keep.new)) }

    ensures table { IfErr result FitsTable }

    // Nothing else changes: not the disk, no other text of the keep, and no format that stands. At each moment the format is as
    // it was before, or the right text.
    ensures rests { D.tells → Moves Same (D.state disk.old) (D.state disk.new) }
    ensures disk_still { OnOk result (D.faults disk.new ≡ D.faults disk.old) }
    ensures keep_still { OnOk result (P.faults keep.new ≡ P.faults keep.old) }
    ensures puts { P.tells → PutsOnly (own_format ((P.state keep.old).reads FORMAT) asked.now) (P.state keep.old) (P.state keep.new) }
    ensures others { P.tells → (name : List ℕ) → name ≢ FORMAT → (P.state keep.new).reads name ≡ (P.state keep.old).reads name }
    ensures stands { P.tells → (text : List ℕ) → (P.state keep.old).reads FORMAT ≡ Some text → (P.state keep.new).reads FORMAT ≡ Some text }
    ensures untouched { P.tells → IfErr result (λ status. status.code ≡ 6 → Moves Same (P.state keep.old) (P.state keep.new)) }
{
    let names = match disk.list(alloc) {
        Ok(names) => names,
        Err(DiskFault::Failed) => return Err(Status::plain(alloc, 5)),
        Err(DiskFault::Memory) => return Err(Status::plain(alloc, 7)),
    };
    let format = match keep.load(alloc, "format") {
        Ok(format) => format,
        Err(DiskFault::Failed) => return Err(Status::named(alloc, 10, "keep")),
        Err(DiskFault::Memory) => return Err(Status::plain(alloc, 7)),
    };
    if let Some(text) = format {
        let sizes = match kept_sizes(alloc, text.as_slice(), asked) {
            Ok(sizes) => sizes,
            Err(status) => return Err(status),
        };
        put_format(alloc, keep, text.as_slice())?;
        return Ok(sizes);
    }
    foreign_file(alloc, names.as_slice())?;
    let sizes = asked.of_new_store();
    let Ok(text) = write_format(alloc, &sizes) else {
        return Err(Status::plain(alloc, 7));
    };
    put_format(alloc, keep, text.as_slice())?;
    Ok(sizes)
}
