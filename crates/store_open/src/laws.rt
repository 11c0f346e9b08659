//! What a crash leaves of a store and its format while the store is opened, and from then on. No call is made: the clauses speak
//! of the definitions.

ghost use Rattle.std.specs.Prelude.{◌≡◌, ◌≤◌, ℕ};
ghost use Rattle.mq_outside.specs.Disk.{EachImage, IsCrashImage};
ghost use Rattle.mq_outside.specs.Files.{Files};
ghost use Rattle.store_open.specs.Openings.{FORMAT, IsOpened, PutsOnly, own_format, store_told};
ghost use Rattle.store_open.specs.declared.format.AskedSizes.{AskedSizes};
ghost use Rattle.store_open.specs.declared.format.Sizes.{Sizes};
ghost use Rattle.store_open.specs.Formats.{AreAllowed};
ghost use Rattle.store_open.specs.Left.{HasFormat, IsStoreOrNothing};

use mq_outside::{Disk, Keep};

/// What a crash leaves of a store has its format, or is nothing yet: while the keep is asked the disk is as it was before, and from
/// the first file on the keep is as at the end. So the next opening doesn't take it for another's.
pub fn a_cut_off_opening_leaves_a_store<D: Disk, E: Disk, P: Keep, Q: Keep>(
    before: &D,
    crashed: &E,
    keep_before: &P,
    keep_behind: &P,
    keep_crashed: &Q,
)
    // While the format is looked up and put, the disk is as it was.
    ensures unopened { P.tells → (asked : AskedSizes) (sizes : Sizes) (m : ℕ) (files texts : Files) → AreAllowed asked
        → IsStoreOrNothing sizes (D.state before.now) (P.state keep_before.now)
        → PutsOnly (own_format ((P.state keep_before.now).reads FORMAT) asked) (P.state keep_before.now) (P.state keep_behind.now)
        → IsCrashImage (D.state before.now) files
        → (P.state keep_before.now).moment ≤ m → m ≤ (P.state keep_behind.now).moment → (P.state keep_behind.now).image_at m texts
        → EachImage (λ image. image ≡ files) (E.state crashed.now) → EachImage (λ image. image ≡ texts) (Q.state keep_crashed.now)
        → IsStoreOrNothing sizes (E.state crashed.now) (Q.state keep_crashed.now) }

    // From then on the keep is as it is at the end, whatever the disk is.
    ensures opened { P.tells → (asked : AskedSizes) (sizes : Sizes) (texts : Files) → AreAllowed asked
        → IsOpened asked sizes (store_told D.tells (D.state before.now).reads P.tells (P.state keep_before.now).reads)
        (P.state keep_behind.now)
        → IsCrashImage (P.state keep_behind.now) texts
        → EachImage (λ image. image ≡ texts) (Q.state keep_crashed.now) → HasFormat sizes (Q.state keep_crashed.now) }
{}
