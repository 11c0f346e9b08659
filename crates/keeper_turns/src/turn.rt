//! The two kept files are replaced by the texts of a core.

ghost use Rattle.std.specs.Prelude.{IfOk, IfSome, OnOk};
ghost use Rattle.mq_outside.specs.Counts.{CountsDiskFault};
ghost use Rattle.broker_model.specs.State.{State};
ghost use Rattle.core_log.specs.declared.parts.Parts.{Parts};
ghost use Rattle.core_log.specs.Represents.{Represents};
ghost use Rattle.config_store.specs.Configs.{KeepsConfig, PutsConfig};
ghost use Rattle.config_store.specs.Texts.{offsets_text_of, topics_text_of};
ghost use Rattle.keeper_turns.specs.Turns.{HasKept, HasKeptOf, IsOffsetsOf, IsTopicsOf};

use crate::rows::rows_of;
use crate::texts::{Texts, are_same, texts_of};
use broker_core::{Core, Owner};
use config_store::{Config, store_config};
use mq_outside::{DiskFault, Keep};
use std::alloc::{AllocError, Global};

/// Replaces the file of offsets and then that of topics by the texts of the core. At `Err` each of the two has its old text or
/// its new one; at `Memory` neither, or the second one, is replaced.
pub fn keep_core<P: Keep>(alloc: Global, core: &Core, keep: &mut P) -> Result<(), DiskFault>
    ensures kept { (s : State) → Represents core.now s → HasKept P.tells s result (P.state keep.old) (P.state keep.new) }
    ensures seen { HasKeptOf P.tells core.now result (P.state keep.old) (P.state keep.new) }
    ensures cause { CountsDiskFault result (P.faults keep.old) (P.faults keep.new) }
{
    let Ok(rows) = rows_of(alloc, core) else {
        return Err(DiskFault::Memory);
    };
    let Ok(texts) = texts_of(alloc, &rows) else {
        return Err(DiskFault::Memory);
    };
    store_config(
        alloc,
        keep,
        texts.offsets.as_slice(),
        texts.topics.as_slice(),
    )
}

// Replaces both files by these texts, unless they have them.
fn store_texts<P: Keep>(
    alloc: Global,
    keep: &mut P,
    last: &mut Option<Texts>,
    texts: Texts,
) -> Result<(), DiskFault>
    requires has { P.tells → IfSome last.old (λ had. KeepsConfig had.offsets.items had.topics.items (P.state keep.old)) }
    ensures has { P.tells → IfSome last.new (λ had. KeepsConfig had.offsets.items had.topics.items (P.state keep.new)) }
    ensures puts { P.tells → PutsConfig texts.offsets.items texts.topics.items (P.state keep.old) (P.state keep.new) }
    ensures done { P.tells → OnOk result (KeepsConfig texts.offsets.items texts.topics.items (P.state keep.new)) }
    ensures cause { CountsDiskFault result (P.faults keep.old) (P.faults keep.new) }
{
    if let Some(had) = last.as_ref()
        && are_same(had, &texts)
    {
        return Ok(());
    }
    *last = None;
    let stored = store_config(
        alloc,
        keep,
        texts.offsets.as_slice(),
        texts.topics.as_slice(),
    );
    if stored.is_ok() {
        *last = Some(texts);
    }
    stored
}

/// Replaces both files by the texts of the core at one look, unless they have them since an earlier turn, whose texts `last` has.
/// Only the rows are taken at the look: their texts are made behind it.
pub fn keeper_turn<C: Owner, P: Keep>(
    alloc: Global,
    calls: &mut C,
    keep: &mut P,
    last: &mut Option<Texts>,
) -> Result<(), DiskFault>
    requires has { P.tells → IfSome last.old (λ had. KeepsConfig had.offsets.items had.topics.items (P.state keep.old)) }
    ensures has { P.tells → IfSome last.new (λ had. KeepsConfig had.offsets.items had.topics.items (P.state keep.new)) }
    ensures kept { (core : Parts) × C.sees calls.old core calls.new
        × HasKeptOf P.tells core result (P.state keep.old) (P.state keep.new) }
    ensures cause { CountsDiskFault result (P.faults keep.old) (P.faults keep.new) }
{
    let seen = calls.look(
        alloc,
        |core: &Core| -> Result<Config, AllocError>
            ensures offsets { IfOk result (λ config. IsOffsetsOf core.now (offsets_text_of config.offsets.items)) }
            ensures topics { IfOk result (λ config. IsTopicsOf core.now (topics_text_of config.topics.items)) }
        { rows_of(alloc, core) },
    );
    let Ok(rows) = seen else {
        return Err(DiskFault::Memory);
    };
    let Ok(texts) = texts_of(alloc, &rows) else {
        return Err(DiskFault::Memory);
    };
    store_texts(alloc, keep, last, texts)
}
