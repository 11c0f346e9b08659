//! The rows of the two kept files, as a core has what they say.

ghost use Rattle.std.specs.Prelude.{IfOk};
ghost use Rattle.config_store.specs.Texts.{offsets_text_of, topics_text_of};
ghost use Rattle.keeper_turns.specs.Turns.{IsOffsetsOf, IsTopicsOf};

use broker_core::Core;
use config_store::Config;
use std::alloc::{AllocError, Global};

/// The stored offsets and the topics of a core, in any order. The texts of these rows are those of each state that the core
/// represents.
pub fn rows_of(alloc: Global, core: &Core) -> Result<Config, AllocError>
    ensures offsets { IfOk result (λ config. IsOffsetsOf core.now (offsets_text_of config.offsets.items)) }
    ensures topics { IfOk result (λ config. IsTopicsOf core.now (topics_text_of config.topics.items)) }
{
    let offsets = core.groups().stored()?;
    let topics = core.topics().rows(alloc)?;
    Ok(Config { offsets, topics })
}
