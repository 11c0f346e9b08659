//! The texts of the two kept files.

ghost use Rattle.std.specs.Prelude.{◌≡◌, IfOk, IsTrue};
ghost use Rattle.config_store.specs.Texts.{offsets_text_of, topics_text_of};

use config_store::{Config, offsets_text, topics_text};
use std::alloc::{AllocError, Global};

/// The texts of both files.
#[derive(Drop)]
pub struct Texts {
    pub offsets: Vec<u8>,
    pub topics: Vec<u8>,
}

/// The texts of these rows.
pub(crate) fn texts_of(alloc: Global, rows: &Config) -> Result<Texts, AllocError>
    ensures offsets { IfOk result (λ texts. texts.offsets.items ≡ offsets_text_of rows.now.offsets.items) }
    ensures topics { IfOk result (λ texts. texts.topics.items ≡ topics_text_of rows.now.topics.items) }
{
    let offsets = offsets_text(alloc, rows.offsets.as_slice())?;
    let topics = topics_text(alloc, rows.topics.as_slice())?;
    Ok(Texts { offsets, topics })
}

/// Whether these are the same texts.
pub(crate) fn are_same(texts: &Texts, others: &Texts) -> bool
    ensures offsets { IsTrue result → texts.now.offsets.items ≡ others.now.offsets.items }
    ensures topics { IsTrue result → texts.now.topics.items ≡ others.now.topics.items }
{
    texts.offsets.as_slice() == others.offsets.as_slice()
        && texts.topics.as_slice() == others.topics.as_slice()
}
