//! Copies of texts that others own.

ghost use Rattle.std.specs.Prelude.{◌≡◌, IfOk};

use mq_bytes::Text;
use std::alloc::{AllocError, Global};

/// A copy of the text.
pub(crate) fn copy_of(alloc: Global, text: &str) -> Result<Text, AllocError>
    ensures { IfOk result (λ copy. copy ≡ text.now) }
{
    Ok(Text::of(String::from_str(alloc, text)?))
}
