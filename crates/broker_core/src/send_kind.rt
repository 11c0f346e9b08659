//! How the message of a send is kept.

ghost use Rattle.std.specs.Prelude.{◌≡◌, true, IfOk};
ghost use Rattle.record_codec.specs.Layout.{is_legal};
ghost use Rattle.request_fields.specs.Requests.{IsFieldName};
ghost use Rattle.broker_core.specs.Kinds.{HasLevel, draft_by, kind_of as kind_of_send};

use core_log::Kind;
use made_records::{delayed_draft, half_draft, is_half, level_of};
use record_codec::Draft;
use request_fields::SendFields;
use std::alloc::{AllocError, Global};

/// How the message of a send is kept: as a half message, as a delayed one where it has a level, or in its own topic.
pub(crate) fn kind_of(send: &SendFields) -> Kind
    ensures { result ≡ kind_of_send send.now }
{
    if is_half(send) {
        return Kind::Half;
    }
    match level_of(send) {
        Some(level) => Kind::Delayed(level),
        None => Kind::Plain,
    }
}

/// The message of this producer group as it is kept.
pub(crate) fn kept_draft(
    alloc: Global,
    kind: Kind,
    group: &str,
    d: Draft,
) -> Result<Draft, AllocError>
    requires level { HasLevel kind }
    requires group { IsFieldName group.now }
    requires legal { is_legal d.topic ≡ true }
    ensures { IfOk result (λ draft. draft ≡ draft_by kind group.now d) }
{
    match kind {
        Kind::Plain => Ok(d),
        Kind::Delayed(level) => delayed_draft(alloc, level, d),
        Kind::Half => half_draft(alloc, group, d),
    }
}
