//! The level whose message a record delivers.
//!
//! A delivery has the property `DELAY_FROM`: the level from 1 to 18, `-`, and how many messages of the level were delivered
//! before it, both in decimal.

ghost use Rattle.std.specs.Prelude.{◌≡◌, ◌≤◌, Some, codes, false, IfSome, IfNone, MatchOption, option_map};
ghost use Rattle.mq_bytes.specs.Decimal.{digits_of};
ghost use Rattle.record_codec.specs.Props.{until};
ghost use Rattle.log_model.specs.Admissible.{IfHas, IsDelayFrom, IsLevel};
ghost use Rattle.log_model.specs.Kinds.{before_dash, is_delayed};
ghost use Rattle.delay_view.specs.OfLog.{IsCopyOf, IsOther};

use mq_bytes::read_decimal;
use record_codec::View;

// What stands before the first dash, and behind it.
fn at_dash(text: &str) -> Option<(&str, &str)>
    ensures { option_map (λ parts. (parts.0.now, parts.1.now)) result ≡ until 45 text.now }
{
    text.split_once('-')
}

// The level that the text writes.
fn read_level(text: &str) -> Option<u8>
    ensures within { IfSome result (λ level. (1 ≤ level) × (level ≤ 18)) }
    ensures written { IsLevel text.now → MatchOption result ⊥ (λ level. text.now ≡ digits_of level) }
{
    match read_decimal(text) {
        Some(level) if level >= 1 && level <= 18 => Some(level as u8),
        _ => None,
    }
}

// The level that stands before the dash.
fn level_before_dash(text: &str) -> Option<u8>
    ensures within { IfSome result (λ level. (1 ≤ level) × (level ≤ 18)) }
    ensures written { IsDelayFrom text.now → MatchOption result ⊥ (λ level. before_dash text.now ≡ Some (digits_of level)) }
{
    let (level, _) = at_dash(text)?;
    read_level(level)
}

/// The level whose message this record delivers, if it is a delivery.
pub fn delivered_level(view: &View<'_>) -> Option<u8>
    ensures within { IfSome result (λ level. (1 ≤ level) × (level ≤ 18)) }
    ensures copy { IfHas (codes "DELAY_FROM") view.now IsDelayFrom → is_delayed view.now ≡ false
        → IfSome result (λ level. IsCopyOf level view.now) }
    ensures other { IfHas (codes "DELAY_FROM") view.now IsDelayFrom → is_delayed view.now ≡ false
        → IfNone result (IsOther view.now) }
{
    level_before_dash(view.prop("DELAY_FROM")?)
}
