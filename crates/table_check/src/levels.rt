//! How many messages of each delay level the records deliver.

ghost use Rattle.std.specs.Prelude.{◌≡◌, ◌↔◌, ◌≤◌, ◌∷◌, [], ℕ, length, IfSome, IsNone, IsTrue, OnOk};
ghost use Rattle.log_model.specs.Numbered.{Log, IsLawful, with_appended};
ghost use Rattle.delay_view.specs.OfLog.{IsCopyOf};
ghost use Rattle.table_check.specs.Equal.{HaveProgressOf};
ghost use Rattle.table_check.specs.Beside.{AreDelivered, DeliversNothing};

use delay_view::{DelayView, LEVELS};
use level_records::delivered_level;
use record_codec::View;
use std::alloc::AllocError;

/// How many messages of each level were delivered before a base, which tells them.
pub(crate) fn delivered_before(levels: &[u64; 18]) -> [u64; 18]
    ensures same { result ≡ levels.now }
    ensures all { length result ≡ 18 }
{
    *levels
}

// The level whose message this record of a log delivers. A delayed message delivers none.
fn level_of(view: &View<'_>) -> Option<u8>
    ensures within { IfSome result (λ level. (1 ≤ level) × (level ≤ 18)) }
    ensures copy { (segment : ℕ) (log : Log) → IsLawful segment (with_appended log (view.now ∷ []))
        → IfSome result (λ level. IsCopyOf level view.now) }
    ensures none { (segment : ℕ) (log : Log) → IsLawful segment (with_appended log (view.now ∷ []))
        → IsNone result → DeliversNothing view.now }
{
    if view.topic() == "SCHEDULE_TOPIC_XXXX" {
        return None;
    }
    delivered_level(view)
}

/// Counts the message that the record delivers, if it is a delivery. `Err`: its level has no next number.
pub(crate) fn count_delivery(delivered: &mut [u64; 18], view: &View<'_>) -> Result<(), AllocError>
    ensures { (segment : ℕ) (log : Log) → AreDelivered log delivered.old → IsLawful segment (with_appended log (view.now ∷ []))
        → OnOk result (AreDelivered (with_appended log (view.now ∷ [])) delivered.new) }
{
    let Some(level) = level_of(view) else {
        return Ok(());
    };
    let k = level as usize - 1;
    match delivered[k].checked_add(1) {
        Some(count) => {
            delivered[k] = count;
            Ok(())
        }
        None => Err(AllocError),
    }
}

/// Whether each level has delivered as many messages.
pub(crate) fn have_delivered(levels: &DelayView, delivered: &[u64; 18]) -> bool
    ensures { (log : Log) → AreDelivered log delivered.now → (IsTrue result ↔ HaveProgressOf log levels.now) }
{
    for k in 0..LEVELS {
        if levels.progress(k + 1) != delivered[k as usize] {
            return false;
        }
    }
    true
}
