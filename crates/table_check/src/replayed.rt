//! What records say of half messages, and of each level how many they deliver: a table of them is made beside.

ghost use Rattle.std.specs.Prelude.{◌≡◌, ◌↔◌, ◌≤◌, ◌^◌, ◌∷◌, [], ℕ, IsTrue, OnOk};
ghost use Rattle.log_model.specs.Admissible.{half_topic};
ghost use Rattle.log_model.specs.Numbered.{Log, IsLawful, with_appended};
ghost use Rattle.log_model.specs.Told.{counts_in};
ghost use Rattle.half_view.specs.OfLog.{AreHalvesOf};
ghost use Rattle.table_check.specs.Equal.{HaveProgressOf};
ghost use Rattle.table_check.specs.Beside.{IsReplayOf, log_from};

use crate::levels::{count_delivery, delivered_before, have_delivered};
use delay_view::DelayView;
use half_view::HalfView;
use log_model::Base;
use log_replay::bounds_of;
use record_codec::View;
use std::alloc::{AllocError, Global};

// More records than this no log has.
const RECORDS_MAX: u64 = 1 << 61;

/// What the records so far say.
#[derive(Drop)]
pub(crate) struct Replayed {
    // How many records there were, those before the base among them.
    number: u64,
    halves: HalfView,
    // Of each level how many messages were delivered.
    delivered: [u64; 18],
}

impl Replayed {
    /// No records, from this base on.
    pub(crate) fn new(alloc: Global, base: &Base) -> Replayed
        requires { counts_in base.now.queues.items half_topic 0 ≤ 2 ^ 62 }
        ensures { IsReplayOf (log_from base.now []) result }
    {
        let (low, _) = bounds_of(&[], base, "RMQ_SYS_TRANS_HALF_TOPIC", 0);
        let mut halves = HalfView::new(alloc);
        halves.start(low);
        Replayed {
            number: base.records,
            halves,
            delivered: delivered_before(&base.levels),
        }
    }

    /// Adds the next record. `Err` comes for want of memory, and past 2^61 records.
    pub(crate) fn add(&mut self, alloc: Global, view: &View<'_>) -> Result<(), AllocError>
        ensures { (log : Log) → IsReplayOf log self.old → OnOk result (IsReplayOf (with_appended log (view.now ∷ [])) self.new) }
    {
        if self.number >= RECORDS_MAX {
            return Err(AllocError);
        }
        self.halves.reserve(alloc)?;
        self.halves.add(view, self.number);
        count_delivery(&mut self.delivered, view)?;
        self.number += 1;
        Ok(())
    }

    /// Whether the tables have the half messages of the records, and each level's deliveries.
    pub(crate) fn is_in(&self, halves: &HalfView, levels: &DelayView) -> bool
        ensures { (segment : ℕ) (log : Log) → IsReplayOf log self.now → IsLawful segment log
            → (IsTrue result ↔ (AreHalvesOf log halves.now × HaveProgressOf log levels.now)) }
    {
        self.halves.is_same(halves) && have_delivered(levels, &self.delivered)
    }
}
