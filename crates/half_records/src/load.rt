//! The half messages are loaded from the records of a log.

ghost use Rattle.std.specs.Prelude.{◌≡◌, ◌<◌, ◌^◌, ◌∷◌, [], ℕ, true, false, OnOk, codes};
ghost use Rattle.log_model.specs.Bases.{geometry};
ghost use Rattle.log_model.specs.Drafts.{text_in};
ghost use Rattle.log_model.specs.Kinds.{is_half as is_half_entry};
ghost use Rattle.log_model.specs.Log.{Follows, IsWellFormed};
ghost use Rattle.log_model.specs.Numbered.{Log, count_of, with_appended};
ghost use Rattle.half_records.specs.OfLog.{HasHalves};

use crate::halves::Halves;
use half_view::{is_half, named_half, rolled_back};
use log_model::OriginState;
use record_codec::View;
use record_copies::Whole;
use std::alloc::{AllocError, Global};

// The producer group of a half message, or nothing.
fn group_of<'a>(view: &'a View<'_>) -> &'a str
    ensures { result.now ≡ text_in (codes "PGROUP") view.now.props }
{
    view.prop("PGROUP").unwrap_or("")
}

impl Halves {
    // Loads a half message.
    fn load_half(&mut self, alloc: Global, view: &View<'_>) -> Result<(), AllocError>
        ensures { (segment : ℕ) (log : Log) → IsWellFormed (geometry segment log.base) log.records
            → Follows (geometry segment log.base) log.records view.now → HasHalves log self.old → is_half_entry view.now ≡ true
            → OnOk result (HasHalves (with_appended log (view.now ∷ [])) self.new) }
    {
        let named = named_half(view);
        let whole = Whole::of_view(alloc, view)?;
        let kept = self.make_ready_by(alloc, named, group_of(view), view.prop("UNIQ_KEY"))?;
        self.add(named, view.offset(), view.store(), kept, whole);
        Ok(())
    }

    // Loads a record that is no half message, which has this number.
    fn load_other(&mut self, alloc: Global, view: &View<'_>, number: u64)
        requires { number < 2 ^ 63 }
        ensures { (segment : ℕ) (log : Log) → IsWellFormed (geometry segment log.base) log.records
            → Follows (geometry segment log.base) log.records view.now → number ≡ count_of log → HasHalves log self.old
            → is_half_entry view.now ≡ false → HasHalves (with_appended log (view.now ∷ [])) self.new }
    {
        let committed = self.view.committed(view);
        let discarded = self.view.discarded(view);
        self.settle_kept(alloc, rolled_back(view), OriginState::RolledBack, number);
        self.settle_kept(alloc, committed, OriginState::Committed, number);
        self.settle_kept(alloc, discarded, OriginState::Discarded, number);
    }

    /// Loads the record with this number, of any kind. At `Err` what is loaded serves for nothing.
    pub fn load(&mut self, alloc: Global, view: &View<'_>, number: u64) -> Result<(), AllocError>
        requires { number < 2 ^ 63 }
        ensures { (segment : ℕ) (log : Log) → IsWellFormed (geometry segment log.base) log.records
            → Follows (geometry segment log.base) log.records view.now → number ≡ count_of log → HasHalves log self.old
            → OnOk result (HasHalves (with_appended log (view.now ∷ [])) self.new) }
    {
        if is_half(view) {
            return self.load_half(alloc, view);
        }
        self.load_other(alloc, view, number);
        Ok(())
    }
}
