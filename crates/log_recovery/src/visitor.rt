//! Who takes the records that recovery keeps.

ghost use Rattle.std.specs.Prelude.{◌++◌, ◌∷◌, List, [], ℕ, OnOk, OnErr};
ghost use Rattle.record_codec.specs.Entry.{Entry};
ghost use Rattle.log_model.specs.Bases.{Base, Geometry};
ghost use Rattle.log_model.specs.Log.{Follows};
ghost use Rattle.log_recovery.specs.Tails.{StandsFor};

use crate::tail::LogTail;
use record_codec::View;
use std::alloc::AllocError;

/// What the records of a log are handed to, in their order.
pub trait Visit {
    /// That these are the records that it was handed, of a log that begins at this base.
    ghost stands: { Base → Self → List Entry → Type 0 };

    /// That it came from this one by being handed these records. By default nothing is said.
    ghost goes: { Self → List Entry → Self → Type 0 } = { λ _ _ _. Unit {0} };

    /// That it came from this one, and didn't take the last record that it was handed. By default nothing is said.
    ghost fails: { Self → Self → Type 0 } = { λ _ _. Unit {0} };

    /// Takes the record after those that it was handed. `Err` ends the reading, which answers `Memory`.
    fn record(&mut self, view: &View<'_>) -> Result<(), AllocError>
        ensures stands { (S : Geometry) (records : List Entry) → Follows S records view.now → stands S.base self.old records
            → OnOk result (stands S.base self.new (records ++ view.now ∷ [])) }
        ensures goes { (first : Self) (records : List Entry) → goes first records self.old
            → OnOk result (goes first (records ++ view.now ∷ []) self.new) }
        ensures fails { (first : Self) (records : List Entry) → goes first records self.old → OnErr result (fails first self.new) };
}

// The end of a log takes the records that recovery keeps, one after another.
impl Visit for LogTail {
    ghost stands = { StandsFor };

    fn record(&mut self, view: &View<'_>) -> Result<(), AllocError> {
        self.add(view)
    }
}
