//! A unit as a table keeps it: with the store time of its record, in 32 bytes.

ghost use Rattle.std.specs.Prelude.{◌≡◌};

use chunks::Keyed;
use record_codec::Unit;

/// A unit, and the store time of its record in milliseconds.
#[derive(Clone, Copy)]
pub struct StoredUnit {
    pub unit: Unit,
    pub store: u64,
}

impl Keyed for StoredUnit {
    ghost key = { λ stored. stored.store };

    fn key(&self) -> u64 {
        self.store
    }
}
