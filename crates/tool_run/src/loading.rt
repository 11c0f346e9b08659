//! What a broker would know of a log's records, and how many there are.

use core_log::Loaded;
use log_recovery::Visit;
use record_codec::View;
use std::alloc::{AllocError, Global};

/// Loads the records that it is handed, as a broker does that opens, and counts them.
#[derive(Drop)]
pub(crate) struct Loading {
    pub(crate) loaded: Loaded,
    pub(crate) records: u64,
    pub(crate) alloc: Global,
}

impl Visit for Loading {
    ghost use Rattle.tool_run.specs.Writes.{HasLoaded};

    ghost stands = { λ _ loading records. HasLoaded records loading };

    fn record(&mut self, view: &View<'_>) -> Result<(), AllocError> {
        self.loaded.add(self.alloc, view)?;
        // A log has fewer than 2^62 bytes, so there is always a next number.
        match self.records.checked_add(1) {
            Some(records) => {
                self.records = records;
                Ok(())
            }
            None => Err(AllocError),
        }
    }
}
