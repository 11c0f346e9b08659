//! The records of a log beside tables.

use log_recovery::Visit;
use record_codec::View;
use std::alloc::{AllocError, Global};
use table_check::Comparing;

/// Goes through tables beside the records that it is handed.
#[derive(Drop)]
pub struct Beside<'a> {
    pub comparing: Comparing<'a>,
    pub alloc: Global,
}

impl<'a> Visit for Beside<'a> {
    ghost use Rattle.tool_run.specs.Writes.{HasGoneBeside};

    ghost stands = { λ _ _ _. Unit {0} };

    ghost goes = { HasGoneBeside };

    fn record(&mut self, view: &View<'_>) -> Result<(), AllocError> {
        self.comparing.add(self.alloc, view)
    }
}
