//! The lines of a log's records, on their way to a sink.

use crate::lines::Lines;
use crate::texts::push_record;
use log_recovery::Visit;
use mq_outside::Sink;
use record_codec::View;
use std::alloc::AllocError;

/// Writes the line of each record that it is handed.
#[derive(Drop)]
pub(crate) struct Dump<K: Sink + Drop> {
    pub(crate) lines: Lines<K>,
}

impl<K: Sink + Drop> Visit for Dump<K> {
    ghost use Rattle.tool_run.specs.Writes.{HasDumped, HasBroken};

    ghost stands = { λ _ _ _. Unit {0} };

    ghost goes = { HasDumped K.Sink };

    ghost fails = { HasBroken K.Sink };

    fn record(&mut self, view: &View<'_>) -> Result<(), AllocError> {
        push_record(view, &mut self.lines.held)?;
        self.lines.flush_piece()
    }
}
