//! The parts of a batch: the blank before its records, and a second hold on its bytes.

ghost use Rattle.std.specs.Prelude.{◌≡◌, ◌≤◌, ◌+◌, ◌^◌, IfOk};
ghost use Rattle.log_model.specs.Batches.{blank_between as blank_of};

use log_model::Batch;
use std::alloc::AllocError;

// The blank between the end of the records and the next place, if they don't meet.
pub(crate) fn blank_between(end: u64, place: u64) -> Option<(u64, u32)>
    requires ordered { end ≤ place }
    requires near { place ≤ end + 2 ^ 30 }
    ensures { result ≡ blank_of end place }
{
    if end == place {
        None
    } else {
        Some((end, (place - end) as u32))
    }
}

// The same batch; its bytes are shared.
pub(crate) fn share(batch: &Batch) -> Result<Batch, AllocError>
    ensures { IfOk result (λ other. other ≡ batch.now) }
{
    let bytes = batch.bytes.slice(..)?;
    Ok(Batch {
        from: batch.from,
        count: batch.count,
        place: batch.place,
        blank: batch.blank,
        bytes,
    })
}
