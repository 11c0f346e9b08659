//! Why something that was stored can't be loaded.

use mq_bytes::Text;

/// Why something that was stored can't be loaded.
#[derive(Debug, Drop)]
pub enum LoadFault {
    /// Something else stands where it should: at this place, in this file.
    Damaged(u64, Text),
    /// The device failed. Its count of faults rose in this call.
    Failed,
    /// There was no memory for the answer.
    Memory,
}
