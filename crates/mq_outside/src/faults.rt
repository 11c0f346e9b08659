//! How a device refuses. Each refusal is counted by the device that gave it.

/// A device failed. Its count of faults rose in this call.
#[derive(Clone, Copy, Debug, PartialEq, Eq)]
pub struct Failed;

/// A device failed, or there was no memory for the answer.
#[derive(Clone, Copy, Debug, PartialEq, Eq)]
pub enum DiskFault {
    /// The device failed. Its count of faults rose in this call.
    Failed,
    /// There was no memory for the call or its answer. The count of faults stays.
    Memory,
}
