//! Ending another thread's wait.

use std::alloc::AllocError;

/// Ends the waits of the `Ready` that gave it, from any thread.
pub trait Wake {
    /// Makes the wait that is under way end, or else the next. It doesn't wait itself. Several wakes may end one wait,
    /// and nothing is reported of a wake that is lost.
    fn wake(&self);

    /// Another waker of the same waits. It fails for want of memory alone.
    fn share(&self) -> Result<Self, AllocError>;
}
