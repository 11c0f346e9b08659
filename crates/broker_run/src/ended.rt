//! How the serving of a source ended.

use pipe_stream::Halt;
use worker_turns::Broken;

/// How the serving of a source ended: what ended the reading, and how the last flush turns ended. They found nothing pending, or
/// failed, as the disk's failure of this number.
#[derive(Clone, Copy, Debug, PartialEq, Eq)]
pub(crate) struct Ended {
    pub(crate) reading: Result<(), Halt>,
    pub(crate) last: Result<Option<u64>, Broken>,
}
