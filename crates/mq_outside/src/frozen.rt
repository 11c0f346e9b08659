//! A stored range of a log file that is never written again. It goes from the owner of the disk to the threads that
//! answer from it, so that these read it with no turn of the owner.
//!
//! A disk makes it, and nothing above the devices can make one or change it (`real_pieces`). A disk in memory puts the bytes into its
//! pieces, and a real disk doesn't: no answer shows which, so what is above the devices does the same before both.

ghost use Rattle.std.proofs.Props.{props};
ghost use Rattle.mq_outside.specs.Pieces.{IsWhole};

use bytes::Bytes;

/// So many bytes of the log file named by `base`, from an offset in it on.
#[derive(Drop)]
pub struct Frozen {
    pub(crate) base: u64,
    pub(crate) from: u64,
    pub(crate) len: u64,
    // The bytes, where the disk keeps them in memory.
    pub(crate) held: Option<Bytes>,
    ghost whole: { IsWhole held len } by { Prim.hlevel props },
}
