//! Who makes flush turns: the flusher and both loops, each with a pass of its own at their lock.

ghost use Rattle.std.specs.Prelude.{◌≡◌, length};
ghost use Rattle.story_lock.specs.Passes.{IsPassOf, numbers_of};

use flush_rounds::FlushCaller;
use std::sync::Wait;
use story_lock::{Chronicle, Pass, Story};

/// So many callers make flush turns: the flusher and both loops.
pub const CALLERS: u32 = 3;

/// A caller for each of them, and a pass by which the state is taken out once they have ended. It has no seat, and makes no turn.
pub(crate) struct Callers<'a, S: Chronicle, W: Wait> {
    pub(crate) flusher: FlushCaller<'a, S, W>,
    pub(crate) loops: (FlushCaller<'a, S, W>, FlushCaller<'a, S, W>),
    pub(crate) closing: Pass<S>,
}

/// The callers, whose passes are cut from the first one of the lock.
pub(crate) fn callers_of<'a, S: Chronicle, W: Wait>(
    lock: &'a Story<S>,
    rt: &'a W,
    pass: Pass<S>,
) -> Callers<'a, S, W>
    requires of { IsPassOf lock.now pass }
    requires seats { length (numbers_of pass) ≡ 3 }
    ensures closing { IsPassOf lock.now result.closing }
{
    let (pass, closing) = lock.watch(pass);
    let (pass, second) = lock.split(pass);
    let (pass, first) = lock.split(pass);
    Callers {
        flusher: FlushCaller::new(lock, rt, pass),
        loops: (
            FlushCaller::new(lock, rt, first),
            FlushCaller::new(lock, rt, second),
        ),
        closing,
    }
}
