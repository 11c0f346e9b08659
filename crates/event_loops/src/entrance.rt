//! The door, which one loop has: it numbers the links in the order in which they come.

ghost use Rattle.std.specs.Prelude.{◌≡◌, ◌<◌, ◌-◌, ◌^◌, true, false};
ghost use Rattle.event_loops.specs.Causes.{CountsDoor};
ghost use Rattle.event_loops.specs.Doors.{AllCame, KeepsEntrance};

use crate::event_loop::LoopEnd;
use link_service::NewLink;
use mq_outside::Failed;
use mq_peers::{Door, Ready};

/// How many links may be open at a time, and how many are let in in all, if that is bounded.
#[derive(Debug, Clone, Copy, PartialEq, Eq)]
pub struct Bounds {
    pub open: u32,
    pub most: Option<u32>,
}

/// The door, with what came in by it.
#[derive(Drop)]
pub struct Entrance<P: Ready> {
    pub door: P::Door,
    /// How many links came so far.
    pub came: u32,
    pub bounds: Bounds,
}

impl<P: Ready> Entrance<P> {
    // Whether no further link is let in.
    pub(crate) fn is_done(&self) -> bool
        ensures done { result ≡ true → AllCame self.now.bounds.most self.now.came }
        ensures room { result ≡ false → self.now.came < 2 ^ 32 - 1 }
    {
        match self.bounds.most {
            Some(most) => self.came >= most,
            None => self.came == u32::MAX,
        }
    }

    // The next link at the door, with its number.
    pub(crate) fn accept(&mut self) -> Result<Option<NewLink<P::Link>>, LoopEnd>
        requires room { self.old.came < 2 ^ 32 - 1 }
        ensures keeps { KeepsEntrance P.Door.gave self.old self.new }
        ensures cause { CountsDoor result (P.Door.faults self.old.door) (P.Door.faults self.new.door) }
    {
        match self.door.accept() {
            Ok(Some(link)) => {
                self.came += 1;
                Ok(Some(NewLink {
                    number: self.came,
                    link,
                }))
            }
            Ok(None) => Ok(None),
            Err(Failed) => Err(LoopEnd::Door),
        }
    }
}
