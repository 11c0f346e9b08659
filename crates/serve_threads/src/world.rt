//! What is around the loops, as a run takes it and gives it back.

ghost use Rattle.std.specs.Prelude.{◌≡◌, None, IfSome};
ghost use Rattle.event_loops.specs.Causes.{door_faults, loop_faults};
ghost use Rattle.serve_threads.specs.Causes.{HasDoor, both_faults, world_faults};
ghost use Rattle.serve_threads.specs.Worlds.{IsParted};

use event_loops::{Bounds, Entrance, Outside};
use mq_outside::Clock;
use mq_peers::Ready;

/// What is around the threads: for each loop what tells which of its links are ready, and a clock; the flusher's clock; and the door.
#[derive(Drop)]
pub struct World<P: Ready + Drop, K: Clock + Drop> {
    pub ready: (P, P),
    pub clocks: (K, K),
    /// By this one delayed messages are delivered.
    pub timer: K,
    pub door: P::Door,
}

impl<P: Ready + Drop, K: Clock + Drop> World<P, K> {
    /// What is outside each of the loops, and the flusher's clock. The first loop has the door, within these bounds.
    pub fn part(self, bounds: Bounds) -> (Outside<P, K>, Outside<P, K>, K)
        ensures counts { both_faults (loop_faults P.faults P.Door.faults K.faults result.0)
            (loop_faults P.faults P.Door.faults K.faults result.1) ≡ world_faults P.faults P.Door.faults K.faults self }
        ensures entrance { IfSome result.0.entrance (λ e. (e.door ≡ self.door) × (e.bounds ≡ bounds) × (e.came ≡ 0)) }
        ensures parted { IsParted self result.0 result.1 result.2 }
        ensures door { HasDoor (door_faults P.Door.faults result.0.entrance) × (door_faults P.Door.faults result.1.entrance ≡ None) }
    {
        let World {
            ready: (first, second),
            clocks: (clock, other),
            timer,
            door,
        } = self;
        let entrance = Entrance {
            door,
            came: 0,
            bounds,
        };
        let near = Outside {
            ready: first,
            clock,
            entrance: Some(entrance),
        };
        let far = Outside {
            ready: second,
            clock: other,
            entrance: None,
        };
        (near, far, timer)
    }

    /// The world again.
    pub fn join(first: Outside<P, K>, second: Outside<P, K>, timer: K) -> World<P, K>
        requires door { HasDoor (door_faults P.Door.faults first.entrance) }
        ensures counts { world_faults P.faults P.Door.faults K.faults result ≡ both_faults
            (loop_faults P.faults P.Door.faults K.faults first) (loop_faults P.faults P.Door.faults K.faults second) }
        ensures parted { IsParted result first second timer }
    {
        let Outside {
            ready,
            clock,
            entrance,
        } = first;
        let Outside {
            ready: other,
            clock: other_clock,
            entrance: none,
        } = second;
        let world = match entrance {
            Some(
                Entrance {
                    door,
                    came: _,
                    bounds: _,
                },
            ) => World {
                ready: (ready, other),
                clocks: (clock, other_clock),
                timer,
                door,
            },
            None => unreachable!(),
        };
        drop(none);
        world
    }
}
