//! The two loops, and how other threads reach them.

ghost use Rattle.std.specs.Prelude.{◌≡◌, IfErr, IfOk};
ghost use Rattle.serve_threads.specs.Loops.{AreLoops};
ghost use Rattle.serve_threads.specs.Causes.{BlamesMaking, world_faults};

use crate::world::World;
use event_loops::{Bounds, EventLoop, LoopEnd, watch_door};
use flush_rounds::LOOPS;
use link_service::Port;
use mq_outside::Clock;
use mq_peers::Ready;
use std::alloc::{AllocError, Global};

/// The loops, how other threads reach them, and what is around them.
#[derive(Drop)]
pub struct Loops<P: Ready + Drop, K: Clock + Drop> {
    pub first: EventLoop<P>,
    pub second: EventLoop<P>,
    pub ports: Vec<Port<P>>,
    pub world: World<P, K>,
    pub bounds: Bounds,
}

// The loops, and how they are reached.
struct Pair<P: Ready + Drop> {
    first: EventLoop<P>,
    second: EventLoop<P>,
    ports: Vec<Port<P>>,
}

// How the loops are reached.
fn ports_of<P: Ready>(alloc: Global, first: &P, second: &P) -> Result<Vec<Port<P>>, AllocError> {
    let mut ports = Vec::with_capacity(alloc, LOOPS)?;
    ports.push(Port::new(alloc, first.waker()?))?;
    ports.push(Port::new(alloc, second.waker()?))?;
    Ok(ports)
}

// Both loops, without links.
fn pair_of<P: Ready + Drop>(alloc: Global, first: &P, second: &P) -> Result<Pair<P>, AllocError>
    ensures { IfOk result (λ it. AreLoops P.Ends.tells P.Ends.entries it.first it.second) }
{
    let ports = ports_of(alloc, first, second)?;
    let one = EventLoop::new(alloc, 0, LOOPS, first.ends())?;
    let other = EventLoop::new(alloc, 1, LOOPS, second.ends())?;
    Ok(Pair {
        first: one,
        second: other,
        ports,
    })
}

impl<P: Ready + Drop, K: Clock + Drop> Loops<P, K> {
    /// Two loops, the first of which has the door, within these bounds. The door is open. At `Err` it says why there are none, and
    /// gives the world back.
    pub fn new(
        alloc: Global,
        world: World<P, K>,
        bounds: Bounds,
    ) -> Result<Loops<P, K>, (LoopEnd, World<P, K>)>
        ensures loops { IfOk result (λ it. AreLoops P.Ends.tells P.Ends.entries it.first it.second) }
        ensures counts { IfOk result (λ it. world_faults P.faults P.Door.faults K.faults it.world
            ≡ world_faults P.faults P.Door.faults K.faults world) }
        ensures clocks { IfOk result (λ it. (it.world.clocks ≡ world.clocks) × (it.world.timer ≡ world.timer)) }
        ensures door { IfOk result (λ it. it.world.door ≡ world.door) }
        ensures bounds { IfOk result (λ it. it.bounds ≡ bounds) }
        ensures cause { IfErr result (λ it. BlamesMaking it.0 (world_faults P.faults P.Door.faults K.faults world)
            (world_faults P.faults P.Door.faults K.faults it.1)) }
    {
        let mut world = world;
        if let Err(end) = watch_door(&mut world.ready.0, &mut world.door) {
            return Err((end, world));
        }
        match pair_of(alloc, &world.ready.0, &world.ready.1) {
            Err(AllocError) => Err((LoopEnd::Memory, world)),
            Ok(
                Pair {
                    first,
                    second,
                    ports,
                },
            ) => Ok(Loops {
                first,
                second,
                ports,
                world,
                bounds,
            }),
        }
    }

    /// What is around the loops, which end here.
    pub fn leave(self) -> World<P, K>
        ensures { result ≡ self.world }
    {
        let Loops {
            first,
            second,
            ports,
            world,
            bounds: _,
        } = self;
        drop(first);
        drop(second);
        drop(ports);
        world
    }
}
