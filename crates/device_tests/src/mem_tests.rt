//! In memory: a link that gives its bytes one at a time, one that takes nothing, a door, and a loop over them.

ghost use Rattle.std.specs.Prelude.{◌≡◌, [], IfOk};

use crate::echo::{DOOR, Echo, turn};
use mq_outside::{DiskFault, Failed, MemSink, MemSource};
use mq_peers::{
    Calls, Door, Incoming, Link, MemDoor, MemLink, MemReady, MemRest, Ready, Rest, Wake,
};
use std::alloc::Global;
use std::test::Fail;

// A link that gives "a", "b" and "c" and has room for ten bytes.
fn abc(alloc: Global) -> Result<MemLink, Fail>
    ensures given { IfOk result (λ link. ⟦<MemLink as Link>⟧.given link ≡ []) }
    ensures taken { IfOk result (λ link. ⟦<MemLink as Link>⟧.taken link ≡ []) }
    ensures faults { IfOk result (λ link. ⟦<MemLink as Link>⟧.faults link ≡ 0) }
{
    let pieces = vec![in alloc;
        b"a".to_vec(alloc)?,
        b"b".to_vec(alloc)?,
        b"c".to_vec(alloc)?,
    ]?;
    let source = MemSource::new(alloc, pieces, Vec::new(alloc))?;
    let sink = MemSink::new(alloc, 10, 10, Vec::new(alloc))?;
    Ok(MemLink::new([127, 0, 0, 1, 0, 0, 0, 9], source, sink))
}

// What five reads of a link answer.
fn read_five(link: &mut MemLink) -> [Result<Incoming, Failed>; 5] {
    let mut out = [0; 4];
    [
        link.read(&mut out),
        link.read(&mut out),
        link.read(&mut out),
        link.read(&mut out),
        link.read(&mut out),
    ]
}

#[test]
fn a_link_gives_a_byte_at_a_time_with_pauses(rt: HostRuntime) -> Result<(), Fail> {
    let mut link = abc(rt.alloc())?.quiet_at(Calls::EveryOther);
    let quiet = Ok(Incoming::NotNow);
    let one = Ok(Incoming::Bytes(1));
    assert!(rt; read_five(&mut link) == [quiet, one, quiet, one, quiet]);
    let end = Ok(Incoming::End);
    assert!(rt; read_five(&mut link) == [one, quiet, end, quiet, end]);
    Ok(())
}

#[test]
fn marked_calls_are_those_that_were_named(rt: HostRuntime) -> Result<(), Fail> {
    let quiet = Ok(Incoming::NotNow);
    let one = Ok(Incoming::Bytes(1));
    let mut link = abc(rt.alloc())?.quiet_at(Calls::At(vec![in rt.alloc(); 2, 3]?));
    assert!(rt; read_five(&mut link) == [one, quiet, quiet, one, one]);
    let mut link = abc(rt.alloc())?.quiet_at(Calls::From(3));
    assert!(rt; read_five(&mut link) == [one, one, quiet, quiet, quiet]);
    Ok(())
}

#[test]
fn a_link_that_never_takes_takes_nothing(rt: HostRuntime) -> Result<(), Fail> {
    let mut link = abc(rt.alloc())?.full_at(Calls::Always);
    assert!(rt; link.write(b"xy") == Ok(None));
    assert!(rt; link.write(b"xy") == Ok(None));
    assert!(rt; link.bytes().is_empty());
    link.done();
    link.close();
    assert!(rt; link.write(b"xy") == Err(Failed));
    assert!(rt; link.is_closed());
    assert!(rt; link.peer() == [127, 0, 0, 1, 0, 0, 0, 9]);
    Ok(())
}

// A door with two links of three bytes, of whose calls the second is to fail.
fn two_links(alloc: Global) -> Result<MemDoor<MemLink>, Fail> {
    let mut door = MemDoor::new(alloc, Calls::At(vec![in alloc; 2]?));
    door.put(abc(alloc)?)?;
    door.put(abc(alloc)?)?;
    Ok(door)
}

#[test]
fn a_loop_gives_back_what_two_links_say(rt: HostRuntime) -> Result<(), Fail> {
    let mut echo = Echo {
        ready: MemReady::new(rt.alloc(), 4),
        door: two_links(rt.alloc())?,
        links: Vec::new(rt.alloc()),
        events: Vec::new(rt.alloc()),
        room: [0; 64],
    };
    assert!(rt; echo.door.open(10_911) == Ok(()));
    let registered = echo.ready.register_door(&mut echo.door, DOOR);
    assert!(rt; registered == Ok(()));
    let turns = [
        turn(&mut echo),
        turn(&mut echo),
        turn(&mut echo),
        turn(&mut echo),
        turn(&mut echo),
    ];
    assert!(rt; turns == [Ok(0), Ok(0), Ok(6), Ok(0), Err(DiskFault::Failed)]);
    for link in &echo.links {
        assert!(rt; link.bytes() == b"abc".as_slice());
    }
    Ok(())
}

#[test]
fn who_is_no_longer_registered_is_not_reported(rt: HostRuntime) -> Result<(), Fail> {
    let mut ready = MemReady::new(rt.alloc(), 2);
    let mut link = abc(rt.alloc())?;
    let mut events = Vec::new(rt.alloc());
    assert!(rt; ready.register(&mut link, 3) == Ok(()));
    assert!(rt; ready.wait(None, &mut events) == Ok(()));
    assert!(rt; events.len() == 1);
    assert!(rt; ready.deregister(&mut link, 3) == Ok(()));
    assert!(rt; ready.wait(None, &mut events) == Ok(()));
    assert!(rt; events.is_empty());
    ready.waker()?.share()?.wake();
    let mut rest = MemRest { rests: 0 };
    rest.rest(5);
    assert!(rt; rest.rests == 1);
    Ok(())
}
