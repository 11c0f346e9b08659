//! Over real sockets on loopback: an echo, wakes, ends, a peer that doesn't read, and a port that is taken.

use crate::echo::{DOOR, Echo, turn};
use mq_outside::{DiskFault, Failed};
use mq_peers::{
    Door, Event, Incoming, Link, MachineRest, Ready, Rest, TcpDoor, TcpLink, TcpReady, Wake,
};
use std::io::{Read, Write};
use std::net::{Ipv4Addr, SocketAddr, TcpStream};
use std::test::Fail;
use std::thread::join_mut;

// A door on loopback, on a port of the system's choice, and the port.
fn open_door(rt: HostRuntime) -> Result<(TcpDoor<HostRuntime>, u16), Fail> {
    let mut door = TcpDoor::at(rt, Ipv4Addr::LOCALHOST);
    door.open(0).or(Err("not open"))?;
    let port = door.port().ok_or("no port")?;
    Ok((door, port))
}

// A link to this process itself: the end that was let in, and the other one, whose calls wait.
fn link_up(rt: HostRuntime) -> Result<(TcpLink, TcpStream), Fail> {
    let (mut door, port) = open_door(rt)?;
    let stream = TcpStream::connect(&rt, SocketAddr::from((Ipv4Addr::LOCALHOST, port)))?;
    let came = door.accept().or(Err("the door failed"))?;
    Ok((came.ok_or("nobody came")?, stream))
}

#[test]
fn what_a_peer_says_comes_back(rt: HostRuntime) -> Result<(), Fail> {
    let (door, port) = open_door(rt)?;
    let mut echo = Echo {
        ready: TcpReady::new(rt, rt.alloc()).or(Err("no poll"))?,
        door,
        links: Vec::new(rt.alloc()),
        events: Vec::new(rt.alloc()),
        room: [0; 64],
    };
    let registered = echo.ready.register_door(&mut echo.door, DOOR);
    assert!(rt; registered == Ok(()));
    let mut peer = TcpStream::connect(&rt, SocketAddr::from((Ipv4Addr::LOCALHOST, port)))?;
    peer.write_all(b"hello")?;
    let mut given = 0usize;
    for _ in 0..10 {
        given = given.saturating_add(turn(&mut echo).or(Err("a turn failed"))?);
        if given == 5 {
            break;
        }
    }
    let mut back = [0; 5];
    peer.read_exact(&mut back)?;
    assert!(rt; &back == b"hello");
    Ok(())
}

#[test]
fn a_link_is_quiet_then_speaks_then_ends(rt: HostRuntime) -> Result<(), Fail> {
    let (mut link, mut stream) = link_up(rt)?;
    let mut out = [0; 4];
    assert!(rt; link.read(&mut out) == Ok(Incoming::NotNow));
    stream.write_all(b"abcdef")?;
    MachineRest::new(rt).rest(20);
    assert!(rt; link.read(&mut []) == Ok(Incoming::NotNow), "into no room");
    assert!(rt; link.read(&mut out) == Ok(Incoming::Bytes(4)));
    assert!(rt; &out == b"abcd");
    assert!(rt; link.read(&mut out) == Ok(Incoming::Bytes(2)));
    assert!(rt; link.write(b"xyz") == Ok(Some(3)));
    let SocketAddr::V4(address) = stream.local_addr()? else {
        return Err("not IPv4".into());
    };
    let [high, low] = address.port().to_be_bytes();
    assert!(rt; link.peer() == [127, 0, 0, 1, 0, 0, high, low]);
    drop(stream);
    MachineRest::new(rt).rest(20);
    let last = link.read(&mut out);
    assert!(rt; last == Ok(Incoming::End) || last == Err(Failed));
    Ok(())
}

#[test]
fn a_link_that_is_done_ends_for_its_peer_and_reads_on_until_it_is_closed(
    rt: HostRuntime,
) -> Result<(), Fail> {
    let (mut link, mut stream) = link_up(rt)?;
    let mut ready = TcpReady::new(rt, rt.alloc()).or(Err("no poll"))?;
    let mut out = [0; 4];
    link.done();
    assert!(rt; stream.read(&mut out)? == 0);
    stream.write_all(b"ab")?;
    MachineRest::new(rt).rest(20);
    assert!(rt;
        link.read(&mut out) == Ok(Incoming::Bytes(2)),
        "reads go on"
    );
    link.close();
    assert!(rt; link.read(&mut out) == Err(Failed));
    assert!(rt; link.write(b"x") == Err(Failed));
    assert!(rt; ready.register(&mut link, 1) == Err(DiskFault::Failed));
    assert!(rt; ready.deregister(&mut link, 1) == Ok(()));
    Ok(())
}

// Writes pieces until the link says 'not now', and answers how many bytes it took.
fn fill(link: &mut TcpLink, piece: &[u8]) -> Result<usize, Failed> {
    let mut taken = 0usize;
    for _ in 0..100_000 {
        match link.write(piece)? {
            Some(n) => taken = taken.saturating_add(n),
            None => return Ok(taken),
        }
    }
    Err(Failed)
}

// Whether a wait reports this token as writable.
fn is_writable(ready: &mut TcpReady<HostRuntime>, events: &mut Vec<Event>, token: u32) -> bool {
    if ready.wait(Some(1000), events).is_err() {
        return false;
    }
    events
        .iter()
        .any(|event| event.token == token && event.writable)
}

#[test]
fn a_peer_that_does_not_read_stops_the_writes_until_it_does(rt: HostRuntime) -> Result<(), Fail> {
    let (mut link, mut stream) = link_up(rt)?;
    let mut ready = TcpReady::new(rt, rt.alloc()).or(Err("no poll"))?;
    let mut events = Vec::new(rt.alloc());
    let mut room = vec![in rt.alloc(); 7; 65_536]?;
    let registered = ready.register(&mut link, 9);
    assert!(rt; registered == Ok(()));
    assert!(rt;
        is_writable(&mut ready, &mut events, 9),
        "it may take bytes at first"
    );
    let taken = fill(&mut link, &room).or(Err("a write failed"))?;
    assert!(rt; taken > 0);
    assert!(rt; link.write(b"x") == Ok(None), "it still takes nothing");
    for _ in 0..taken / 65_536 {
        stream.read_exact(&mut room)?;
    }
    assert!(rt;
        is_writable(&mut ready, &mut events, 9),
        "it takes bytes again"
    );
    assert!(rt; link.write(b"x") == Ok(Some(1)));
    Ok(())
}

#[test]
fn a_wake_from_another_thread_ends_a_wait(rt: HostRuntime) -> Result<(), Fail> {
    let mut first = TcpReady::new(rt, rt.alloc()).or(Err("no poll"))?;
    let mut ready = first.twin().or(Err("no second poll"))?;
    let waker = ready.waker()?.share()?;
    let mut events = Vec::new(rt.alloc());
    let mut ended = false;
    join_mut(
        &rt,
        &mut || ended = ready.wait(None, &mut events).is_ok(),
        &mut || waker.wake(),
    );
    assert!(rt; ended);
    assert!(rt; events.is_empty(), "a wake is not reported");
    Ok(())
}

#[test]
fn a_port_that_is_taken_is_a_failure(rt: HostRuntime) -> Result<(), Fail> {
    let (mut door, port) = open_door(rt)?;
    assert!(rt;
        door.accept().map(|came| came.is_none()) == Ok(true),
        "nobody waits"
    );
    let mut second = TcpDoor::new(rt);
    assert!(rt; second.accept().is_err(), "it is not open");
    assert!(rt; second.open(port) == Err(Failed));
    Ok(())
}
