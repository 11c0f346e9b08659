//! One call of `serve` over TCP on loopback, whose client is on a thread of its own.

ghost use Rattle.std.specs.Thread.{IsSync};

use crate::links::{disk, records_in};
use broker_serve::{Ended, Store, run_serve};
use mq_outside::{Disk, MemClock, MemDisk, MemKeep};
use mq_peers::{MachineRest, Ready, Rest, TcpDoor, TcpReady};
use run_tests::{FIRST_SENT, HOST, put_send};
use serve_threads::World;
use std::alloc::{AllocError, Global};
use std::io;
use std::io::{Read, Write};
use std::net::{Ipv4Addr, Shutdown, SocketAddr, TcpStream};
use std::sync::Wait;
use std::test::Fail;
use std::thread::{Threads, join};

/// The port of the call, as in `HOST`.
const PORT: u16 = 27911;

const SERVE: [&'static str; 5] = ["serve", "--connections", "1", "--host", HOST];

/// How often the client looks whether the port is open, with a rest of 10 milliseconds behind each look.
const LOOKS: u32 = 500;

// The status of a call, how many records its core has, and how many of them are on the disk.
type Outcome = (u8, Option<(u64, u64)>);

// With type parameters, so that the drop of what a broker over TCP owns needn't be proved.
fn outcome_of<P: Ready + Drop, D: Disk + Drop>(ended: Ended<P, MemClock, D, MemKeep>) -> Outcome {
    let records = ended.core.as_ref().map(|core| records_in(core));
    let outcome = (ended.status.code, records);
    drop(ended);
    outcome
}

// A link to the port, as soon as it is open.
fn connected(rt: HostRuntime) -> io::Result<TcpStream> {
    let address = SocketAddr::from((Ipv4Addr::LOCALHOST, PORT));
    for _ in 0..LOOKS {
        if let Ok(stream) = TcpStream::connect(&rt, address) {
            return Ok(stream);
        }
        MachineRest::new(rt).rest(10);
    }
    TcpStream::connect(&rt, address)
}

// Says these bytes and no more, and hears all up to the end.
fn heard(rt: HostRuntime, said: &[u8]) -> io::Result<Vec<u8>> {
    let mut stream = connected(rt)?;
    let mut heard = Vec::new(rt.alloc());
    stream.write_all(said)?;
    stream.shutdown(Shutdown::Write)?;
    stream.read_to_end(&mut heard)?;
    drop(stream);
    Ok(heard)
}

fn clock(alloc: Global) -> Result<MemClock, AllocError> {
    MemClock::new(alloc, vec![in alloc; 2000]?, Vec::new(alloc))
}

// The real door, on loopback alone, and what tells which links are ready.
fn world(rt: HostRuntime) -> Result<World<TcpReady<HostRuntime>, MemClock>, Fail> {
    let clocks = (clock(rt.alloc())?, clock(rt.alloc())?);
    let ready = TcpReady::new(rt, rt.alloc()).or(Err("no poll"))?;
    let other = TcpReady::new(rt, rt.alloc()).or(Err("no second poll"))?;
    Ok(World {
        ready: (ready, other),
        clocks,
        timer: clock(rt.alloc())?,
        door: TcpDoor::at(rt, Ipv4Addr::LOCALHOST),
    })
}

fn store(alloc: Global) -> Result<Store<MemDisk, MemKeep>, AllocError> {
    Ok(Store {
        disk: disk(alloc)?,
        keep: MemKeep::new(alloc, Vec::new(alloc), Vec::new(alloc))?,
    })
}

// How a call of `serve` ended, and what its client heard that said these bytes.
fn serve_one<W: Wait + Threads + Sync>(
    threads: &W,
    rt: HostRuntime,
    said: &[u8],
) -> Result<(Outcome, io::Result<Vec<u8>>), Fail> {
    let world = world(rt)?;
    let store = store(rt.alloc())?;
    Ok(join(
        threads,
        move || -> Outcome
            requires { IsSync W.row }
        { outcome_of(run_serve(threads, rt.alloc(), &SERVE, world, store)) },
        move || heard(rt, said),
    ))
}

#[test]
fn a_client_over_tcp_hears_what_pipe_answers(rt: HostRuntime) -> Result<(), Fail> {
    let mut said = Vec::new(rt.alloc());
    put_send(&mut said, 2)?;
    let (outcome, heard) = serve_one(&rt, rt, &said)?;
    assert!(rt; outcome == (0, Some((1, 1))));
    let heard = heard?;
    assert!(rt; heard.as_slice() == FIRST_SENT);
    Ok(())
}
