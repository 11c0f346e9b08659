//! For tests: a loop that gives back what it hears, over any peers.

use mq_outside::{DiskFault, Failed};
use mq_peers::{Door, Event, Incoming, Link, Ready};

pub const DOOR: u32 = 0;

// A loop and its links, each under the token that is 1 above its place.
#[derive(Drop)]
pub struct Echo<P: Ready + Drop> {
    pub ready: P,
    pub door: P::Door,
    pub links: Vec<P::Link>,
    pub events: Vec<Event>,
    pub room: [u8; 64],
}

// Lets in all who wait at the door.
fn let_in<P: Ready + Drop>(echo: &mut Echo<P>) -> Result<(), DiskFault> {
    for token in 1..u32::MAX {
        let Ok(Some(mut link)) = echo.door.accept() else {
            return Ok(());
        };
        echo.ready.register(&mut link, token)?;
        if echo.links.push(link).is_err() {
            return Err(DiskFault::Memory);
        }
    }
    Ok(())
}

// Gives back what comes by this link until it says 'not now' or ends, and answers how many bytes it took back.
fn give_back<L: Link>(link: &mut L, room: &mut [u8]) -> Result<usize, Failed> {
    let mut given = 0usize;
    for _ in 0..1000 {
        let Incoming::Bytes(n) = link.read(room)? else {
            break;
        };
        if let Some(n) = link.write(&room[..n])? {
            given = given.saturating_add(n);
        }
    }
    Ok(given)
}

// One turn: waits up to a second, and serves what is reported. Answers how many bytes it gave back.
pub fn turn<P: Ready + Drop>(echo: &mut Echo<P>) -> Result<usize, DiskFault> {
    let mut given = 0usize;
    echo.ready.wait(Some(1000), &mut echo.events)?;
    for at in 0..echo.events.len() {
        let Some(event) = echo.events.get(at).copied() else {
            break;
        };
        if event.token == DOOR {
            let_in(echo)?;
        } else if let Some(link) = echo.links.get_mut((event.token - 1) as usize) {
            match give_back(link, &mut echo.room) {
                Ok(n) => given = given.saturating_add(n),
                Err(Failed) => return Err(DiskFault::Failed),
            }
        }
    }
    Ok(given)
}
