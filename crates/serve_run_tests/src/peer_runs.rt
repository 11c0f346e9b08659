//! Calls of `serve` over peers that wait for each other: others are served while a sync is held, and beside a peer that takes no
//! reply; a door that fails once both links were served.

use crate::held_disk::HeldDisk;
use crate::journal::{Journal, Note};
use crate::links::{Left, NOW, disk, serve_over};
use crate::peer::{Peer, Script};
use crate::replies::Reply;
use mq_peers::{Calls, MemDoor};
use run_tests::{put_hasty_send, put_pull, put_send};
use std::alloc::{AllocError, Global};
use std::sync::Wait;
use std::test::Fail;
use std::thread::Threads;
use std::time::Clock;

/// There is nothing yet that a consumer sees.
const NOTHING: Reply = Reply::Refused(19);

/// How long a record with a body of two bytes is, and the property that it isn't to wait.
const RECORD_LEN: usize = 108;

const HASTY_LEN: usize = 11;

/// What peer 2 takes while the sync is held. The message that waits for the disk isn't answered before it is let go.
const BESIDE: [Note; 3] = [
    Note::Held,
    Note::Took(2, Reply::Sent(1)),
    Note::Took(2, NOTHING),
];

/// What is left of a run that served so many sends, with a log of so many bytes.
pub(crate) fn served(records: u64, log: usize) -> Left {
    Left {
        code: 0,
        device: "",
        records: Some((records, records)),
        log,
    }
}

// So many sends.
fn sends(alloc: Global, count: u32) -> Result<Vec<u8>, AllocError> {
    let mut bytes = Vec::new(alloc);
    for _ in 0..count {
        put_send(&mut bytes, 2)?;
    }
    Ok(bytes)
}

fn hasty_send(alloc: Global) -> Result<Vec<u8>, AllocError> {
    let mut bytes = Vec::new(alloc);
    put_hasty_send(&mut bytes)?;
    Ok(bytes)
}

pub(crate) fn pull(alloc: Global) -> Result<Vec<u8>, AllocError> {
    let mut bytes = Vec::new(alloc);
    put_pull(&mut bytes)?;
    Ok(bytes)
}

// A peer that says this once the other thing was noted, and then pulls until it has so many records.
fn puller(
    alloc: Global,
    number: u8,
    after: Note,
    first: Vec<u8>,
    records: u64,
) -> Result<Script, AllocError> {
    Ok(Script {
        number,
        after: Some(after),
        first,
        again: pull(alloc)?,
        last: Reply::Pulled(records),
        stays: None,
        gone: None,
    })
}

// A peer that sends so many messages in one piece, and ends once the first is answered. Where it is to be gone at some time it takes no
// reply till then.
fn sender(alloc: Global, count: u32, gone: Option<Note>) -> Result<Script, AllocError> {
    Ok(Script {
        number: 1,
        after: None,
        first: sends(alloc, count)?,
        again: Vec::new(alloc),
        last: Reply::Sent(0),
        stays: None,
        gone,
    })
}

/// A door at which these peers stand in order, and of whose calls these fail.
pub(crate) fn door<'a, W: Wait + Clock>(
    alloc: Global,
    journal: &'a Journal<'a, W>,
    fails: Calls,
    scripts: Vec<Script>,
) -> Result<MemDoor<Peer<'a, W>>, AllocError> {
    let mut door = MemDoor::new(alloc, fails);
    for script in scripts {
        door.put(Peer::new(journal, script))?;
    }
    Ok(door)
}

// Serves the peers at this door over an empty store, whose first sync is held until this is noted.
fn serve<'a, W: Wait + Threads + Clock + Sync>(
    rt: &W,
    alloc: Global,
    journal: &'a Journal<'a, W>,
    words: &[&str],
    door: MemDoor<Peer<'a, W>>,
    until: Option<Note>,
) -> Result<Left, AllocError> {
    let disk = HeldDisk::new(disk(alloc)?, journal, until);
    let (left, _) = serve_over(rt, alloc, words, door, disk, NOW)?;
    Ok(left)
}

// What is left of a run that serves these peers, with what was noted. Of the door's calls these fail, and the first sync is held until this
// was noted. It owns the journal and the door, so that no test does.
fn run<W: Wait + Threads + Clock + Sync>(
    rt: &W,
    alloc: Global,
    words: &[&str],
    scripts: Vec<Script>,
    fails: Calls,
    until: Option<Note>,
) -> Result<(Left, Vec<Note>), AllocError> {
    let journal = Journal::new(rt, alloc);
    let door = door(alloc, &journal, fails, scripts)?;
    let left = serve(rt, alloc, &journal, words, door, until)?;
    Ok((left, journal.into_notes()))
}

// One peer that sends, and one that sends what isn't to wait, and pulls, once the first sync is held.
fn sender_and_puller(alloc: Global) -> Result<Vec<Script>, AllocError> {
    let mut scripts = Vec::new(alloc);
    scripts.push(sender(alloc, 1, None)?)?;
    scripts.push(puller(alloc, 2, Note::Held, hasty_send(alloc)?, 2)?)?;
    Ok(scripts)
}

// The same two, but each one stays until the other one has all that it wanted.
fn sender_and_puller_that_stay(alloc: Global) -> Result<Vec<Script>, AllocError> {
    let mut first = sender(alloc, 1, None)?;
    first.stays = Some(Note::Done(2));
    let mut second = puller(alloc, 2, Note::Held, hasty_send(alloc)?, 2)?;
    second.stays = Some(Note::Done(1));
    let mut scripts = Vec::new(alloc);
    scripts.push(first)?;
    scripts.push(second)?;
    Ok(scripts)
}

// One peer that sends and takes no reply until the others have ended, which send and pull one after the other.
fn mute_and_two_pullers(alloc: Global) -> Result<Vec<Script>, AllocError> {
    let mut scripts = Vec::new(alloc);
    scripts.push(sender(alloc, 3, Some(Note::Done(3)))?)?;
    scripts.push(puller(alloc, 2, Note::Full(1), sends(alloc, 1)?, 4)?)?;
    scripts.push(puller(alloc, 3, Note::Done(2), sends(alloc, 1)?, 5)?)?;
    Ok(scripts)
}

#[test]
fn others_are_served_while_a_sync_is_held(rt: HostRuntime) -> Result<(), Fail> {
    let words = ["serve", "--connections", "2"];
    let scripts = sender_and_puller(rt.alloc())?;
    let until = Some(Note::Took(2, NOTHING));
    let (left, notes) = run(&rt, rt.alloc(), &words, scripts, Calls::Never, until)?;
    assert!(rt; left == served(2, 2 * RECORD_LEN + HASTY_LEN));
    assert!(rt; notes.starts_with(&BESIDE), "{notes:?}");
    assert!(rt; notes.contains(&Note::Took(1, Reply::Sent(0))) && notes.contains(&Note::Done(2)));
    assert!(rt; !notes.contains(&Note::Missed));
    Ok(())
}

#[test]
fn others_are_served_beside_a_peer_that_takes_no_reply(rt: HostRuntime) -> Result<(), Fail> {
    let words = ["serve", "--connections", "3"];
    let scripts = mute_and_two_pullers(rt.alloc())?;
    let (left, notes) = run(&rt, rt.alloc(), &words, scripts, Calls::Never, None)?;
    assert!(rt; left == served(5, 5 * RECORD_LEN));
    assert!(rt; notes.starts_with(&[Note::Full(1), Note::Took(2, Reply::Sent(3))]));
    assert!(rt; notes.ends_with(&[Note::Took(3, Reply::Pulled(5)), Note::Done(3)]));
    assert!(rt; !notes.contains(&Note::Missed));
    Ok(())
}

#[test]
fn a_door_that_fails_at_its_third_link_ends_a_run_that_served_two(
    rt: HostRuntime,
) -> Result<(), Fail> {
    // While two links are open the door isn't asked for a third.
    let words = ["serve", "--links", "2"];
    let scripts = sender_and_puller_that_stay(rt.alloc())?;
    // The door opens, gives both links, and fails from then on.
    let fails = Calls::From(4);
    let until = Some(Note::Took(2, NOTHING));
    let (left, notes) = run(&rt, rt.alloc(), &words, scripts, fails, until)?;
    let failed = Left {
        code: 10,
        device: "door",
        ..served(2, 2 * RECORD_LEN + HASTY_LEN)
    };
    assert!(rt; left == failed);
    assert!(rt; notes.starts_with(&BESIDE), "{notes:?}");
    assert!(rt; notes.contains(&Note::Done(1)) && notes.contains(&Note::Done(2)));
    assert!(rt; !notes.contains(&Note::Missed));
    Ok(())
}
