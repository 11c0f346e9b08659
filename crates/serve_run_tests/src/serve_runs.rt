//! Calls of `serve` over links in memory: some that are served, one that breaks off, a door that doesn't open.

use crate::links::{Left, NOW, ROOM, disk, door, serve_over};
use mq_peers::{Calls, MemDoor, MemLink};
use std::alloc::{AllocError, Global};
use std::sync::Wait;
use std::test::Fail;
use std::thread::Threads;

const TWO: [&'static str; 3] = ["serve", "--connections", "2"];

/// What is left where the sends of two links were served to their ends: a record with a body of two bytes has 108.
const SERVED: Left = Left {
    code: 0,
    device: "",
    records: Some((2, 2)),
    log: 216,
};

const UNSERVED: Left = Left {
    code: 10,
    device: "door",
    records: None,
    log: 0,
};

// Serves the links of this door over an empty store.
fn serve<W: Wait + Threads + Sync>(
    rt: &W,
    alloc: Global,
    words: &[&str],
    door: MemDoor<MemLink>,
) -> Result<Left, AllocError> {
    let (left, _) = serve_over(rt, alloc, words, door, disk(alloc)?, NOW)?;
    Ok(left)
}

#[test]
fn two_links_that_say_a_byte_at_a_time_are_served_to_their_ends(
    rt: HostRuntime,
) -> Result<(), Fail> {
    let door = door(rt.alloc(), Calls::Never, ROOM)?;
    let (left, numbers) = serve_over(&rt, rt.alloc(), &TWO, door, disk(rt.alloc())?, NOW)?;
    assert!(rt; left == SERVED);
    // Each has ended at the loop of its number.
    assert!(rt; numbers == (Some(2), Some(1)));
    Ok(())
}

#[test]
fn a_link_that_breaks_off_inside_its_reply_disturbs_no_other(rt: HostRuntime) -> Result<(), Fail> {
    let door = door(rt.alloc(), Calls::Never, 50)?;
    assert!(rt; serve(&rt, rt.alloc(), &TWO, door)? == SERVED);
    Ok(())
}

#[test]
fn a_door_that_does_not_open_and_wrong_words_serve_nobody(rt: HostRuntime) -> Result<(), Fail> {
    let closed = door(rt.alloc(), Calls::From(1), ROOM)?;
    assert!(rt; serve(&rt, rt.alloc(), &["serve"], closed)? == UNSERVED);
    let door = door(rt.alloc(), Calls::Never, ROOM)?;
    let left = Left {
        code: 1,
        device: "",
        ..UNSERVED
    };
    assert!(rt; serve(&rt, rt.alloc(), &["serve", "now"], door)? == left);
    Ok(())
}
