//! Calls of `serve` over a peer that sends a delayed message and one that pulls, and over a producer that leaves a half message
//! undecided: the message and the check-back come by themselves once the flusher's clock says that their time has come, and not before.

ghost use Rattle.std.specs.Prelude.{◌<◌, ◌^◌};

use crate::journal::{Journal, Note};
use crate::links::{Left, disk, serve_over};
use crate::peer::Script;
use crate::peer_runs::{door, pull, served};
use crate::replies::Reply;
use mq_peers::Calls;
use run_tests::{put_delayed_send, put_half_send, put_heartbeat};
use std::alloc::{AllocError, Global};
use std::sync::Wait;
use std::test::Fail;
use std::thread::Threads;
use std::time::Clock;

/// When the message is due, in milliseconds: a second after it was sent.
const DUE: u64 = 3_000;

/// How long the record is of a delayed message with a body of two bytes, and that of its delivery.
const DELAYED_LEN: usize = 158;

const DELIVERED_LEN: usize = 123;

/// When the half message is first checked, in milliseconds: six seconds after it was sent.
const CHECKED: u64 = 8_000;

/// How long its record is.
const HALF_LEN: usize = 178;

// A peer that sends a message that is delayed by a second.
fn sender(alloc: Global) -> Result<Script, AllocError> {
    let mut first = Vec::new(alloc);
    put_delayed_send(&mut first)?;
    Ok(Script {
        number: 1,
        after: None,
        first,
        again: Vec::new(alloc),
        last: Reply::Sent(0),
        stays: None,
        gone: None,
    })
}

// A peer that pulls once the message was sent, until it is told this.
fn puller(alloc: Global, last: Reply) -> Result<Script, AllocError> {
    Ok(Script {
        number: 2,
        after: Some(Note::Done(1)),
        first: pull(alloc)?,
        again: pull(alloc)?,
        last,
        stays: None,
        gone: None,
    })
}

// Both peers.
fn sender_and_puller(alloc: Global, last: Reply) -> Result<Vec<Script>, AllocError> {
    let mut scripts = Vec::new(alloc);
    scripts.push(sender(alloc)?)?;
    scripts.push(puller(alloc, last)?)?;
    Ok(scripts)
}

// A producer that tells who it is and sends a half message, and ends its side once it was told this.
fn producer(alloc: Global, last: Reply) -> Result<Vec<Script>, AllocError> {
    let mut first = Vec::new(alloc);
    put_heartbeat(&mut first)?;
    put_half_send(&mut first)?;
    let mut scripts = Vec::new(alloc);
    scripts.push(Script {
        number: 1,
        after: None,
        first,
        again: Vec::new(alloc),
        last,
        stays: None,
        gone: None,
    })?;
    Ok(scripts)
}

// What is left of a run that serves these peers over an empty store, where the flusher's clock always says this, with what was noted. It
// owns the journal and the door, so that no test does.
fn run_at<W: Wait + Threads + Clock + Sync>(
    rt: &W,
    alloc: Global,
    words: &[&str],
    scripts: Vec<Script>,
    timer: u64,
) -> Result<(Left, Vec<Note>), AllocError>
    requires { timer < 2 ^ 62 }
{
    let journal = Journal::new(rt, alloc);
    let door = door(alloc, &journal, Calls::Never, scripts)?;
    let (left, _) = serve_over(rt, alloc, words, door, disk(alloc)?, timer)?;
    Ok((left, journal.into_notes()))
}

#[test]
fn a_delayed_message_comes_by_itself_once_it_is_due(rt: HostRuntime) -> Result<(), Fail> {
    let words = ["serve", "--connections", "2"];
    let scripts = sender_and_puller(rt.alloc(), Reply::Pulled(1))?;
    let (left, notes) = run_at(&rt, rt.alloc(), &words, scripts, DUE)?;
    assert!(rt; left == served(2, DELAYED_LEN + DELIVERED_LEN));
    assert!(rt;
        notes.contains(&Note::Done(2)) && !notes.contains(&Note::Missed),
        "{notes:?}"
    );
    Ok(())
}

#[test]
fn a_delayed_message_does_not_come_before_it_is_due(rt: HostRuntime) -> Result<(), Fail> {
    let words = ["serve", "--connections", "2"];
    let scripts = sender_and_puller(rt.alloc(), Reply::Refused(19))?;
    let (left, notes) = run_at(&rt, rt.alloc(), &words, scripts, DUE - 1)?;
    assert!(rt; left == served(1, DELAYED_LEN));
    assert!(rt;
        notes.contains(&Note::Done(2)) && !notes.contains(&Note::Missed),
        "{notes:?}"
    );
    Ok(())
}

#[test]
fn a_producer_that_does_not_decide_is_asked_by_itself_once_it_is_due(
    rt: HostRuntime,
) -> Result<(), Fail> {
    let words = ["serve", "--connections", "1"];
    let scripts = producer(rt.alloc(), Reply::Asked)?;
    let (left, notes) = run_at(&rt, rt.alloc(), &words, scripts, CHECKED)?;
    assert!(rt; left.code == 0 && left.records == Some((2, 2)), "{left:?}");
    assert!(rt;
        notes.contains(&Note::Done(1)) && !notes.contains(&Note::Missed),
        "{notes:?}"
    );
    Ok(())
}

#[test]
fn a_producer_is_not_asked_before_it_is_due(rt: HostRuntime) -> Result<(), Fail> {
    let words = ["serve", "--connections", "1"];
    let scripts = producer(rt.alloc(), Reply::Sent(0))?;
    let (left, notes) = run_at(&rt, rt.alloc(), &words, scripts, CHECKED - 1)?;
    assert!(rt; left == served(1, HALF_LEN));
    assert!(rt;
        notes.contains(&Note::Done(1)) && !notes.contains(&Note::Missed),
        "{notes:?}"
    );
    Ok(())
}
