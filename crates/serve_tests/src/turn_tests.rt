//! Turns over an object that has one batch, which it gives until it is flushed.

ghost use Rattle.std.specs.Prelude.{◌≡◌, ◌≤◌, [], ◌∷◌, None, IfSome, length};
ghost use Rattle.std.proofs.Props.{props};

use broker_events::{Awaited, Calls, Event, Said};
use bytes::Bytes;
use group_flush::Flusher;
use log_model::Batch;
use mq_outside::{MemDisk, Room};
use segment_files::LastFile;
use std::alloc::{AllocError, Global};
use std::test::Fail;
use worker_turns::{FlushEnd, dispatch_turn, flush_turn};

const ROOM: Room = Room {
    bytes: 4096,
    files: 1,
    calls: 8,
};

#[derive(Drop)]
struct OneBatch {
    flushed: u64,
    end: u64,
    out: Option<Batch>,
    ghost few: { flushed ≤ 1 },
    ghost first: { IfSome out (λ batch. (flushed ≡ 0) × (batch.count ≡ 1) × (batch.place ≡ 0) × (batch.blank ≡ None)
        × (length batch.bytes ≡ 5)) } by { Prim.hlevel props },
}

fn hello() -> Batch
    ensures { result ≡ record { from = 0; count = 1; place = 0; blank = None; bytes = 104 ∷ 101 ∷ 108 ∷ 108 ∷ 111 ∷ [] } }
{
    Batch {
        from: 0,
        count: 1,
        place: 0,
        blank: None,
        bytes: Bytes::from_static(b"hello"),
    }
}

impl Calls for OneBatch {
    ghost use Rattle.std.specs.Prelude.{◌≡◌};
    ghost use Rattle.broker_events.specs.Shown.{Shown, moved};

    ghost makes = { λ x event what y. record { flushed = y.flushed; end = y.end; out = y.out }
        ≡ moved (record { flushed = x.flushed; end = x.end; out = x.out }) event what };

    ghost has_key = { λ x. Unit {0} };

    ghost shown = { λ x. record { flushed = x.flushed; end = x.end; out = x.out } };

    ghost key_stays = { λ x event what y step key. tt };

    ghost shown_moves = { λ x event what y step key. step };

    fn call(&mut self, alloc: Global, event: &Event) -> Result<Said, AllocError> {
        let _alloc = alloc;
        match event {
            Event::Request { .. } => Ok(Said::Full { pending: 0 }),
            Event::Take => {
                if self.out.is_some() || self.flushed > 0 {
                    return Ok(Said::Batch(None));
                }
                self.out = Some(hello());
                Ok(Said::Batch(Some(hello())))
            }
            Event::Flushed(_) => {
                let Some(batch) = self.out.take() else {
                    unreachable!();
                };
                self.flushed += batch.count;
                self.end = batch.place + batch.bytes.len() as u64;
                Ok(Said::Done)
            }
            Event::FlushFailed { .. } => {
                self.out = None;
                Ok(Said::Done)
            }
            Event::Look { .. } => Ok(Said::Awaited(Awaited::NotYet)),
            Event::Dispatch { .. } => Ok(Said::Moved(self.flushed)),
            Event::Deliver { .. } => Ok(Said::Delivered(None)),
            Event::Check { .. } => Ok(Said::Checked(None)),
            Event::Leave { .. } => Ok(Said::Done),
        }
    }
}

// A flush turn and a dispatch, where so many batches are flushed already and this call of the disk fails.
fn turns(alloc: Global, flushed: bool, failing: u64) -> Result<(FlushEnd, u64), Fail> {
    let mut fails = Vec::new(alloc);
    fails.push(failing)?;
    let mut disk = MemDisk::new(alloc, Vec::new(alloc), ROOM, fails)?;
    let mut calls = OneBatch {
        flushed: u64::from(flushed),
        end: 0,
        out: None,
    };
    let mut flusher = Flusher::new(LastFile::at(4096, 0));
    let end = flush_turn(alloc, &mut calls, &mut flusher, &mut disk);
    Ok((end, dispatch_turn(alloc, &mut calls, 32)))
}

#[test]
fn a_turn_ends_as_the_disk_does_and_only_flushed_records_are_seen(
    rt: HostRuntime,
) -> Result<(), Fail> {
    assert!(rt; turns(rt.alloc(), false, 9)? == (FlushEnd::Done, 1));
    assert!(rt; turns(rt.alloc(), false, 2)? == (FlushEnd::Failed(1), 0));
    assert!(rt; turns(rt.alloc(), true, 9)? == (FlushEnd::Idle, 1));
    Ok(())
}
