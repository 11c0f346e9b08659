//! A turn that fails, and the same batch again.

ghost use Rattle.std.specs.Prelude.{◌≡◌, ◌≤◌, length, IfOk};

use bytes::Bytes;
use group_flush::{FlushFault, Flusher};
use log_model::Batch;
use mq_outside::{MemDisk, Room};
use segment_files::LastFile;
use std::alloc::{AllocError, Global};
use std::test::Fail;

const ROOM: Room = Room {
    bytes: 4096,
    files: 1,
    calls: 8,
};

fn hello(alloc: Global) -> Result<Batch, AllocError>
    ensures { IfOk result (λ batch. length batch.bytes ≤ 5) }
{
    let bytes = Bytes::copy_from_slice(alloc, b"hello")?;
    Ok(Batch {
        from: 0,
        count: 1,
        place: 0,
        blank: None,
        bytes,
    })
}

#[test]
fn a_failed_turn_tells_the_count_of_faults_and_the_next_one_writes_at_the_same_place(
    rt: HostRuntime,
) -> Result<(), Fail> {
    let mut fails = Vec::new(rt.alloc());
    fails.push(2)?;
    let mut disk = MemDisk::new(rt.alloc(), Vec::new(rt.alloc()), ROOM, fails)?;
    let mut flusher = Flusher::new(LastFile::at(4096, 0));
    let first = hello(rt.alloc())?;
    let Err(FlushFault { count }) = flusher.turn(&mut disk, first) else {
        return Err(Fail::from("the other answer"));
    };
    assert!(rt; count == 1);
    let again = hello(rt.alloc())?;
    let Ok(receipt) = flusher.turn(&mut disk, again) else {
        return Err(Fail::from("the other answer"));
    };
    assert!(rt; (receipt.from, receipt.count) == (0, 1));
    assert!(rt;
        (
            receipt.piece.base(),
            receipt.piece.from(),
            receipt.piece.len()
        ) == (0, 0, 5)
    );
    Ok(())
}
