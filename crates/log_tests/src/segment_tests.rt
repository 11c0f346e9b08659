//! Batches and records in two segments, byte for byte, with each call of the disk as the one that fails.

ghost use Rattle.std.specs.Prelude.{◌+◌, ◌≤◌, length, IfOk, OnOk};
ghost use Rattle.segment_files.specs.Turn.{IsInside};

use bytes::Bytes;
use log_model::{Batch, LoadFault};
use mq_bytes::LogFile;
use mq_outside::{Disk, MemDisk, Room};
use segment_files::{LastFile, read_record};
use std::alloc::{AllocError, Global};
use std::test::Fail;

const ROOM: Room = Room {
    bytes: 16384,
    files: 2,
    calls: 16,
};

// The first batch has 3178 bytes. A blank of 918 bytes and the second batch come behind it, in a segment of 4096 bytes.
fn batch_of(alloc: Global, second: bool) -> Result<Batch, AllocError>
    ensures { IfOk result (λ batch. length batch.bytes ≤ 3178) }
{
    let bytes: &[u8] = if second { b"next" } else { &[b'a'; 3178] };
    let bytes = Bytes::copy_from_slice(alloc, bytes)?;
    Ok(Batch {
        from: u64::from(second),
        count: 1,
        place: if second { 4096 } else { 0 },
        blank: if second { Some((3178, 918)) } else { None },
        bytes,
    })
}

// Writes a batch, and where that fails, once more.
fn write_again<D: Disk>(
    alloc: Global,
    file: &mut LastFile,
    disk: &mut D,
    second: bool,
) -> Result<(), Fail>
    requires room { file.old.offset ≤ 10000 }
    requires inside { D.tells → IsInside file.old.base file.old.offset (D.state disk.old) }
    ensures room { OnOk result (file.new.offset ≤ file.old.offset + 3178) }
    ensures inside { D.tells → IsInside file.new.base file.new.offset (D.state disk.new) }
{
    let first = batch_of(alloc, second)?;
    if file.write_batch(disk, first).is_err() {
        let again = batch_of(alloc, second)?;
        file.write_batch(disk, again)?;
    }
    Ok(())
}

/// Eight zeros, and behind them a message `hi` to the topic `T`, queue 1,023.
const BEHIND_ZEROS: &[u8; 116] =
    b"\x00\x00\x00\x00\x00\x00\x00\x00\x00\x00\x00l\xDA\xA3 \xA7X\x93*\xAC\x00\x00\x03\xFF\x00\x00\x00\x00\x00\x00\x00\x00\x00\x00\x00\x00\
\x00\x00\x00\x00\x00\x00\x00\x00\x00\x00\x00\x00\x00\x00\x00\x00\x00\x00\x03\xE8\x7F\x00\x00\x01\x00\x00\x00\x00\x00\x00\x00\x00\
\x00\x00\x07\xD0\x7F\x00\x00\x01\x00\x00*\x9F\x00\x00\x00\x00\x00\x00\x00\x00\x00\x00\x00\x00\x00\x00\x00\x02\
hi\x01T\x00\x0ESEAL\x01B1FC2CE2\x02";

// Whether damage is told, at this place and in this file.
fn is_damaged<D: Disk>(alloc: Global, disk: &mut D, place: u64, size: u32, file: u64) -> bool {
    match read_record(disk, alloc, 4096, place, size) {
        Err(LoadFault::Damaged(told, name)) => {
            told == place && name.as_str() == LogFile::of(file).as_str()
        }
        _ => false,
    }
}

#[test]
fn a_record_is_read_where_it_stands_and_nowhere_else(rt: HostRuntime) -> Result<(), Fail> {
    let mut fails = Vec::new(rt.alloc());
    fails.push(6)?;
    let mut disk = MemDisk::new(rt.alloc(), Vec::new(rt.alloc()), ROOM, fails)?;
    disk.write_at(LogFile::of(4096).as_str(), 0, BEHIND_ZEROS)?;
    let Ok(record) = read_record(&mut disk, rt.alloc(), 4096, 4104, 108) else {
        return Err(Fail::from("the other answer"));
    };
    assert!(rt; (record.draft.queue, record.size) == (1023, 108));
    assert!(rt;
        is_damaged(rt.alloc(), &mut disk, 4104, 107, 4096),
        "another size"
    );
    assert!(rt;
        is_damaged(rt.alloc(), &mut disk, 4103, 108, 4096),
        "another place"
    );
    assert!(rt;
        is_damaged(rt.alloc(), &mut disk, 8, 108, 0),
        "an absent file"
    );
    assert!(rt;
        matches!(
            read_record(&mut disk, rt.alloc(), 4096, 4104, 108),
            Err(LoadFault::Failed)
        )
    );
    Ok(())
}

#[test]
fn a_batch_that_opens_a_segment_stands_whole_whichever_call_failed_first(
    rt: HostRuntime,
) -> Result<(), Fail> {
    let mut expected = [0; 4096];
    expected[..3178].fill(b'a');
    expected[3178..3186].copy_from_slice(b"\x00\x00\x03\x96\xCB\xD4\x31\x94");
    for fail in 0..=7 {
        let mut fails = Vec::new(rt.alloc());
        fails.push(fail)?;
        let mut disk = MemDisk::new(rt.alloc(), Vec::new(rt.alloc()), ROOM, fails)?;
        let mut file = LastFile::at(4096, 0);
        write_again(rt.alloc(), &mut file, &mut disk, false)?;
        write_again(rt.alloc(), &mut file, &mut disk, true)?;
        assert!(rt;
            disk.fault_count() == u64::from(fail > 0),
            "each listed call is made"
        );
        assert!(rt; disk.bytes(LogFile::of(0).as_str()) == Some(expected.as_slice()));
        assert!(rt; disk.bytes(LogFile::of(4096).as_str()) == Some(b"next".as_slice()));
    }
    Ok(())
}

#[test]
fn zeros_stand_behind_a_batch_unless_the_disk_failed_at_them(rt: HostRuntime) -> Result<(), Fail> {
    let mut first = [0; 4096];
    first[..3178].fill(b'a');
    first[3178..3186].copy_from_slice(b"\x00\x00\x03\x96\xCB\xD4\x31\x94");
    let mut second = [0; 4096];
    second[..4].copy_from_slice(b"next");
    for fail in 0..=9 {
        let mut fails = Vec::new(rt.alloc());
        fails.push(fail)?;
        let mut disk = MemDisk::new(rt.alloc(), Vec::new(rt.alloc()), ROOM, fails)?;
        let mut file = LastFile::at(4096, 0).with_zeros(4096);
        write_again(rt.alloc(), &mut file, &mut disk, false)?;
        write_again(rt.alloc(), &mut file, &mut disk, true)?;
        assert!(rt;
            disk.fault_count() == u64::from(fail > 0),
            "each listed call is made"
        );
        assert!(rt; disk.bytes(LogFile::of(0).as_str()) == Some(first.as_slice()));
        // The eighth call writes the zeros behind the second batch.
        let end = if fail == 8 { 4 } else { 4096 };
        assert!(rt; disk.bytes(LogFile::of(4096).as_str()) == Some(&second[..end]));
    }
    Ok(())
}
