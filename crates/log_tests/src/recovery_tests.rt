//! Recovery of small logs, whose record bytes were made independently, with the sums of zlib.

ghost use Rattle.std.specs.Prelude.{IfOk};
ghost use Rattle.log_model.specs.Bases.{geometry};
ghost use Rattle.log_model.specs.Log.{IsGeometry};
ghost use Rattle.log_model.specs.Told.{base_of};

use crate::worked::PLAIN;
use log_model::Base;
use log_recovery::{RecoverFault, Visit, read_kept, recover};
use mq_bytes::LogFile;
use mq_outside::{Disk, Failed, MemDisk, Room};
use record_codec::View;
use std::alloc::{AllocError, Global};
use std::test::Fail;

const SEGMENT: u32 = 4096;

const ROOM: Room = Room {
    bytes: 65536,
    files: 4,
    calls: 64,
};

/// The same message twice behind a base of two segments: at the places 8,192 and 8,300, with the queue offsets 3 and 4.
const BEHIND_THE_BASE: &[u8; 216] =
    b"\x00\x00\x00l\xDA\xA3 \xA7X\x93*\xAC\x00\x00\x00\x00\x00\x00\x00\x00\x00\x00\x00\x00\x00\x00\x00\x03\x00\x00\x00\x00\x00\
\x00 \x00\x00\x00\x00\x00\x00\x00\x00\x00\x00\x00\x03\xE8\x7F\x00\x00\x01\x00\x00\x00\x00\x00\x00\x00\x00\x00\x00\x07\
\xD0\x7F\x00\x00\x01\x00\x00*\x9F\x00\x00\x00\x00\x00\x00\x00\x00\x00\x00\x00\x00\x00\x00\x00\x02hi\x01T\x00\x0ESEAL\x01\
11219C30\x02\x00\x00\x00l\xDA\xA3 \xA7X\x93*\xAC\x00\x00\x00\x00\x00\x00\x00\x00\x00\x00\x00\x00\x00\x00\x00\x04\x00\x00\
\x00\x00\x00\x00 l\x00\x00\x00\x00\x00\x00\x00\x00\x00\x00\x03\xE8\x7F\x00\x00\x01\x00\x00\x00\x00\x00\x00\x00\x00\x00\
\x00\x07\xD0\x7F\x00\x00\x01\x00\x00*\x9F\x00\x00\x00\x00\x00\x00\x00\x00\x00\x00\x00\x00\x00\x00\x00\x02hi\x01T\x00\x0E\
SEAL\x01A29B6A51\x02";

/// Counts the records.
#[derive(Drop)]
struct Count {
    records: u64,
}

impl Visit for Count {
    ghost stands = { λ _ _ _. Unit {0} };

    fn record(&mut self, _view: &View<'_>) -> Result<(), AllocError> {
        self.records = self.records.saturating_add(1);
        Ok(())
    }
}

/// The same message twice: the second record stands at place 108 and has the queue offset 1.
pub fn two_records() -> [u8; 216] {
    let mut bytes = [0; 216];
    bytes[..108].copy_from_slice(PLAIN);
    bytes[108..].copy_from_slice(PLAIN);
    bytes[135] = 1;
    bytes[143] = 108;
    bytes[207..215].copy_from_slice(b"26B1EB9E");
    bytes
}

/// A segment with these records and a blank of 3,880 bytes.
pub fn ended_segment() -> [u8; 4096] {
    let mut bytes = [0; 4096];
    bytes[..216].copy_from_slice(&two_records());
    bytes[216..224].copy_from_slice(b"\x00\x00\x0F\x28\xCB\xD4\x31\x94");
    bytes
}

fn put_files(disk: &mut MemDisk, first: &[u8], second: &[u8]) -> Result<(), Failed> {
    disk.write_at(LogFile::of(0).as_str(), 0, first)?;
    if !second.is_empty() {
        disk.write_at(LogFile::of(4096).as_str(), 0, second)?;
    }
    Ok(())
}

/// A disk with this first file of the log, and the second one if it has bytes. The call of this number fails.
fn disk_of(alloc: Global, first: &[u8], second: &[u8], fail: u64) -> Result<MemDisk, Fail> {
    let fails = vec![in alloc; fail]?;
    let mut disk = MemDisk::new(alloc, Vec::new(alloc), ROOM, fails)?;
    put_files(&mut disk, first, second)?;
    Ok(disk)
}

/// What recovery answers, and how many records it hands on.
fn recovered(alloc: Global, disk: &mut MemDisk) -> (Result<u64, RecoverFault>, u64) {
    let mut count = Count { records: 0 };
    let answer = recover(alloc, disk, SEGMENT, &Base::none(alloc), &mut count);
    (answer, count.records)
}

/// What reading the kept log answers, and how many records it hands on.
fn read(alloc: Global, disk: &mut MemDisk) -> (Result<u64, RecoverFault>, u64) {
    let mut count = Count { records: 0 };
    let answer = read_kept(alloc, disk, SEGMENT, &Base::none(alloc), &mut count);
    (answer, count.records)
}

/// Whether so many records are kept, and where they end.
fn is_kept(alloc: Global, disk: &mut MemDisk, end: u64, records: u64) -> bool {
    match recovered(alloc, disk) {
        (Ok(at), count) => at == end && count == records,
        (Err(_), _) => false,
    }
}

fn is_damaged_at(alloc: Global, disk: &mut MemDisk, place: u64, name: &str) -> bool {
    match recovered(alloc, disk) {
        (Err(RecoverFault::Damaged(at, file)), _) => at == place && file.as_str() == name,
        _ => false,
    }
}

/// Whether the file that begins at this place has these bytes.
fn holds(disk: &MemDisk, base: u64, bytes: &[u8]) -> bool {
    disk.bytes(LogFile::of(base).as_str()) == Some(bytes)
}

/// Whether the first record alone is kept of a file of these bytes.
fn keeps_the_first(alloc: Global, bytes: &[u8]) -> Result<bool, Fail> {
    let mut disk = disk_of(alloc, bytes, &[], 0)?;
    Ok(is_kept(alloc, &mut disk, 108, 1) && holds(&disk, 0, PLAIN))
}

/// Whether both records are kept, and the second file is gone, once recovery has come again after this call failed.
fn keeps_both(alloc: Global, second: &[u8], fail: u64) -> Result<bool, Fail> {
    let mut disk = disk_of(alloc, &ended_segment(), second, fail)?;
    let _ = recovered(alloc, &mut disk);
    Ok(
        is_kept(alloc, &mut disk, 216, 2)
            && holds(&disk, 0, &two_records())
            && disk.bytes(LogFile::of(4096).as_str()).is_none(),
    )
}

#[test]
fn a_torn_or_changed_second_record_is_cut_off(rt: HostRuntime) -> Result<(), Fail> {
    let two = two_records();
    for i in 0..108 {
        let is_cut = keeps_the_first(rt.alloc(), &two[..108 + i])?;
        let mut changed = two;
        changed[108 + i] ^= 0x20;
        let stays = keeps_the_first(rt.alloc(), &changed)?;
        assert!(rt; (is_cut, stays) == (true, true), "torn and changed at {i}");
    }
    Ok(())
}

#[test]
fn a_last_file_without_records_is_removed_whichever_call_fails(
    rt: HostRuntime,
) -> Result<(), Fail> {
    let blank = b"\x00\x00\x10\x00\xCB\xD4\x31\x94".as_slice();
    for second in [[0; 16].as_slice(), blank, b"x"] {
        // Two calls make the files, and nine recover them.
        for fail in 3..12 {
            assert!(rt; keeps_both(rt.alloc(), second, fail)?, "call {fail} failed");
        }
    }
    Ok(())
}

/// The records but for the last 16 bytes of the second.
pub fn torn(records: &[u8; 216]) -> &[u8] {
    &records[..200]
}

#[test]
fn a_reading_of_the_kept_log_changes_nothing(rt: HostRuntime) -> Result<(), Fail> {
    let two = two_records();
    let mut disk = disk_of(rt.alloc(), torn(&two), &[], 0)?;
    let is_read = match read(rt.alloc(), &mut disk) {
        (Ok(end), records) => end == 108 && records == 1,
        (Err(_), _) => false,
    };
    assert!(rt; is_read && holds(&disk, 0, torn(&two)));
    Ok(())
}

/// Whether a changed record before the last file is told.
fn tells_a_changed_record(alloc: Global) -> Result<bool, Fail> {
    let mut first = ended_segment();
    first[120] ^= 0x20;
    let mut disk = disk_of(alloc, &first, b"x", 0)?;
    Ok(is_damaged_at(alloc, &mut disk, 108, "commitlog/00000000000000000000"))
}

/// Whether the first file that is none of the log's is told, behind two files, behind one and alone, and none once it is gone.
fn tells_another_file(alloc: Global, disk: &mut MemDisk) -> Result<[bool; 4], Failed> {
    disk.write_at("commitlog/x", 0, &[])?;
    let no_blank = is_damaged_at(alloc, disk, 4096, "commitlog/00000000000000004096");
    disk.remove(LogFile::of(4096).as_str())?;
    let behind = is_damaged_at(alloc, disk, 4096, "commitlog/x");
    disk.remove(LogFile::of(0).as_str())?;
    let alone = is_damaged_at(alloc, disk, 0, "commitlog/x");
    disk.remove("commitlog/x")?;
    Ok([no_blank, behind, alone, is_kept(alloc, disk, 0, 0)])
}

fn tells_in_two_files(alloc: Global) -> Result<[bool; 4], Fail> {
    let mut disk = disk_of(alloc, &ended_segment(), b"x", 0)?;
    Ok(tells_another_file(alloc, &mut disk)?)
}

#[test]
fn damage_is_told_with_its_place_and_file(rt: HostRuntime) -> Result<(), Fail> {
    assert!(rt; tells_a_changed_record(rt.alloc())?);
    assert!(rt; tells_in_two_files(rt.alloc())? == [true; 4]);
    Ok(())
}

/// A base behind two segments, which had three records of the queue.
fn base_of_two(alloc: Global) -> Result<Base, AllocError>
    ensures { IfOk result (λ base. IsGeometry (geometry 4096 (base_of base))) }
{
    let mut queues = Vec::new(alloc);
    queues.push((String::from_str(alloc, "T")?, 0, 3))?;
    Ok(Base {
        place: 8192,
        records: 3,
        queues,
        levels: [0; 18],
    })
}

/// A disk with the records behind the base, and with the files of the removed segments or without them.
fn disk_behind(alloc: Global, removed: bool) -> Result<MemDisk, Fail> {
    let mut disk = MemDisk::new(alloc, Vec::new(alloc), ROOM, Vec::new(alloc))?;
    if removed {
        put_files(&mut disk, b"no record", b"no record")?;
    }
    disk.write_at(LogFile::of(8192).as_str(), 0, BEHIND_THE_BASE)?;
    Ok(disk)
}

/// Where the records behind the base end, and how many there are.
fn recovered_behind(
    alloc: Global,
    disk: &mut MemDisk,
) -> Result<(Result<u64, RecoverFault>, u64), AllocError> {
    let base = base_of_two(alloc)?;
    let mut count = Count { records: 0 };
    let answer = recover(alloc, disk, SEGMENT, &base, &mut count);
    Ok((answer, count.records))
}

#[test]
fn a_log_behind_two_segments_is_recovered_whether_these_are_there_or_not(
    rt: HostRuntime,
) -> Result<(), Fail> {
    for removed in [true, false] {
        let mut disk = disk_behind(rt.alloc(), removed)?;
        let (answer, count) = recovered_behind(rt.alloc(), &mut disk)?;
        assert!(rt; matches!(answer, Ok(8408)) && count == 2);
        assert!(rt; holds(&disk, 8192, BEHIND_THE_BASE));
        assert!(rt; disk.bytes(LogFile::of(4096).as_str()).is_some() == removed);
    }
    Ok(())
}
