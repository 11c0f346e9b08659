//! Disks, their pieces and their readers, in memory and in a folder: each call once, and a second disk over a store.

ghost use Rattle.std.specs.Prelude.{◌≡◌};
ghost use Rattle.mq_outside.specs.Covers.{piece_start};

use bytes::Bytes;
use mq_bytes::LogFile;
use mq_folder::{FolderDisk, FolderKeep};
use mq_outside::{Disk, DiskFault, Failed, Frozen, FrozenRanges, Keep, MemDisk, Reader, Room};
use std::alloc::{AllocError, Global};
use std::fs;
use std::test::Fail;

// Writes two files, and reads what stands behind the first two bytes of one of them.
fn write_and_read<D: Disk>(disk: &mut D, out: &mut [u8]) -> Result<usize, Failed> {
    disk.write_at("b", 0, b"hello")?;
    disk.write_at("a/c", 0, b"gone")?;
    disk.sync("b")?;
    disk.read_at("b", 2, out)
}

// Whether these are the two files, in byte order.
fn has_both<D: Disk>(alloc: Global, disk: &mut D) -> Result<bool, DiskFault> {
    let names = disk.list(alloc)?;
    Ok(names.len() == 2 && names[0].as_str() == "a/c" && names[1].as_str() == "b")
}

// Removes one of them, and cuts the other one. Answers its length.
fn remove_and_cut<D: Disk>(disk: &mut D) -> Result<u64, Failed> {
    disk.remove("a/c")?;
    disk.cut("b", 0)?;
    disk.len("b")
}

// Whether each call but those of pieces does what it should.
fn does_each_call<D: Disk>(alloc: Global, disk: &mut D) -> Result<bool, Fail> {
    let mut out = [0; 9];
    let is_read = write_and_read(disk, &mut out)? == 3 && &out == b"llo\0\0\0\0\0\0";
    let are_both = has_both(alloc, disk)?;
    let left = remove_and_cut(disk)?;
    Ok(is_read && are_both && left == 0)
}

// Reads a part of a piece of four bytes, and behind it a part of one of six.
fn read_both<R: Reader>(reader: &mut R, four: &Frozen, six: &Frozen) -> Result<[u8; 5], Failed>
    requires four { four.now.len ≡ 4 }
    requires six { six.now.len ≡ 6 }
{
    let mut out = [0; 5];
    reader.read(four, 1, &mut out[..3])?;
    reader.read(six, 1, &mut out[3..])?;
    Ok(out)
}

// Writes a log file, renews it, and reads a frozen piece of it, and one that was frozen at once.
fn read_pieces<D: Disk>(alloc: Global, disk: &mut D) -> Result<[u8; 5], Fail> {
    let file = LogFile::of(0);
    disk.write_at(file.as_str(), 0, b"abcdef")?;
    disk.renew(file.as_str())?;
    let four = disk.freeze_stored(alloc, 0, 1, 5)?;
    let six = disk.freeze(0, 0, Bytes::copy_from_slice(alloc, b"abcdef")?);
    let mut reader = disk.reader(alloc)?;
    let read = read_both(&mut reader, &four, &six);
    disk.take_back(reader);
    Ok(read?)
}

// Reads the second of two pieces of three bytes as it is found by its range.
fn read_found<R: Reader>(
    alloc: Global,
    reader: &mut R,
    first: Frozen,
    second: Frozen,
) -> Result<[u8; 3], Fail>
    requires first { (piece_start first ≡ 0) × (first.len ≡ 3) }
    requires second { (piece_start second ≡ 3) × (second.len ≡ 3) }
{
    let mut ranges = FrozenRanges::new(alloc);
    ranges.reserve()?;
    ranges.push(first);
    ranges.reserve()?;
    ranges.push(second);
    let found = ranges.find(3, 3).share()?;
    let mut out = [0; 3];
    reader.read(&found, 3 - (found.base() + found.from()), &mut out)?;
    Ok(out)
}

// Writes a log file, renews it, and reads what is found of two pieces of it.
fn find_pieces<D: Disk>(alloc: Global, disk: &mut D) -> Result<[u8; 3], Fail> {
    let file = LogFile::of(0);
    disk.write_at(file.as_str(), 0, b"abcdef")?;
    disk.renew(file.as_str())?;
    let first = disk.freeze_stored(alloc, 0, 0, 3)?;
    let second = disk.freeze_stored(alloc, 0, 3, 6)?;
    let mut reader = disk.reader(alloc)?;
    let read = read_found(alloc, &mut reader, first, second);
    disk.take_back(reader);
    read
}

// An empty disk with room for so much.
fn empty_disk(alloc: Global, bytes: u64, files: u32, calls: u64) -> Result<MemDisk, AllocError> {
    let room = Room {
        bytes,
        files,
        calls,
    };
    MemDisk::new(alloc, Vec::new(alloc), room, Vec::new(alloc))
}

#[test]
fn a_disk_in_memory_does_what_is_asked_within_its_room(rt: HostRuntime) -> Result<(), Fail> {
    let mut disk = empty_disk(rt.alloc(), 40, 2, 5)?;
    assert!(rt; does_each_call(rt.alloc(), &mut disk)?);
    assert!(rt; disk.sync("b").is_err(), "a sixth call");
    Ok(())
}

#[test]
fn pieces_of_a_disk_in_memory_are_read_and_found(rt: HostRuntime) -> Result<(), Fail> {
    let mut disk = empty_disk(rt.alloc(), 144, 1, 4)?;
    assert!(rt; &read_pieces(rt.alloc(), &mut disk)? == b"cdebc");
    assert!(rt; &find_pieces(rt.alloc(), &mut disk)? == b"def");
    Ok(())
}

// Whether a second disk over this store fails, and says that this is why.
fn is_refused(rt: HostRuntime, root: &str, why: &str) -> Result<bool, AllocError> {
    let mut disk = FolderDisk::new(rt, String::from_str(rt.alloc(), root)?);
    let is_silent = disk.fault_text().is_none();
    let len = disk.len("b");
    Ok(is_silent && len == Err(Failed) && disk.fault_text() == Some(why))
}

// Whether a second disk is refused: without a format as another program's, and then since the first one has the store.
fn refuses_second(rt: HostRuntime, root: &str) -> Result<bool, Fail> {
    let foreign = "mq_folder_store: it has files and no config/format, so it is not this program's";
    let is_foreign = is_refused(rt, root, foreign)?;
    let mut keep = FolderKeep::new(rt, String::from_str(rt.alloc(), root)?);
    keep.replace(rt.alloc(), "format", b"1")?;
    let held = "mq_folder_store/lock: another process has the store";
    Ok(is_foreign && is_refused(rt, root, held)?)
}

// Whether a disk over this store does what it should, and a second one meanwhile is refused.
fn serves_one(rt: HostRuntime, root: &str) -> Result<bool, Fail> {
    let mut disk = FolderDisk::new(rt, String::from_str(rt.alloc(), root)?);
    let does_each = does_each_call(rt.alloc(), &mut disk)?;
    let read = read_pieces(rt.alloc(), &mut disk)?;
    let found = find_pieces(rt.alloc(), &mut disk)?;
    let refuses = refuses_second(rt, root)?;
    let is_silent = disk.fault_text().is_none();
    Ok(does_each && &read == b"cdebc" && &found == b"def" && refuses && is_silent)
}

#[test]
fn a_store_folder_is_a_disk_for_one_at_a_time(rt: HostRuntime) -> Result<(), Fail> {
    let root = "mq_folder_store";
    // What a run left that was cut off.
    let _ = fs::remove_dir_all(&rt, root);
    let serves = serves_one(rt, root)?;
    fs::remove_dir_all(&rt, root)?;
    assert!(rt; serves);
    Ok(())
}
