//! What a store folder keeps, marks and refuses: over real folders, each made and removed by its test.

use mq_folder::{FolderDisk, FolderKeep};
use mq_outside::{Disk, DiskFault, Failed, Keep};
use std::alloc::AllocError;
use std::os::unix::fs::MetadataExt;
use std::test::Fail;
use std::{fs, io};

// The first two log files of a store whose segments have 4,096 bytes.
const FIRST: &str = "commitlog/00000000000000000000";

const SECOND: &str = "commitlog/00000000000000004096";

fn disk_in(rt: HostRuntime, root: &str) -> Result<FolderDisk<HostRuntime>, AllocError> {
    Ok(FolderDisk::new(rt, String::from_str(rt.alloc(), root)?))
}

fn reader_in(rt: HostRuntime, root: &str) -> Result<FolderDisk<HostRuntime>, AllocError> {
    Ok(FolderDisk::for_reading(rt, String::from_str(rt.alloc(), root)?))
}

// Puts a format into a store folder, so that it is one of ours.
fn put_format(rt: HostRuntime, root: &str, text: &[u8]) -> Result<(), Fail> {
    let mut keep = FolderKeep::new(rt, String::from_str(rt.alloc(), root)?);
    keep.replace(rt.alloc(), "format", text)?;
    Ok(())
}

// Whether these are the bytes of a file of a store folder.
fn is_text(rt: HostRuntime, root: &str, name: &str, bytes: &[u8]) -> Result<bool, Fail> {
    let path = format!(in rt.alloc(); "{root}/{name}")?;
    Ok(fs::read(&rt, path.as_str())?.as_slice() == bytes)
}

fn is_there(rt: HostRuntime, root: &str, name: &str) -> Result<bool, Fail> {
    let path = format!(in rt.alloc(); "{root}/{name}")?;
    Ok(fs::exists(&rt, path.as_str())?)
}

// The rights to what is there, and what the system knows it by.
fn rights_and_id(rt: HostRuntime, path: &str) -> io::Result<(u32, u64)> {
    let found = fs::metadata(&rt, path)?;
    Ok((found.mode() % 0o1000, found.ino()))
}

// Whether the same text leaves its file alone, another one doesn't, and no other user may read it.
fn rewrites_others(rt: HostRuntime, root: &str) -> Result<bool, Fail> {
    let path = format!(in rt.alloc(); "{root}/config/format")?;
    put_format(rt, root, b"1")?;
    let (rights, first) = rights_and_id(rt, path.as_str())?;
    put_format(rt, root, b"1")?;
    let (_, same) = rights_and_id(rt, path.as_str())?;
    put_format(rt, root, b"12")?;
    let (_, other) = rights_and_id(rt, path.as_str())?;
    let (folder_rights, _) = rights_and_id(rt, root)?;
    Ok(first == same && first != other && rights == 0o600 && folder_rights == 0o700)
}

#[test]
fn a_text_that_is_there_is_not_written_again(rt: HostRuntime) -> Result<(), Fail> {
    let root = "mq_folder_same";
    let _ = fs::remove_dir_all(&rt, root);
    let is_so = rewrites_others(rt, root)?;
    fs::remove_dir_all(&rt, root)?;
    assert!(rt; is_so);
    Ok(())
}

// Whether a second disk is refused although the file of the lock was removed.
fn refuses_without_file(rt: HostRuntime, root: &str) -> Result<bool, Fail> {
    let mut disk = disk_in(rt, root)?;
    disk.len("b")?;
    let lock = format!(in rt.alloc(); "{root}/lock")?;
    fs::remove_file(&rt, lock.as_str())?;
    let mut second = disk_in(rt, root)?;
    let refused = second.len("b") == Err(Failed);
    let why = format!(in rt.alloc(); "{root}: another process has the store")?;
    Ok(refused && second.fault_text() == Some(why.as_str()))
}

// Whether a disk whose folder was moved away and replaced makes no further file, and then syncs none.
fn notices_a_move(rt: HostRuntime, root: &str, away: &str) -> Result<bool, Fail> {
    let mut disk = disk_in(rt, root)?;
    disk.write_at(FIRST, 0, b"1")?;
    disk.sync(FIRST)?;
    fs::rename(&rt, root, away)?;
    fs::create_dir(&rt, root)?;
    disk.sync(FIRST)?;
    let is_refused = disk.write_at(SECOND, 0, b"2") == Err(Failed);
    let syncs = disk.sync(FIRST) == Err(Failed);
    let why = format!(in rt.alloc(); "{root}: the store folder was moved away or replaced")?;
    Ok(is_refused && syncs && disk.fault_text() == Some(why.as_str()))
}

#[test]
fn the_folder_itself_is_locked(rt: HostRuntime) -> Result<(), Fail> {
    let (root, away) = ("mq_folder_locked", "mq_folder_away");
    let _ = fs::remove_dir_all(&rt, root);
    let _ = fs::remove_dir_all(&rt, away);
    let is_refused = refuses_without_file(rt, root)?;
    let is_noticed = notices_a_move(rt, root, away)?;
    let is_made = is_there(rt, root, "commitlog")?;
    fs::remove_dir_all(&rt, root)?;
    fs::remove_dir_all(&rt, away)?;
    assert!(rt; is_refused && is_noticed && !is_made);
    Ok(())
}

// Cuts a log file twice at one place, and removes the one behind it. All that goes is kept, but for the zeros.
fn keeps_what_goes(rt: HostRuntime, root: &str) -> Result<bool, Fail> {
    let mut disk = disk_in(rt, root)?;
    disk.write_at(FIRST, 0, b"abc\0\0")?;
    disk.write_at(SECOND, 0, b"def")?;
    disk.remove(SECOND)?;
    disk.cut(FIRST, 3)?;
    disk.cut(FIRST, 1)?;
    disk.write_at(FIRST, 1, b"xy")?;
    disk.cut(FIRST, 1)?;
    let first = is_text(rt, root, "cut/00000000000000000001", b"bc")?;
    let second = is_text(rt, root, "cut/00000000000000000001.2", b"xy")?;
    let removed = is_text(rt, root, "cut/00000000000000004096", b"def")?;
    let are_zeros_kept = is_there(rt, root, "cut/00000000000000000003")?;
    let names = disk.list(rt.alloc())?;
    Ok(first && second && removed && !are_zeros_kept && names.len() == 1)
}

// Whether a cut of more than a crash leaves is refused, and the file stays.
fn refuses_much(rt: HostRuntime, root: &str) -> Result<bool, Fail> {
    let mut disk = disk_in(rt, root)?;
    disk.write_at(FIRST, 67_108_872, b"1")?;
    let is_refused = disk.cut(FIRST, 0) == Err(Failed);
    let is_damaged = disk.damage().is_some();
    Ok(is_refused && is_damaged && disk.len(FIRST)? == 67_108_873)
}

#[test]
fn what_is_cut_off_the_log_is_kept(rt: HostRuntime) -> Result<(), Fail> {
    let root = "mq_folder_cut";
    let _ = fs::remove_dir_all(&rt, root);
    put_format(rt, root, b"1")?;
    let is_kept = keeps_what_goes(rt, root)?;
    let is_refused = refuses_much(rt, root)?;
    fs::remove_dir_all(&rt, root)?;
    assert!(rt; is_kept && is_refused);
    Ok(())
}

// When a file was last written.
fn written_at(rt: HostRuntime, root: &str, name: &str) -> Result<(i64, i64), Fail> {
    let path = format!(in rt.alloc(); "{root}/{name}")?;
    let found = fs::metadata(&rt, path.as_str())?;
    Ok((found.mtime(), found.mtime_nsec()))
}

// Writes a log file, and ends in order. Answers whether the mark says where.
fn ends_in_order(rt: HostRuntime, root: &str) -> Result<bool, Fail> {
    let mut disk = disk_in(rt, root)?;
    disk.renew(FIRST)?;
    disk.write_at(FIRST, 0, b"abc\0")?;
    disk.end_in_order();
    let is_early = is_there(rt, root, "config/ended")?;
    disk.sync(FIRST)?;
    disk.end_in_order();
    Ok(!is_early && is_text(rt, root, "config/ended", b"3\n")?)
}

// Opens the log as recovery does, which cuts the zeros. Whether its bytes were written again.
fn is_written_again(rt: HostRuntime, root: &str) -> Result<bool, Fail> {
    let mut disk = disk_in(rt, root)?;
    disk.cut(FIRST, 3)?;
    let before = written_at(rt, root, FIRST)?;
    disk.renew(FIRST)?;
    Ok(written_at(rt, root, FIRST)? != before)
}

// Whether a cut in front of the mark is refused as damage, and a write takes the mark away.
fn refuses_loss(rt: HostRuntime, root: &str) -> Result<bool, Fail> {
    let mut disk = disk_in(rt, root)?;
    let is_refused = disk.cut(FIRST, 2) == Err(Failed);
    let is_damaged = disk.damage().is_some();
    let stays = disk.len(FIRST)? == 4 && is_there(rt, root, "config/ended")?;
    disk.write_at(FIRST, 3, b"d")?;
    Ok(is_refused && is_damaged && stays && !is_there(rt, root, "config/ended")?)
}

#[test]
fn a_log_that_ended_in_order_is_known_to_be_whole(rt: HostRuntime) -> Result<(), Fail> {
    let root = "mq_folder_ended";
    let _ = fs::remove_dir_all(&rt, root);
    put_format(rt, root, b"1")?;
    let is_marked = ends_in_order(rt, root)?;
    let is_refused = refuses_loss(rt, root)?;
    let is_again = is_written_again(rt, root)?;
    fs::remove_dir_all(&rt, root)?;
    put_format(rt, root, b"1")?;
    let is_marked_too = ends_in_order(rt, root)?;
    let is_left_out = !is_written_again(rt, root)?;
    fs::remove_dir_all(&rt, root)?;
    assert!(rt; is_marked && is_refused && is_again && is_marked_too && is_left_out);
    Ok(())
}

// Whether those that only read share a store, change nothing, and have none with its owner.
fn shares_a_store(rt: HostRuntime, root: &str) -> Result<bool, Fail> {
    let mut one = reader_in(rt, root)?;
    let mut two = reader_in(rt, root)?;
    let mut out = [0; 3];
    let are_read = one.len(FIRST)? == 3 && two.read_at(FIRST, 0, &mut out)? == 3 && &out == b"abc";
    let is_refused = one.cut(FIRST, 0) == Err(Failed) && two.sync(FIRST) == Err(Failed);
    let mut owner = disk_in(rt, root)?;
    let has_none = owner.len(FIRST) == Err(Failed);
    Ok(are_read && is_refused && has_none)
}

// Whether a keep that only reads takes the text that is there, and no other.
fn takes_the_same(rt: HostRuntime, root: &str) -> Result<bool, Fail> {
    let mut keep = FolderKeep::for_reading(rt, String::from_str(rt.alloc(), root)?);
    keep.replace(rt.alloc(), "format", b"1")?;
    let other = keep.replace(rt.alloc(), "format", b"2");
    Ok(other == Err(DiskFault::Failed) && is_text(rt, root, "config/format", b"1")?)
}

// Whether an absent folder is refused, and stays absent.
fn refuses_absent(rt: HostRuntime, root: &str) -> Result<bool, Fail> {
    let mut disk = reader_in(rt, root)?;
    let is_refused = disk.list(rt.alloc()).is_err();
    let why = format!(in rt.alloc(); "{root}: it is not there")?;
    let says_why = disk.fault_text() == Some(why.as_str());
    Ok(is_refused && says_why && !fs::exists(&rt, root)?)
}

#[test]
fn a_store_that_is_only_read_is_left_as_it_is(rt: HostRuntime) -> Result<(), Fail> {
    let root = "mq_folder_read";
    let _ = fs::remove_dir_all(&rt, root);
    let is_absent = refuses_absent(rt, root)?;
    put_format(rt, root, b"1")?;
    disk_in(rt, root)?.write_at(FIRST, 0, b"abc")?;
    let is_shared = shares_a_store(rt, root)?;
    let is_same = takes_the_same(rt, root)?;
    fs::remove_dir_all(&rt, root)?;
    assert!(rt; is_absent && is_shared && is_same);
    Ok(())
}
