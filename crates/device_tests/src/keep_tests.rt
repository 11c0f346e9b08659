//! Keeps, in memory and in a folder: each call once, and each call that is to fail.

use mq_folder::FolderKeep;
use mq_outside::{DiskFault, Keep, MemKeep};
use std::alloc::Global;
use std::test::Fail;
use std::{fs, process};

// Whether the keep has this text under the name, or none.
fn has_text<K: Keep>(
    alloc: Global,
    keep: &mut K,
    name: &str,
    text: Option<&[u8]>,
) -> Result<bool, DiskFault> {
    let held = keep.load(alloc, name)?;
    Ok(match held {
        Some(bytes) => Some(bytes.as_slice()) == text,
        None => text.is_none(),
    })
}

// Whether the old text stays at a replacement that fails, and the new one is there after one that doesn't.
fn keeps_the_old_or_the_new(alloc: Global, keep: &mut MemKeep) -> Result<bool, DiskFault> {
    let is_refused = keep.replace(alloc, "format", b"2") == Err(DiskFault::Failed);
    let stays = has_text(alloc, keep, "format", Some(b"1"))?;
    keep.replace(alloc, "format", b"22")?;
    Ok(is_refused && stays && keep.bytes("format") == Some(b"22"))
}

#[test]
fn a_keep_gives_what_was_put_and_keeps_the_old_text_at_a_failure(
    rt: HostRuntime,
) -> Result<(), Fail> {
    let alloc = rt.alloc();
    let first = (String::from_str(alloc, "format")?, b"1".to_vec(alloc)?);
    let mut keep = MemKeep::new(alloc, vec![in alloc; first]?, vec![in alloc; 1]?)?;
    assert!(rt; keeps_the_old_or_the_new(alloc, &mut keep)?);
    Ok(())
}

// Whether there is no text first, and the second behind two that were put.
fn gives_the_second<K: Keep>(alloc: Global, keep: &mut K) -> Result<bool, DiskFault> {
    let is_absent = has_text(alloc, keep, "format", None)?;
    keep.replace(alloc, "format", b"first")?;
    keep.replace(alloc, "format", b"second")?;
    Ok(is_absent && has_text(alloc, keep, "format", Some(b"second"))?)
}

// Whether the second text is still there, which is put once more.
fn finds_the_second<K: Keep>(alloc: Global, keep: &mut K) -> Result<bool, DiskFault> {
    let is_there = has_text(alloc, keep, "format", Some(b"second"))?;
    keep.replace(alloc, "format", b"second")?;
    Ok(is_there)
}

// A keep that puts texts into this store folder.
fn put_texts(rt: HostRuntime, root: &str) -> Result<bool, Fail> {
    let mut keep = FolderKeep::new(rt, String::from_str(rt.alloc(), root)?);
    Ok(gives_the_second(rt.alloc(), &mut keep)?)
}

// One that finds the last of them there, and what it answers and says once the folder is gone.
fn find_text(rt: HostRuntime, root: &str) -> Result<(bool, Result<(), DiskFault>), Fail> {
    let mut keep = FolderKeep::new(rt, String::from_str(rt.alloc(), root)?);
    let found = finds_the_second(rt.alloc(), &mut keep);
    let removed = fs::remove_dir_all(&rt, root);
    let is_silent = keep.fault_text().is_none();
    let third = keep.replace(rt.alloc(), "format", b"third");
    removed?;
    let why = format!(in rt.alloc(); "{root}/config/format.new: it is not there")?;
    let says_why = keep.fault_text() == Some(why.as_str());
    Ok((found? && is_silent && says_why, third))
}

#[test]
fn a_folder_gives_what_was_put_there(rt: HostRuntime) -> Result<(), Fail> {
    let id = process::id(rt.process());
    let root = format!(in rt.alloc(); "/tmp/mq_folder_keep_{id}")?;
    assert!(rt; put_texts(rt, root.as_str())?);
    let found = find_text(rt, root.as_str())?;
    assert!(rt;
        found == (true, Err(DiskFault::Failed)),
        "the folder is gone"
    );
    Ok(())
}
