//! The lock of a store: an advisory lock on the store folder itself, and one on the file `lock` in it.
//!
//! The file is what older programs lock, and no more: whoever removes it lets a second one in. The folder can't be removed
//! while it has files. It can be moved away, and another one put in its place: so before a new file is made it is looked
//! up whether the path still leads to the folder that is locked.
//!
//! A process that only reads shares both locks with others that do, and makes no `lock`.

use crate::folder_kinds::FILE_MODE;
use crate::folder_place::Place;
use std::fs::{File, OpenOptions, TryLockError};
use std::io::ErrorKind;
use std::os::unix::fs::{MetadataExt, OpenOptionsExt};
use std::rt::Files;
use std::{fs, io};

/// The lock of a store, held as long as this lives.
#[derive(Drop)]
pub(crate) struct StoreLock {
    folder: File,
    // None where there is no `lock`, and none was made.
    file: Option<File>,
}

// The refusal where the lock can't be had.
fn answer_of(locked: Result<(), TryLockError>) -> io::Result<()> {
    match locked {
        Ok(()) => Ok(()),
        Err(TryLockError::WouldBlock) => Err(io::Error::new(
            ErrorKind::WouldBlock,
            "another process has the store",
        )),
        Err(TryLockError::Error(e)) => Err(e),
    }
}

// Takes the lock on what this path leads to, which is opened for reading.
fn lock_at<R: Files<File = File>>(rt: &R, path: &str, is_shared: bool) -> io::Result<File> {
    let file = fs::open(rt, path)?;
    if is_shared {
        answer_of(file.try_lock_shared())?;
    } else {
        answer_of(file.try_lock())?;
    }
    Ok(file)
}

// Takes the lock on a file, which is made where it is absent.
fn lock_made<R: Files<File = File>>(rt: &R, path: &str) -> io::Result<File> {
    let file = OpenOptions::new()
        .write(true)
        .create(true)
        .mode(FILE_MODE)
        .open(rt, path)?;
    answer_of(file.try_lock())?;
    Ok(file)
}

impl StoreLock {
    /// Takes the lock for the one process that uses the store.
    pub(crate) fn take<R: Files<File = File> + AllocGlobal + Clone + Drop>(
        place: &mut Place<R>,
    ) -> io::Result<StoreLock> {
        let path = place.path("lock")?;
        let answer = lock_made(&place.rt, path.as_str());
        let file = place.told("lock", answer)?;
        let answer = lock_at(&place.rt, place.root.as_str(), false);
        let folder = place.told("", answer)?;
        Ok(StoreLock {
            folder,
            file: Some(file),
        })
    }

    /// Takes the lock for one of those that only read the store.
    pub(crate) fn share<R: Files<File = File> + AllocGlobal + Clone + Drop>(
        place: &mut Place<R>,
    ) -> io::Result<StoreLock> {
        let answer = lock_at(&place.rt, place.root.as_str(), true);
        let folder = place.told("", answer)?;
        let mut file = None;
        if place.has_file("lock")? {
            let path = place.path("lock")?;
            let answer = lock_at(&place.rt, path.as_str(), true);
            file = Some(place.told("lock", answer)?);
        }
        Ok(StoreLock { folder, file })
    }

    /// Whether this path leads to the folder that is locked.
    pub(crate) fn is_at<R: Files>(&self, rt: &R, path: &str) -> io::Result<bool> {
        let held = self.folder.metadata()?;
        match fs::metadata(rt, path) {
            Ok(found) => Ok(found.dev() == held.dev() && found.ino() == held.ino()),
            Err(e) if e.kind() == ErrorKind::NotFound => Ok(false),
            Err(e) => Err(e),
        }
    }
}

/// The refusal of a change where the path leads to another folder, or to none.
pub(crate) fn moved() -> io::Error {
    let words = "the store folder was moved away or replaced";
    io::Error::new(ErrorKind::NotFound, words)
}
