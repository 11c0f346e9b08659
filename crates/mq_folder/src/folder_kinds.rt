//! What a path leads to, links followed, and the first fault of a device in an operator's words.
//!
//! | a path leads to                   | `Kind`    | where a file is expected | where a folder is expected |
//! |-----------------------------------|-----------|--------------------------|----------------------------|
//! | nothing: no such name             | `Absent`  | no file                  | no folder                  |
//! | a file, or a link to one          | `File`    | the file                 | refused                    |
//! | a folder, or a link to one        | `Folder`  | refused                  | the folder                 |
//! | a link to what isn't there        | `Nowhere` | refused                  | refused                    |
//! | a pipe, a socket, a device        | `Other`   | refused, never opened    | refused                    |
//!
//! The kind is looked up before a path is opened: opening a pipe waits until somebody opens its other end.

use std::alloc::{AllocError, Global};
use std::fs::{DirBuilder, Metadata, OpenFile, OpenOptions};
use std::io::ErrorKind;
use std::os::unix::fs::{DirBuilderExt, OpenOptionsExt};
use std::rt::Files;
use std::{fs, io};

/// The rights to a new file, and to a new folder: a message is for the store's owner alone.
pub const FILE_MODE: u32 = 0o600;

const FOLDER_MODE: u32 = 0o700;

/// What a path leads to.
#[derive(Clone, Copy, Debug, PartialEq, Eq)]
pub enum Kind {
    Absent,
    File,
    Folder,
    Nowhere,
    Other,
}

fn kind_of(found: &Metadata) -> Kind {
    if found.is_file() {
        Kind::File
    } else if found.is_dir() {
        Kind::Folder
    } else if found.is_symlink() {
        Kind::Nowhere
    } else {
        Kind::Other
    }
}

// Of a path that leads to nothing: whether its last name is there, as a link.
fn kind_of_last<R: Files>(rt: &R, path: &str) -> io::Result<Kind> {
    match fs::symlink_metadata(rt, path) {
        Ok(found) => Ok(kind_of(&found)),
        Err(e) if e.kind() == ErrorKind::NotFound => Ok(Kind::Absent),
        Err(e) => Err(e),
    }
}

/// What a path leads to. It ends in no slash: with one a link that leads nowhere looks absent.
pub fn kind_at<R: Files>(rt: &R, path: &str) -> io::Result<Kind> {
    match fs::metadata(rt, path) {
        Ok(found) => Ok(kind_of(&found)),
        Err(e) if e.kind() == ErrorKind::NotFound => kind_of_last(rt, path),
        Err(e) => Err(e),
    }
}

/// The refusal of what is not of the expected kind.
pub fn unexpected(kind: Kind) -> io::Error {
    let words = match kind {
        Kind::Absent => "it is not there",
        Kind::File => "a file where a folder is expected",
        Kind::Folder => "a folder where a file is expected",
        Kind::Nowhere => "a link that leads nowhere",
        Kind::Other => "neither a file nor a folder",
    };
    io::Error::new(ErrorKind::InvalidInput, words)
}

/// Whether a file is there.
pub fn is_file<R: Files>(rt: &R, path: &str) -> io::Result<bool> {
    match kind_at(rt, path)? {
        Kind::File => Ok(true),
        Kind::Absent => Ok(false),
        kind => Err(unexpected(kind)),
    }
}

/// Whether a folder is there.
pub fn is_folder<R: Files>(rt: &R, path: &str) -> io::Result<bool> {
    match kind_at(rt, path)? {
        Kind::Folder => Ok(true),
        Kind::Absent => Ok(false),
        kind => Err(unexpected(kind)),
    }
}

/// Makes a folder where it is absent. Answers whether it was.
pub fn make_folder<R: Files>(rt: &R, path: &str) -> io::Result<bool> {
    if is_folder(rt, path)? {
        return Ok(false);
    }
    match DirBuilder::new().mode(FOLDER_MODE).create(rt, path) {
        Ok(()) => Ok(true),
        Err(e) if e.kind() == ErrorKind::AlreadyExists => Ok(false),
        Err(e) => Err(e),
    }
}

/// Makes a folder, and those on the way to it, where they are absent.
pub fn make_folders<R: Files>(rt: &R, path: &str) -> io::Result<()> {
    DirBuilder::new()
        .recursive(true)
        .mode(FOLDER_MODE)
        .create(rt, path)
}

/// A file that is written anew, and made where it is absent.
pub fn create_file<R: Files>(rt: &R, path: &str) -> io::Result<R::File> {
    OpenOptions::new()
        .write(true)
        .create(true)
        .truncate(true)
        .mode(FILE_MODE)
        .open(rt, path)
}

/// Syncs a folder, and so the names in it. Of a link it is the folder that it leads to.
pub fn sync_folder<R: Files>(rt: &R, path: &str) -> io::Result<()> {
    fs::open(rt, path)?.sync_all()
}

// A path without the slashes and the `/.` at its end, which name no further folder.
fn plain(path: &str) -> &str {
    let mut rest = path;
    for _ in 0..path.len() {
        match rest.strip_suffix("/.").or(rest.strip_suffix('/')) {
            Some(shorter) => rest = shorter,
            None => break,
        }
    }
    rest
}

/// The folder that the store folder is in.
pub fn parent_of(root: &str) -> &str {
    let name = plain(root);
    if name.is_empty() {
        return "/";
    }
    match name.rsplit_once('/') {
        Some(("", _)) => "/",
        Some((parent, _)) => parent,
        None => ".",
    }
}

/// Syncs the folder that the store folder is in, so that the store folder's name stays. Where it was there before, this
/// user need not have the rights to read that folder.
pub fn sync_parent<R: Files>(rt: &R, root: &str, is_new: bool) -> io::Result<()> {
    match sync_folder(rt, parent_of(root)) {
        Err(e) if !is_new && e.kind() == ErrorKind::PermissionDenied => Ok(()),
        answer => answer,
    }
}

// The words of what the system says most often; of all else its own are taken.
fn words_of(kind: ErrorKind) -> Option<&'static str> {
    match kind {
        ErrorKind::NotFound => Some("it is not there"),
        ErrorKind::PermissionDenied => Some("this user has no rights to it"),
        ErrorKind::ReadOnlyFilesystem => Some("the file system is read-only"),
        ErrorKind::StorageFull => Some("the disk is full"),
        ErrorKind::QuotaExceeded => Some("the disk quota is used up"),
        ErrorKind::FileTooLarge => Some("the file may not grow further"),
        ErrorKind::NotADirectory => Some("a file where a folder is expected"),
        ErrorKind::FilesystemLoop => Some("links that lead in a circle"),
        _ => None,
    }
}

fn text_of(alloc: Global, path: &str, error: &io::Error) -> Result<String, AllocError> {
    if error.raw_os_error().is_some()
        && let Some(words) = words_of(error.kind())
    {
        return format!(in alloc; "{path}: {words}");
    }
    format!(in alloc; "{path}: {error}")
}

/// The first fault of a device: the path, and why.
#[derive(Drop)]
pub struct FirstFault {
    text: Option<String>,
}

impl FirstFault {
    /// There was no fault yet.
    pub fn none() -> FirstFault {
        FirstFault { text: None }
    }

    /// Notes a fault where it is the first one. Without memory for its text it is left out.
    pub fn note(&mut self, alloc: Global, path: &str, error: &io::Error) {
        if self.text.is_none()
            && let Ok(text) = text_of(alloc, path, error)
        {
            self.text = Some(text);
        }
    }

    /// Takes over another device's first fault where this one has none.
    pub fn take_over(&mut self, other: FirstFault) {
        if self.text.is_none() {
            self.text = other.text;
        }
    }

    /// `PATH: WHY`, one line without its end.
    pub fn text(&self) -> Option<&str> {
        match &self.text {
            Some(text) => Some(text.as_str()),
            None => None,
        }
    }
}
