//! The files of a store folder by their names.
//!
//! What is found besides files and folders:
//!
//! | what is found              | in `commitlog/` | elsewhere, beside a `config/format` | elsewhere, without one |
//! |----------------------------|-----------------|-------------------------------------|------------------------|
//! | a link that leads nowhere  | refused         | ignored                             | refused                |
//! | a pipe, a socket, a device | refused         | ignored                             | refused                |
//! | a folder that can't be read | refused        | ignored                             | refused                |
//! | a name that isn't UTF-8    | refused         | ignored                             | refused                |
//!
//! In a store with `config/format` a folder in `commitlog/` is refused too.

use crate::folder_kinds::{Kind, kind_at, unexpected};
use crate::folder_place::{DEPTH, Place};
use mq_bytes::{LogFile, read_decimal};
use std::alloc::{AllocError, Global};
use std::fs::File;
use std::io::ErrorKind;
use std::rt::Files;
use std::{fs, io};

// The name of what is in a folder of the store folder.
fn name_in(alloc: Global, folder: &str, name: &str) -> Result<String, AllocError> {
    if folder.is_empty() {
        return String::from_str(alloc, name);
    }
    format!(in alloc; "{folder}/{name}")
}

// Whether this is the log's folder or in it.
fn is_own(name: &str) -> bool {
    name == "commitlog" || is_in_log(name)
}

/// Whether this is in the log's folder, where a store of ours has no further folder.
pub(crate) fn is_in_log(name: &str) -> bool {
    name.starts_with("commitlog/")
}

/// The physical offset where the log file of this name begins. None of what is no log file.
pub(crate) fn base_of(name: &str) -> Option<u64> {
    let digits = name.strip_prefix("commitlog/")?;
    let base = u64::try_from(read_decimal(digits)?).ok()?;
    if LogFile::of(base).as_str() == name {
        Some(base)
    } else {
        None
    }
}

// Whether no file of the disk is in this folder.
fn is_passed_over(folder: &str, is_ours: bool) -> bool {
    match folder {
        "config" | "lost+found" => true,
        "cut" => is_ours,
        _ => folder.ends_with("/lost+found"),
    }
}

// Why an entry of a folder can't be listed.
fn unlisted(error: io::Error) -> io::Error {
    if error.kind() == ErrorKind::InvalidFilename {
        return io::Error::new(ErrorKind::InvalidFilename, "a name in it is not UTF-8");
    }
    error
}

impl<R: Files<File = File> + AllocGlobal + Clone + Drop> Place<R> {
    /// The names of the files, in byte order. In a store that `is_ours` what can't be a file of the log is ignored.
    pub(crate) fn names(&mut self, alloc: Global, is_ours: bool) -> io::Result<Vec<String>> {
        let mut names = Vec::new(alloc);
        let mut folders = Vec::new(alloc);
        self.list_folder(alloc, "", is_ours, &mut names, &mut folders)?;
        for _ in 0..DEPTH {
            let mut inner = Vec::new(alloc);
            for folder in &folders {
                self.list_folder(alloc, folder.as_str(), is_ours, &mut names, &mut inner)?;
            }
            folders = inner;
        }
        names.sort()?;
        Ok(names)
    }

    // Adds the files and the folders of a folder.
    fn list_folder(
        &mut self,
        alloc: Global,
        folder: &str,
        is_ours: bool,
        names: &mut Vec<String>,
        folders: &mut Vec<String>,
    ) -> io::Result<()> {
        let path = self.path(folder)?;
        let entries = match fs::read_dir(&self.rt, path.as_str()) {
            Ok(entries) => entries,
            Err(e) => return self.pass_over(folder, is_ours && !folder.is_empty(), e),
        };
        for entry in entries {
            match entry {
                Ok(entry) => {
                    let name = name_in(alloc, folder, entry.file_name())?;
                    self.list_entry(name, is_ours, names, folders)?;
                }
                Err(e) => self.pass_over(folder, is_ours, unlisted(e))?,
            }
        }
        Ok(())
    }

    // Adds what has this name, where it is a file, or a folder that may have files of the disk.
    fn list_entry(
        &mut self,
        name: String,
        is_ours: bool,
        names: &mut Vec<String>,
        folders: &mut Vec<String>,
    ) -> io::Result<()> {
        let path = self.path(name.as_str())?;
        match kind_at(&self.rt, path.as_str()) {
            Ok(Kind::File) if name.as_str() == "lock" => {}
            Ok(Kind::File) => names.push(name)?,
            Ok(Kind::Folder) if is_passed_over(name.as_str(), is_ours) => {}
            Ok(Kind::Folder) if is_ours && is_in_log(name.as_str()) => {
                return Err(self.refuse(name.as_str(), unexpected(Kind::Folder)));
            }
            Ok(Kind::Folder) => folders.push(name)?,
            // It was removed meanwhile.
            Ok(Kind::Absent) => {}
            Ok(kind) => return self.pass_over(name.as_str(), is_ours, unexpected(kind)),
            Err(e) => return self.pass_over(name.as_str(), is_ours, e),
        }
        Ok(())
    }

    // Ignores what can't be a file of the log in a store of ours, and refuses it otherwise.
    fn pass_over(&mut self, name: &str, is_ours: bool, error: io::Error) -> io::Result<()> {
        if is_ours && !is_own(name) {
            return Ok(());
        }
        Err(self.refuse(name, error))
    }
}
