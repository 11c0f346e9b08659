//! A store folder by its paths: what is there, what is told of the first fault, and which folders are synced.
//!
//! A new name is in its folder for good only once that folder is synced. So the first sync of a file syncs the folders
//! on the way to it, unless this process has synced them since a name was last put into them.

ghost use Rattle.std.specs.Prelude.{◌≡◌, ◌++◌, codes, string_bytes, IfOk, Ok};

use crate::folder_kinds::{
    FirstFault, Kind, is_file, is_folder, parent_of, sync_folder, unexpected,
};
use std::alloc::{AllocError, Global};
use std::fs::File;
use std::io;
use std::rt::Files;

/// How many folders are inside one another.
pub(crate) const DEPTH: u8 = 5;

/// A store folder.
#[derive(Drop)]
pub(crate) struct Place<R: Files<File = File> + AllocGlobal + Clone + Drop> {
    pub(crate) rt: R,
    pub(crate) root: String,
    pub(crate) fault: FirstFault,
    // The folders that were synced since a name was last put into them.
    clean: Vec<String>,
}

// The path of a file or folder of the store folder.
fn path_of(alloc: Global, root: &str, name: &str) -> Result<String, AllocError>
    ensures { IfOk result (λ path. string_bytes path ≡ root.now ++ (codes "/" ++ name.now)) }
{
    format!(in alloc; "{root}/{name}")
}

/// The folder that a file or folder is in; the store folder itself is the empty text.
pub(crate) fn folder_of(name: &str) -> &str {
    match name.rsplit_once('/') {
        Some((folder, _)) => folder,
        None => "",
    }
}

impl<R: Files<File = File> + AllocGlobal + Clone + Drop> Place<R> {
    /// The store folder at this path.
    pub(crate) fn new(rt: R, root: String) -> Place<R> {
        let clean = Vec::new(rt.alloc());
        Place {
            rt,
            root,
            fault: FirstFault::none(),
            clean,
        }
    }

    /// The path of a file or folder in it.
    pub(crate) fn path(&self, name: &str) -> Result<String, AllocError>
        ensures { IfOk result (λ path. string_bytes path ≡ string_bytes self.now.root ++ (codes "/" ++ name.now)) }
    {
        path_of(self.rt.alloc(), self.root.as_str(), name)
    }

    // The path of a file or folder; that of the store folder itself, which is the empty text, ends in no slash.
    fn plain_path(&self, name: &str) -> Result<String, AllocError> {
        if name.is_empty() {
            return String::from_str(self.rt.alloc(), self.root.as_str());
        }
        self.path(name)
    }

    /// Notes that what has this name was refused, where it is the first that was.
    pub(crate) fn refuse(&mut self, name: &str, error: io::Error) -> io::Error {
        if let Ok(path) = self.plain_path(name) {
            let alloc = self.rt.alloc();
            self.fault.note(alloc, path.as_str(), &error);
        }
        error
    }

    /// The same of the folder that the store folder is in.
    pub(crate) fn refuse_parent(&mut self, error: io::Error) -> io::Error {
        let alloc = self.rt.alloc();
        self.fault
            .note(alloc, parent_of(self.root.as_str()), &error);
        error
    }

    /// Notes what was refused.
    pub(crate) fn told<T: Drop>(&mut self, name: &str, answer: io::Result<T>) -> io::Result<T>
        ensures { IfOk result (λ v. answer ≡ Ok v) }
    {
        match answer {
            Ok(value) => Ok(value),
            Err(e) => Err(self.refuse(name, e)),
        }
    }

    /// Whether a folder is there. The store folder is the empty text.
    pub(crate) fn has_folder(&mut self, name: &str) -> io::Result<bool> {
        let path = self.plain_path(name)?;
        let answer = is_folder(&self.rt, path.as_str());
        self.told(name, answer)
    }

    // Fails where the way to an absent file is none: it has a link that leads nowhere, or the store folder is gone.
    fn check_way(&mut self, name: &str) -> io::Result<()> {
        let mut folder = folder_of(name);
        for _ in 0..DEPTH {
            if self.has_folder(folder)? {
                return Ok(());
            }
            if folder.is_empty() {
                return Err(self.refuse(folder, unexpected(Kind::Absent)));
            }
            folder = folder_of(folder);
        }
        Ok(())
    }

    /// Whether a file is there.
    pub(crate) fn has_file(&mut self, name: &str) -> io::Result<bool> {
        let path = self.plain_path(name)?;
        let answer = is_file(&self.rt, path.as_str());
        if self.told(name, answer)? {
            return Ok(true);
        }
        self.check_way(name)?;
        Ok(false)
    }

    /// Whether it has the format of a store of ours.
    pub(crate) fn has_format(&mut self) -> io::Result<bool> {
        self.has_file("config/format")
    }

    /// Notes that a name was put into a folder, or taken out of one: none counts as synced.
    pub(crate) fn forget_synced(&mut self) {
        self.clean.clear();
    }

    /// Syncs a folder where it is there.
    pub(crate) fn sync_folder(&mut self, folder: &str) -> io::Result<()> {
        if self.clean.iter().any(|name| name.as_str() == folder) || !self.has_folder(folder)? {
            return Ok(());
        }
        let path = self.path(folder)?;
        let answer = sync_folder(&self.rt, path.as_str());
        self.told(folder, answer)?;
        // Without memory for it the folder is synced again the next time.
        if let Ok(name) = String::from_str(self.rt.alloc(), folder) {
            let _ = self.clean.push(name);
        }
        Ok(())
    }

    /// Syncs the folders on the way to a file, the store folder too.
    pub(crate) fn sync_folders(&mut self, name: &str) -> io::Result<()> {
        let mut folder = folder_of(name);
        for _ in 0..DEPTH {
            self.sync_folder(folder)?;
            if folder.is_empty() {
                break;
            }
            folder = folder_of(folder);
        }
        Ok(())
    }
}
