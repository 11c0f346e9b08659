//! A keep of small texts in the folder `config` of a store folder, one file a text.
//!
//! | file        | what is in it                                               |
//! |-------------|-------------------------------------------------------------|
//! | `NAME`      | the bytes that were last put under this name                |
//! | `NAME.new`  | bytes on their way: left by a crash, read by nobody         |
//!
//! Links are followed, but for one: where `NAME` is a link to a file, a replacement puts a file in place of the link.
//! What is there as something else (`folder_kinds`) is refused before anything is changed.
//!
//! A text is replaced in four steps: its bytes are written to `NAME.new`, that file is synced, renamed over `NAME`, and
//! the folder is synced. So a crash leaves the old bytes or the new under the name, and after the last step the new.
//! Where the bytes are there already nothing is written: the file and the folder are synced. That needs no room, so a
//! store on a full disk opens.

ghost use Rattle.std.specs.Prelude.{◌≡◌, ◌++◌, None, IfOk, codes, string_bytes};

use crate::folder_kinds::{
    FirstFault, create_file, is_file, is_folder, make_folder, parent_of, sync_folder, sync_parent,
};
use mq_outside::{DiskFault, Keep};
use std::alloc::{AllocError, Global};
use std::fs::OpenFile;
use std::io::{ErrorKind, Read, Write};
use std::rt::Files;
use std::{fs, io};

// How much of a file is read at a time, in bytes.
const PIECE: usize = 4096;

/// The texts of a store folder. It says nothing of what it holds, and counts its failures.
#[derive(Drop)]
pub struct FolderKeep<R: Files + Drop> {
    rt: R,
    root: String,
    // That nothing is to be changed.
    is_reading: bool,
    // That the folders were made by this keep, and those above them synced.
    is_made: bool,
    faults: u64,
    fault: FirstFault,
}

// The paths of one text: of its file, of its file on the way, of the folder of both, and of the store folder.
#[derive(Drop)]
struct Paths {
    file: String,
    new_file: String,
    folder: String,
    root: String,
}

fn paths_of(alloc: Global, root: &str, name: &str) -> Result<Paths, AllocError>
    ensures file { IfOk result (λ paths. string_bytes paths.file ≡ root.now ++ (codes "/config/" ++ name.now)) }
    ensures new_file { IfOk result (λ paths. string_bytes paths.new_file ≡ root.now ++ (codes "/config/" ++ (name.now ++ codes ".new"))) }
    ensures folder { IfOk result (λ paths. string_bytes paths.folder ≡ root.now ++ codes "/config") }
{
    Ok(Paths {
        file: format!(in alloc; "{root}/config/{name}")?,
        new_file: format!(in alloc; "{root}/config/{name}.new")?,
        folder: format!(in alloc; "{root}/config")?,
        root: String::from_str(alloc, root)?,
    })
}

// The whole file.
fn read_file<R: Files>(rt: &R, alloc: Global, path: &str) -> io::Result<Vec<u8>> {
    let mut file = fs::open(rt, path)?;
    let mut bytes = Vec::new(alloc);
    file.read_to_end(&mut bytes)?;
    Ok(bytes)
}

// Writes a file anew, and syncs it.
fn write_file<R: Files>(rt: &R, path: &str, bytes: &[u8]) -> io::Result<()> {
    let mut file = create_file(rt, path)?;
    file.write_all(bytes)?;
    file.sync_all()
}

// Whether these are the bytes that the file has, from where it is read on.
fn has_bytes<F: Read>(file: &mut F, bytes: &[u8]) -> io::Result<bool> {
    let mut piece = [0; PIECE];
    let mut rest = bytes;
    for _ in 0..u64::MAX {
        match file.read(&mut piece) {
            Ok(0) => break,
            Ok(n) => match rest.strip_prefix(&piece[..n]) {
                Some(behind) => rest = behind,
                None => return Ok(false),
            },
            Err(e) if e.kind() == ErrorKind::Interrupted => {}
            Err(e) => return Err(e),
        }
    }
    Ok(rest.is_empty())
}

// What a sync answered, where nothing was changed. A file system that is read-only may refuse it, or know of none.
fn unless_read_only(answer: io::Result<()>) -> io::Result<()> {
    match answer {
        Err(e) if e.kind() == ErrorKind::ReadOnlyFilesystem => Ok(()),
        Err(e) if e.kind() == ErrorKind::InvalidInput => Ok(()),
        answer => answer,
    }
}

// Syncs a file where these are its bytes, and answers whether they are. One that is only read need not be synced.
fn sync_same<R: Files>(rt: &R, path: &str, bytes: &[u8], is_reading: bool) -> io::Result<bool> {
    let mut file = fs::open(rt, path)?;
    if !has_bytes(&mut file, bytes)? {
        return Ok(false);
    }
    let answer = file.sync_all();
    if is_reading {
        unless_read_only(answer)?;
    } else {
        answer?;
    }
    Ok(true)
}

impl<R: Files + Drop> FolderKeep<R> {
    // The texts of a store folder, with no fault yet.
    fn over(rt: R, root: String, is_reading: bool) -> FolderKeep<R>
        ensures { result.faults ≡ 0 }
    {
        FolderKeep {
            rt,
            root,
            is_reading,
            is_made: false,
            faults: 0,
            fault: FirstFault::none(),
        }
    }

    /// The texts in the folder `config` of this store folder. Both are made at the first `replace`.
    pub fn new(rt: R, root: String) -> FolderKeep<R>
        ensures { result.faults ≡ 0 }
    {
        FolderKeep::over(rt, root, false)
    }

    /// The same texts, which are only read: a `replace` fails, unless it puts the bytes that are there.
    pub fn for_reading(rt: R, root: String) -> FolderKeep<R>
        ensures { result.faults ≡ 0 }
    {
        FolderKeep::over(rt, root, true)
    }

    /// The first fault of any call: `PATH: WHY`, one line without its end. None where nothing failed, or there was no
    /// memory for the text.
    pub fn fault_text(&self) -> Option<&str> {
        self.fault.text()
    }

    // Notes what was refused.
    fn told<T: Drop>(&mut self, alloc: Global, path: &str, answer: io::Result<T>) -> io::Result<T>
        ensures { self.new.faults ≡ self.old.faults }
    {
        match answer {
            Ok(value) => Ok(value),
            Err(e) => {
                self.fault.note(alloc, path, &e);
                Err(e)
            }
        }
    }

    fn has_file(&mut self, alloc: Global, path: &str) -> io::Result<bool>
        ensures { self.new.faults ≡ self.old.faults }
    {
        let answer = is_file(&self.rt, path);
        self.told(alloc, path, answer)
    }

    fn has_folder(&mut self, alloc: Global, path: &str) -> io::Result<bool>
        ensures { self.new.faults ≡ self.old.faults }
    {
        let answer = is_folder(&self.rt, path);
        self.told(alloc, path, answer)
    }

    // Makes a folder where it is absent. Answers whether it was.
    fn make(&mut self, alloc: Global, path: &str) -> io::Result<bool>
        ensures { self.new.faults ≡ self.old.faults }
    {
        let answer = make_folder(&self.rt, path);
        self.told(alloc, path, answer)
    }

    fn sync(&mut self, alloc: Global, path: &str) -> io::Result<()>
        ensures { self.new.faults ≡ self.old.faults }
    {
        let answer = sync_folder(&self.rt, path);
        self.told(alloc, path, answer)
    }

    // The whole text, `None` where it is absent.
    fn get(&mut self, alloc: Global, paths: &Paths) -> io::Result<Option<Vec<u8>>>
        ensures { self.new.faults ≡ self.old.faults }
    {
        if self.has_file(alloc, &paths.file)? {
            let answer = read_file(&self.rt, alloc, &paths.file);
            return Ok(Some(self.told(alloc, &paths.file, answer)?));
        }
        // A folder that is a link which leads nowhere has no text, but it isn't absent.
        self.has_folder(alloc, &paths.folder)?;
        self.has_folder(alloc, &paths.root)?;
        Ok(None)
    }

    // Makes the folders, and syncs those above them: a folder that an earlier run made may not be synced yet.
    fn make_folders(&mut self, alloc: Global, paths: &Paths) -> io::Result<()>
        ensures { self.new.faults ≡ self.old.faults }
    {
        if !self.is_made {
            let is_new = self.make(alloc, &paths.root)?;
            let answer = sync_parent(&self.rt, &paths.root, is_new);
            self.told(alloc, parent_of(&paths.root), answer)?;
            self.make(alloc, &paths.folder)?;
            self.sync(alloc, &paths.root)?;
            self.is_made = true;
        }
        Ok(())
    }

    // The refusal of a change by a process that only reads.
    fn refuse_change(&mut self, alloc: Global, path: &str) -> io::Error
        ensures { self.new.faults ≡ self.old.faults }
    {
        let error = io::Error::new(ErrorKind::PermissionDenied, "the store is only read");
        self.fault.note(alloc, path, &error);
        error
    }

    // The same of a keep that only reads: the text has to have these bytes.
    fn put_same(&mut self, alloc: Global, paths: &Paths, bytes: &[u8]) -> io::Result<()>
        ensures { self.new.faults ≡ self.old.faults }
    {
        if !self.has_file(alloc, &paths.file)? || !self.has_synced(alloc, paths, bytes)? {
            return Err(self.refuse_change(alloc, &paths.file));
        }
        let answer = unless_read_only(sync_folder(&self.rt, &paths.folder));
        self.told(alloc, &paths.folder, answer)
    }

    // Syncs the text where these are its bytes. Answers whether they are.
    fn has_synced(&mut self, alloc: Global, paths: &Paths, bytes: &[u8]) -> io::Result<bool>
        ensures { self.new.faults ≡ self.old.faults }
    {
        let answer = sync_same(&self.rt, &paths.file, bytes, self.is_reading);
        self.told(alloc, &paths.file, answer)
    }

    // Writes the bytes to the file on the way, and gives it its name.
    fn write(&mut self, alloc: Global, paths: &Paths, bytes: &[u8]) -> io::Result<()>
        ensures { self.new.faults ≡ self.old.faults }
    {
        let answer = write_file(&self.rt, &paths.new_file, bytes);
        self.told(alloc, &paths.new_file, answer)?;
        let answer = fs::rename(&self.rt, &paths.new_file, &paths.file);
        self.told(alloc, &paths.file, answer)
    }

    fn put(&mut self, alloc: Global, paths: &Paths, bytes: &[u8]) -> io::Result<()>
        ensures { self.new.faults ≡ self.old.faults }
    {
        if self.is_reading {
            return self.put_same(alloc, paths, bytes);
        }
        let is_there = self.has_file(alloc, &paths.file)?;
        self.has_file(alloc, &paths.new_file)?;
        self.make_folders(alloc, paths)?;
        if !is_there || !self.has_synced(alloc, paths, bytes)? {
            self.write(alloc, paths, bytes)?;
        }
        self.sync(alloc, &paths.folder)
    }
}

impl<R: Files + Drop> Keep for FolderKeep<R> {
    ghost tells = { ⊥ };

    ghost state = { λ _. record { reads = λ _. None; moment = 0; image_at = λ _ _. ⊥; fresh = λ _ _ _. ⊥ } };

    ghost faults = { λ s. s.faults };

    ghost reads_is_image = { λ _ tells. absurd tells };

    fn load(&mut self, alloc: Global, name: &str) -> Result<Option<Vec<u8>>, DiskFault> {
        let Ok(paths) = paths_of(alloc, &self.root, name) else {
            return Err(DiskFault::Memory);
        };
        match self.get(alloc, &paths) {
            Ok(bytes) => Ok(bytes),
            Err(e) if e.kind() == ErrorKind::OutOfMemory => Err(DiskFault::Memory),
            Err(_) => {
                self.faults = self.faults.saturating_add(1);
                Err(DiskFault::Failed)
            }
        }
    }

    fn replace(&mut self, alloc: Global, name: &str, bytes: &[u8]) -> Result<(), DiskFault> {
        let Ok(paths) = paths_of(alloc, &self.root, name) else {
            return Err(DiskFault::Memory);
        };
        match self.put(alloc, &paths, bytes) {
            Ok(()) => Ok(()),
            Err(e) if e.kind() == ErrorKind::OutOfMemory => Err(DiskFault::Memory),
            Err(_) => {
                self.faults = self.faults.saturating_add(1);
                Err(DiskFault::Failed)
            }
        }
    }
}
