//! The files of a store folder, as the system gives them. One file is kept open from call to call, so that a write or a
//! sync of the file that was used last builds no path and opens nothing.
//!
//! | in the store folder        | what it is                                                     | file            |
//! |----------------------------|----------------------------------------------------------------|-----------------|
//! | the folder itself, `lock`  | locked by the one process that uses the store, for as long     | `folder_lock`   |
//! | `config/`                  | small texts, which are no files of the disk                    | `folder_keep`   |
//! | `config/begun`             | the log has begun                                              | `folder_mark`   |
//! | `config/ended`             | where the log ended in order                                   | `folder_ended`  |
//! | `cut/`                     | what was cut off the log                                       | `folder_cut`    |
//! | `commitlog/`               | the log's files, as `commitlog/00000000000000000000`           |                 |
//! | `lost+found/`, anywhere    | the file system's own: ignored                                 |                 |
//! | all else                   | files of the disk, where they are files                        | `folder_list`   |
//!
//! Links are followed by every call alike: the store folder, `commitlog` and a file in it may each be a link to another
//! disk. What a path leads to is looked up before it is opened (`folder_kinds`), and a call that names what is neither
//! a file nor absent is refused. `lock` and `config/format` have to be files and `config` and `commitlog` folders, where
//! they are there: this is looked up before the lock is taken, and so before anything is changed.
//!
//! `FolderFiles::new` makes nothing. The first call looks at the store folder:
//!
//! | the store folder                                   | what the first call does                                |
//! |----------------------------------------------------|---------------------------------------------------------|
//! | is absent                                          | makes it, and takes the lock                            |
//! | has `config/format`, or no file but `lock`         | takes the lock                                          |
//! | has other files and no `config/format`: is foreign | takes no lock and changes nothing: `list` alone answers |
//! | can't be read, or has what is refused              | fails, and so does each later call                      |
//!
//! Those that only read make nothing, and an absent folder is refused. In a store with `config/format` the first list fails
//! where the log has begun and has no file (`folder_mark`). A write to another file than the last fails where the path leads
//! to another folder than the one that is locked, or to none, and so does each later change and sync.

ghost use Rattle.std.specs.Prelude.{◌≡◌, ◌≤◌, length, IfOk};

use crate::folder_bytes::read_up_to;
use crate::folder_ended::EndMark;
use crate::folder_kinds::{
    FILE_MODE, FirstFault, Kind, make_folder, make_folders, sync_parent, unexpected,
};
use crate::folder_list::is_in_log;
use crate::folder_lock::{StoreLock, moved};
use crate::folder_mark::{has_mark, lost, put_mark};
use crate::folder_place::{Place, folder_of};
use crate::folder_reader::FolderReader;
use std::alloc::Global;
use std::fs::{File, OpenFile, OpenOptions};
use std::io;
use std::io::ErrorKind;
use std::os::unix::fs::{FileExt, OpenOptionsExt};
use std::rt::{Clock, Files};

// A file that is kept open.
#[derive(Drop)]
pub(crate) struct Open {
    name: String,
    file: File,
    // That the folders on the way to it were synced since it was made.
    is_named: bool,
    // That it was written since it was synced.
    pub(crate) is_unsynced: bool,
}

// The lock of the store.
#[derive(Drop)]
enum Lock {
    // Nothing was asked yet, or the store was foreign.
    Untried,
    Held(StoreLock),
    // It could not be had.
    Refused,
}

/// A store folder and its lock.
#[derive(Drop)]
pub struct FolderFiles<R: Files<File = File> + Clock + Eprint + AllocGlobal + Clone + Drop> {
    pub(crate) place: Place<R>,
    // That nothing is to be changed.
    is_reading: bool,
    lock: Lock,
    // That the path leads to another folder than the one that is locked.
    is_moved: bool,
    // The file that was used last, and that another one was left with bytes that were not synced.
    pub(crate) last: Option<Open>,
    pub(crate) has_unsynced: bool,
    // The file whose end was last written again, since when no change failed.
    pub(crate) renewed: Option<String>,
    // That the mark of a log that has begun is there.
    is_marked: bool,
    // That a list has looked whether the log's files are there.
    is_looked_at: bool,
    pub(crate) ended: EndMark,
    // How many bytes were cut off the log, without zeros at an end.
    pub(crate) rest_len: u64,
    pub(crate) is_clock_told: bool,
    pub(crate) damage: Option<String>,
}

fn foreign() -> io::Error {
    let words = "it has files and no config/format, so it is not this program's";
    io::Error::new(ErrorKind::AlreadyExists, words)
}

// The refusal of a change by a process that only reads.
fn only_read() -> io::Error {
    io::Error::new(ErrorKind::PermissionDenied, "the store is only read")
}

impl<R: Files<File = File> + Clock + Eprint + AllocGlobal + Clone + Drop> FolderFiles<R> {
    /// The files of a store folder, which are only read where `is_reading`. Nothing is made and no lock is taken before the
    /// first call.
    pub fn new(rt: R, root: String, is_reading: bool) -> FolderFiles<R> {
        FolderFiles {
            place: Place::new(rt, root),
            is_reading,
            lock: Lock::Untried,
            is_moved: false,
            last: None,
            has_unsynced: false,
            renewed: None,
            is_marked: false,
            is_looked_at: false,
            ended: EndMark::none(),
            rest_len: 0,
            is_clock_told: false,
            damage: None,
        }
    }

    /// The system's files, which it was given.
    pub fn system(&self) -> &R {
        &self.place.rt
    }

    /// The first fault of any call, `PATH: WHY`. None where no call failed, or there was no memory for the text.
    pub fn fault_text(&self) -> Option<&str> {
        self.place.fault.text()
    }

    /// Takes over the first fault of a reader, where no call failed before.
    pub fn take_fault(&mut self, fault: FirstFault) {
        self.place.fault.take_over(fault);
    }

    /// How the log is damaged, where a call found that: `PATH WHY (status 8): WHAT TO DO`.
    pub fn damage(&self) -> Option<&str> {
        match &self.damage {
            Some(text) => Some(text.as_str()),
            None => None,
        }
    }

    // Notes what was refused of a change. After one that failed no file counts as written again.
    pub(crate) fn changed(&mut self, name: &str, answer: io::Result<()>) -> io::Result<()> {
        if answer.is_err() {
            self.renewed = None;
        }
        self.place.told(name, answer)
    }

    // Whether the store folder is another program's: it has files, and no format.
    fn is_foreign(&mut self) -> io::Result<bool> {
        if self.place.has_format()? {
            return Ok(false);
        }
        let alloc = self.place.rt.alloc();
        let names = self.place.names(alloc, false)?;
        if names.is_empty() {
            return Ok(false);
        }
        // Another process may have begun the store meanwhile: the format comes before the first file.
        Ok(!self.place.has_format()?)
    }

    // Fails where what the store needs is there as something else.
    fn check_own(&mut self) -> io::Result<()> {
        self.place.has_file("lock")?;
        self.place.has_folder("config")?;
        self.place.has_folder("commitlog")?;
        Ok(())
    }

    // Makes the store folder where it is absent.
    fn make_root(&mut self) -> io::Result<()> {
        let answer = make_folder(&self.place.rt, self.place.root.as_str());
        let is_new = self.place.told("", answer)?;
        match sync_parent(&self.place.rt, self.place.root.as_str(), is_new) {
            Ok(()) => Ok(()),
            Err(e) => Err(self.place.refuse_parent(e)),
        }
    }

    // The lock of the store, and what is known where it is had.
    fn take_own(&mut self) -> io::Result<StoreLock> {
        if self.is_reading {
            return StoreLock::share(&mut self.place);
        }
        self.make_root()?;
        let lock = StoreLock::take(&mut self.place)?;
        self.ended = EndMark::read(&mut self.place)?;
        Ok(lock)
    }

    // The lock of the store, `None` where the store folder is foreign.
    fn take_store(&mut self) -> io::Result<Option<StoreLock>> {
        if self.place.has_folder("")? {
            if self.is_foreign()? {
                return Ok(None);
            }
            self.check_own()?;
        } else if self.is_reading {
            return Err(self.place.refuse("", unexpected(Kind::Absent)));
        }
        let lock = self.take_own()?;
        Ok(Some(lock))
    }

    // Takes the lock where that was not tried before. Answers whether this process has it; else the store is foreign.
    fn is_locked(&mut self) -> io::Result<bool> {
        match &self.lock {
            Lock::Held(_) => return Ok(true),
            Lock::Refused => return Err(io::Error::from(ErrorKind::WouldBlock)),
            Lock::Untried => {}
        }
        match self.take_store() {
            Ok(Some(lock)) => {
                self.lock = Lock::Held(lock);
                Ok(true)
            }
            Ok(None) => Ok(false),
            Err(e) => {
                if e.kind() != ErrorKind::OutOfMemory {
                    self.lock = Lock::Refused;
                }
                Err(e)
            }
        }
    }

    /// Fails where this process has no lock on the store, and can't have it.
    pub fn check_lock(&mut self) -> io::Result<()> {
        if self.is_locked()? {
            return Ok(());
        }
        Err(self.place.refuse("", foreign()))
    }

    // Fails where nothing may be changed.
    pub(crate) fn check_change(&mut self) -> io::Result<()> {
        self.check_lock()?;
        if self.is_reading {
            return Err(only_read());
        }
        if self.is_moved {
            return Err(self.place.refuse("", moved()));
        }
        Ok(())
    }

    // Fails where the path leads to another folder than the one that is locked, and notes that.
    pub(crate) fn check_folder(&mut self) -> io::Result<()> {
        self.check_change()?;
        let is_there = match &self.lock {
            Lock::Held(lock) => lock.is_at(&self.place.rt, self.place.root.as_str()),
            _ => Ok(false),
        };
        if self.place.told("", is_there)? {
            return Ok(());
        }
        self.is_moved = true;
        Err(self.place.refuse("", moved()))
    }

    // Closes the file that is open.
    pub(crate) fn close(&mut self) {
        if let Some(open) = &self.last
            && open.is_unsynced
        {
            self.has_unsynced = true;
        }
        self.last = None;
    }

    // Whether the file of this name is the one that is open.
    fn is_open(&self, name: &str) -> bool {
        match &self.last {
            Some(open) => open.name.as_str() == name,
            None => false,
        }
    }

    // The open file of this name, opened where another one is open, `None` where it is absent.
    fn open(&mut self, name: &str) -> io::Result<Option<&mut Open>> {
        self.check_lock()?;
        if !self.is_open(name) {
            self.close();
            if self.place.has_file(name)? {
                self.open_file(name, false)?;
            }
        }
        Ok(self.last.as_mut())
    }

    // A second handle of the file of this name, `None` where it is absent.
    pub(crate) fn handle(&mut self, name: &str) -> io::Result<Option<File>> {
        match self.open(name)? {
            Some(open) => Ok(Some(open.file.try_clone()?)),
            None => Ok(None),
        }
    }

    // Opens a file, which is made where it is absent and `makes` says so.
    fn open_file(&mut self, name: &str, makes: bool) -> io::Result<()> {
        let path = self.place.path(name)?;
        let name = String::from_str(self.place.rt.alloc(), name)?;
        let mut options = OpenOptions::new();
        options
            .read(true)
            .write(!self.is_reading)
            .create(makes)
            .mode(FILE_MODE);
        let file = options.open(&self.place.rt, path.as_str())?;
        self.last = Some(Open {
            name,
            file,
            is_named: false,
            is_unsynced: false,
        });
        Ok(())
    }

    // The open file of this name, which is made where it is absent. Before another file is written than the one that is open
    // the folder is looked at: it may have been moved away.
    fn open_or_make(&mut self, name: &str) -> io::Result<Option<&mut Open>> {
        if !self.is_open(name) {
            self.check_folder()?;
        }
        if self.open(name)?.is_none() {
            self.make(name)?;
        }
        Ok(self.last.as_mut())
    }

    // Makes a file and the folders on the way to it. From then on none of them counts as synced.
    fn make(&mut self, name: &str) -> io::Result<()> {
        self.place.forget_synced();
        let folder = self.place.path(folder_of(name))?;
        make_folders(&self.place.rt, folder.as_str())?;
        self.open_file(name, true)
    }

    pub(crate) fn len_of(&mut self, name: &str) -> io::Result<u64> {
        match self.open(name)? {
            Some(open) => Ok(open.file.metadata()?.len()),
            None => Ok(0),
        }
    }

    /// The length of a file in bytes, 0 where it is absent.
    pub fn len(&mut self, name: &str) -> io::Result<u64> {
        let answer = self.len_of(name);
        self.place.told(name, answer)
    }

    fn read_file(&mut self, name: &str, at: u64, out: &mut [u8]) -> io::Result<usize>
        ensures { IfOk result (λ n. n ≤ length out.old) }
    {
        match self.open(name)? {
            Some(open) => {
                let n = read_up_to(&open.file, at, out)?;
                Ok(n)
            }
            None => Ok(0),
        }
    }

    /// Reads what is at the offset, up to `out`. Fewer than `out` only at the file's end.
    pub fn read_at(&mut self, name: &str, at: u64, out: &mut [u8]) -> io::Result<usize>
        ensures { IfOk result (λ n. n ≤ length out.old) }
    {
        let answer = self.read_file(name, at, out);
        self.place.told(name, answer)
    }

    fn write_file(&mut self, name: &str, at: u64, piece: &[u8]) -> io::Result<()> {
        self.check_change()?;
        self.ended.take_away(&mut self.place)?;
        self.ended.place = None;
        match self.open_or_make(name)? {
            Some(open) => {
                open.is_unsynced = true;
                open.file.write_all_at(piece, at)
            }
            None => Err(unexpected(Kind::Absent)),
        }
    }

    /// Writes at the offset, and makes the file where it is absent.
    pub fn write_at(&mut self, name: &str, at: u64, piece: &[u8]) -> io::Result<()> {
        let answer = self.write_file(name, at, piece);
        self.changed(name, answer)
    }

    // Marks that the log has begun, unless it is marked.
    fn mark_begun(&mut self) -> io::Result<()> {
        if !self.is_marked && !self.is_reading {
            put_mark(&mut self.place)?;
            self.is_marked = true;
        }
        Ok(())
    }

    // Syncs the bytes of a file. Answers whether the folders on the way to it were synced.
    fn sync_bytes(&mut self, name: &str) -> io::Result<bool> {
        match self.open(name)? {
            Some(open) => {
                open.file.sync_data()?;
                open.is_unsynced = false;
                Ok(open.is_named)
            }
            None => Ok(false),
        }
    }

    // Syncs a file, the folders on the way to it, and the mark that the log has begun.
    pub(crate) fn sync_file(&mut self, name: &str) -> io::Result<()> {
        let is_named = match self.sync_bytes(name) {
            Ok(is_named) => is_named,
            Err(e) => {
                // What was to be on the disk may be gone, whatever the mark says.
                self.ended.place = None;
                let _ = self.ended.take_away(&mut self.place);
                return Err(e);
            }
        };
        if !is_named {
            self.place.sync_folders(name)?;
            if let Some(open) = &mut self.last {
                open.is_named = true;
            }
        }
        if self.last.is_some() && is_in_log(name) {
            self.mark_begun()?;
        }
        Ok(())
    }

    fn sync_changed(&mut self, name: &str) -> io::Result<()> {
        self.check_change()?;
        self.sync_file(name)
    }

    /// Makes what this process wrote of a file since the last sync that failed, its length and its name durable.
    pub fn sync(&mut self, name: &str) -> io::Result<()> {
        let answer = self.sync_changed(name);
        self.changed(name, answer)
    }

    // Fails where the log has begun and none of its files is there: the disk that has them is away.
    fn check_log(&mut self, names: &[String]) -> io::Result<()> {
        let has_log = names.iter().any(|name| is_in_log(name.as_str()));
        if has_log {
            self.mark_begun()?;
        } else if has_mark(&mut self.place)? {
            return Err(self.refuse_lost());
        }
        self.is_looked_at = true;
        Ok(())
    }

    // Notes that the log is lost, in an operator's words.
    fn refuse_lost(&mut self) -> io::Error {
        let root = self.place.root.as_str();
        self.damage = format!(in self.place.rt.alloc();
            "{root}/commitlog has no file, though the log has begun (status 8): \
             is its disk mounted? nothing was changed"
        )
        .ok();
        self.place.refuse("commitlog", lost())
    }

    fn list_names(&mut self, alloc: Global) -> io::Result<Vec<String>> {
        let is_locked = self.is_locked()?;
        let is_ours = self.place.has_format()?;
        let names = self.place.names(alloc, is_ours)?;
        if !is_locked && names.is_empty() {
            return Err(foreign());
        }
        if is_ours && is_locked && !self.is_looked_at {
            self.check_log(names.as_slice())?;
        }
        Ok(names)
    }

    /// The names of the files, in byte order. Those of a foreign store are given without a lock.
    pub fn list(&mut self, alloc: Global) -> io::Result<Vec<String>> {
        let answer = self.list_names(alloc);
        self.place.told("", answer)
    }

    fn make_reader(&mut self, alloc: Global) -> io::Result<FolderReader<R>>
        ensures { IfOk result (λ reader. (reader.faults ≡ 0) × (reader.reads ≡ 0)) }
    {
        self.check_lock()?;
        let rt = self.place.rt.clone()?;
        let root = String::from_str(alloc, self.place.root.as_str())?;
        Ok(FolderReader::new(rt, root))
    }

    /// A reader of the log files, for another thread.
    pub fn reader(&mut self, alloc: Global) -> io::Result<FolderReader<R>>
        ensures fresh { IfOk result (λ reader. (reader.faults ≡ 0) × (reader.reads ≡ 0)) }
    {
        let answer = self.make_reader(alloc);
        self.place.told("", answer)
    }
}
