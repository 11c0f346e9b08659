//! The disk of a store folder. It says nothing of what it holds, counts its failures, and is the trusted edge: that the
//! system keeps what a sync answered is taken on trust.

ghost use Rattle.std.specs.Prelude.{◌≡◌, None, MatchResult};
ghost use Rattle.mq_outside.specs.Counts.{CountsFailure};

use crate::folder_files::FolderFiles;
use crate::folder_reader::FolderReader;
use bytes::Bytes;
use mq_outside::{Disk, DiskFault, Failed, Frozen};
use std::alloc::Global;
use std::fs::File;
use std::io;
use std::io::ErrorKind;
use std::rt::{Clock, Files};

/// The disk of a store folder. Two processes can't have it at a time: where another one has it each call fails.
/// `folder_files` says what is made when, and what is refused.
#[derive(Drop)]
pub struct FolderDisk<R: Files<File = File> + Clock + Eprint + AllocGlobal + Clone + Drop> {
    files: FolderFiles<R>,
    faults: u64,
    syncs: u64,
    given: u64,
    reader_faults: u64,
}

impl<R: Files<File = File> + Clock + Eprint + AllocGlobal + Clone + Drop> FolderDisk<R> {
    // The disk of a store folder, with no count yet.
    fn over(files: FolderFiles<R>) -> FolderDisk<R>
        ensures faults { result.faults ≡ 0 }
        ensures syncs { result.syncs ≡ 0 }
        ensures given { result.given ≡ 0 }
        ensures reader_faults { result.reader_faults ≡ 0 }
    {
        FolderDisk {
            files,
            faults: 0,
            syncs: 0,
            given: 0,
            reader_faults: 0,
        }
    }

    /// The disk of a store folder, which the first call makes where it is absent.
    pub fn new(rt: R, root: String) -> FolderDisk<R>
        ensures faults { result.faults ≡ 0 }
        ensures syncs { result.syncs ≡ 0 }
        ensures given { result.given ≡ 0 }
        ensures reader_faults { result.reader_faults ≡ 0 }
    {
        FolderDisk::over(FolderFiles::new(rt, root, false))
    }

    /// The disk of a store folder that is only read: nothing is made, and each call that changes something fails. Those
    /// that only read share the store, and where the folder is absent each call fails.
    pub fn for_reading(rt: R, root: String) -> FolderDisk<R>
        ensures faults { result.faults ≡ 0 }
        ensures syncs { result.syncs ≡ 0 }
        ensures given { result.given ≡ 0 }
        ensures reader_faults { result.reader_faults ≡ 0 }
    {
        FolderDisk::over(FolderFiles::new(rt, root, true))
    }

    /// The first fault of any call, or of a reader that came back: `PATH: WHY`, one line without its end. None where
    /// nothing failed, or there was no memory for the text.
    pub fn fault_text(&self) -> Option<&str> {
        self.files.fault_text()
    }

    /// How the log is damaged, where a call failed because it is, though the model knows only of a disk that failed:
    /// `PATH WHY (status 8): WHAT TO DO`, one line without its end. Nothing was changed. None where no call found that, or
    /// there was no memory for the text.
    pub fn damage(&self) -> Option<&str> {
        self.files.damage()
    }

    /// Marks that the log ended in order, so that the next opening need not write its end again. It does nothing where a
    /// call failed, or something was written since the last sync that answered Ok. It comes last.
    pub fn end_in_order(&mut self)
        ensures faults { self.new.faults ≡ self.old.faults }
        ensures syncs { self.new.syncs ≡ self.old.syncs }
        ensures given { self.new.given ≡ self.old.given }
        ensures reader_faults { self.new.reader_faults ≡ self.old.reader_faults }
    {
        if self.faults == 0 {
            // Without the mark the end is written again.
            let _ = self.files.end_in_order();
        }
    }

    // Counts where the system refused.
    fn answer<T: Drop>(&mut self, answer: io::Result<T>) -> Result<T, Failed>
        ensures value { MatchResult answer (λ v. result ≡ Ok v) (λ _. result ≡ Err record {}) }
        ensures cause { CountsFailure result self.old.faults self.new.faults }
        ensures syncs { self.new.syncs ≡ self.old.syncs }
        ensures given { self.new.given ≡ self.old.given }
        ensures reader_faults { self.new.reader_faults ≡ self.old.reader_faults }
    {
        match answer {
            Ok(value) => Ok(value),
            Err(_) => {
                self.faults = self.faults.saturating_add(1);
                Err(Failed)
            }
        }
    }
}

impl<R: Files<File = File> + Clock + Eprint + AllocGlobal + Clone + Drop> Disk for FolderDisk<R> {
    type Reader = FolderReader<R>;

    ghost tells = { ⊥ };

    ghost state = { λ _. record { reads = λ _. None; moment = 0; image_at = λ _ _. ⊥; fresh = λ _ _ _. ⊥ } };

    ghost faults = { λ disk. disk.faults };

    ghost syncs = { λ disk. disk.syncs };

    ghost given = { λ disk. disk.given };

    ghost reader_faults = { λ disk. disk.reader_faults };

    ghost reads_is_image = { λ _ tells. absurd tells };

    fn fault_count(&self) -> u64 {
        self.faults
    }

    fn list(&mut self, alloc: Global) -> Result<Vec<String>, DiskFault> {
        match self.files.list(alloc) {
            Ok(names) => Ok(names),
            Err(e) if e.kind() == ErrorKind::OutOfMemory => Err(DiskFault::Memory),
            Err(_) => {
                self.faults = self.faults.saturating_add(1);
                Err(DiskFault::Failed)
            }
        }
    }

    fn len(&mut self, file: &str) -> Result<u64, Failed> {
        let answer = self.files.len(file);
        self.answer(answer)
    }

    fn read_at(&mut self, file: &str, at: u64, out: &mut [u8]) -> Result<usize, Failed> {
        let answer = self.files.read_at(file, at, out);
        let n = self.answer(answer)?;
        self.given = self.given.saturating_add(n as u64);
        Ok(n)
    }

    fn write_at(&mut self, file: &str, at: u64, piece: &[u8]) -> Result<(), Failed> {
        let answer = self.files.write_at(file, at, piece);
        self.answer(answer)
    }

    fn cut(&mut self, file: &str, len: u64) -> Result<(), Failed> {
        let answer = self.files.cut(file, len);
        self.answer(answer)
    }

    fn sync(&mut self, file: &str) -> Result<(), Failed> {
        self.syncs = self.syncs.saturating_add(1);
        let answer = self.files.sync(file);
        self.answer(answer)
    }

    fn renew(&mut self, file: &str) -> Result<(), Failed> {
        self.syncs = self.syncs.saturating_add(1);
        let answer = self.files.renew(file);
        self.answer(answer)
    }

    // Its bytes were synced before the next file was made. Its name may not be yet, as that of a file that was copied here.
    fn sync_ended(&mut self, file: &str, _next: &str) -> Result<(), Failed> {
        self.syncs = self.syncs.saturating_add(1);
        let answer = self.files.sync(file);
        self.answer(answer)
    }

    fn remove(&mut self, file: &str) -> Result<(), Failed> {
        let answer = self.files.remove(file);
        self.answer(answer)
    }

    fn freeze(&mut self, base: u64, from: u64, bytes: Bytes) -> Frozen {
        Frozen::of_file(self.files.system(), base, from, bytes.len() as u64)
    }

    fn freeze_stored(
        &mut self,
        _alloc: Global,
        base: u64,
        from: u64,
        to: u64,
    ) -> Result<Frozen, DiskFault> {
        let answer = self.files.check_lock();
        match self.answer(answer) {
            Ok(()) => Ok(Frozen::of_file(self.files.system(), base, from, to - from)),
            Err(Failed) => Err(DiskFault::Failed),
        }
    }

    fn reader(&mut self, alloc: Global) -> Result<FolderReader<R>, DiskFault> {
        match self.files.reader(alloc) {
            Ok(reader) => Ok(reader),
            Err(e) if e.kind() == ErrorKind::OutOfMemory => Err(DiskFault::Memory),
            Err(_) => {
                self.faults = self.faults.saturating_add(1);
                Err(DiskFault::Failed)
            }
        }
    }

    fn take_back(&mut self, reader: FolderReader<R>) {
        self.reader_faults = self.reader_faults.saturating_add(reader.faults);
        self.files.take_fault(reader.fault);
    }
}
