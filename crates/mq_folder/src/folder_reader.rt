//! Reads frozen ranges of the log files in a store folder, by position, so that readers share no cursor. The log file that
//! was read last is kept open.

ghost use Rattle.std.specs.Prelude.{◌≡◌};
ghost use Rattle.mq_outside.specs.Counts.{Rises};

use crate::folder_kinds::{FirstFault, Kind, is_file, unexpected};
use mq_bytes::LogFile;
use mq_outside::{Failed, Frozen, Reader};
use std::fs::File;
use std::io;
use std::os::unix::fs::FileExt;
use std::rt::Files;

// A log file that is kept open.
#[derive(Drop)]
struct OpenLog {
    base: u64,
    file: File,
}

/// A reader of a store folder.
#[derive(Drop)]
pub struct FolderReader<R: Files<File = File> + AllocGlobal + Clone + Drop> {
    rt: R,
    root: String,
    last: Option<OpenLog>,
    pub(crate) faults: u64,
    pub(crate) fault: FirstFault,
    reads: u64,
}

impl<R: Files<File = File> + AllocGlobal + Clone + Drop> FolderReader<R> {
    /// A reader of a store folder.
    pub fn new(rt: R, root: String) -> FolderReader<R>
        ensures faults { result.faults ≡ 0 }
        ensures reads { result.reads ≡ 0 }
    {
        FolderReader {
            rt,
            root,
            last: None,
            faults: 0,
            fault: FirstFault::none(),
            reads: 0,
        }
    }

    // Opens a log file where another one is open.
    fn open(&mut self, base: u64) -> io::Result<()>
        ensures faults { self.new.faults ≡ self.old.faults }
        ensures reads { self.new.reads ≡ self.old.reads }
    {
        if let Some(open) = &self.last
            && open.base == base
        {
            return Ok(());
        }
        self.last = None;
        let log = LogFile::of(base);
        let root = self.root.as_str();
        let name = log.as_str();
        let path = format!(in self.rt.alloc(); "{root}/{name}")?;
        if !is_file(&self.rt, path.as_str())? {
            return Err(unexpected(Kind::Absent));
        }
        let file = std::fs::open(&self.rt, path.as_str())?;
        self.last = Some(OpenLog { base, file });
        Ok(())
    }

    // Fills `out` from this offset of a log file on.
    fn read_log(&mut self, base: u64, at: u64, out: &mut [u8]) -> io::Result<()>
        ensures faults { self.new.faults ≡ self.old.faults }
        ensures reads { self.new.reads ≡ self.old.reads }
    {
        self.open(base)?;
        match &self.last {
            Some(open) => open.file.read_exact_at(out, at),
            None => Err(unexpected(Kind::Absent)),
        }
    }

    // Counts a fault, and notes it where it is the first.
    fn count_fault(&mut self, base: u64, error: &io::Error)
        ensures faults { Rises self.old.faults self.new.faults }
        ensures reads { self.new.reads ≡ self.old.reads }
    {
        self.faults = self.faults.saturating_add(1);
        let log = LogFile::of(base);
        let root = self.root.as_str();
        let name = log.as_str();
        let alloc = self.rt.alloc();
        if let Ok(path) = format!(in alloc; "{root}/{name}") {
            self.fault.note(alloc, path.as_str(), error);
        }
    }
}

impl<R: Files<File = File> + AllocGlobal + Clone + Drop> Reader for FolderReader<R> {
    ghost use Rattle.mq_outside.specs.GivesHeld.{gives_held, held_law, parts_law, alike_law};

    ghost faults = { λ reader. reader.faults };

    ghost reads = { λ reader. reader.reads };

    // Of a piece that holds nothing it says nothing.
    ghost gives = { gives_held };

    ghost held = { held_law };

    ghost parts = { parts_law };

    ghost alike = { alike_law };

    fn fault_count(&self) -> u64 {
        self.faults
    }

    fn read(&mut self, piece: &Frozen, at: u64, out: &mut [u8]) -> Result<(), Failed> {
        self.reads = self.reads.saturating_add(1);
        if piece.copy_held(&self.rt, at, out) {
            return Ok(());
        }
        match self.read_log(piece.base(), piece.from().saturating_add(at), out) {
            Ok(()) => Ok(()),
            Err(e) => {
                self.count_fault(piece.base(), &e);
                Err(Failed)
            }
        }
    }
}
