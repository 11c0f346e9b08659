//! How a file becomes durable that an earlier process wrote.
//!
//! The system forgets what it could not write at a sync that failed, and answers Ok to the next one. So the end of the file
//! is written once more as it is read, and then synced: more than that no process leaves unsynced. It is left out where the
//! mark of an end in order (`folder_ended`) says that all was on the disk.

use crate::folder_bytes::{copy_range, end_of_bytes};
use crate::folder_clock::tell_clock;
use crate::folder_files::FolderFiles;
use crate::folder_list::{base_of, is_in_log};
use mq_outside::UNSYNCED_MAX;
use std::fs::{File, OpenFile};
use std::io;
use std::rt::{Clock, Files};

impl<R: Files<File = File> + Clock + Eprint + AllocGlobal + Clone + Drop> FolderFiles<R> {
    // Whether the log ended in order, and this file has that end and no other bytes. Fails where the file ends before it.
    fn ended_in_order(&mut self, name: &str) -> io::Result<bool> {
        let Some(base) = base_of(name) else {
            return Ok(false);
        };
        let end = base.saturating_add(self.len_of(name)?);
        self.check_end(name, end)?;
        Ok(self.ended.place == Some(end))
    }

    // Writes the end of a file once more, so that the next sync has to bring it to the disk.
    fn write_end(&mut self, name: &str) -> io::Result<()> {
        let alloc = self.place.rt.alloc();
        if let Some(file) = self.handle(name)? {
            let len = file.metadata()?.len();
            let from = len.saturating_sub(UNSYNCED_MAX);
            copy_range(alloc, &file, from, len, &file, 0)?;
        }
        Ok(())
    }

    // Tells of a clock that was ahead, once, where a log file has records.
    fn look_at_clock(&mut self, name: &str) -> io::Result<()> {
        if self.is_clock_told {
            return Ok(());
        }
        if let Some(base) = base_of(name)
            && let Some(file) = self.handle(name)?
            && file.metadata()?.len() > 0
        {
            tell_clock(&self.place, &file, base);
            self.is_clock_told = true;
        }
        Ok(())
    }

    fn is_renewed(&self, name: &str) -> bool {
        match &self.renewed {
            Some(renewed) => renewed.as_str() == name,
            None => false,
        }
    }

    fn renew_file(&mut self, name: &str) -> io::Result<()> {
        self.check_change()?;
        let has_ended = self.ended_in_order(name)?;
        if !has_ended && !self.is_renewed(name) {
            self.write_end(name)?;
        }
        self.sync_file(name)?;
        self.look_at_clock(name)?;
        self.renewed = String::from_str(self.place.rt.alloc(), name).ok();
        Ok(())
    }

    /// Makes a file durable that an earlier process wrote. The last 64 MiB are written once more, and then synced. A file
    /// that was renewed already is only synced, unless a change failed since, and so is one whose log ended in order.
    pub fn renew(&mut self, name: &str) -> io::Result<()> {
        let answer = self.renew_file(name);
        self.changed(name, answer)
    }

    // The physical offset where the log's bytes end. None where the log has no file.
    fn log_end(&mut self) -> io::Result<Option<u64>> {
        let alloc = self.place.rt.alloc();
        let names = self.place.names(alloc, true)?;
        let last = names.iter().filter(|name| is_in_log(name.as_str())).last();
        let Some(name) = last else {
            return Ok(None);
        };
        let Some(base) = base_of(name.as_str()) else {
            return Ok(None);
        };
        match self.handle(name.as_str())? {
            // A record ends with its seal, whose last byte is 2, and never with a zero.
            Some(file) => Ok(Some(base.saturating_add(end_of_bytes(&file, 0)?))),
            None => Ok(None),
        }
    }

    // Whether all that is in the log's files is on the disk, as far as this process knows.
    fn is_all_synced(&mut self) -> io::Result<bool> {
        let is_synced = match &self.last {
            Some(open) => !open.is_unsynced,
            None => true,
        };
        if !is_synced || self.has_unsynced || self.renewed.is_none() {
            return Ok(false);
        }
        self.check_folder()?;
        Ok(true)
    }

    /// Marks that the log ended in order, where it was renewed, no change failed, and nothing was written since it was synced.
    pub fn end_in_order(&mut self) -> io::Result<()> {
        if !self.is_all_synced()? {
            return Ok(());
        }
        match self.log_end()? {
            Some(end) => self.ended.put(&mut self.place, end),
            None => Ok(()),
        }
    }
}
