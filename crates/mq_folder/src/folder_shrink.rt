//! What makes the log shorter: a cut, or the removal of a file. Recovery alone asks for either.
//!
//! What goes is kept and told (`folder_cut`), unless it is zeros. It is refused, and nothing is changed, where no crash can
//! have left it: where the log ended in order behind the place of the cut (`folder_ended`), and where it is more than one
//! process leaves unsynced. Then the log is damaged, and `damage` has the words.

use crate::folder_bytes::end_of_bytes;
use crate::folder_cut::{Rest, count_records, keep_rest};
use crate::folder_files::FolderFiles;
use crate::folder_list::base_of;
use crate::folder_place::folder_of;
use mq_outside::UNSYNCED_MAX;
use record_codec::BLANK_FRONT;
use std::alloc::Global;
use std::fs::{File, OpenFile};
use std::io::ErrorKind;
use std::rt::{Clock, Files};
use std::{fs, io};

// The most bytes that a crash leaves behind the records: a batch, and the front of the blank before it.
const REST_MAX: u64 = UNSYNCED_MAX + BLANK_FRONT;

// What was kept of a file that is about to become shorter.
#[derive(Drop)]
struct Kept {
    // The name of the file in the store folder that has it.
    name: String,
    place: u64,
    len: u64,
    records: Option<u64>,
}

impl<R: Files<File = File> + Clock + Eprint + AllocGlobal + Clone + Drop> FolderFiles<R> {
    // Notes that the log is damaged, in an operator's words.
    fn refuse_damage(&mut self, alloc: Global, name: &str, why: &str) -> io::Error {
        let root = self.place.root.as_str();
        if self.damage.is_none() {
            self.damage = format!(in alloc;
                "{root}/{name} {why} (status 8): keep a copy and look at the file; nothing was changed"
            ).ok();
        }
        io::Error::new(ErrorKind::InvalidData, "it is damaged")
    }

    /// Fails where the log ended in order behind this place, which is to be its end, in the file of this name.
    pub(crate) fn check_end(&mut self, name: &str, end: u64) -> io::Result<()> {
        match self.ended.place {
            Some(place) if end < place => {
                let alloc = self.place.rt.alloc();
                let why = format!(in alloc;
                    "has no whole record from {end} on, though the log ended in order at {place} (config/ended)"
                )?;
                Err(self.refuse_damage(alloc, name, why.as_str()))
            }
            _ => Ok(()),
        }
    }

    // Fails where a crash can't have left so many bytes behind the records, which end at this place.
    fn check_len(&mut self, name: &str, place: u64, len: u64) -> io::Result<()> {
        self.rest_len = self.rest_len.saturating_add(len);
        if self.rest_len <= REST_MAX {
            return Ok(());
        }
        let alloc = self.place.rt.alloc();
        let why = format!(in alloc;
            "has {len} bytes behind the last record, which ends at {place}: no crash leaves so many"
        )?;
        Err(self.refuse_damage(alloc, name, why.as_str()))
    }

    // Keeps what a log file has from this offset on, where that isn't all zeros.
    fn keep_from(
        &mut self,
        alloc: Global,
        name: &str,
        base: u64,
        from: u64,
        file: &File,
    ) -> io::Result<Option<Kept>> {
        let to = end_of_bytes(file, from)?;
        if to <= from {
            return Ok(None);
        }
        let place = base.saturating_add(from);
        let len = to - from;
        self.check_len(name, place, len)?;
        let rest = Rest {
            file,
            base,
            from,
            to,
        };
        let name = keep_rest(&mut self.place, alloc, &rest)?;
        Ok(Some(Kept {
            name,
            place,
            len,
            records: count_records(alloc, &rest),
        }))
    }

    // Keeps what goes of a file, where it is one of the log. After Ok it may go.
    fn keep_log(&mut self, name: &str, from: u64, file: &File) -> io::Result<Option<Kept>> {
        let Some(base) = base_of(name) else {
            return Ok(None);
        };
        let alloc = self.place.rt.alloc();
        self.check_end(name, base.saturating_add(from))?;
        self.keep_from(alloc, name, base, from, file)
    }

    // Tells what is gone of a file. Where standard error fails nothing else would tell of it.
    fn tell_kept(&self, name: &str, kept: &Option<Kept>) {
        let Some(kept) = kept else {
            return;
        };
        let (root, place, len) = (self.place.root.as_str(), kept.place, kept.len);
        let file = kept.name.as_str();
        let told = match kept.records {
            Some(records) => eprintln!(self.place.rt;
                "mq_broker: cut {len} bytes off {root}/{name} from {place} on, \
                 {records} whole records among them; they are kept in {root}/{file}"
            ),
            None => eprintln!(self.place.rt;
                "mq_broker: cut {len} bytes off {root}/{name} from {place} on; they are kept in {root}/{file}"
            ),
        };
        if told.is_err() {}
    }

    fn cut_file(&mut self, name: &str, len: u64) -> io::Result<()> {
        self.check_change()?;
        let Some(file) = self.handle(name)? else {
            return Ok(());
        };
        let mut kept = None;
        if file.metadata()?.len() > len {
            kept = self.keep_log(name, len, &file)?;
        }
        self.ended.take_away(&mut self.place)?;
        file.set_len(len)?;
        // A data sync need not write a shorter length.
        file.sync_all()?;
        self.tell_kept(name, &kept);
        Ok(())
    }

    /// Cuts a file to a length. An absent file stays absent.
    pub fn cut(&mut self, name: &str, len: u64) -> io::Result<()> {
        let answer = self.cut_file(name, len);
        self.changed(name, answer)
    }

    // Removes a file that is there.
    fn remove_open(&mut self, name: &str, file: &File) -> io::Result<()> {
        let kept = self.keep_log(name, 0, file)?;
        self.ended.take_away(&mut self.place)?;
        let path = self.place.path(name)?;
        fs::remove_file(&self.place.rt, path.as_str())?;
        self.tell_kept(name, &kept);
        Ok(())
    }

    fn remove_file(&mut self, name: &str) -> io::Result<()> {
        self.check_change()?;
        let file = self.handle(name)?;
        self.close();
        // An earlier removal may not be durable yet.
        self.place.forget_synced();
        if let Some(file) = file {
            self.remove_open(name, &file)?;
        }
        self.place.sync_folder(folder_of(name))
    }

    /// Removes a file, and makes that durable. Of a link it is the link that goes, and not what it leads to.
    pub fn remove(&mut self, name: &str) -> io::Result<()> {
        let answer = self.remove_file(name);
        self.changed(name, answer)
    }
}
