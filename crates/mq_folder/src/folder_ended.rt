//! The mark of an end in order: the text `config/ended` of a store folder, which says where the log ended when the last
//! process that had the store was done with it, and all of it was on the disk.
//!
//! Such a log need not be written again at the next opening; and where its records end before the mark it has lost some
//! that were acknowledged, which no crash does. The mark is taken away before the first change after it.

use crate::folder_bytes::read_up_to;
use crate::folder_mark::put_text;
use crate::folder_place::Place;
use mq_bytes::read_decimal;
use std::fs::File;
use std::rt::Files;
use std::{fs, io};

// The name of the mark in the store folder.
const ENDED: &str = "config/ended";

/// What is known of the mark.
#[derive(Clone, Copy, Debug, PartialEq, Eq)]
pub(crate) struct EndMark {
    is_there: bool,
    /// The physical offset where the log ended, as long as nothing was written since.
    pub(crate) place: Option<u64>,
}

// The number that the mark's text says, in decimal with a line end.
fn place_in(text: &[u8]) -> Option<u64> {
    let digits = std::str::from_utf8(text.strip_suffix(b"\n")?).ok()?;
    u64::try_from(read_decimal(digits)?).ok()
}

// The physical offset that the mark at this path says. None where it is no number.
fn read_place<R: Files<File = File>>(rt: &R, path: &str) -> io::Result<Option<u64>> {
    let file = fs::open(rt, path)?;
    let mut text = [0; 32];
    let n = read_up_to(&file, 0, &mut text)?;
    Ok(place_in(&text[..n]))
}

impl EndMark {
    /// No mark.
    pub(crate) fn none() -> EndMark {
        EndMark {
            is_there: false,
            place: None,
        }
    }

    /// The mark of a store folder.
    pub(crate) fn read<R: Files<File = File> + AllocGlobal + Clone + Drop>(
        place: &mut Place<R>,
    ) -> io::Result<EndMark> {
        if !place.has_file(ENDED)? {
            return Ok(EndMark::none());
        }
        let path = place.path(ENDED)?;
        let answer = read_place(&place.rt, path.as_str());
        Ok(EndMark {
            is_there: true,
            place: place.told(ENDED, answer)?,
        })
    }

    /// Takes the mark away, where it is there. After Ok a crash leaves none.
    pub(crate) fn take_away<R: Files<File = File> + AllocGlobal + Clone + Drop>(
        &mut self,
        place: &mut Place<R>,
    ) -> io::Result<()> {
        if self.is_there {
            let path = place.path(ENDED)?;
            let answer = fs::remove_file(&place.rt, path.as_str());
            place.told(ENDED, answer)?;
            place.forget_synced();
            place.sync_folder("config")?;
            self.is_there = false;
        }
        Ok(())
    }

    /// Marks that the log ended in order at this physical offset.
    pub(crate) fn put<R: Files<File = File> + AllocGlobal + Clone + Drop>(
        &mut self,
        place: &mut Place<R>,
        end: u64,
    ) -> io::Result<()> {
        if self.is_there && self.place == Some(end) {
            return Ok(());
        }
        let text = format!(in place.rt.alloc(); "{end}\n")?;
        self.is_there = true;
        self.place = Some(end);
        put_text(place, ENDED, text.as_bytes())
    }
}
