//! The mark of a log that has begun: the text `config/begun` of a store folder.
//!
//! A log folder without a file is that of a log that has not begun, or one whose disk is away: a mount that is missing
//! leaves an empty folder. The mark tells them apart. It is put before the first sync of a log file is answered, so that
//! no record is acknowledged without it, and at each opening that finds a log file.

use crate::folder_kinds::{create_file, make_folder, sync_folder};
use crate::folder_place::{Place, folder_of};
use std::fs::{File, OpenFile};
use std::io;
use std::io::{ErrorKind, Write};
use std::rt::Files;

// The name of the mark in the store folder.
const MARK: &str = "config/begun";

// What the mark's file has. That it is there counts, and not what it has.
const TEXT: &[u8] = b"the log has begun\n";

// Writes a file anew, and syncs it.
fn write_text<R: Files>(rt: &R, path: &str, text: &[u8]) -> io::Result<()> {
    let mut file = create_file(rt, path)?;
    file.write_all(text)?;
    file.sync_all()
}

// Makes a folder of the store folder, whose name stays from then on.
fn make_named<R: Files>(rt: &R, root: &str, folder: &str) -> io::Result<()> {
    make_folder(rt, folder)?;
    sync_folder(rt, root)
}

/// Puts a text in the folder of this name, which is made where it is absent. After Ok a crash leaves it.
pub(crate) fn put_text<R: Files<File = File> + AllocGlobal + Clone + Drop>(
    place: &mut Place<R>,
    name: &str,
    text: &[u8],
) -> io::Result<()> {
    let folder = place.path(folder_of(name))?;
    let path = place.path(name)?;
    let answer = make_named(&place.rt, place.root.as_str(), folder.as_str());
    place.told(folder_of(name), answer)?;
    let answer = write_text(&place.rt, path.as_str(), text);
    place.told(name, answer)?;
    let answer = sync_folder(&place.rt, folder.as_str());
    place.told(folder_of(name), answer)
}

/// Whether the log has begun.
pub(crate) fn has_mark<R: Files<File = File> + AllocGlobal + Clone + Drop>(
    place: &mut Place<R>,
) -> io::Result<bool> {
    place.has_file(MARK)
}

/// Marks that the log has begun. After Ok a crash leaves the mark.
pub(crate) fn put_mark<R: Files<File = File> + AllocGlobal + Clone + Drop>(
    place: &mut Place<R>,
) -> io::Result<()> {
    if place.has_file(MARK)? {
        return Ok(());
    }
    put_text(place, MARK, TEXT)
}

/// The refusal of a log folder without a file, where the log has begun.
pub(crate) fn lost() -> io::Error {
    let words = "it has no file, though the log has begun";
    io::Error::new(ErrorKind::NotFound, words)
}
