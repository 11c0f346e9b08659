//! What is cut off the log is kept: the folder `cut` of a store folder.
//!
//! Recovery cuts what stands behind the last record that follows those before it. After a crash that is a batch that was
//! never acknowledged. But a wrong byte in a record looks alike, and then what is cut may be acknowledged records. So
//! before bytes of a log file go that aren't all zeros they are written to `cut/PLACE`, without the zeros at the end:
//! PLACE is the physical offset of the first of them, in 20 digits, and `.2`, `.3` .. follow where a file of this name
//! has other bytes. The last eight files are kept.

use crate::folder_bytes::{copy_range, is_range, read_up_to};
use crate::folder_kinds::{create_file, make_folder, sync_folder};
use crate::folder_place::Place;
use record_codec::whole_records;
use std::alloc::Global;
use std::fs::{File, OpenFile};
use std::io::ErrorKind;
use std::os::unix::fs::MetadataExt;
use std::rt::Files;
use std::{fs, io};

// The folder, and the name of a file in it that isn't whole yet.
const FOLDER: &str = "cut";

const NEW: &str = "cut/new";

// How many files are kept.
const KEPT: usize = 8;

// How many names are tried for bytes from one place.
const TRIES: u64 = 1000;

/// Bytes of a log file that are about to go.
#[derive(Clone, Copy)]
pub(crate) struct Rest<'a> {
    pub(crate) file: &'a File,
    /// The physical offset where the file begins.
    pub(crate) base: u64,
    /// The offset of the first byte in the file, and of the end.
    pub(crate) from: u64,
    pub(crate) to: u64,
}

// Writes the bytes to the file at this path, and syncs it.
fn write_rest<R: Files<File = File>>(
    rt: &R,
    alloc: Global,
    path: &str,
    rest: &Rest,
) -> io::Result<()> {
    let file = create_file(rt, path)?;
    copy_range(alloc, rest.file, rest.from, rest.to, &file, rest.from)?;
    file.sync_all()
}

// Whether the file at this path has these bytes. Then it is synced.
fn is_kept_at<R: Files<File = File>>(rt: &R, path: &str, rest: &Rest) -> io::Result<bool> {
    let file = fs::open(rt, path)?;
    if !is_range(rest.file, rest.from, rest.to, &file)? {
        return Ok(false);
    }
    file.sync_all()?;
    Ok(true)
}

// A name for bytes from this place, one for each try.
fn name_of(alloc: Global, place: u64, number: u64) -> io::Result<String> {
    if number == 1 {
        return Ok(format!(in alloc; "{FOLDER}/{place:020}")?);
    }
    Ok(format!(in alloc; "{FOLDER}/{place:020}.{number}")?)
}

// Whether this is the name of a file that was kept: it begins with a place.
fn is_kept_name(name: &str) -> bool {
    match name.as_bytes().get(..20) {
        Some(digits) => digits.iter().all(|byte| byte.is_ascii_digit()),
        None => false,
    }
}

// Makes the folder where it is absent, and its name durable.
fn make_cut_folder<R: Files<File = File> + AllocGlobal + Clone + Drop>(
    place: &mut Place<R>,
) -> io::Result<()> {
    let path = place.path(FOLDER)?;
    let answer = make_folder(&place.rt, path.as_str());
    place.told(FOLDER, answer)?;
    let answer = sync_folder(&place.rt, place.root.as_str());
    place.told("", answer)
}

// The name under which these bytes are kept, and whether they are there already.
fn find_name<R: Files<File = File> + AllocGlobal + Clone + Drop>(
    place: &mut Place<R>,
    alloc: Global,
    rest: &Rest,
) -> io::Result<(String, bool)> {
    let begin = rest.base.saturating_add(rest.from);
    for number in 1..TRIES {
        let name = name_of(alloc, begin, number)?;
        if !place.has_file(name.as_str())? {
            return Ok((name, false));
        }
        let path = place.path(name.as_str())?;
        let answer = is_kept_at(&place.rt, path.as_str(), rest);
        if place.told(name.as_str(), answer)? {
            return Ok((name, true));
        }
    }
    let words = "it has too many files of one place";
    Err(place.refuse(FOLDER, io::Error::new(ErrorKind::AlreadyExists, words)))
}

// Writes the bytes to a new file, and gives it this name once they are on the disk.
fn write_new<R: Files<File = File> + AllocGlobal + Clone + Drop>(
    place: &mut Place<R>,
    alloc: Global,
    name: &str,
    rest: &Rest,
) -> io::Result<()> {
    place.has_file(NEW)?;
    let new_path = place.path(NEW)?;
    let path = place.path(name)?;
    let answer = write_rest(&place.rt, alloc, new_path.as_str(), rest);
    if answer.is_err() {
        // On a full disk it would take the room that is left.
        let _ = fs::remove_file(&place.rt, new_path.as_str());
    }
    place.told(NEW, answer)?;
    let answer = fs::rename(&place.rt, new_path.as_str(), path.as_str());
    place.told(name, answer)
}

// The files that were kept, the oldest first.
fn kept_files<R: Files<File = File> + AllocGlobal + Clone + Drop>(
    place: &Place<R>,
    alloc: Global,
) -> io::Result<Vec<(i64, i64, String)>> {
    let path = place.path(FOLDER)?;
    let mut files = Vec::new(alloc);
    for entry in fs::read_dir(&place.rt, path.as_str())? {
        let entry = entry?;
        if is_kept_name(entry.file_name()) {
            let found = entry.metadata()?;
            let name = String::from_str(alloc, entry.file_name())?;
            files.push((found.mtime(), found.mtime_nsec(), name))?;
        }
    }
    files.sort()?;
    Ok(files)
}

// Removes all but the last files that were kept, and never the one of this name.
fn remove_old<R: Files<File = File> + AllocGlobal + Clone + Drop>(
    place: &Place<R>,
    alloc: Global,
    newest: &str,
) -> io::Result<()> {
    let files = kept_files(place, alloc)?;
    let count = files.len().saturating_sub(KEPT);
    for (_, _, file) in files.iter().take(count) {
        let name = format!(in alloc; "{FOLDER}/{file}")?;
        if name.as_str() != newest {
            fs::remove_file(&place.rt, place.path(name.as_str())?.as_str())?;
        }
    }
    Ok(())
}

/// Keeps bytes that are about to go. After Ok a crash leaves them in the file of the name that is answered.
pub(crate) fn keep_rest<R: Files<File = File> + AllocGlobal + Clone + Drop>(
    place: &mut Place<R>,
    alloc: Global,
    rest: &Rest,
) -> io::Result<String> {
    make_cut_folder(place)?;
    let (name, is_kept) = find_name(place, alloc, rest)?;
    if !is_kept {
        write_new(place, alloc, name.as_str(), rest)?;
    }
    let path = place.path(FOLDER)?;
    let answer = sync_folder(&place.rt, path.as_str());
    place.told(FOLDER, answer)?;
    // One more than eight is no reason not to open.
    let _ = remove_old(place, alloc, name.as_str());
    Ok(name)
}

/// How many whole records are among these bytes. None where there is no memory for them, or they can't be read.
pub(crate) fn count_records(alloc: Global, rest: &Rest) -> Option<u64> {
    let len = usize::try_from(rest.to.saturating_sub(rest.from)).ok()?;
    let mut bytes = vec![in alloc; 0; len].ok()?;
    let n = read_up_to(rest.file, rest.from, bytes.as_mut_slice()).ok()?;
    Some(whole_records(&bytes[..n], rest.base.saturating_add(rest.from)))
}
