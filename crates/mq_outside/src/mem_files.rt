//! The files of the disk in memory: one buffer with name and bytes of each file, one behind the other, in byte order of
//! the names. Its memory is taken at the start.

ghost use Rattle.std.specs.Prelude.{◌≡◌, ◌+◌, ◌-◌, ◌≤◌, ◌<◌, ◌⊎◌, ◌∷◌, ◌++◌, [], ℕ, List, length, true, false, IsTrue, ◌↔◌, take};
ghost use Rattle.std.specs.Prelude.{map, Some, None, OnOk, OnErr, IfOk, MatchOption, IsOk, IsErr, vec_capacity, string_bytes};
ghost use Rattle.std.specs.Option.{option_map, option_copied};
ghost use Rattle.std.specs.Str.{is_utf8};
ghost use Rattle.mq_outside.specs.Files.{Lists, bytes_of, overwritten};
ghost use Rattle.mq_outside.specs.Calls.{put_file};
ghost use Rattle.mq_outside.specs.Named.{content, names_of, IsAscending, ascending-IsProp, AreTexts, texts-IsProp};
ghost use Rattle.mq_outside.specs.MemFiles.{total, files_in, IsPlace};

use crate::mem_buffer::{delete_bytes, insert_bytes, replace_bytes};
use std::alloc::{AllocError, Global};
use std::cmp::Ordering;

/// How many bytes of the buffer are a file's name, and how many behind it are its bytes.
#[derive(Clone, Copy)]
pub struct Extent {
    pub name: usize,
    pub size: usize,
}

/// Where a file stands among the others and where its name starts in the buffer, or where it would stand.
#[derive(Clone, Copy)]
pub struct Place {
    pub index: usize,
    pub start: usize,
    pub found: bool,
}

/// There is no room for the file or its bytes.
#[derive(Clone, Copy)]
pub struct Full;

// A text of these bytes.
fn text_of(alloc: Global, bytes: &[u8]) -> Result<String, AllocError>
    requires { is_utf8 bytes.now ≡ true }
    ensures { IfOk result (λ text. string_bytes text ≡ bytes.now) }
{
    match std::str::from_utf8(bytes) {
        Ok(text) => String::from_str(alloc, text),
        Err(_) => unreachable!(),
    }
}

// The names of the files, in their order.
fn list_names(alloc: Global, extents: &[Extent], buffer: &[u8]) -> Result<Vec<String>, AllocError>
    requires filled { total extents.now ≡ length buffer.now }
    requires texts { AreTexts (names_of (files_in extents.now buffer.now)) }
    ensures { IfOk result (λ names. map (λ name. string_bytes name) names.items ≡ names_of (files_in extents.now buffer.now)) }
{
    let mut names = Vec::with_capacity(alloc, extents.len())?;
    let mut start = 0;
    for i in 0..extents.len() {
        let extent = extents[i];
        let name = text_of(alloc, &buffer[start..start + extent.name])?;
        names.push(name)?;
        start += extent.name + extent.size;
    }
    Ok(names)
}

/// Files in memory, up to a number of files and of bytes of names and files.
#[derive(Drop)]
pub struct MemFiles {
    extents: Vec<Extent>,
    buffer: Vec<u8>,
    most_files: usize,
    most_bytes: usize,
    ghost filled: { total extents.items ≡ length buffer.items },
    ghost ordered: { IsAscending (names_of (files_in extents.items buffer.items)) } by { ascending-IsProp (names_of (files_in extents.items buffer.items)) },
    ghost texts: { AreTexts (names_of (files_in extents.items buffer.items)) } by { texts-IsProp (names_of (files_in extents.items buffer.items)) },
    ghost files_within: { length extents.items ≤ most_files },
    ghost bytes_within: { length buffer.items ≤ most_bytes },
    ghost files_reserved: { most_files ≤ vec_capacity extents },
    ghost bytes_reserved: { most_bytes ≤ vec_capacity buffer },
}

// That so many bytes and the two pieces are no more than the most.
pub fn is_within(used: usize, first: usize, second: usize, most: usize) -> bool
    ensures { IsTrue result ↔ (used + first + second ≤ most) }
{
    used <= most && first <= most - used && second <= most - used - first
}

// Looks a file up.
pub fn find(extents: &[Extent], buffer: &[u8], name: &[u8]) -> Place
    requires filled { total extents.now ≡ length buffer.now }
    requires ordered { IsAscending (names_of (files_in extents.now buffer.now)) }
    ensures { IsPlace extents.now buffer.now name.now result }
{
    let mut start = 0;
    for i in 0..extents.len() {
        let extent = extents[i];
        let held = &buffer[start..start + extent.name];
        match held.cmp(&name) {
            Ordering::Less => {}
            Ordering::Equal => {
                return Place {
                    index: i,
                    start,
                    found: true,
                };
            }
            Ordering::Greater => {
                return Place {
                    index: i,
                    start,
                    found: false,
                };
            }
        }
        start += extent.name + extent.size;
    }
    Place {
        index: extents.len(),
        start,
        found: false,
    }
}

impl MemFiles {
    ghost use Rattle.mq_outside.specs.MemDisk.{files_of, more_files, more_bytes, HasRoomToAdd, Grows};

    /// No files, with room for so many files and bytes.
    pub fn new(alloc: Global, most_files: usize, most_bytes: usize) -> Result<MemFiles, AllocError>
        ensures empty { IfOk result (λ files. files_of files ≡ []) }
        ensures files { IfOk result (λ files. files.most_files ≡ most_files) }
        ensures bytes { IfOk result (λ files. files.most_bytes ≡ most_bytes) }
    {
        let extents = Vec::with_capacity(alloc, most_files)?;
        let buffer = Vec::with_capacity(alloc, most_bytes)?;
        Ok(MemFiles {
            extents,
            buffer,
            most_files,
            most_bytes,
        })
    }

    // Where a file stands, or would stand.
    fn place_of(&self, name: &[u8]) -> Place
        ensures { IsPlace self.now.extents.items self.now.buffer.items name.now result }
    {
        find(&self.extents, &self.buffer, name)
    }

    // The bytes of a file that is there.
    fn bytes_at(&self, place: Place, name: &[u8]) -> &[u8]
        requires place { IsPlace self.now.extents.items self.now.buffer.items name.now place }
        requires found { place.found ≡ true }
        ensures { Some result.now ≡ content (files_of self.now) name.now }
    {
        let extent = self.extents[place.index];
        let start = place.start + extent.name;
        &self.buffer[start..start + extent.size]
    }

    // Writes into a file that is there.
    fn write_over(&mut self, place: Place, name: &[u8], at: usize, piece: &[u8]) -> Result<(), Full>
        requires place { IsPlace self.old.extents.items self.old.buffer.items name.now place }
        requires found { place.found ≡ true }
        requires within { at ≤ length (bytes_of (content (files_of self.old)) name.now) }
        ensures written { OnOk result ((other : List ℕ) → content (files_of self.new) other
            ≡ put_file name.now (Some (overwritten at piece.now (bytes_of (content (files_of self.old)) name.now)))
            (content (files_of self.old)) other) }
        ensures full { OnErr result (self.new ≡ self.old) }
        ensures fits { OnOk result (HasRoomToAdd self.old (more_files (content (files_of self.old) name.now))
            (more_bytes name.now at piece.now (content (files_of self.old) name.now))) }
        ensures refused { OnErr result (¬ HasRoomToAdd self.old (more_files (content (files_of self.old) name.now))
            (more_bytes name.now at piece.now (content (files_of self.old) name.now))) }
        ensures grows { Grows self.old self.new (more_files (content (files_of self.old) name.now))
            (more_bytes name.now at piece.now (content (files_of self.old) name.now)) }
    {
        let extent = self.extents[place.index];
        let count = piece.len().min(extent.size - at);
        let more = piece.len() - count;
        if more > self.most_bytes - self.buffer.len() {
            return Err(Full);
        }
        replace_bytes(
            &mut self.buffer,
            place.start + extent.name + at,
            count,
            piece,
        );
        self.extents[place.index] = Extent {
            name: extent.name,
            size: extent.size + more,
        };
        Ok(())
    }
    // Puts in a file that isn't there.
    fn add(&mut self, place: Place, name: &str, piece: &[u8]) -> Result<(), Full>
        requires place { IsPlace self.old.extents.items self.old.buffer.items name.now place }
        requires absent { place.found ≡ false }
        ensures added { OnOk result ((other : List ℕ) → content (files_of self.new) other
            ≡ put_file name.now (Some piece.now) (content (files_of self.old)) other) }
        ensures full { OnErr result (self.new ≡ self.old) }
        ensures fits { OnOk result (HasRoomToAdd self.old 1 (length name.now + length piece.now)) }
        ensures refused { OnErr result (¬ HasRoomToAdd self.old 1 (length name.now + length piece.now)) }
        ensures grows { Grows self.old self.new 1 (length name.now + length piece.now) }
    {
        if self.extents.len() >= self.most_files
            || !is_within(self.buffer.len(), name.len(), piece.len(), self.most_bytes)
        {
            return Err(Full);
        }
        insert_bytes(&mut self.buffer, place.start, piece);
        insert_bytes(&mut self.buffer, place.start, name.as_bytes());
        let extent = Extent {
            name: name.len(),
            size: piece.len(),
        };
        if self.extents.insert(place.index, extent).is_err() {
            unreachable!();
        }
        Ok(())
    }

    /// Writes over what is there and past the end, and makes the file where it is absent.
    pub fn write(&mut self, name: &str, at: usize, piece: &[u8]) -> Result<(), Full>
        requires { at ≤ length (bytes_of (content (files_of self.old)) name.now) }
        ensures written { OnOk result ((other : List ℕ) → content (files_of self.new) other
            ≡ put_file name.now (Some (overwritten at piece.now (bytes_of (content (files_of self.old)) name.now)))
            (content (files_of self.old)) other) }
        ensures full { OnErr result (self.new ≡ self.old) }
        ensures fits { OnOk result (HasRoomToAdd self.old (more_files (content (files_of self.old) name.now))
            (more_bytes name.now at piece.now (content (files_of self.old) name.now))) }
        ensures refused { OnErr result (¬ HasRoomToAdd self.old (more_files (content (files_of self.old) name.now))
            (more_bytes name.now at piece.now (content (files_of self.old) name.now))) }
        ensures grows { Grows self.old self.new (more_files (content (files_of self.old) name.now))
            (more_bytes name.now at piece.now (content (files_of self.old) name.now)) }
    {
        let place = self.place_of(name.as_bytes());
        if place.found {
            return self.write_over(place, name.as_bytes(), at, piece);
        }
        self.add(place, name, piece)?;
        Ok(())
    }

    /// Cuts a file to a length. An absent file stays absent.
    pub fn cut(&mut self, name: &[u8], len: usize)
        ensures cut { (other : List ℕ) → content (files_of self.new) other
            ≡ put_file name.now (option_map (λ bytes. take len bytes) (content (files_of self.old) name.now)) (content (files_of self.old))
            other }
        ensures grows { Grows self.old self.new 0 0 }
    {
        let place = self.place_of(name);
        if place.found {
            self.cut_at(place, name, len);
        }
    }

    // Cuts a file that is there.
    fn cut_at(&mut self, place: Place, name: &[u8], len: usize)
        requires place { IsPlace self.old.extents.items self.old.buffer.items name.now place }
        requires found { place.found ≡ true }
        ensures cut { (other : List ℕ) → content (files_of self.new) other
            ≡ put_file name.now (option_map (λ bytes. take len bytes) (content (files_of self.old) name.now)) (content (files_of self.old))
            other }
        ensures grows { Grows self.old self.new 0 0 }
    {
        let extent = self.extents[place.index];
        let size = len.min(extent.size);
        delete_bytes(
            &mut self.buffer,
            place.start + extent.name + size,
            extent.size - size,
        );
        self.extents[place.index] = Extent {
            name: extent.name,
            size,
        };
    }

    /// Takes a file out. An absent file stays absent.
    pub fn remove(&mut self, name: &[u8])
        ensures gone { (other : List ℕ) → content (files_of self.new) other ≡ put_file name.now None (content (files_of self.old)) other }
        ensures grows { Grows self.old self.new 0 0 }
    {
        let place = self.place_of(name);
        if place.found {
            self.remove_at(place, name);
        }
    }

    // Takes out a file that is there.
    fn remove_at(&mut self, place: Place, name: &[u8])
        requires place { IsPlace self.old.extents.items self.old.buffer.items name.now place }
        requires found { place.found ≡ true }
        ensures gone { (other : List ℕ) → content (files_of self.new) other ≡ put_file name.now None (content (files_of self.old)) other }
        ensures grows { Grows self.old self.new 0 0 }
    {
        let extent = self.extents[place.index];
        delete_bytes(&mut self.buffer, place.start, extent.name + extent.size);
        let _ = self.extents.remove(place.index);
    }

    /// The bytes of a file, `None` where it is absent.
    pub fn bytes(&self, name: &[u8]) -> Option<&[u8]>
        ensures { option_copied result ≡ content (files_of self.now) name.now }
    {
        let place = self.place_of(name);
        if place.found {
            Some(self.bytes_at(place, name))
        } else {
            None
        }
    }

    /// The names of the files, in byte order.
    pub fn names(&self, alloc: Global) -> Result<Vec<String>, AllocError>
        ensures { IfOk result (λ names. Lists (content (files_of self.now)) (map (λ name. string_bytes name) names.items)) }
    {
        let names = list_names(alloc, &self.extents, &self.buffer)?;
        Ok(names)
    }
}
