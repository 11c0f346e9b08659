//! A disk in memory. It keeps a list of the calls that it has done, so it tells what a crash at each moment may leave.
//! All its memory is taken at the start: a call for which there is no room fails like one that is listed to fail.

ghost use Rattle.std.specs.Prelude.{◌≡◌, ◌≢◌, ◌↔◌, ◌⊎◌, ◌+◌, ◌-◌, ◌≤◌, [], ℕ, List, length, take, drop, map, min};
ghost use Rattle.std.specs.Prelude.{reverse, ◌∷◌, ◌++◌, Some, None, IsSome, IfOk, IsErr, OnOk, OnErr, MatchResult, string_bytes};
ghost use Rattle.std.specs.List.{AllPairs};
ghost use Rattle.std.specs.Option.{option_copied};
ghost use Rattle.std.proofs.Props.{props};
ghost use Rattle.mq_outside.specs.Counts.{Counted, CountsFailure, CountsDiskFault, Rises};
ghost use Rattle.mq_outside.specs.Files.{Files, Same, At, Torn, Shortened, Vanished, Lists, bytes_in, bytes_of, overwritten};
ghost use Rattle.mq_outside.specs.Disk.{EachImage, IsCrashImage, IsDurable, Moves, Freshens, IsFreshDurable};
ghost use Rattle.mq_outside.specs.Pieces.{HasPiece, IsStored, stored_piece};
ghost use Rattle.mq_outside.specs.Calls.{Event, reads_after, state_reads_image};
ghost use Rattle.mq_outside.specs.Named.{content, size_of};
ghost use Rattle.mq_outside.specs.MemDisk.{files_of, events_of, given_files};

use crate::disk::Disk;
use crate::fails::Fails;
use crate::faults::{DiskFault, Failed};
use crate::frozen::Frozen;
use crate::mem_calls::{Kind, MemCalls};
use crate::mem_files::MemFiles;
use crate::mem_reader::MemReader;
use bytes::Bytes;
use mq_bytes::LogFile;
use std::alloc::{AllocError, Global};

/// For how much a disk in memory has room.
#[derive(Clone, Copy, Debug, PartialEq, Eq)]
pub struct Room {
    /// How many bytes its files may have with their names, and how many names and pieces of its calls may have.
    pub bytes: u64,
    /// How many files it may have.
    pub files: u32,
    /// How many writes, cuts, syncs and removals it may do.
    pub calls: u64,
}

/// A disk in memory.
#[derive(Drop)]
pub struct MemDisk {
    // What it began with, all synced.
    base: Vec<(String, Vec<u8>)>,
    files: MemFiles,
    calls: MemCalls,
    fails: Fails,
    faults: u64,
    syncs: u64,
    given: u64,
    reader_faults: u64,
    ghost replayed: { (name : List ℕ) → content (files_of files) name
        ≡ reads_after (content (given_files base.items)) (reverse (events_of calls)) name } by { Prim.hlevel props },
}

// Counts a failure.
fn fail(faults: &mut u64) -> Failed
    ensures { Rises faults.old faults.new }
{
    *faults = faults.saturating_add(1);
    Failed
}

// Puts these files onto a disk that has none.
fn load(held: &mut MemFiles, files: &[(String, Vec<u8>)])
    requires none { files_of held.old ≡ [] }
    requires apart { AllPairs (λ a b. a.name ≢ b.name) (given_files files.now) }
    requires number { length files.now ≤ held.old.most_files }
    requires bytes { size_of (given_files files.now) ≤ held.old.most_bytes }
    ensures files { (name : List ℕ) → content (files_of held.new) name ≡ content (given_files files.now) name }
    ensures most_files { held.new.most_files ≡ held.old.most_files }
    ensures most_bytes { held.new.most_bytes ≡ held.old.most_bytes }
    ensures files_taken { length held.new.extents.items ≤ length (given_files files.now) }
    ensures bytes_taken { length held.new.buffer.items ≤ size_of (given_files files.now) }
{
    for i in 0..files.len() {
        let file = &files[i];
        if held.write(file.0.as_str(), 0, &file.1).is_err() {
            unreachable!();
        }
    }
}

impl MemDisk {
    ghost use Rattle.mq_outside.specs.MemDiskState.{state_of, HasRoom, IsMissed, Fits, Takes, call_amount};
    ghost use Rattle.mq_outside.specs.Listed.{IsListed, after_call};
    ghost use Rattle.mq_outside.specs.MemCalls.{event_of};

    /// A disk with these files, all synced, of which the calls with these numbers are to fail. The first call is number 1.
    pub fn new(
        alloc: Global,
        files: Vec<(String, Vec<u8>)>,
        room: Room,
        fails: Vec<u64>,
    ) -> Result<MemDisk, AllocError>
        requires apart { AllPairs (λ a b. a.name ≢ b.name) (given_files files.items) }
        requires number { length files.items ≤ room.files }
        requires bytes { size_of (given_files files.items) ≤ room.bytes }
        ensures reads { IfOk result (λ disk. (state_of disk).reads ≡ content (given_files files.items)) }
        ensures images { IfOk result (λ disk. (images : Files) → IsCrashImage (state_of disk) images → images ≡ (state_of disk).reads) }
        ensures faults { IfOk result (λ disk. disk.faults ≡ 0) }
        ensures syncs { IfOk result (λ disk. disk.syncs ≡ 0) }
        ensures given { IfOk result (λ disk. disk.given ≡ 0) }
        ensures reader_faults { IfOk result (λ disk. disk.reader_faults ≡ 0) }
        ensures fails { IfOk result (λ disk. (disk.fails.calls ≡ fails) × (disk.fails.asked ≡ 0)) }
        ensures room { IfOk result (λ disk. HasRoom disk room (given_files files.items)) }
    {
        let bytes = room.bytes as usize;
        let mut held = MemFiles::new(alloc, room.files as usize, bytes)?;
        let calls = MemCalls::new(alloc, room.calls as usize, bytes)?;
        load(&mut held, &files);
        Ok(MemDisk {
            base: files,
            files: held,
            calls,
            fails: Fails::new(fails),
            faults: 0,
            syncs: 0,
            given: 0,
            reader_faults: 0,
        })
    }

    /// The bytes of a file, `None` where it is absent. This is no call of the disk.
    pub fn bytes(&self, file: &str) -> Option<&[u8]>
        ensures { option_copied result ≡ (state_of self.now).reads file.now }
    {
        self.files.bytes(file.as_bytes())
    }

    // Notes a sync of this kind, or that it failed. Without room for either it fails, and so does each later one of this file.
    fn note_sync(&mut self, kind: Kind, name: &[u8]) -> Result<(), Failed>
        requires { (base : Files) (earlier : List Event)
            → reads_after base (event_of kind name.now [] ∷ earlier) ≡ reads_after base earlier }
        ensures noted { OnOk result (events_of self.new.calls ≡ events_of self.old.calls ++ event_of kind name.now [] ∷ []) }
        ensures still { OnErr result (IsMissed name.now self.old self.new) }
        ensures moves { OnErr result (Moves Same (state_of self.old) (state_of self.new)) }
        ensures base { self.new.base ≡ self.old.base }
        ensures files { self.new.files ≡ self.old.files }
        ensures cause { CountsFailure result self.old.faults self.new.faults }
        ensures syncs { Counted 1 self.old.syncs self.new.syncs }
        ensures given { self.new.given ≡ self.old.given }
        ensures reader_faults { self.new.reader_faults ≡ self.old.reader_faults }
        ensures listed { IsListed self.old.fails → IsErr result }
        ensures refused { OnErr result (IsListed self.old.fails ⊎ ¬ Fits self.old (call_amount name.now)) }
        ensures fits { OnOk result (Fits self.old (call_amount name.now)) }
        ensures asks { self.new.fails ≡ after_call self.old.fails }
        ensures takes { Takes (call_amount name.now) self.old self.new }
    {
        self.syncs = self.syncs.saturating_add(1);
        let is_listed = self.fails.next();
        if !self.calls.has_room(name, &[]) {
            return Err(fail(&mut self.faults));
        }
        if is_listed {
            self.calls.note(Kind::Miss, name, &[]);
            return Err(fail(&mut self.faults));
        }
        self.calls.note(kind, name, &[]);
        Ok(())
    }
}

impl Disk for MemDisk {
    type Reader = MemReader;

    ghost use Rattle.mq_outside.specs.MemDiskState.{state_of, IsUntouched, IsMissed, Fits, Takes, write_amount, call_amount};
    ghost use Rattle.mq_outside.specs.Listed.{IsListed, after_call};

    ghost tells = { Unit {0} };

    ghost state = { state_of };

    ghost faults = { λ disk. disk.faults };

    ghost syncs = { λ disk. disk.syncs };

    ghost given = { λ disk. disk.given };

    ghost reader_faults = { λ disk. disk.reader_faults };

    ghost reads_is_image = { λ disk _. state_reads_image (content (given_files disk.base.items)) (events_of disk.calls) };

    fn fault_count(&self) -> u64 {
        self.faults
    }

    fn list(&mut self, alloc: Global) -> Result<Vec<String>, DiskFault>
        ensures names { IfOk result (λ names. Lists (state_of self.old).reads (map (λ name. string_bytes name) names.items)) }
        ensures moves { Moves Same (state_of self.old) (state_of self.new) }
        ensures cause { CountsDiskFault result (self.old.faults) (self.new.faults) }
        ensures syncs { self.new.syncs ≡ self.old.syncs }
        ensures given { self.new.given ≡ self.old.given }
        ensures reader_faults { self.new.reader_faults ≡ self.old.reader_faults }

        // It fails where it is listed, and changes nothing.
        ensures listed { IsListed self.old.fails ↔ (result ≡ Err DiskFault.Failed) }
        ensures asks { self.new.fails ≡ after_call self.old.fails }
        ensures still { IsUntouched self.old self.new }
    {
        if self.fails.next() {
            let _ = fail(&mut self.faults);
            return Err(DiskFault::Failed);
        }
        match self.files.names(alloc) {
            Ok(names) => Ok(names),
            Err(_) => Err(DiskFault::Memory),
        }
    }

    fn len(&mut self, file: &str) -> Result<u64, Failed>
        ensures len { IfOk result (λ n. n ≡ length (bytes_of (state_of self.old).reads file.now)) }
        ensures moves { Moves Same (state_of self.old) (state_of self.new) }
        ensures cause { CountsFailure result (self.old.faults) (self.new.faults) }
        ensures syncs { self.new.syncs ≡ self.old.syncs }
        ensures given { self.new.given ≡ self.old.given }
        ensures reader_faults { self.new.reader_faults ≡ self.old.reader_faults }

        // It fails where it is listed, and changes nothing.
        ensures listed { IsListed self.old.fails ↔ IsErr result }
        ensures asks { self.new.fails ≡ after_call self.old.fails }
        ensures still { IsUntouched self.old self.new }
    {
        if self.fails.next() {
            return Err(fail(&mut self.faults));
        }
        Ok(bytes_or_none(self.files.bytes(file.as_bytes())).len() as u64)
    }

    fn read_at(&mut self, file: &str, at: u64, out: &mut [u8]) -> Result<usize, Failed>
        ensures within { IfOk result (λ n. n ≤ length out.old) }
        ensures count { IfOk result (λ n. n ≡ min (length out.old) (length (bytes_of (state_of self.old).reads file.now) - at)) }
        ensures bytes { IfOk result (λ n. take n out.new ≡ take n (drop at (bytes_of (state_of self.old).reads file.now))) }
        ensures moves { Moves Same (state_of self.old) (state_of self.new) }
        ensures cause { CountsFailure result (self.old.faults) (self.new.faults) }
        ensures syncs { self.new.syncs ≡ self.old.syncs }
        ensures given { MatchResult result (λ n. Counted n (self.old.given) (self.new.given)) (λ _. self.new.given ≡ self.old.given) }
        ensures reader_faults { self.new.reader_faults ≡ self.old.reader_faults }

        // It fails where it is listed, and changes nothing.
        ensures listed { IsListed self.old.fails ↔ IsErr result }
        ensures asks { self.new.fails ≡ after_call self.old.fails }
        ensures still { IsUntouched self.old self.new }
    {
        if self.fails.next() {
            return Err(fail(&mut self.faults));
        }
        let _given = self.given;
        let bytes = bytes_or_none(self.files.bytes(file.as_bytes()));
        if at >= bytes.len() as u64 {
            return Ok(0);
        }
        let rest = &bytes[at as usize..];
        let n = rest.len().min(out.len());
        out[..n].copy_from_slice(&rest[..n]);
        self.given = self.given.saturating_add(n as u64);
        Ok(n)
    }

    fn write_at(&mut self, file: &str, at: u64, piece: &[u8]) -> Result<(), Failed>
        requires { at ≤ length (bytes_of (state_of self.old).reads file.now) }
        ensures written { OnOk result ((state_of self.new).reads file.now
            ≡ Some (overwritten at piece.now (bytes_of (state_of self.old).reads file.now))) }
        ensures moves { Moves (At file.now (Torn at (length piece.now))) (state_of self.old) (state_of self.new) }
        ensures fresh { OnOk result (Freshens file.now at (length piece.now) (state_of self.old) (state_of self.new)) }
        ensures cause { CountsFailure result (self.old.faults) (self.new.faults) }
        ensures syncs { self.new.syncs ≡ self.old.syncs }
        ensures given { self.new.given ≡ self.old.given }
        ensures reader_faults { self.new.reader_faults ≡ self.old.reader_faults }

        // It fails where it is listed, or there is no room, and then changes nothing.
        ensures listed { IsListed self.old.fails → IsErr result }
        ensures refused { OnErr result (IsListed self.old.fails ⊎ ¬ Fits self.old (write_amount self.old file.now at piece.now)) }
        ensures fits { OnOk result (Fits self.old (write_amount self.old file.now at piece.now)) }
        ensures asks { self.new.fails ≡ after_call self.old.fails }
        ensures still { OnErr result (IsUntouched self.old self.new) }
        ensures takes { OnOk result (Takes (write_amount self.old file.now at piece.now) self.old self.new) }
    {
        let name = file.as_bytes();
        if self.fails.next()
            || !self.calls.has_room(name, piece)
            || self.files.write(file, at as usize, piece).is_err()
        {
            return Err(fail(&mut self.faults));
        }
        self.calls.note(Kind::Write(at), name, piece);
        Ok(())
    }

    fn cut(&mut self, file: &str, len: u64) -> Result<(), Failed>
        requires { len ≤ length (bytes_of (state_of self.old).reads file.now) }
        ensures cut { OnOk result (bytes_of (state_of self.new).reads file.now ≡ take len (bytes_of (state_of self.old).reads file.now)) }
        ensures moves { Moves (At file.now (Shortened len)) (state_of self.old) (state_of self.new) }
        ensures cause { CountsFailure result (self.old.faults) (self.new.faults) }
        ensures syncs { self.new.syncs ≡ self.old.syncs }
        ensures given { self.new.given ≡ self.old.given }
        ensures reader_faults { self.new.reader_faults ≡ self.old.reader_faults }

        // It fails where it is listed, or there is no room, and then changes nothing.
        ensures listed { IsListed self.old.fails → IsErr result }
        ensures refused { OnErr result (IsListed self.old.fails ⊎ ¬ Fits self.old (call_amount file.now)) }
        ensures fits { OnOk result (Fits self.old (call_amount file.now)) }
        ensures asks { self.new.fails ≡ after_call self.old.fails }
        ensures still { OnErr result (IsUntouched self.old self.new) }
        ensures takes { OnOk result (Takes (call_amount file.now) self.old self.new) }
    {
        let name = file.as_bytes();
        if self.fails.next() || !self.calls.has_room(name, &[]) {
            return Err(fail(&mut self.faults));
        }
        self.files.cut(name, len as usize);
        self.calls.note(Kind::Cut(len), name, &[]);
        Ok(())
    }

    fn sync(&mut self, file: &str) -> Result<(), Failed>
        ensures durable { OnOk result (IsFreshDurable file.now (state_of self.old) (state_of self.new)) }
        ensures moves { Moves Same (state_of self.old) (state_of self.new) }
        ensures cause { CountsFailure result (self.old.faults) (self.new.faults) }
        ensures syncs { Counted 1 (self.old.syncs) (self.new.syncs) }
        ensures given { self.new.given ≡ self.old.given }
        ensures reader_faults { self.new.reader_faults ≡ self.old.reader_faults }

        // It fails where it is listed, or there is no room. One that was listed is noted as failed.
        ensures listed { IsListed self.old.fails → IsErr result }
        ensures refused { OnErr result (IsListed self.old.fails ⊎ ¬ Fits self.old (call_amount file.now)) }
        ensures fits { OnOk result (Fits self.old (call_amount file.now)) }
        ensures asks { self.new.fails ≡ after_call self.old.fails }
        ensures still { OnErr result (IsMissed file.now self.old self.new) }
        ensures noted { OnOk result (events_of self.new.calls ≡ events_of self.old.calls ++ Event.Synced file.now ∷ []) }
        ensures takes { Takes (call_amount file.now) self.old self.new }
    {
        self.note_sync(Kind::Sync, file.as_bytes())
    }

    fn renew(&mut self, file: &str) -> Result<(), Failed>
        ensures durable { OnOk result (IsDurable file.now (state_of self.new)) }
        ensures moves { Moves Same (state_of self.old) (state_of self.new) }
        ensures cause { CountsFailure result (self.old.faults) (self.new.faults) }
        ensures syncs { Counted 1 (self.old.syncs) (self.new.syncs) }
        ensures given { self.new.given ≡ self.old.given }
        ensures reader_faults { self.new.reader_faults ≡ self.old.reader_faults }

        // It fails where it is listed, or there is no room. One that was listed is noted as failed.
        ensures listed { IsListed self.old.fails → IsErr result }
        ensures refused { OnErr result (IsListed self.old.fails ⊎ ¬ Fits self.old (call_amount file.now)) }
        ensures fits { OnOk result (Fits self.old (call_amount file.now)) }
        ensures asks { self.new.fails ≡ after_call self.old.fails }
        ensures still { OnErr result (IsMissed file.now self.old self.new) }
        ensures noted { OnOk result (events_of self.new.calls ≡ events_of self.old.calls ++ Event.Renewed file.now ∷ []) }
        ensures takes { Takes (call_amount file.now) self.old self.new }
    {
        self.note_sync(Kind::Renew, file.as_bytes())
    }

    fn sync_ended(&mut self, file: &str, next: &str) -> Result<(), Failed>
        requires apart { file.now ≢ next.now }
        requires made { IsSome ((state_of self.old).reads next.now) }
        ensures durable { OnOk result (IsDurable file.now (state_of self.new)) }
        ensures moves { Moves Same (state_of self.old) (state_of self.new) }
        ensures cause { CountsFailure result (self.old.faults) (self.new.faults) }
        ensures syncs { Counted 1 (self.old.syncs) (self.new.syncs) }
        ensures given { self.new.given ≡ self.old.given }
        ensures reader_faults { self.new.reader_faults ≡ self.old.reader_faults }

        // It fails where it is listed, or there is no room. One that was listed is noted as failed.
        ensures listed { IsListed self.old.fails → IsErr result }
        ensures refused { OnErr result (IsListed self.old.fails ⊎ ¬ Fits self.old (call_amount file.now)) }
        ensures fits { OnOk result (Fits self.old (call_amount file.now)) }
        ensures asks { self.new.fails ≡ after_call self.old.fails }
        ensures still { OnErr result (IsMissed file.now self.old self.new) }
        ensures noted { OnOk result (events_of self.new.calls ≡ events_of self.old.calls ++ Event.Renewed file.now ∷ []) }
        ensures takes { Takes (call_amount file.now) self.old self.new }
    {
        self.note_sync(Kind::Renew, file.as_bytes())
    }

    fn remove(&mut self, file: &str) -> Result<(), Failed>
        ensures gone { OnOk result ((state_of self.new).reads file.now ≡ None) }
        ensures durable { OnOk result (IsDurable file.now (state_of self.new)) }
        ensures moves { Moves (At file.now Vanished) (state_of self.old) (state_of self.new) }
        ensures cause { CountsFailure result (self.old.faults) (self.new.faults) }
        ensures syncs { self.new.syncs ≡ self.old.syncs }
        ensures given { self.new.given ≡ self.old.given }
        ensures reader_faults { self.new.reader_faults ≡ self.old.reader_faults }

        // It fails where it is listed, or there is no room, and then changes nothing.
        ensures listed { IsListed self.old.fails → IsErr result }
        ensures refused { OnErr result (IsListed self.old.fails ⊎ ¬ Fits self.old (call_amount file.now)) }
        ensures fits { OnOk result (Fits self.old (call_amount file.now)) }
        ensures asks { self.new.fails ≡ after_call self.old.fails }
        ensures still { OnErr result (IsUntouched self.old self.new) }
        ensures takes { OnOk result (Takes (call_amount file.now) self.old self.new) }
    {
        let name = file.as_bytes();
        if self.fails.next() || !self.calls.has_room(name, &[]) {
            return Err(fail(&mut self.faults));
        }
        self.files.remove(name);
        self.calls.note(Kind::Remove, name, &[]);
        Ok(())
    }

    fn freeze(&mut self, base: u64, from: u64, bytes: Bytes) -> Frozen
        requires { EachImage (HasPiece base from bytes) (state_of self.old) }
        ensures range { (result.base ≡ base) × (result.from ≡ from) × (result.len ≡ length bytes) }
        ensures held { result.held ≡ Some bytes }
        ensures moves { Moves Same (state_of self.old) (state_of self.new) }
        ensures faults { self.new.faults ≡ self.old.faults }
        ensures syncs { self.new.syncs ≡ self.old.syncs }
        ensures given { self.new.given ≡ self.old.given }
        ensures reader_faults { self.new.reader_faults ≡ self.old.reader_faults }

        // It is no call that may be listed, and changes nothing.
        ensures asks { self.new.fails ≡ self.old.fails }
        ensures still { IsUntouched self.old self.new }
    {
        Frozen {
            base,
            from,
            len: bytes.len() as u64,
            held: Some(bytes),
        }
    }

    fn freeze_stored(
        &mut self,
        alloc: Global,
        base: u64,
        from: u64,
        to: u64,
    ) -> Result<Frozen, DiskFault>
        requires ordered { from ≤ to }
        requires stored { IsStored base from to (state_of self.old) }
        ensures range { IfOk result (λ piece. (piece.base ≡ base) × (piece.from ≡ from) × (piece.len ≡ to - from)) }
        ensures held { IfOk result (λ piece. piece.held ≡ Some (stored_piece base from to (state_of self.old))) }
        ensures moves { Moves Same (state_of self.old) (state_of self.new) }
        ensures cause { CountsDiskFault result self.old.faults self.new.faults }
        ensures syncs { self.new.syncs ≡ self.old.syncs }
        ensures given { self.new.given ≡ self.old.given }
        ensures reader_faults { self.new.reader_faults ≡ self.old.reader_faults }

        // It fails where it is listed, and changes nothing.
        ensures listed { IsListed self.old.fails ↔ (result ≡ Err DiskFault.Failed) }
        ensures asks { self.new.fails ≡ after_call self.old.fails }
        ensures still { IsUntouched self.old self.new }
    {
        if self.fails.next() {
            let _ = fail(&mut self.faults);
            return Err(DiskFault::Failed);
        }
        let file = LogFile::of(base);
        let bytes = bytes_or_none(self.files.bytes(file.as_str().as_bytes()));
        match Bytes::copy_from_slice(alloc, &bytes[from as usize..to as usize]) {
            Ok(held) => Ok(Frozen {
                base,
                from,
                len: to - from,
                held: Some(held),
            }),
            Err(_) => Err(DiskFault::Memory),
        }
    }

    fn reader(&mut self, alloc: Global) -> Result<MemReader, DiskFault>
        ensures fresh { IfOk result (λ reader. (reader.faults ≡ 0) × (reader.reads ≡ 0)) }
        ensures moves { Moves Same (state_of self.old) (state_of self.new) }
        ensures cause { CountsDiskFault result self.old.faults self.new.faults }
        ensures syncs { self.new.syncs ≡ self.old.syncs }
        ensures given { self.new.given ≡ self.old.given }
        ensures reader_faults { self.new.reader_faults ≡ self.old.reader_faults }

        // It fails where it is listed, and its reader nowhere. It changes nothing.
        ensures listed { IsListed self.old.fails ↔ (result ≡ Err DiskFault.Failed) }
        ensures asks { self.new.fails ≡ after_call self.old.fails }
        ensures still { IsUntouched self.old self.new }
        ensures never_fails { IfOk result (λ reader. reader.fails.calls.items ≡ []) }
    {
        if self.fails.next() {
            let _ = fail(&mut self.faults);
            return Err(DiskFault::Failed);
        }
        match MemReader::new(Vec::new(alloc)) {
            Ok(reader) => Ok(reader),
            Err(_) => Err(DiskFault::Memory),
        }
    }

    fn take_back(&mut self, reader: MemReader)
        ensures moves { Moves Same (state_of self.old) (state_of self.new) }
        ensures faults { self.new.faults ≡ self.old.faults }
        ensures syncs { self.new.syncs ≡ self.old.syncs }
        ensures given { self.new.given ≡ self.old.given }
        ensures reader_faults { Counted reader.faults self.old.reader_faults self.new.reader_faults }

        // It is no call that may be listed, and changes nothing.
        ensures asks { self.new.fails ≡ self.old.fails }
        ensures still { IsUntouched self.old self.new }
    {
        self.reader_faults = self.reader_faults.saturating_add(reader.faults);
    }
}

// No bytes where there is no file.
fn bytes_or_none(bytes: Option<&[u8]>) -> &[u8]
    ensures { result.now ≡ bytes_in (option_copied bytes.entry) }
{
    match bytes {
        Some(bytes) => bytes,
        None => &[],
    }
}
