//! Reads the records of one file after another, as long as each follows those before it.

ghost use Rattle.std.specs.Prelude.{◌≡◌, ◌⊎◌, ◌+◌, ◌*◌, ◌/◌, ◌^◌, ◌<◌, ◌≤◌, [], ◌++◌, List, ℕ, Option};
ghost use Rattle.std.specs.Prelude.{true, false, take, length, IfOk, OnOk};
ghost use Rattle.mq_outside.specs.Files.{Files, bytes_of};
ghost use Rattle.mq_bytes.specs.Names.{log_file};
ghost use Rattle.record_codec.specs.Blanks.{blank_front};
ghost use Rattle.record_codec.specs.Entry.{Entry};
ghost use Rattle.log_model.specs.Bases.{Base as Begun, geometry};
ghost use Rattle.log_model.specs.Told.{base_of};
ghost use Rattle.log_model.specs.Log.{IsSegmentSize, IsGeometry};
ghost use Rattle.log_model.specs.Segments.{layouts, segment_file, next_segment};
ghost use Rattle.log_model.specs.Store.{ComesNext, EndsInBlank, IsDamagedAt};
ghost use Rattle.log_recovery.specs.Reads.{OnlyReads};
ghost use Rattle.log_recovery.specs.Recovered.{Handed, OnDamage};
ghost use Rattle.log_recovery.specs.Visits.{WasHanded, GoesOn, IsGiven, OnStop};
ghost use Rattle.log_recovery.specs.Scan.{Shows, StandsIn, Reading, Onward, Stood, StepsTo, Stops, ScansTo, Opened, HandsOn, ReadLog};
ghost use Rattle.log_recovery.specs.Names.{AreNamed, NoFurther};

use crate::fault::RecoverFault;
use crate::load::load;
use crate::names::order_of;
use crate::tail::LogTail;
use crate::visitor::Visit;
use crate::window::Window;
use log_model::Base;
use mq_bytes::{LogFile, Text};
use mq_outside::Disk;
use record_codec::{test, test_blank};
use std::alloc::{AllocError, Global};

/// What was read so far.
#[derive(Drop)]
pub(crate) struct Scan {
    pub(crate) tail: LogTail,
    pub(crate) window: Window,
}

// Reads the record at this place of the file, and hands it on. Answers its size, or 0 where no record follows there.
fn step<D: Disk, V: Visit>(
    disk: &mut D,
    segment: u32,
    base: u64,
    name: &str,
    scan: &mut Scan,
    each: &mut V,
    at: u64,
) -> Result<u32, RecoverFault>
    requires size { IsSegmentSize segment }
    requires base { base ≤ 2 ^ 63 }
    requires named { name.now ≡ log_file base }
    requires from { scan.old.window.from ≤ at }
    requires low { at ≤ 2 ^ 62 }
    ensures small { IfOk result (λ n. n < 2 ^ 32) }
    ensures from { OnOk result (scan.new.window.from ≤ at) }
    ensures shows { D.tells → (bytes : List ℕ) → bytes_of (D.state disk.old).reads (log_file base) ≡ bytes → Shows scan.old.window bytes
        → OnOk result (Shows scan.new.window bytes) }
    ensures next { D.tells → (begun : Begun) (since : Option V) (files : Files) (read : Reading)
        → (D.state disk.old).reads ≡ files → Shows scan.old.window (bytes_of files (log_file base))
        → Stood (geometry segment begun) files read scan.old.tail base at
        → IfOk result (λ n. StepsTo (geometry segment begun) files read scan.new.tail
        (Onward (WasHanded V.Visit begun since each.old) (WasHanded V.Visit begun since each.new) read.records) n
        ⊎ Stops (geometry segment begun) files read scan.new.tail
        (Onward (WasHanded V.Visit begun since each.old) (WasHanded V.Visit begun since each.new) read.records) n) }
    ensures damage { OnDamage result (λ place name. ⊥) }
    ensures handed { (begun : Begun) (since : Option V)
        → HandsOn (geometry segment begun) scan.old.tail (WasHanded V.Visit begun since each.old)
        → OnOk result (HandsOn (geometry segment begun) scan.new.tail (WasHanded V.Visit begun since each.new)) }
    ensures stopped { (begun : Begun) (first : V) → HandsOn (geometry segment begun) scan.old.tail (GoesOn V.Visit first each.old)
        → OnStop result (IsGiven (geometry segment begun) (GoesOn V.Visit first each.new)) (V.fails first each.new) }
    ensures only_reads { OnlyReads D.Disk result disk.old disk.new }
{
    load(&mut scan.window, disk, name, at, segment)?;
    let Some(view) = test(scan.window.front(at)) else {
        return Ok(0);
    };
    if view.offset() != base + at {
        return Ok(0);
    }
    if !scan.tail.is_next(&view) {
        return Ok(0);
    }
    each.record(&view)?;
    scan.tail.add(&view)?;
    Ok(view.size())
}

// Reads the records of the file that begins at this base. Answers where they end in it.
fn scan_file<D: Disk, V: Visit>(
    disk: &mut D,
    segment: u32,
    base: u64,
    scan: &mut Scan,
    each: &mut V,
) -> Result<u64, RecoverFault>
    requires size { IsSegmentSize segment }
    requires base { base ≤ 2 ^ 63 }
    ensures low { IfOk result (λ at. at ≤ 2 ^ 62) }
    ensures scanned { D.tells → (begun : Begun) (since : Option V) (files : Files) (read : Reading) → (D.state disk.old).reads ≡ files
        → Stood (geometry segment begun) files read scan.old.tail base 0
        → IfOk result (ScansTo (geometry segment begun) files scan.new.tail base
        (Onward (WasHanded V.Visit begun since each.old) (WasHanded V.Visit begun since each.new) read.records)) }
    ensures damage { OnDamage result (λ place name. ⊥) }
    ensures handed { (begun : Begun) (since : Option V)
        → HandsOn (geometry segment begun) scan.old.tail (WasHanded V.Visit begun since each.old)
        → OnOk result (HandsOn (geometry segment begun) scan.new.tail (WasHanded V.Visit begun since each.new)) }
    ensures stopped { (begun : Begun) (first : V) → HandsOn (geometry segment begun) scan.old.tail (GoesOn V.Visit first each.old)
        → OnStop result (IsGiven (geometry segment begun) (GoesOn V.Visit first each.new)) (V.fails first each.new) }
    ensures only_reads { OnlyReads D.Disk result disk.old disk.new }
{
    let file = LogFile::of(base);
    let name = file.as_str();
    scan.window.clear();
    let mut at = 0;
    for _i in 0..segment {
        let size = step(disk, segment, base, name, scan, each, at)?;
        if size == 0 {
            return Ok(at);
        }
        at += u64::from(size);
    }
    Ok(at)
}

// Whether a blank of this size stands in front.
fn is_blank(front: &[u8], size: u64) -> bool
    requires { size < 2 ^ 32 }
    ensures is { result ≡ true → (rest : List ℕ) × (front.now ≡ blank_front size ++ rest) }
    ensures not { result ≡ false → (rest : List ℕ) → front.now ≡ blank_front size ++ rest → ⊥ }
{
    match test_blank(front) {
        Some(found) => u64::from(found) == size,
        None => false,
    }
}

// Whether a blank stands at this place of the file and ends it where the segment ends.
fn ends_in_blank<D: Disk>(
    disk: &mut D,
    segment: u32,
    base: u64,
    at: u64,
) -> Result<bool, RecoverFault>
    ensures ended { D.tells → (begun : Begun) (bytes : List ℕ) (records : List Entry)
        → bytes_of (D.state disk.old).reads (log_file base) ≡ bytes → at ≡ length (layouts records) → at + 8 ≤ segment
        → take at bytes ≡ layouts records → IfOk result (λ is. (is ≡ true → EndsInBlank (geometry segment begun) records bytes)
        × (is ≡ false → EndsInBlank (geometry segment begun) records bytes → ⊥)) }
    ensures damage { OnDamage result (λ place name. ⊥) }
    ensures only_reads { OnlyReads D.Disk result disk.old disk.new }
{
    let file = LogFile::of(base);
    let name = file.as_str();
    let long = disk.len(name)?;
    if long != u64::from(segment) || long < at {
        return Ok(false);
    }
    let mut front = [0; 8];
    let n = disk.read_at(name, at, &mut front)?;
    Ok(is_blank(&front[..n], long - at))
}

// Tells damage at this place.
fn damaged(alloc: Global, place: u64, name: &str) -> Result<RecoverFault, AllocError>
    ensures { IfOk result (λ fault. fault ≡ RecoverFault.Damaged place name.now) }
{
    Ok(RecoverFault::Damaged(place, Text::of(String::from_str(alloc, name)?)))
}

// Reads the file of this segment, behind which another file stands: its records, and the blank that ends it.
fn read_ended<D: Disk, V: Visit>(
    alloc: Global,
    disk: &mut D,
    segment: u32,
    base: u64,
    scan: &mut Scan,
    each: &mut V,
) -> Result<(), RecoverFault>
    requires size { IsSegmentSize segment }
    requires base { base ≤ 2 ^ 63 }
    ensures opened { D.tells → (begun : Begun) (since : Option V) (files : Files) (read : Reading) → (D.state disk.old).reads ≡ files
        → Stood (geometry segment begun) files read scan.old.tail base 0 → base < 2 ^ 63
        → ComesNext (geometry segment begun) (next_segment (geometry segment begun) read.shape.older) files (log_file base)
        → OnOk result (Opened (geometry segment begun) files (next_segment (geometry segment begun) read.shape.older + 1) scan.new.tail
        (Onward (WasHanded V.Visit begun since each.old) (WasHanded V.Visit begun since each.new) read.records)) }
    ensures damaged { D.tells → (begun : Begun) (files : Files) (read : Reading) (behind : List ℕ)
        → (D.state disk.old).reads ≡ files
        → Stood (geometry segment begun) files read scan.old.tail base 0 → base < 2 ^ 63
        → ComesNext (geometry segment begun) (next_segment (geometry segment begun) read.shape.older) files (log_file base)
        → ComesNext (geometry segment begun) (next_segment (geometry segment begun) read.shape.older + 1) files behind
        → OnDamage result (IsDamagedAt (geometry segment begun) files) }
    ensures handed { (begun : Begun) (since : Option V)
        → HandsOn (geometry segment begun) scan.old.tail (WasHanded V.Visit begun since each.old)
        → OnOk result (HandsOn (geometry segment begun) scan.new.tail (WasHanded V.Visit begun since each.new)) }
    ensures stopped { (begun : Begun) (first : V) → HandsOn (geometry segment begun) scan.old.tail (GoesOn V.Visit first each.old)
        → OnStop result (IsGiven (geometry segment begun) (GoesOn V.Visit first each.new)) (V.fails first each.new) }
    ensures only_reads { OnlyReads D.Disk result disk.old disk.new }
{
    let at = scan_file(disk, segment, base, scan, each)?;
    let is_ended = ends_in_blank(disk, segment, base, at)?;
    if !is_ended {
        return Err(damaged(alloc, base + at, LogFile::of(base).as_str())?);
    }
    Ok(())
}

// The number of the segment where the log begins.
fn first_of(segment: u32, base: &Base) -> u64
    requires { 0 < segment }
    ensures { result ≡ base.now.place / segment }
{
    base.place / u64::from(segment)
}

// Reads the files of the first segments, so many, behind each of which another stands.
fn read_front<D: Disk, V: Visit>(
    alloc: Global,
    disk: &mut D,
    segment: u32,
    base: &Base,
    count: u64,
    scan: &mut Scan,
    each: &mut V,
) -> Result<(), RecoverFault>
    requires size { IsGeometry (geometry segment (base_of base.now)) }
    requires from { base.now.place / segment ≤ count }
    requires low { (k : ℕ) → k < count → k * segment < 2 ^ 63 }
    ensures opened { D.tells → (since : Option V) (files : Files) → (D.state disk.old).reads ≡ files
        → StandsIn (geometry segment (base_of base.now)) scan.old.tail [] → AreNamed (geometry segment (base_of base.now)) count files
        → OnOk result (Opened (geometry segment (base_of base.now)) files count scan.new.tail
        (Onward (WasHanded V.Visit (base_of base.now) since each.old) (WasHanded V.Visit (base_of base.now) since each.new) [])) }
    ensures damaged { D.tells → (files : Files) (behind : List ℕ) → (D.state disk.old).reads ≡ files
        → StandsIn (geometry segment (base_of base.now)) scan.old.tail [] → AreNamed (geometry segment (base_of base.now)) count files
        → ComesNext (geometry segment (base_of base.now)) count files behind
        → OnDamage result (IsDamagedAt (geometry segment (base_of base.now)) files) }
    ensures handed { (since : Option V)
        → HandsOn (geometry segment (base_of base.now)) scan.old.tail (WasHanded V.Visit (base_of base.now) since each.old)
        → OnOk result (HandsOn (geometry segment (base_of base.now)) scan.new.tail (WasHanded V.Visit (base_of base.now) since each.new)) }
    ensures stopped { (first : V) → HandsOn (geometry segment (base_of base.now)) scan.old.tail (GoesOn V.Visit first each.old)
        → OnStop result (IsGiven (geometry segment (base_of base.now)) (GoesOn V.Visit first each.new)) (V.fails first each.new) }
    ensures only_reads { OnlyReads D.Disk result disk.old disk.new }
{
    let first = first_of(segment, base);
    for i in first..count {
        read_ended(alloc, disk, segment, i * u64::from(segment), scan, each)?;
    }
    Ok(())
}

/// What was read of the log: how many files it has, and where the kept records end.
#[derive(Drop)]
pub(crate) struct Log {
    pub(crate) count: u64,
    pub(crate) end: u64,
}

// Reads all files of the log, where there are so many and no others.
fn read_all<D: Disk, V: Visit>(
    alloc: Global,
    disk: &mut D,
    segment: u32,
    base: &Base,
    count: u64,
    scan: &mut Scan,
    each: &mut V,
) -> Result<u64, RecoverFault>
    requires size { IsGeometry (geometry segment (base_of base.now)) }
    requires from { base.now.place / segment ≤ count }
    requires low { (k : ℕ) → k < count → k * segment < 2 ^ 63 }
    ensures low { IfOk result (λ end. end ≤ 2 ^ 62) }
    ensures read { D.tells → (since : Option V) (files : Files) → (D.state disk.old).reads ≡ files
        → StandsIn (geometry segment (base_of base.now)) scan.old.tail [] → AreNamed (geometry segment (base_of base.now)) count files
        → NoFurther (geometry segment (base_of base.now)) count files
        → IfOk result (ReadLog (geometry segment (base_of base.now)) files (WasHanded V.Visit (base_of base.now) since each.old)
        (WasHanded V.Visit (base_of base.now) since each.new) count) }
    ensures damaged { D.tells → (files : Files) → (D.state disk.old).reads ≡ files
        → StandsIn (geometry segment (base_of base.now)) scan.old.tail [] → AreNamed (geometry segment (base_of base.now)) count files
        → NoFurther (geometry segment (base_of base.now)) count files
        → OnDamage result (IsDamagedAt (geometry segment (base_of base.now)) files) }
    ensures handed { (since : Option V)
        → HandsOn (geometry segment (base_of base.now)) scan.old.tail (WasHanded V.Visit (base_of base.now) since each.old)
        → IfOk result (Handed (geometry segment (base_of base.now)) (WasHanded V.Visit (base_of base.now) since each.new)) }
    ensures stopped { (first : V) → HandsOn (geometry segment (base_of base.now)) scan.old.tail (GoesOn V.Visit first each.old)
        → OnStop result (IsGiven (geometry segment (base_of base.now)) (GoesOn V.Visit first each.new)) (V.fails first each.new) }
    ensures only_reads { OnlyReads D.Disk result disk.old disk.new }
{
    let first = first_of(segment, base);
    if count == first {
        return Ok(scan.tail.end());
    }
    let last = count - 1;
    read_front(alloc, disk, segment, base, last, scan, each)?;
    scan_file(disk, segment, last * u64::from(segment), scan, each)?;
    Ok(scan.tail.end())
}

/// Reads the log, and hands its records on. Nothing is changed.
pub(crate) fn read_log<D: Disk, V: Visit>(
    alloc: Global,
    disk: &mut D,
    segment: u32,
    base: &Base,
    each: &mut V,
) -> Result<Log, RecoverFault>
    requires { IsGeometry (geometry segment (base_of base.now)) }
    ensures low { IfOk result (λ log. log.end ≤ 2 ^ 62) }
    ensures count { IfOk result (λ log. (k : ℕ) → k < log.count → k * segment < 2 ^ 63) }
    ensures read { D.tells → (since : Option V)
        → IfOk result (λ log. ReadLog (geometry segment (base_of base.now)) (D.state disk.old).reads
        (WasHanded V.Visit (base_of base.now) since each.old) (WasHanded V.Visit (base_of base.now) since each.new) log.count log.end) }
    ensures damaged { D.tells → OnDamage result (IsDamagedAt (geometry segment (base_of base.now)) (D.state disk.old).reads) }
    ensures handed { (since : Option V) → WasHanded V.Visit (base_of base.now) since each.old []
        → IfOk result (λ log. Handed (geometry segment (base_of base.now)) (WasHanded V.Visit (base_of base.now) since each.new) log.end) }
    ensures stopped { (first : V) → V.goes first [] each.old
        → OnStop result (IsGiven (geometry segment (base_of base.now)) (GoesOn V.Visit first each.new)) (V.fails first each.new) }
    ensures only_reads { OnlyReads D.Disk result disk.old disk.new }
{
    let names = disk.list(alloc)?;
    let order = order_of(&names, segment, base);
    let tail = LogTail::begin(alloc, segment, base)?;
    let mut scan = Scan {
        tail,
        window: Window::new(alloc)?,
    };
    if let Some(name) = order.odd {
        read_front(alloc, disk, segment, base, order.count, &mut scan, each)?;
        let place = order.count * u64::from(segment);
        return Err(damaged(alloc, place, name)?);
    }
    let end = read_all(alloc, disk, segment, base, order.count, &mut scan, each)?;
    Ok(Log {
        count: order.count,
        end,
    })
}
