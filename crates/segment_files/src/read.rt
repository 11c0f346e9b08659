//! A record is read back from its place.

ghost use Rattle.std.specs.Prelude.{◌≡◌, ◌+◌, ◌-◌, ◌<◌, ◌++◌, List, ℕ, length, take, drop, IfOk, IfErr, IfSome, MatchOption};
ghost use Rattle.mq_outside.specs.Counts.{CountsDiskFault};
ghost use Rattle.mq_outside.specs.Disk.{Rests};
ghost use Rattle.mq_outside.specs.Files.{bytes_of};
ghost use Rattle.record_codec.specs.Entry.{Entry};
ghost use Rattle.record_codec.specs.Layout.{layout, IsRecord};
ghost use Rattle.log_model.specs.Faults.{CountsLoadFault};
ghost use Rattle.log_model.specs.Queues.{said_by, IsStored};
ghost use Rattle.segment_files.specs.Reading.{IsRecordAt, SaysWhere, TellsDamage};

use log_model::LoadFault;
use mq_bytes::{LogFile, Text};
use mq_outside::{Disk, DiskFault};
use record_codec::{Record, test};
use std::alloc::{AllocError, Global};

// So many bytes of a file, or `None` where it ends before.
fn read_piece<D: Disk>(
    disk: &mut D,
    alloc: Global,
    name: &str,
    at: u64,
    size: u32,
) -> Result<Option<Vec<u8>>, DiskFault>
    ensures bytes { D.tells → IfOk result (λ read. MatchOption read (length (drop at (bytes_of (D.state disk.old).reads name.now)) < size)
        (λ bytes. bytes.items ≡ take size (drop at (bytes_of (D.state disk.old).reads name.now)))) }
    ensures long { IfOk result (λ read. IfSome read (λ bytes. length bytes.items ≡ size)) }
    ensures rests { D.tells → Rests (D.state disk.old) (D.state disk.new) }
    ensures cause { CountsDiskFault result (D.faults disk.old) (D.faults disk.new) }
    ensures syncs { D.syncs disk.new ≡ D.syncs disk.old }
{
    let Ok(mut bytes) = vec![in alloc; 0u8; size as usize] else {
        return Err(DiskFault::Memory);
    };
    let Ok(count) = disk.read_at(name, at, &mut bytes) else {
        return Err(DiskFault::Failed);
    };
    if count < size as usize {
        return Ok(None);
    }
    Ok(Some(bytes))
}

// The record whose layout these bytes are, or `None` where they are none.
fn record_of(alloc: Global, bytes: &[u8]) -> Result<Option<Record>, AllocError>
    ensures { IfOk result (λ found. MatchOption found ((r : Entry) → IsRecord r → bytes.now ≡ layout r → ⊥)
        (λ r. IsStored r × (bytes.now ≡ layout (said_by r)) × (r.size ≡ length bytes.now))) }
{
    let Some(view) = test(bytes) else {
        return Ok(None);
    };
    if view.size() as usize != bytes.len() {
        return Ok(None);
    }
    Ok(Some(view.to_record(alloc)?))
}

// Damage at this place, in the file of this name.
fn damage(alloc: Global, place: u64, name: &str) -> LoadFault
    ensures { SaysWhere place name.now result }
{
    match String::from_str(alloc, name) {
        Ok(name) => LoadFault::Damaged(place, Text::of(name)),
        Err(_) => LoadFault::Memory,
    }
}

/// The record of so many bytes at this place of the log.
pub fn read_record<D: Disk>(
    disk: &mut D,
    alloc: Global,
    segment: u32,
    place: u64,
    size: u32,
) -> Result<Record, LoadFault>
    requires { 0 < segment }
    ensures stands { D.tells → IfOk result (λ r. IsRecordAt segment place size (D.state disk.old) (said_by r)) }
    ensures stored { IfOk result (λ r. IsStored r × (r.size ≡ size)) }
    ensures damaged { D.tells → IfErr result (TellsDamage segment place size (D.state disk.old)) }
    ensures rests { D.tells → Rests (D.state disk.old) (D.state disk.new) }
    ensures cause { CountsLoadFault result (D.faults disk.old) (D.faults disk.new) }
    ensures syncs { D.syncs disk.new ≡ D.syncs disk.old }
{
    let offset = place % u64::from(segment);
    let file = LogFile::of(place - offset);
    let name = file.as_str();
    let bytes = match read_piece(disk, alloc, name, offset, size) {
        Ok(Some(bytes)) => bytes,
        Ok(None) => return Err(damage(alloc, place, name)),
        Err(DiskFault::Failed) => return Err(LoadFault::Failed),
        Err(DiskFault::Memory) => return Err(LoadFault::Memory),
    };
    match record_of(alloc, &bytes) {
        Ok(Some(record)) => Ok(record),
        Ok(None) => Err(damage(alloc, place, name)),
        Err(_) => Err(LoadFault::Memory),
    }
}
