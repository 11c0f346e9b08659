//! The bytes of a body. Ranges that adjoin in one piece are a stretch, and are read together.

ghost use Rattle.std.specs.Prelude.{◌≡◌, ◌+◌, ◌≤◌, ◌<◌, ◌^◌, length, take, IsTrue, IfSome, OnOk, OnErr};
ghost use Rattle.mq_outside.specs.Counts.{CountsFailure, CountsDiskFault};
ghost use Rattle.reply_fields.specs.Ranges.{RisesAtMost, AreAsked};
ghost use Rattle.reply_fields.specs.Slices.{slice_len, body_len, kept_count, IsBody, AppendsBody};
ghost use Rattle.reply_fields.specs.Stretches.{Adjoins, GoesOn, GoOn, IsStretch};

use crate::slice::{Slice, StoredRange};
use mq_outside::{DiskFault, Failed, Reader};

// How many bytes a slice has.
fn len_of(slice: &Slice) -> usize
    ensures { result ≡ slice_len slice.now }
{
    match slice {
        Slice::Held(bytes) => bytes.len(),
        Slice::Kept(range) => range.len as usize,
    }
}

/// How many bytes the slices have together.
pub(crate) fn size_of(slices: &[Slice]) -> usize
    requires { body_len slices.now < 2 ^ 30 }
    ensures { result ≡ body_len slices.now }
{
    let mut size = 0;
    for slice in slices {
        size += len_of(slice);
    }
    size
}

// Whether the next range goes on where so many bytes from the first one's start end.
fn adjoins(first: &StoredRange, len: u64, next: &StoredRange) -> bool
    ensures next { IsTrue result → Adjoins first.now len next.now }
    ensures fits { IsTrue result → len + next.now.len < 2 ^ 64 }
{
    next.at >= first.at
        && next.at - first.at == len
        && first.piece.has_same(&next.piece, next.at, next.len)
}

// How many bytes the slice has, if it goes on where so many bytes from the range's start end.
fn going_on(first: &StoredRange, len: u64, slice: &Slice) -> Option<u32>
    ensures on { IfSome result (λ more. GoesOn first.now len slice.now) }
    ensures len { IfSome result (λ more. more ≡ slice_len slice.now) }
    ensures within { IfSome result (λ more. len + more < 2 ^ 64) }
{
    match slice {
        Slice::Kept(next) if adjoins(first, len, next) => Some(next.len),
        _ => None,
    }
}

// How many of the slices go on after this range, and how many bytes it has with them.
fn stretch_from(first: &StoredRange, others: &[Slice]) -> (usize, u64)
    ensures within { result.0 ≤ length others.now }
    ensures on { GoOn first.now first.now.len (take result.0 others.now) }
    ensures len { result.1 ≡ first.now.len + body_len (take result.0 others.now) }
{
    let mut len = u64::from(first.len);
    for (count, slice) in others.iter().enumerate() {
        match going_on(first, len, slice) {
            Some(more) => len += u64::from(more),
            None => return (count, len),
        }
    }
    (others.len(), len)
}

// How many slices at the front are one stretch, and how many bytes it has.
fn stretch_of(slices: &[Slice]) -> (usize, usize)
    requires { 0 < length slices.now }
    ensures some { 0 < result.0 }
    ensures within { result.0 ≤ length slices.now }
    ensures stretch { IsStretch (take result.0 slices.now) }
    ensures len { result.1 ≡ body_len (take result.0 slices.now) }
{
    match &slices[0] {
        Slice::Held(bytes) => (1, bytes.len()),
        Slice::Kept(first) => {
            let (count, len) = stretch_from(first, &slices[1..]);
            (1 + count, len as usize)
        }
    }
}

// Fills `out` with the bytes of a stretch.
fn fill_stretch<R: Reader>(slices: &[Slice], reader: &mut R, out: &mut [u8]) -> Result<(), Failed>
    requires stretch { IsStretch slices.now }
    requires len { length out.old ≡ body_len slices.now }
    ensures body { OnOk result (IsBody R.gives slices.now out.new) }
    ensures cause { CountsFailure result (R.faults reader.old) (R.faults reader.new) }
    ensures reads { RisesAtMost (kept_count slices.now) (R.reads reader.old) (R.reads reader.new) }
    ensures asked { OnOk result (AreAsked (kept_count slices.now) (R.reads reader.old) (R.reads reader.new)) }
{
    match &slices[0] {
        Slice::Held(bytes) => {
            out.copy_from_slice(bytes.as_slice());
            Ok(())
        }
        Slice::Kept(range) => {
            reader.read(&range.piece, range.at, out)?;
            Ok(())
        }
    }
}

/// Fills `out` with the bytes of the slices.
pub(crate) fn fill<R: Reader>(
    slices: &[Slice],
    reader: &mut R,
    out: &mut [u8],
) -> Result<(), Failed>
    requires { length out.old ≡ body_len slices.now }
    ensures body { OnOk result (IsBody R.gives slices.now out.new) }
    ensures cause { CountsFailure result (R.faults reader.old) (R.faults reader.new) }
    ensures reads { RisesAtMost (kept_count slices.now) (R.reads reader.old) (R.reads reader.new) }
    ensures asked { OnOk result (AreAsked (kept_count slices.now) (R.reads reader.old) (R.reads reader.new)) }
{
    let mut done = 0;
    let mut at = 0;
    while done < slices.len() {
        let (_, rest) = slices.split_at(done);
        let (count, len) = stretch_of(rest);
        fill_stretch(&rest[..count], reader, &mut out[at..at + len])?;
        done += count;
        at += len;
    }
    Ok(())
}

/// Appends the bytes of the slices, which have this size. After a fault `out` is as before.
pub(crate) fn write_body<R: Reader>(
    slices: &[Slice],
    size: usize,
    reader: &mut R,
    out: &mut Vec<u8>,
) -> Result<(), DiskFault>
    requires size { size ≡ body_len slices.now }
    requires within { size < 2 ^ 30 }
    ensures body { OnOk result (AppendsBody R.gives slices.now out.old.items out.new.items) }
    ensures err { OnErr result (out.new.items ≡ out.old.items) }
    ensures cause { CountsDiskFault result (R.faults reader.old) (R.faults reader.new) }
    ensures reads { RisesAtMost (kept_count slices.now) (R.reads reader.old) (R.reads reader.new) }
    ensures asked { OnOk result (AreAsked (kept_count slices.now) (R.reads reader.old) (R.reads reader.new)) }
{
    let start = out.len();
    if out.resize(start + size, 0).is_err() {
        return Err(DiskFault::Memory);
    }
    match fill(slices, reader, &mut out[start..]) {
        Ok(()) => Ok(()),
        Err(_) => {
            out.truncate(start);
            Err(DiskFault::Failed)
        }
    }
}
