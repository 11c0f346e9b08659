//! The bytes of open files: read up to an end, written again, copied, compared, and where the last of them is.

ghost use Rattle.std.specs.Prelude.{◌≤◌, length, IfOk};

use std::alloc::{AllocError, Global};
use std::fs::File;
use std::io;
use std::io::ErrorKind;
use std::os::unix::fs::FileExt;

// How much is read and written at a time, and how much where there is no memory for that.
const PIECE: usize = 1_048_576;

const SMALL_PIECE: usize = 4096;

/// Reads until the buffer is full or the file ends.
pub(crate) fn read_up_to(file: &File, at: u64, out: &mut [u8]) -> io::Result<usize>
    ensures { IfOk result (λ n. n ≤ length out.old) }
{
    let mut done = 0;
    for _ in 0..u64::MAX {
        if done >= out.len() {
            break;
        }
        match file.read_at(&mut out[done..], at.saturating_add(done as u64)) {
            Ok(0) => break,
            Ok(n) => done += n,
            Err(e) if e.kind() == ErrorKind::Interrupted => {}
            Err(e) => return Err(e),
        }
    }
    Ok(done)
}

// Writes what a file has in this range into another one, `back` bytes further in front.
fn copy_by(
    file: &File,
    from: u64,
    to: u64,
    into: &File,
    back: u64,
    buffer: &mut [u8],
) -> io::Result<()> {
    let mut at = from;
    for _ in 0..u64::MAX {
        if at >= to {
            break;
        }
        let piece = (to - at).min(buffer.len() as u64);
        let window = &mut buffer[..piece as usize];
        let n = read_up_to(file, at, window)?;
        if n == 0 {
            break;
        }
        into.write_all_at(&window[..n], at.saturating_sub(back))?;
        at = at.saturating_add(n as u64);
    }
    Ok(())
}

/// Writes what a file has in this range into another one, or the same, `back` bytes further in front.
pub(crate) fn copy_range(
    alloc: Global,
    file: &File,
    from: u64,
    to: u64,
    into: &File,
    back: u64,
) -> io::Result<()> {
    match vec![in alloc; 0; PIECE] {
        Ok(mut buffer) => copy_by(file, from, to, into, back, buffer.as_mut_slice()),
        Err(AllocError) => copy_by(file, from, to, into, back, &mut [0; SMALL_PIECE]),
    }
}

// Behind how many of these bytes all are zeros.
fn used_len(bytes: &[u8]) -> u64 {
    let mut used = 0;
    let mut at: u64 = 0;
    for byte in bytes {
        at = at.saturating_add(1);
        if *byte != 0 {
            used = at;
        }
    }
    used
}

/// The offset in a file behind which all is zeros; no less than `from`.
pub(crate) fn end_of_bytes(file: &File, from: u64) -> io::Result<u64> {
    let mut buffer = [0; SMALL_PIECE];
    let mut to = file.metadata()?.len();
    for _ in 0..u64::MAX {
        if to <= from {
            break;
        }
        let piece = (to - from).min(buffer.len() as u64);
        let window = &mut buffer[..piece as usize];
        let n = read_up_to(file, to - piece, window)?;
        let used = used_len(&window[..n]);
        if used > 0 {
            return Ok((to - piece).saturating_add(used));
        }
        to -= piece;
    }
    Ok(from)
}

/// Whether a file is what another one has in this range.
pub(crate) fn is_range(file: &File, from: u64, to: u64, other: &File) -> io::Result<bool> {
    if other.metadata()?.len() != to.saturating_sub(from) {
        return Ok(false);
    }
    let mut piece = [0; SMALL_PIECE];
    let mut other_piece = [0; SMALL_PIECE];
    let mut done: u64 = 0;
    for _ in 0..u64::MAX {
        let n = read_up_to(other, done, &mut other_piece)?;
        if n == 0 {
            break;
        }
        let m = read_up_to(file, from.saturating_add(done), &mut piece[..n])?;
        if piece[..m] != other_piece[..n] {
            return Ok(false);
        }
        done = done.saturating_add(n as u64);
    }
    Ok(true)
}
