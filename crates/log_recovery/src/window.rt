//! A piece of a file in memory, from some place on. It is read anew where a record runs past its end, and grows only for
//! a record that is longer than it, so that memory stays bounded.

ghost use Rattle.std.specs.Prelude.{◌≡◌, ◌+◌, ◌-◌, ◌^◌, ◌≤◌, length, take, drop, min, vec_len, OnOk, IfOk};
ghost use Rattle.mq_outside.specs.Counts.{CountsFailure};
ghost use Rattle.mq_outside.specs.Disk.{Rests};
ghost use Rattle.mq_outside.specs.Files.{bytes_of};

use mq_outside::{Disk, Failed};
use std::alloc::{AllocError, Global};

// So many bytes are read at once.
const PIECE: usize = 1 << 20;

/// A piece of a file.
#[derive(Drop)]
pub(crate) struct Window {
    pub(crate) buffer: Vec<u8>,
    // The place in the file where it begins, and how many bytes of it are read.
    pub(crate) from: u64,
    pub(crate) held: usize,
    pub(crate) ghost within: { held ≤ vec_len buffer },
    pub(crate) ghost wide: { 8 ≤ vec_len buffer },
    pub(crate) ghost short: { vec_len buffer ≤ 2 ^ 32 },
    pub(crate) ghost low: { from ≤ 2 ^ 62 },
}

impl Window {
    /// A window with nothing in it.
    pub(crate) fn new(alloc: Global) -> Result<Window, AllocError>
        ensures { IfOk result (λ window. window.held ≡ 0) }
    {
        let mut buffer = Vec::new(alloc);
        buffer.resize(PIECE, 0)?;
        Ok(Window {
            buffer,
            from: 0,
            held: 0,
        })
    }

    /// Leaves it with nothing in it, at the front of a file.
    pub(crate) fn clear(&mut self)
        ensures from { self.new.from ≡ 0 }
        ensures held { self.new.held ≡ 0 }
    {
        self.from = 0;
        self.held = 0;
    }

    /// What it has of the file from this place on.
    pub(crate) fn front(&self, at: u64) -> &[u8]
        requires { self.now.from ≤ at }
        ensures { result.now ≡ drop (at - self.now.from) (take self.now.held self.now.buffer.items) }
    {
        let skip = at - self.from;
        if self.held as u64 <= skip {
            return &[];
        }
        &self.buffer[skip as usize..self.held]
    }

    /// Where it ends in the file.
    pub(crate) fn end(&self) -> u64
        ensures { result ≡ self.now.from + self.now.held }
    {
        self.from + self.held as u64
    }

    /// Reads the file from this place on.
    pub(crate) fn read<D: Disk>(&mut self, disk: &mut D, name: &str, at: u64) -> Result<(), Failed>
        requires { at ≤ 2 ^ 62 }
        ensures from { OnOk result (self.new.from ≡ at) }
        ensures held { D.tells → OnOk result (self.new.held
            ≡ min (vec_len self.old.buffer) (length (bytes_of (D.state disk.old).reads name.now) - at)) }
        ensures bytes { D.tells → OnOk result (take self.new.held self.new.buffer.items
            ≡ take self.new.held (drop at (bytes_of (D.state disk.old).reads name.now))) }
        ensures rests { D.tells → Rests (D.state disk.old) (D.state disk.new) }
        ensures cause { CountsFailure result (D.faults disk.old) (D.faults disk.new) }
        ensures syncs { D.syncs disk.new ≡ D.syncs disk.old }
    {
        self.held = 0;
        let held = disk.read_at(name, at, self.buffer.as_mut_slice())?;
        self.from = at;
        self.held = held;
        Ok(())
    }

    /// Makes it so long that a record of this size fits. It has nothing in it then.
    pub(crate) fn grow(&mut self, size: u32) -> Result<(), AllocError>
        ensures long { OnOk result (size ≤ vec_len self.new.buffer) }
    {
        self.held = 0;
        if self.buffer.len() < size as usize {
            self.buffer.resize(size as usize, 0)?;
        }
        Ok(())
    }
}
