//! What a disk of real files and its reader need of pieces. Each function is given the system's files, which nothing has that
//! stands between the devices and `main`: so what is above the devices can neither make a piece nor see whether one holds
//! its bytes.

ghost use Rattle.std.specs.Prelude.{◌≡◌, ◌+◌, ◌≤◌, None, IsTrue, false, length};
ghost use Rattle.mq_outside.specs.Readings.{HasAt};

use crate::frozen::Frozen;
use std::rt::Files;

impl Frozen {
    /// So many bytes of the log file named by `base`, from an offset in it on. The piece holds none of them.
    pub fn of_file<R: Files>(_files: &R, base: u64, from: u64, len: u64) -> Frozen
        ensures base { result.base ≡ base }
        ensures from { result.from ≡ from }
        ensures len { result.len ≡ len }
        ensures held { result.held ≡ None }
    {
        Frozen {
            base,
            from,
            len,
            held: None,
        }
    }

    /// Where the piece holds its bytes, fills `out` with those from this offset in it on. Answers whether it holds them.
    pub fn copy_held<R: Files>(&self, _files: &R, at: u64, out: &mut [u8]) -> bool
        requires { at + length out.old ≤ self.now.len }
        ensures held { IsTrue result → HasAt self.now.held at out.new }
        ensures absent { (result ≡ false) → (self.now.held ≡ None) }
    {
        match &self.held {
            None => false,
            Some(held) => {
                let from = at as usize;
                out.copy_from_slice(&held.as_slice()[from..from + out.len()]);
                true
            }
        }
    }
}
