//! The disk that the log, the unit files and the index files stand on: named files, and what a crash may leave of them.
//!
//! The moment is a number that a call raises by at most one. Between two syncs of a file each range that was written, and
//! the part past its length at the last sync, may hold any bytes after a crash, and any length between may be left. After
//! a sync that answered Ok a crash leaves, of what is fresh, what a read gives. Fresh is what this process wrote of the file
//! since the last sync of it that failed: a system may drop what it could not write, and answer Ok to the next sync. So after
//! a failed sync the same bytes are written again. A removal that answered Ok stays done. `DiskState` says this as one relation.

ghost use Rattle.std.specs.Prelude.{◌≡◌, ◌≢◌, ◌+◌, ◌-◌, ◌≤◌, ℕ, length, take, drop, map, min, Some};
ghost use Rattle.std.specs.Prelude.{None, IsSome, IfOk, IfSome, OnOk, MatchResult, string_bytes};
ghost use Rattle.mq_outside.specs.Counts.{Counted, CountsFailure, CountsDiskFault};
ghost use Rattle.mq_outside.specs.Files.{Same, At, Torn, Shortened, Vanished, Lists, bytes_of, overwritten};
ghost use Rattle.mq_outside.specs.Disk.{DiskState, EachImage, Moves, IsDurable, IsCrashImage, Freshens, IsFreshDurable};
ghost use Rattle.mq_outside.specs.Pieces.{HasPiece, IsStored, stored_piece};

use crate::faults::{DiskFault, Failed};
use crate::frozen::Frozen;
use crate::reader::Reader;
use bytes::Bytes;
use std::alloc::Global;

/// The most bytes that one process leaves unsynced. A real disk writes that much of a file again in `renew`, and no more records
/// than that may be pending: so both are this one number.
pub const UNSYNCED_MAX: u64 = 67_108_864;

/// A disk of named files. What it holds is said where `tells` holds; of a real disk nothing is said.
pub trait Disk {
    /// Reads the frozen pieces of this disk.
    type Reader: Reader + Drop;

    /// That it tells what it holds.
    ghost tells: { Type 0 };

    /// What it tells: what is read, the moment, and the crash images of each moment.
    ghost state: { Self → DiskState };

    /// How often it failed.
    ghost faults: { Self → ℕ };

    /// How many syncs were asked of it.
    ghost syncs: { Self → ℕ };

    /// How many bytes `read_at` gave.
    ghost given: { Self → ℕ };

    /// How often its readers failed, of those that were taken back.
    ghost reader_faults: { Self → ℕ };

    /// How often it failed, as a number: a refusal is told to the client with it.
    fn fault_count(&self) -> u64
        ensures { result ≡ faults self.now };

    /// The names of the files, in byte order.
    fn list(&mut self, alloc: Global) -> Result<Vec<String>, DiskFault>
        ensures names { tells → IfOk result (λ names. Lists (state self.old).reads (map (λ name. string_bytes name) names.items)) }
        ensures moves { tells → Moves Same (state self.old) (state self.new) }
        ensures cause { CountsDiskFault result (faults self.old) (faults self.new) }
        ensures syncs { syncs self.new ≡ syncs self.old }
        ensures given { given self.new ≡ given self.old }
        ensures reader_faults { reader_faults self.new ≡ reader_faults self.old };

    /// The length of a file in bytes, 0 where it is absent.
    fn len(&mut self, file: &str) -> Result<u64, Failed>
        ensures len { tells → IfOk result (λ n. n ≡ length (bytes_of (state self.old).reads file.now)) }
        ensures moves { tells → Moves Same (state self.old) (state self.new) }
        ensures cause { CountsFailure result (faults self.old) (faults self.new) }
        ensures syncs { syncs self.new ≡ syncs self.old }
        ensures given { given self.new ≡ given self.old }
        ensures reader_faults { reader_faults self.new ≡ reader_faults self.old };

    /// Reads what stands at the offset, up to `out`. Answers how many bytes; fewer than `out` only at the file's end.
    fn read_at(&mut self, file: &str, at: u64, out: &mut [u8]) -> Result<usize, Failed>
        ensures within { IfOk result (λ n. n ≤ length out.old) }
        ensures count { tells → IfOk result (λ n. n ≡ min (length out.old) (length (bytes_of (state self.old).reads file.now) - at)) }
        ensures bytes { tells → IfOk result (λ n. take n out.new ≡ take n (drop at (bytes_of (state self.old).reads file.now))) }
        ensures moves { tells → Moves Same (state self.old) (state self.new) }
        ensures cause { CountsFailure result (faults self.old) (faults self.new) }
        ensures syncs { syncs self.new ≡ syncs self.old }
        ensures given { MatchResult result (λ n. Counted n (given self.old) (given self.new)) (λ _. given self.new ≡ given self.old) }
        ensures reader_faults { reader_faults self.new ≡ reader_faults self.old };

    /// Writes over what is there and past the end, and makes the file where it is absent.
    fn write_at(&mut self, file: &str, at: u64, piece: &[u8]) -> Result<(), Failed>
        requires { tells → at ≤ length (bytes_of (state self.old).reads file.now) }
        ensures written { tells → OnOk result ((state self.new).reads file.now
            ≡ Some (overwritten at piece.now (bytes_of (state self.old).reads file.now))) }
        ensures moves { tells → Moves (At file.now (Torn at (length piece.now))) (state self.old) (state self.new) }
        ensures fresh { tells → OnOk result (Freshens file.now at (length piece.now) (state self.old) (state self.new)) }
        ensures cause { CountsFailure result (faults self.old) (faults self.new) }
        ensures syncs { syncs self.new ≡ syncs self.old }
        ensures given { given self.new ≡ given self.old }
        ensures reader_faults { reader_faults self.new ≡ reader_faults self.old };

    /// Cuts a file to a length in bytes. An absent file stays absent.
    fn cut(&mut self, file: &str, len: u64) -> Result<(), Failed>
        requires { tells → len ≤ length (bytes_of (state self.old).reads file.now) }
        ensures cut { tells → OnOk result (bytes_of (state self.new).reads file.now ≡ take len (bytes_of (state self.old).reads file.now)) }
        ensures moves { tells → Moves (At file.now (Shortened len)) (state self.old) (state self.new) }
        ensures cause { CountsFailure result (faults self.old) (faults self.new) }
        ensures syncs { syncs self.new ≡ syncs self.old }
        ensures given { given self.new ≡ given self.old }
        ensures reader_faults { reader_faults self.new ≡ reader_faults self.old };

    /// After it a crash leaves what is read of all that was fresh of this file.
    fn sync(&mut self, file: &str) -> Result<(), Failed>
        ensures durable { tells → OnOk result (IsFreshDurable file.now (state self.old) (state self.new)) }
        ensures moves { tells → Moves Same (state self.old) (state self.new) }
        ensures cause { CountsFailure result (faults self.old) (faults self.new) }
        ensures syncs { Counted 1 (syncs self.old) (syncs self.new) }
        ensures given { given self.new ≡ given self.old }
        ensures reader_faults { reader_faults self.new ≡ reader_faults self.old };

    /// Syncs a file that an earlier process wrote: what that process wrote last, and may have failed to sync, is written again as
    /// it is read, and synced. After it a crash leaves of this file what is read. The device takes it that all that may have
    /// failed lies in the last `UNSYNCED_MAX` bytes of the file: one turn of the flusher writes no more, and none begins before
    /// the one before it is on the disk. Writing what is read leaves nothing that a crash could not have left before.
    fn renew(&mut self, file: &str) -> Result<(), Failed>
        ensures durable { tells → OnOk result (IsDurable file.now (state self.new)) }
        ensures moves { tells → Moves Same (state self.old) (state self.new) }
        ensures cause { CountsFailure result (faults self.old) (faults self.new) }
        ensures syncs { Counted 1 (syncs self.old) (syncs self.new) }
        ensures given { given self.new ≡ given self.old }
        ensures reader_faults { reader_faults self.new ≡ reader_faults self.old };

    /// Syncs a file that an earlier process ended. It was synced before the file `next` was made, so nothing of it has to be
    /// written again. After it a crash leaves of this file what is read.
    fn sync_ended(&mut self, file: &str, next: &str) -> Result<(), Failed>
        requires apart { file.now ≢ next.now }
        requires made { tells → IsSome ((state self.old).reads next.now) }
        ensures durable { tells → OnOk result (IsDurable file.now (state self.new)) }
        ensures moves { tells → Moves Same (state self.old) (state self.new) }
        ensures cause { CountsFailure result (faults self.old) (faults self.new) }
        ensures syncs { Counted 1 (syncs self.old) (syncs self.new) }
        ensures given { given self.new ≡ given self.old }
        ensures reader_faults { reader_faults self.new ≡ reader_faults self.old };

    /// Removes a file. After it a crash leaves none. An absent file stays absent.
    fn remove(&mut self, file: &str) -> Result<(), Failed>
        ensures gone { tells → OnOk result ((state self.new).reads file.now ≡ None) }
        ensures durable { tells → OnOk result (IsDurable file.now (state self.new)) }
        ensures moves { tells → Moves (At file.now Vanished) (state self.old) (state self.new) }
        ensures cause { CountsFailure result (faults self.old) (faults self.new) }
        ensures syncs { syncs self.new ≡ syncs self.old }
        ensures given { given self.new ≡ given self.old }
        ensures reader_faults { reader_faults self.new ≡ reader_faults self.old };

    /// Makes a piece of bytes that are stored in a log file and synced. It takes no memory.
    fn freeze(&mut self, base: u64, from: u64, bytes: Bytes) -> Frozen
        requires { tells → EachImage (HasPiece base from bytes) (state self.old) }
        ensures range { (result.base ≡ base) × (result.from ≡ from) × (result.len ≡ length bytes) }
        ensures held { tells → result.held ≡ Some bytes }
        ensures no_others { IfSome result.held (λ held. held ≡ bytes) }
        ensures moves { tells → Moves Same (state self.old) (state self.new) }
        ensures faults { faults self.new ≡ faults self.old }
        ensures syncs { syncs self.new ≡ syncs self.old }
        ensures given { given self.new ≡ given self.old }
        ensures reader_faults { reader_faults self.new ≡ reader_faults self.old };

    /// Makes a piece of a synced range of a log file.
    fn freeze_stored(
        &mut self,
        alloc: Global,
        base: u64,
        from: u64,
        to: u64,
    ) -> Result<Frozen, DiskFault>
        requires ordered { from ≤ to }
        requires stored { tells → IsStored base from to (state self.old) }
        ensures range { IfOk result (λ piece. (piece.base ≡ base) × (piece.from ≡ from) × (piece.len ≡ to - from)) }
        ensures held { tells → IfOk result (λ piece. piece.held ≡ Some (stored_piece base from to (state self.old))) }
        ensures no_others { IfOk result (λ piece. IfSome piece.held (λ held. tells)) }
        ensures moves { tells → Moves Same (state self.old) (state self.new) }
        ensures cause { CountsDiskFault result (faults self.old) (faults self.new) }
        ensures syncs { syncs self.new ≡ syncs self.old }
        ensures given { given self.new ≡ given self.old }
        ensures reader_faults { reader_faults self.new ≡ reader_faults self.old };

    /// A reader of its pieces for another thread.
    fn reader(&mut self, alloc: Global) -> Result<Self::Reader, DiskFault>
        ensures fresh { IfOk result (λ reader. (Self.Reader.faults reader ≡ 0) × (Self.Reader.reads reader ≡ 0)) }
        ensures moves { tells → Moves Same (state self.old) (state self.new) }
        ensures cause { CountsDiskFault result (faults self.old) (faults self.new) }
        ensures syncs { syncs self.new ≡ syncs self.old }
        ensures given { given self.new ≡ given self.old }
        ensures reader_faults { reader_faults self.new ≡ reader_faults self.old };

    /// Takes a reader back, and its count of failures with it. It takes no memory.
    fn take_back(&mut self, reader: Self::Reader)
        ensures moves { tells → Moves Same (state self.old) (state self.new) }
        ensures faults { faults self.new ≡ faults self.old }
        ensures syncs { syncs self.new ≡ syncs self.old }
        ensures given { given self.new ≡ given self.old }
        ensures reader_faults { Counted (Self.Reader.faults reader) (reader_faults self.old) (reader_faults self.new) };

    /// What is read is itself what a crash may leave.
    ghost reads_is_image: { (disk : Self) → tells → IsCrashImage (state disk) (state disk).reads };
}
