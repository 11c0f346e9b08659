//! Reads a file so far that the next record is whole in the window.

ghost use Rattle.std.specs.Prelude.{◌≡◌, ◌+◌, ◌^◌, ◌≤◌, List, ℕ, length, OnOk};
ghost use Rattle.mq_outside.specs.Files.{bytes_of};
ghost use Rattle.log_recovery.specs.Reads.{OnlyReads};
ghost use Rattle.log_recovery.specs.Recovered.{OnDamage};
ghost use Rattle.log_recovery.specs.Scan.{Shows, EndsBefore};

use crate::fault::RecoverFault;
use crate::window::Window;
use mq_outside::Disk;
use record_codec::size_in_front;

// So many bytes of a record tell its size.
const FRONT: u64 = 8;

// Reads a record of this size that is longer than the window, where the file has so many bytes.
fn extend<D: Disk>(
    window: &mut Window,
    disk: &mut D,
    name: &str,
    at: u64,
    size: u32,
) -> Result<(), RecoverFault>
    requires from { window.old.from ≤ at }
    requires low { at ≤ 2 ^ 62 }
    ensures from { OnOk result (window.new.from ≤ at) }
    ensures shows { D.tells → (bytes : List ℕ) → bytes_of (D.state disk.old).reads name.now ≡ bytes → Shows window.old bytes
        → OnOk result (Shows window.new bytes) }
    ensures whole { D.tells → (bytes : List ℕ) → bytes_of (D.state disk.old).reads name.now ≡ bytes → at + size ≤ length bytes
        → OnOk result (at + size ≤ window.new.from + window.new.held) }
    ensures damage { OnDamage result (λ place name. ⊥) }
    ensures only_reads { OnlyReads D.Disk result disk.old disk.new }
{
    let long = disk.len(name)?;
    if long < at + u64::from(size) {
        return Ok(());
    }
    window.grow(size)?;
    window.read(disk, name, at)?;
    Ok(())
}

// Reads so far that the size and the magic of a record which stands there are in the window.
fn reach<D: Disk>(
    window: &mut Window,
    disk: &mut D,
    name: &str,
    at: u64,
) -> Result<(), RecoverFault>
    requires from { window.old.from ≤ at }
    requires low { at ≤ 2 ^ 62 }
    ensures from { OnOk result (window.new.from ≤ at) }
    ensures shows { D.tells → (bytes : List ℕ) → bytes_of (D.state disk.old).reads name.now ≡ bytes → Shows window.old bytes
        → OnOk result (Shows window.new bytes) }
    ensures front { D.tells → (bytes : List ℕ) → bytes_of (D.state disk.old).reads name.now ≡ bytes → at + 8 ≤ length bytes
        → OnOk result (at + 8 ≤ window.new.from + window.new.held) }
    ensures damage { OnDamage result (λ place name. ⊥) }
    ensures only_reads { OnlyReads D.Disk result disk.old disk.new }
{
    if at + FRONT <= window.end() {
        return Ok(());
    }
    window.read(disk, name, at)?;
    Ok(())
}

/// Reads so far that a record of at most `room` bytes which stands at this place of the file is whole in the window.
pub(crate) fn load<D: Disk>(
    window: &mut Window,
    disk: &mut D,
    name: &str,
    at: u64,
    room: u32,
) -> Result<(), RecoverFault>
    requires from { window.old.from ≤ at }
    requires low { at ≤ 2 ^ 62 }
    ensures from { OnOk result (window.new.from ≤ at) }
    ensures shows { D.tells → (bytes : List ℕ) → bytes_of (D.state disk.old).reads name.now ≡ bytes → Shows window.old bytes
        → OnOk result (Shows window.new bytes) }
    ensures whole { D.tells → (bytes : List ℕ) → bytes_of (D.state disk.old).reads name.now ≡ bytes → Shows window.old bytes
        → OnOk result (EndsBefore bytes at room (window.new.from + window.new.held)) }
    ensures damage { OnDamage result (λ place name. ⊥) }
    ensures only_reads { OnlyReads D.Disk result disk.old disk.new }
{
    reach(window, disk, name, at)?;
    let Some(size) = size_in_front(window.front(at)) else {
        return Ok(());
    };
    if size > room {
        return Ok(());
    }
    if at + u64::from(size) <= window.end() {
        return Ok(());
    }
    extend(window, disk, name, at, size)?;
    Ok(())
}
