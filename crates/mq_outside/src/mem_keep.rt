//! A keep in memory. It keeps a list of all that was put into it, so it tells what a crash at each moment leaves.
//!
//! A text is replaced at one moment: a crash before it leaves the old bytes, and one after it the new.

ghost use Rattle.std.specs.Prelude.{◌≡◌, ◌⊎◌, string_bytes, Some, IfOk, OnOk, OnErr, IsErrOf};
ghost use Rattle.std.specs.Option.{option_map};
ghost use Rattle.mq_outside.specs.Counts.{CountsDiskFault};
ghost use Rattle.mq_outside.specs.Files.{Same, At, OldOrNew};
ghost use Rattle.mq_outside.specs.Disk.{Moves, IsDurable};
ghost use Rattle.mq_outside.specs.Listed.{IsListed, after_call};
ghost use Rattle.mq_outside.specs.MemKeep.{keep_state, last_of, texts_are_image};

use crate::fails::Fails;
use crate::faults::DiskFault;
use crate::keep::Keep;
use std::alloc::{AllocError, Global};

/// Keeps small texts in memory, and fails at listed calls. It tells what it holds.
#[derive(Drop)]
pub struct MemKeep {
    // What it began with, and what was put since, the newest last.
    first: Vec<(String, Vec<u8>)>,
    puts: Vec<(String, Vec<u8>)>,
    fails: Fails,
    faults: u64,
}

// The bytes of the last entry of a name.
fn find_last<'a>(entries: &'a [(String, Vec<u8>)], name: &str) -> Option<&'a [u8]>
    ensures { option_map (λ bytes. bytes.now) result ≡ last_of entries.now name.now }
{
    entries
        .iter()
        .rev()
        .find(|entry| entry.0.as_str() == name)
        .map(|entry| entry.1.as_slice())
}

// A name and its bytes, copied.
fn entry_of(alloc: Global, name: &str, bytes: &[u8]) -> Result<(String, Vec<u8>), AllocError>
    ensures name { IfOk result (λ entry. string_bytes entry.0 ≡ name.now) }
    ensures bytes { IfOk result (λ entry. entry.1.items ≡ bytes.now) }
{
    Ok((String::from_str(alloc, name)?, bytes.to_vec(alloc)?))
}

impl MemKeep {
    /// A keep of these texts, of whose calls those with the numbers `fails` are to fail; the first call is number 1.
    /// Where a name comes more than once, its last bytes count.
    pub fn new(
        alloc: Global,
        files: Vec<(String, Vec<u8>)>,
        fails: Vec<u64>,
    ) -> Result<MemKeep, AllocError>
        ensures reads { IfOk result (λ keep. (⟦<MemKeep as Keep>⟧.state keep).reads ≡ last_of files.items) }
        ensures faults { IfOk result (λ keep. ⟦<MemKeep as Keep>⟧.faults keep ≡ 0) }
        ensures fails { IfOk result (λ keep. keep.fails ≡ record { calls = fails; asked = 0 }) }
    {
        Ok(MemKeep {
            first: files,
            puts: Vec::new(alloc),
            fails: Fails::new(fails),
            faults: 0,
        })
    }

    /// The bytes under this name, `None` where there are none.
    pub fn bytes(&self, name: &str) -> Option<&[u8]>
        ensures { option_map (λ bytes. bytes.now) result ≡ (⟦<MemKeep as Keep>⟧.state self.now).reads name.now }
    {
        match find_last(&self.puts, name) {
            Some(bytes) => Some(bytes),
            None => find_last(&self.first, name),
        }
    }
}

impl Keep for MemKeep {
    ghost tells = { Unit {0} };

    ghost state = { λ s. keep_state s.first.items s.puts.items };

    ghost faults = { λ s. s.faults };

    ghost reads_is_image = { λ s _. texts_are_image s.first.items s.puts.items };

    fn load(&mut self, alloc: Global, name: &str) -> Result<Option<Vec<u8>>, DiskFault>
        ensures bytes { IfOk result (λ bytes. option_map (λ v. v.items) bytes ≡ (⟦<MemKeep as Keep>⟧.state self.old).reads name.now) }
        ensures moves { Moves Same (⟦<MemKeep as Keep>⟧.state self.old) (⟦<MemKeep as Keep>⟧.state self.new) }
        ensures cause { CountsDiskFault result (⟦<MemKeep as Keep>⟧.faults self.old) (⟦<MemKeep as Keep>⟧.faults self.new) }

        // It fails at a listed call only, and answers at no such call.
        ensures listed { IsErrOf result DiskFault.Failed → IsListed self.old.fails }
        ensures unlisted { OnOk result (¬ IsListed self.old.fails) }
        ensures asks { IsErrOf result DiskFault.Memory ⊎ (self.new.fails ≡ after_call self.old.fails) }
        ensures memory { IsErrOf result DiskFault.Memory → self.new ≡ self.old }
    {
        let copied = match self.bytes(name) {
            Some(bytes) => match bytes.to_vec(alloc) {
                Ok(copy) => Some(copy),
                Err(_) => return Err(DiskFault::Memory),
            },
            None => None,
        };
        if self.fails.next() {
            self.faults = self.faults.saturating_add(1);
            return Err(DiskFault::Failed);
        }
        Ok(copied)
    }

    fn replace(&mut self, alloc: Global, name: &str, bytes: &[u8]) -> Result<(), DiskFault>
        ensures done { OnOk result ((⟦<MemKeep as Keep>⟧.state self.new).reads name.now ≡ Some bytes.now) }
        ensures durable { OnOk result (IsDurable name.now (⟦<MemKeep as Keep>⟧.state self.new)) }
        ensures moves { Moves (At name.now (OldOrNew bytes.now)) (⟦<MemKeep as Keep>⟧.state self.old) (⟦<MemKeep as Keep>⟧.state self.new) }
        ensures cause { CountsDiskFault result (⟦<MemKeep as Keep>⟧.faults self.old) (⟦<MemKeep as Keep>⟧.faults self.new) }

        // It fails at a listed call only, and puts the bytes at no such call.
        ensures listed { IsErrOf result DiskFault.Failed → IsListed self.old.fails }
        ensures unlisted { OnOk result (¬ IsListed self.old.fails) }
        ensures asks { IsErrOf result DiskFault.Memory ⊎ (self.new.fails ≡ after_call self.old.fails) }
        ensures memory { IsErrOf result DiskFault.Memory → self.new.fails ≡ self.old.fails }
        ensures still { OnErr result ((⟦<MemKeep as Keep>⟧.state self.new).reads ≡ (⟦<MemKeep as Keep>⟧.state self.old).reads) }
    {
        let Ok(entry) = entry_of(alloc, name, bytes) else {
            return Err(DiskFault::Memory);
        };
        if self.puts.reserve(1).is_err() {
            return Err(DiskFault::Memory);
        }
        if self.fails.next() {
            self.faults = self.faults.saturating_add(1);
            return Err(DiskFault::Failed);
        }
        if self.puts.push(entry).is_err() {
            unreachable!();
        }
        Ok(())
    }
}
