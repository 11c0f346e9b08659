//! The pending bytes: those that were frozen, of which batches are cut without a copy, and those that came since. Bytes are
//! frozen by handing over the memory that they were encoded into. They are copied only where frozen ones are left that the
//! next batch goes past: once a segment, and after a turn that failed.

ghost use Rattle.std.specs.Prelude.{◌≡◌, ◌≤◌, ◌++◌, [], length, take, drop, IfOk, OnOk, OnErr};
ghost use Rattle.record_codec.specs.Drafts.{entry_of, IsEncodable};
ghost use Rattle.record_codec.specs.Layout.{layout, IsRecord};

use bytes::Bytes;
use record_codec::{Draft, Place, encode};
use std::alloc::{AllocError, Global};
use std::marker::Model;
use std::mem;

// How much room is made at most for bytes that have yet to come: 1 MiB.
const ROOM: usize = 1_048_576;

/// The bytes that are left.
#[derive(Drop)]
pub(crate) struct Buffer {
    // Their memory is shared with the batches.
    frozen: Bytes,
    recent: Vec<u8>,
}

impl Model for Buffer {
    ghost use Rattle.std.specs.Prelude.{List, ℕ, ◌++◌};

    ghost Value = { List ℕ };

    ghost view = { λ b. b.frozen ++ b.recent.items };
}

// Freezes these bytes where they lie. The next ones get room such as these had, at most twice what these took of it.
fn freeze(alloc: Global, bytes: &mut Vec<u8>) -> Result<Bytes, AllocError>
    ensures frozen { IfOk result (λ frozen. frozen ≡ bytes.old.items) }
    ensures none { OnOk result (bytes.new.items ≡ []) }
    ensures same { OnErr result (bytes.new.items ≡ bytes.old.items) }
{
    let room = bytes
        .capacity()
        .min(bytes.len().saturating_mul(2))
        .min(ROOM);
    let next = Vec::with_capacity(alloc, room)?;
    match Bytes::from_vec(mem::replace(bytes, next)) {
        Ok(frozen) => Ok(frozen),
        Err(fault) => {
            *bytes = fault.value;
            Err(AllocError)
        }
    }
}

// One copy of both.
fn joined(alloc: Global, front: &Bytes, back: &[u8]) -> Result<Bytes, AllocError>
    ensures { IfOk result (λ both. both ≡ front.now ++ back.now) }
{
    let mut both = Vec::with_capacity(alloc, front.len() + back.len())?;
    both.extend_from_slice(front.as_slice())?;
    both.extend_from_slice(back)?;
    Ok(Bytes::from_vec(both)?)
}

// The recent bytes are frozen too, behind those that are. At `Err` nothing changes.
fn freeze_behind(alloc: Global, frozen: &mut Bytes, recent: &mut Vec<u8>) -> Result<(), AllocError>
    ensures both { OnOk result (frozen.new ≡ frozen.old ++ recent.old.items) }
    ensures none { OnOk result (recent.new.items ≡ []) }
    ensures same { OnErr result (frozen.new ++ recent.new.items ≡ frozen.old ++ recent.old.items) }
{
    if frozen.is_empty() {
        *frozen = freeze(alloc, recent)?;
    } else {
        *frozen = joined(alloc, frozen, recent.as_slice())?;
        recent.clear();
        recent.shrink_to(ROOM);
    }
    Ok(())
}

// Without the first `n` bytes; takes no memory.
fn drop_first(bytes: &mut Vec<u8>, n: usize)
    requires { n ≤ length bytes.old.items }
    ensures { bytes.new.items ≡ drop n bytes.old.items }
{
    if n == 0 {
        return;
    }
    let rest = bytes.len() - n;
    bytes.as_mut_slice().copy_within(n.., 0);
    bytes.truncate(rest);
}

impl Buffer {
    /// No bytes.
    pub(crate) fn new(alloc: Global) -> Buffer
        ensures { result ≡ [] }
    {
        Buffer {
            frozen: Bytes::new(),
            recent: Vec::new(alloc),
        }
    }

    /// How many are left.
    pub(crate) fn len(&self) -> usize
        ensures { result ≡ length self.now }
    {
        self.frozen.len() + self.recent.as_slice().len()
    }

    /// Appends the record of this draft. At `Err` no byte changes.
    pub(crate) fn append(&mut self, draft: &Draft, place: &Place) -> Result<(), AllocError>
        requires { IsEncodable draft.now place.now }
        ensures ok { OnOk result (self.new ≡ self.old ++ layout (entry_of draft.now place.now)) }
        ensures err { OnErr result (self.new ≡ self.old) }
        ensures a_record { OnOk result (IsRecord (entry_of draft.now place.now)) }
    {
        encode(draft, place, &mut self.recent)
    }

    /// The first `size` bytes. They stay, and no byte changes, at `Err` either.
    pub(crate) fn front(&mut self, alloc: Global, size: usize) -> Result<Bytes, AllocError>
        requires { size ≤ length self.old }
        ensures front { IfOk result (λ bytes. bytes ≡ take size self.old) }
        ensures same { self.new ≡ self.old }
    {
        if size > self.frozen.len() {
            freeze_behind(alloc, &mut self.frozen, &mut self.recent)?;
        }
        self.frozen.slice(..size)
    }

    /// The first `size` bytes are done with; takes no memory.
    pub(crate) fn drop_front(&mut self, size: usize)
        requires { size ≤ length self.old }
        ensures { self.new ≡ drop size self.old }
    {
        let frozen = self.frozen.len();
        if size < frozen {
            self.frozen.advance(size);
            return;
        }
        // Nothing is left of them: their memory is let go.
        self.frozen = Bytes::new();
        drop_first(&mut self.recent, size - frozen);
    }

    /// The first `size` bytes alone are left; takes no memory.
    pub(crate) fn keep_front(&mut self, size: usize)
        requires { size ≤ length self.old }
        ensures { self.new ≡ take size self.old }
    {
        self.recent.truncate(size.saturating_sub(self.frozen.len()));
        self.frozen.truncate(size);
    }
}
