//! One half message among those that are kept.

ghost use Rattle.std.specs.Prelude.{◌≡◌, ◌<◌, ◌≤◌, ℕ, length, slice_get, slice_set, Some, OnOk, vec_len, vec_capacity};
ghost use Rattle.half_records.specs.Kept.{KeptRow, with_room, with_member, without_family};

use crate::kept::KeptHalf;
use record_copies::Whole;
use std::alloc::{AllocError, Global};

// Makes room for a member more of this one's family.
pub(crate) fn make_room(list: &mut Vec<KeptHalf>, k: usize) -> Result<(), AllocError>
    requires { k < vec_len list.old }
    ensures room { (vec_len list.new ≡ vec_len list.old) × (vec_capacity list.new ≡ vec_capacity list.old) }
    ensures row { (x : KeptRow) → slice_get list.old.items k ≡ Some x
        → (s : ℕ) × (x.spare ≤ s) × (OnOk result (0 < s)) × (list.new.items ≡ slice_set list.old.items k (with_room x s)) }
{
    let kept = &mut list[k];
    kept.reserve()?;
    Ok(())
}

// Adds a member to this one's family, which has room for it.
pub(crate) fn put(list: &mut Vec<KeptHalf>, k: usize, whole: Whole)
    requires there { k < vec_len list.old }
    requires room { (x : KeptRow) → slice_get list.old.items k ≡ Some x → 0 < x.spare }
    ensures room { (vec_len list.new ≡ vec_len list.old) × (vec_capacity list.new ≡ vec_capacity list.old) }
    ensures row { (x : KeptRow) → slice_get list.old.items k ≡ Some x → (s : ℕ)
        × (list.new.items ≡ slice_set list.old.items k (with_member x whole s)) }
{
    let kept = &mut list[k];
    kept.put(whole);
}

// Lets this one's family go.
pub(crate) fn let_go(list: &mut Vec<KeptHalf>, alloc: Global, k: usize)
    requires there { k < vec_len list.old }
    ensures room { (vec_len list.new ≡ vec_len list.old) × (vec_capacity list.new ≡ vec_capacity list.old) }
    ensures row { (x : KeptRow) → slice_get list.old.items k ≡ Some x → (s : ℕ)
        × (list.new.items ≡ slice_set list.old.items k (without_family x s)) }
{
    let kept = &mut list[k];
    kept.let_go(alloc);
}
