//! The lines of all levels, and one among them.

ghost use Rattle.std.specs.Prelude.{◌≡◌, ◌<◌, ◌≤◌, ℕ, [], length, slice_get, slice_set, option_map, vec_len};
ghost use Rattle.std.specs.Prelude.{Some, OnOk, IfOk};
ghost use Rattle.level_records.specs.Lines.{Line, with_room, with_message, without_first};

use crate::waiting::Waiting;
use delay_view::LEVELS;
use record_copies::Whole;
use std::alloc::{AllocError, Global};

// A line for each level, without messages.
pub(crate) fn empty_lines(alloc: Global) -> Result<Vec<Waiting>, AllocError>
    ensures all { IfOk result (λ lines. length lines.items ≡ 18) }
    ensures none { IfOk result (λ lines. (k : ℕ) (line : Line) → slice_get lines.items k ≡ Some line → line.messages ≡ []) }
{
    let mut lines = Vec::new(alloc);
    for _ in 0..LEVELS {
        lines.push(Waiting::new(alloc))?;
    }
    Ok(lines)
}

// Makes room for a message more in this line.
pub(crate) fn make_room(lines: &mut Vec<Waiting>, k: usize) -> Result<(), AllocError>
    requires { k < vec_len lines.old }
    ensures all { length lines.new.items ≡ length lines.old.items }
    ensures line { (l : Line) → slice_get lines.old.items k ≡ Some l
        → (s : ℕ) × (l.spare ≤ s) × (OnOk result (0 < s)) × (lines.new.items ≡ slice_set lines.old.items k (with_room l s)) }
{
    let line = &mut lines[k];
    line.reserve()?;
    Ok(())
}

// Adds a message to this line, which has room for it.
pub(crate) fn put(lines: &mut Vec<Waiting>, k: usize, message: Whole)
    requires there { k < vec_len lines.old }
    requires room { (l : Line) → slice_get lines.old.items k ≡ Some l → 0 < l.spare }
    ensures all { length lines.new.items ≡ length lines.old.items }
    ensures line { (l : Line) → slice_get lines.old.items k ≡ Some l → (s : ℕ)
        × (lines.new.items ≡ slice_set lines.old.items k (with_message l message s)) }
{
    let line = &mut lines[k];
    line.push(message);
}

// Lets the first message of this line go.
pub(crate) fn let_go(lines: &mut Vec<Waiting>, k: usize)
    requires there { k < vec_len lines.old }
    ensures all { length lines.new.items ≡ length lines.old.items }
    ensures line { (l : Line) → slice_get lines.old.items k ≡ Some l → (s : ℕ)
        × (lines.new.items ≡ slice_set lines.old.items k (without_first l s)) }
{
    let line = &mut lines[k];
    line.pop();
}
