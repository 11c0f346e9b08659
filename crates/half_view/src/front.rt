//! The front of the half messages, which is cut off where segments of the log are removed.

ghost use Rattle.std.specs.Prelude.{◌≡◌, ◌≤◌, ◌+◌, drop, filter, nat_le, vec_len, vec_capacity};
ghost use Rattle.std.specs.List.{position_or_len};
ghost use Rattle.std.specs.List.Sorted.{IsNonDecreasingBy};
ghost use Rattle.half_view.specs.declared.row.HalfRow.{HalfRow};
ghost use Rattle.half_view.specs.Halves.{place_of};

use crate::row::HalfRow;

// The index of the first half message that stands at this place or past it, where the places don't fall.
pub(crate) fn first_from(rows: &Vec<HalfRow>, place: u64) -> usize
    ensures within { result ≤ vec_len rows.now }
    ensures first { IsNonDecreasingBy place_of rows.now.items
        → result ≡ position_or_len (λ (row : HalfRow). nat_le place row.place) rows.now.items }
    ensures rest { IsNonDecreasingBy place_of rows.now.items
        → drop result rows.now.items ≡ filter (λ (row : HalfRow). nat_le place row.place) rows.now.items }
{
    rows.as_slice().partition_point(|row| row.place < place)
}

// Drops the first half messages.
pub(crate) fn drop_front(rows: &mut Vec<HalfRow>, count: usize)
    requires { count ≤ vec_len rows.old }
    ensures items { rows.new.items ≡ drop count rows.old.items }
    ensures len { vec_len rows.new + count ≡ vec_len rows.old }
    ensures capacity { vec_capacity rows.new ≡ vec_capacity rows.old }
{
    let left = rows.len() - count;
    rows.as_mut_slice().rotate_left(count);
    rows.truncate(left);
}
