//! Edits in the middle of a buffer that has the room for them, so that none takes memory.

ghost use Rattle.std.specs.Prelude.{◌≡◌, ◌+◌, ◌-◌, ◌≤◌, ◌++◌, length, take, drop, vec_capacity};

// Puts bytes in before this place.
pub fn insert_bytes(buffer: &mut Vec<u8>, at: usize, piece: &[u8])
    requires place { at ≤ length buffer.old.items }
    requires room { length buffer.old.items + length piece.now ≤ vec_capacity buffer.old }
    ensures items { buffer.new.items ≡ take at buffer.old.items ++ piece.now ++ drop at buffer.old.items }
    ensures capacity { vec_capacity buffer.old ≤ vec_capacity buffer.new }
{
    if buffer.extend_from_slice(piece).is_err() {
        unreachable!();
    }
    buffer[at..].rotate_right(piece.len());
}

// Takes so many bytes out at this place.
pub fn delete_bytes(buffer: &mut Vec<u8>, at: usize, count: usize)
    requires { at + count ≤ length buffer.old.items }
    ensures items { buffer.new.items ≡ take at buffer.old.items ++ drop (at + count) buffer.old.items }
    ensures capacity { vec_capacity buffer.old ≤ vec_capacity buffer.new }
{
    buffer[at..].rotate_left(count);
    buffer.truncate(buffer.len() - count);
}

// Writes over what stands at this place.
fn overwrite_bytes(buffer: &mut Vec<u8>, at: usize, piece: &[u8])
    requires { at + length piece.now ≤ length buffer.old.items }
    ensures items { buffer.new.items ≡ take at buffer.old.items ++ piece.now ++ drop (at + length piece.now) buffer.old.items }
    ensures capacity { vec_capacity buffer.old ≤ vec_capacity buffer.new }
{
    buffer[at..at + piece.len()].copy_from_slice(piece);
}

// Puts the piece where so many bytes stand, no more than the piece has.
pub fn replace_bytes(buffer: &mut Vec<u8>, at: usize, count: usize, piece: &[u8])
    requires within { at + count ≤ length buffer.old.items }
    requires no_more { count ≤ length piece.now }
    requires room { length buffer.old.items + (length piece.now - count) ≤ vec_capacity buffer.old }
    ensures items { buffer.new.items ≡ take at buffer.old.items ++ piece.now ++ drop (at + count) buffer.old.items }
    ensures capacity { vec_capacity buffer.old ≤ vec_capacity buffer.new }
{
    overwrite_bytes(buffer, at, &piece[..count]);
    insert_bytes(buffer, at + count, &piece[count..]);
}
