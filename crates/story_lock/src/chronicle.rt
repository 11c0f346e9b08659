//! What a history is of: a value, and the entries that lead to it.

ghost use Rattle.std.specs.Prelude.{List, Bool};

/// A value that represents a list of entries. An entry is an event with what was said to it.
pub trait Chronicle {
    /// What is done to the value.
    type Event;

    /// What was answered.
    type Said;

    // From the first value these entries, in order, lead to the second.
    ghost represents: { Self → List (Self.Event × Self.Said) → Self → Type 0 };

    // Such an entry is made by the pass with the seat number 0 alone, which is said to have the key.
    ghost keyed: { Self.Event → Self.Said → Bool };
}
