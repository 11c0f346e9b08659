//! What the items of the generator are. Of ten items six are plain sends; the seventh sends a half message and commits it, the
//! eighth rolls one back, the ninth pulls, and the tenth sends a delayed message.

ghost use Rattle.std.specs.Prelude.{◌≡◌};
ghost use Rattle.gen_run.specs.Items.{kind_at};

/// What an item asks the broker for.
#[derive(Debug, Clone, Copy, PartialEq, Eq)]
pub(crate) enum Kind {
    /// A message with a key is sent.
    Plain,
    /// A half message is sent, and committed.
    Commit,
    /// A half message is sent, and rolled back.
    RollBack,
    /// A queue is pulled from its start.
    Pull,
    /// A delayed message is sent.
    Delayed,
}

/// The kind of the item with this number.
pub(crate) fn kind_of(item: u32) -> Kind
    ensures { result ≡ kind_at item }
{
    let digit = item % 10;
    if digit < 6 {
        Kind::Plain
    } else if digit == 6 {
        Kind::Commit
    } else if digit == 7 {
        Kind::RollBack
    } else if digit == 8 {
        Kind::Pull
    } else {
        Kind::Delayed
    }
}
