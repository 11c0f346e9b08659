//! Items that have a key, so that a list in order of its keys can be searched.

ghost use Rattle.std.specs.Prelude.{◌≡◌, ℕ};

/// An item with a key, for example the time when a record was stored.
pub trait Keyed {
    ghost key: { Self → ℕ };

    /// The item's key.
    fn key(&self) -> u64
        ensures { result ≡ key self.now };
}
