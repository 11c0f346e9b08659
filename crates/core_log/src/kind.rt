//! How a message is kept.

/// How a message is kept until consumers may see it in its own topic.
#[derive(Clone, Copy)]
pub enum Kind {
    /// It is in its own topic.
    Plain,
    /// It is delayed, by this level: 1 to 18.
    Delayed(u8),
    /// It is a half message, which waits for a verdict.
    Half,
}
