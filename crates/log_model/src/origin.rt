//! What became of an origin.

/// What a log says became of an origin, the half message that a producer sent.
#[derive(Debug, Clone, Copy, PartialEq, Eq)]
pub enum OriginState {
    /// No record settles it.
    Open,
    /// A copy of it stands in its topic.
    Committed,
    /// A record settles it, and no copy of it stands.
    RolledBack,
    /// It was checked too often, and given up.
    Discarded,
}
