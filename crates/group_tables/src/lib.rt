//! What consumer groups keep: the offset of each queue, and which client has a queue for itself.
#![tactic(auto)]

mod groups;
mod kept;
mod locks;
mod table;

pub use groups::Groups;
pub use kept::GroupOffset;
