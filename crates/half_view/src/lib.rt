//! The table of the half messages: which are open, what became of the others, and which is due for a check-back.
#![tactic(auto)]

mod add_head;
mod check;
mod due;
mod front;
mod head;
mod kinds;
pub mod laws;
mod row;
mod rows;
mod times;
mod view;

pub use check::Check;
pub use head::Head;
pub use kinds::{is_half, named_half, rolled_back};
pub use row::HalfRow;
pub use view::HalfView;
