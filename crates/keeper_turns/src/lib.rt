//! By what are the two kept files replaced? By the texts of the offsets and topics that the core has at one moment.
#![tactic(auto)]

mod rows;
mod texts;
mod turn;

pub use rows::rows_of;
pub use texts::Texts;
pub use turn::{keep_core, keeper_turn};
