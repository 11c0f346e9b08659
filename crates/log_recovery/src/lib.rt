//! Recovery of the log: its kept records are handed out in order, and what comes after them is cut off, or nothing is
//! changed. And where a log ends, and what may come next.
#![tactic(auto)]

mod counts;
mod fault;
mod kept;
mod load;
mod names;
mod recovery;
mod scan;
mod settle;
mod tail;
mod visitor;
mod window;

pub use fault::RecoverFault;
pub use kept::read_kept;
pub use recovery::recover;
pub use tail::LogTail;
pub use visitor::Visit;
