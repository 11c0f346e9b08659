//! Who is connected, and when may they have something to say? Doors, links and readiness, over TCP and by scripts.
#![tactic(auto)]

mod calls;
mod door;
mod ends;
mod event;
mod incoming;
mod keep_alive;
mod link;
mod mem_door;
mod mem_ends;
mod mem_link;
mod mem_ready;
mod ready;
mod rest;
mod tcp_door;
mod tcp_ends;
mod tcp_link;
mod tcp_ready;
mod wake;

pub use calls::Calls;
pub use door::Door;
pub use ends::Ends;
pub use event::Event;
pub use incoming::Incoming;
pub use link::Link;
pub use mem_door::MemDoor;
pub use mem_ends::{EndedLink, MemEnds};
pub use mem_link::MemLink;
pub use mem_ready::{MemReady, MemWaker};
pub use ready::Ready;
pub use rest::{MachineRest, MemRest, Rest};
pub use tcp_door::TcpDoor;
pub use tcp_ends::TcpEnds;
pub use tcp_link::TcpLink;
pub use tcp_ready::{TcpReady, TcpWaker};
pub use wake::Wake;
