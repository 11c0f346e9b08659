//! The links over TCP that have ended, of which nothing is kept but how many they are.

use crate::ends::Ends;
use crate::link::Link;
use crate::tcp_link::TcpLink;

/// Counts the links that have ended, up to 2^64 - 1.
#[derive(Drop)]
pub struct TcpEnds {
    count: u64,
}

impl TcpEnds {
    /// No links.
    pub fn new() -> TcpEnds {
        TcpEnds { count: 0 }
    }
}

impl Ends<TcpLink> for TcpEnds {
    ghost use Rattle.std.specs.Prelude.{[]};

    ghost tells = { ⊥ };

    ghost entries = { λ _. [] };

    fn end(&mut self, _number: u32, link: TcpLink) -> bool {
        let mut link = link;
        link.close();
        self.count = self.count.saturating_add(1);
        true
    }

    fn count(&self) -> u64 {
        self.count
    }
}
