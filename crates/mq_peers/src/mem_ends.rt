//! The links that have ended, kept in memory.

ghost use Rattle.std.specs.Prelude.{◌≡◌, ◌++◌, ◌∷◌, [], length, true, false};
ghost use Rattle.mq_peers.specs.Ended.{end_of};

use crate::ends::Ends;
use crate::link::Link;
use std::alloc::Global;

/// A link that has ended, with the number that it had.
#[derive(Drop)]
pub struct EndedLink<L: Link + Drop> {
    pub number: u32,
    pub link: L,
}

/// Keeps each link that has ended, closed. It tells its entries where its links tell what they gave and took.
#[derive(Drop)]
pub struct MemEnds<L: Link + Drop> {
    links: Vec<EndedLink<L>>,
}

impl<L: Link + Drop> MemEnds<L> {
    /// No links.
    pub fn new(alloc: Global) -> MemEnds<L>
        ensures { result.links.items ≡ [] }
    {
        MemEnds {
            links: Vec::new(alloc),
        }
    }

    /// The links that have ended, in order.
    pub fn links(&self) -> &[EndedLink<L>]
        ensures { result.now ≡ self.now.links.items }
    {
        self.links.as_slice()
    }
}

impl<L: Link + Drop> Ends<L> for MemEnds<L> {
    ghost use Rattle.mq_peers.specs.Kept.{ends_of};

    ghost tells = { L.tells };

    ghost entries = { λ s. ends_of L.peer L.given L.taken s.links.items };

    fn end(&mut self, number: u32, link: L) -> bool
        ensures entered { L.tells → result ≡ true → ends_of L.peer L.given L.taken self.new.links.items
            ≡ ends_of L.peer L.given L.taken self.old.links.items ++ end_of L.peer L.given L.taken number link ∷ [] }
        ensures left_out { result ≡ false → self.new.links.items ≡ self.old.links.items }
    {
        let mut link = link;
        link.close();
        self.links.push(EndedLink { number, link }).is_ok()
    }

    fn count(&self) -> u64
        ensures { result ≡ length self.now.links.items }
    {
        self.links.len() as u64
    }
}
