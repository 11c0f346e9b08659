//! The links that have ended: each goes in here, whole, as the last thing that is done with it.

ghost use Rattle.std.specs.Prelude.{◌≡◌, ◌++◌, ◌∷◌, [], List, length, true};
ghost use Rattle.mq_peers.specs.Ended.{LinkEnd, end_of};

use crate::link::Link;

/// Links that have ended, in the order in which they did. Only a link makes an entry, which says what it gave and took. What the
/// entries are is said where `tells` holds; of a server's nothing is kept but how many there are.
pub trait Ends<L: Link> {
    /// That it tells its entries.
    ghost tells: { Type 0 };

    /// Its entries.
    ghost entries: { Self → List LinkEnd };

    /// Closes a link and enters it with the number that it had. Answers whether it is entered: there may be no memory.
    fn end(&mut self, number: u32, link: L) -> bool
        ensures entered { tells → result ≡ true
            → entries self.new ≡ entries self.old ++ end_of L.peer L.given L.taken number link ∷ [] };

    /// How many were entered.
    fn count(&self) -> u64
        ensures { tells → result ≡ length (entries self.now) };
}
