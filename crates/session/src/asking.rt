//! Check-backs to a link: frames that the broker sends unasked, between the replies. A link numbers those that it is sent, from 0
//! on, by their opaque.

ghost use Rattle.std.specs.Prelude.{◌≡◌};
ghost use Rattle.session.specs.Asking.{AsksOrNot, opaque_of as opaque_for, next_count as count_next};

use crate::session::Session;
use crate::settling::UNSENT_MAX;
use reply_fields::Ask;
use std::alloc::Global;

/// The opaque of a check-back, before which so many were written.
pub fn opaque_of(asked: u32) -> i32
    ensures { result ≡ opaque_for asked }
{
    (asked % (1 << 31)) as i32
}

/// The count behind one more.
pub fn next_count(asked: u32) -> u32
    ensures { result ≡ count_next asked }
{
    asked.wrapping_add(1)
}

impl Session {
    /// Puts the frame of a check-back for this link behind the replies that are written, and before all later ones. Answers
    /// whether it did: where so many bytes wait that no further reply is written either, or there is no memory for it, it is
    /// left out and nothing changes.
    pub fn ask(&mut self, alloc: Global, ask: &Ask) -> bool
        requires { ask.now.link ≡ self.old.talk.link }
        ensures { AsksOrNot self.old ask.now result self.new }
    {
        if self.out.len() - self.sent >= UNSENT_MAX {
            return false;
        }
        match ask.write(alloc, opaque_of(self.asked), &mut self.out) {
            Ok(()) => {
                self.asked = next_count(self.asked);
                true
            }
            Err(_) => false,
        }
    }
}
