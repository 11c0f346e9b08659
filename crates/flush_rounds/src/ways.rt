//! The two ends of a way.

ghost use Rattle.std.specs.Prelude.{◌≡◌, ◌++◌, [], ◌∷◌, List, length, true, false, IfOk, IfNone, IfSome};
ghost use Rattle.flush_rounds.specs.Ways.{ArePair, put_by, taken_by};
ghost use Rattle.flush_rounds.specs.declared.ways.Receiver.{Receiver as TheReceiver};
ghost use Rattle.flush_rounds.specs.declared.ways.Sender.{Sender as TheSender};

use rtrb::{Consumer, Producer, RingBuffer};
use std::alloc::{AllocError, Global};

/// The end at which items are put in.
#[derive(Drop)]
pub struct Sender<T: Drop> {
    pub(crate) ring: Producer<T, Global>,
}

/// The end at which they are taken out.
#[derive(Drop)]
pub struct Receiver<T: Drop> {
    pub(crate) ring: Consumer<T, Global>,
}

/// Both ends of a way with room for so many items, which has none yet.
pub fn way<T: Drop>(alloc: Global, room: usize) -> Result<(Sender<T>, Receiver<T>), AllocError>
    ensures pair { IfOk result (λ ends. ArePair ends.0 ends.1) }
    ensures none { IfOk result (λ ends. (put_by ends.0 ≡ []) × (taken_by ends.1 ≡ [])) }
{
    let (sender, receiver) = RingBuffer::new(alloc, room)?;
    Ok((Sender { ring: sender }, Receiver { ring: receiver }))
}

impl<T: Drop> Sender<T> {
    /// Puts an item in, behind all that were. Where the way is full the item is dropped. Answers whether it was put. It waits for
    /// nobody.
    pub fn put(&mut self, item: T) -> bool
        ensures pair { (receiver : TheReceiver T) → ArePair self.old receiver → ArePair self.new receiver }
        ensures put { result ≡ true → put_by self.new ≡ put_by self.old ++ item ∷ [] }
        ensures dropped { result ≡ false → put_by self.new ≡ put_by self.old }
    {
        match self.ring.push(item) {
            Ok(()) => true,
            Err(full) => {
                drop(full);
                false
            }
        }
    }
}

impl<T: Drop> Receiver<T> {
    /// Takes the oldest item out, if one has arrived. It waits for nobody.
    pub fn take(&mut self) -> Option<T>
        ensures pair { (sender : TheSender T) → ArePair sender self.old → ArePair sender self.new }
        ensures some { IfSome result (λ item. taken_by self.new ≡ taken_by self.old ++ item ∷ []) }
        ensures none { IfNone result (taken_by self.new ≡ taken_by self.old) }
    {
        match self.ring.pop() {
            Ok(item) => Some(item),
            Err(_) => None,
        }
    }

    /// How many items are still on the way, where both ends are in one thread: what was taken is the first part of what was put, and
    /// these are the rest.
    pub fn count_beside(&mut self, sender: &mut Sender<T>) -> usize
        requires pair { ArePair sender.old self.old }
        ensures pair { ArePair sender.new self.new }
        ensures same { (put_by sender.new ≡ put_by sender.old) × (taken_by self.new ≡ taken_by self.old) }
        ensures front { (rest : List T) × (length rest ≡ result) × (put_by sender.new ≡ taken_by self.new ++ rest) }
    {
        self.ring.slots_beside(&mut sender.ring)
    }
}
