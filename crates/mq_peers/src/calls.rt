//! Which calls of a device in memory are marked, as those that say 'not now'. The first call of a device is number 1.

ghost use Rattle.std.specs.Prelude.{◌≡◌, ◌↔◌, IsTrue};
ghost use Rattle.mq_outside.specs.Counts.{Counted};
ghost use Rattle.mq_peers.specs.Calls.{IsOneOf};

/// Some calls of a device, by their numbers.
#[derive(Drop)]
pub enum Calls {
    Never,
    Always,
    /// The first, the third and so on.
    EveryOther,
    /// This one and all later ones.
    From(u64),
    /// Those with these numbers.
    At(Vec<u64>),
}

// Some calls, and how many calls came so far, up to 2^64 - 1.
#[derive(Drop)]
pub(crate) struct Marked {
    pub calls: Calls,
    pub asked: u64,
}

// Whether the call with this number is one of these.
fn is_one_of(calls: &Calls, number: u64) -> bool
    ensures { IsTrue result ↔ IsOneOf calls.now number }
{
    match calls {
        Calls::Never => false,
        Calls::Always => true,
        Calls::EveryOther => number % 2 == 1,
        Calls::From(first) => *first <= number,
        Calls::At(numbers) => numbers.contains(&number),
    }
}

impl Marked {
    // No call came yet.
    pub fn new(calls: Calls) -> Marked
        ensures calls { result.calls ≡ calls }
        ensures asked { result.asked ≡ 0 }
    {
        Marked { calls, asked: 0 }
    }

    // Counts a call, and answers whether it is marked.
    pub fn next(&mut self) -> bool
        ensures marked { IsTrue result ↔ IsOneOf self.new.calls self.new.asked }
        ensures calls { self.new.calls ≡ self.old.calls }
        ensures asked { Counted 1 self.old.asked self.new.asked }
    {
        self.asked = self.asked.saturating_add(1);
        is_one_of(&self.calls, self.asked)
    }
}
