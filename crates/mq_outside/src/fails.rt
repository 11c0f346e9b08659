//! Which calls of a device in memory are to fail: a list of their numbers. The first call of a device is number 1.

ghost use Rattle.std.specs.Prelude.{◌≡◌, ◌↔◌, IsTrue};
ghost use Rattle.std.specs.List.{Contains};
ghost use Rattle.mq_outside.specs.Counts.{Counted};

/// The numbers of the calls that are to fail, and how many calls came so far.
#[derive(Drop)]
pub struct Fails {
    pub calls: Vec<u64>,
    pub asked: u64,
}

impl Fails {
    /// No call came yet.
    pub fn new(calls: Vec<u64>) -> Fails
        ensures calls { result.calls ≡ calls }
        ensures asked { result.asked ≡ 0 }
    {
        Fails { calls, asked: 0 }
    }

    /// Counts a call, and answers whether it is one that is to fail.
    pub fn next(&mut self) -> bool
        ensures listed { IsTrue result ↔ Contains self.new.calls.items self.new.asked }
        ensures calls { self.new.calls ≡ self.old.calls }
        ensures asked { Counted 1 self.old.asked self.new.asked }
    {
        self.asked = self.asked.saturating_add(1);
        self.calls.contains(&self.asked)
    }
}
