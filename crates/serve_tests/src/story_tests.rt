//! A counter under the lock: its event is what is added, and what is said is the count before.

ghost use Rattle.std.specs.Prelude.{◌≡◌, ◌==◌, ◌+◌, ◌%◌, ◌^◌, ◌≤◌, ℕ, List, [], ◌∷◌, ◌++◌, length};
ghost use Rattle.story_lock.specs.Counting.{Counts};
ghost use Rattle.story_lock.specs.Passes.{IsPassOf, HasSeat, HasKey, Adds, seen_by, numbers_of};

use std::sync::Wait;
use std::test::Fail;
use std::thread::join;
use story_lock::{Chronicle, Pass, Story};

#[derive(Drop)]
struct Counter {
    count: u64,
}

impl Chronicle for Counter {
    type Event = u64;

    type Said = u64;

    ghost represents = { λ start log now. Counts start.count log now.count };

    // To add nothing takes the key.
    ghost keyed = { λ event said. event == 0 };
}

impl Counter {
    fn add(&mut self, amount: u64) -> u64
        ensures said { result ≡ self.old.count }
        ensures count { self.new.count ≡ (self.old.count + amount) % 2 ^ 64 }
    {
        let before = self.count;
        self.count = before.wrapping_add(amount);
        before
    }
}

fn add<R: Wait>(
    rt: &R,
    story: &Story<Counter>,
    pass: Pass<Counter>,
    amount: u64,
) -> (Pass<Counter>, u64)
    requires of { IsPassOf story.now pass }
    requires seat { HasSeat pass }
    requires key { amount ≡ 0 → HasKey pass }
    ensures of { IsPassOf story.now result.0 }
    ensures adds { Adds pass amount result.1 result.0 }
{
    let mut turn = story.enter(rt, pass);
    let before = turn.state().add(amount);
    (turn.end(&amount, &before), before)
}

// The second pass, split off after an entry, has seen it.
fn split_after_an_entry<R: Wait>(
    rt: &R,
    story: &Story<Counter>,
    pass: Pass<Counter>,
) -> (Pass<Counter>, Pass<Counter>)
    requires of { IsPassOf story.now pass }
    requires two { 2 ≤ length (numbers_of pass) }
    ensures of { IsPassOf story.now result.0 × IsPassOf story.now result.1 }
    ensures seen { (between : List (ℕ × ℕ)) × (said : ℕ) × (seen_by result.1 ≡ (seen_by pass ++ between) ++ (1, said) ∷ []) }
{
    let (pass, _) = add(rt, story, pass, 1);
    story.split(pass)
}

#[test]
fn two_passes_that_enter_once_each_make_two_entries(rt: HostRuntime) -> Result<(), Fail> {
    let (story, pass) = match Story::new(rt.alloc(), Counter { count: 0 }, 2) {
        Ok(made) => made,
        Err((_, failed)) => return Err(failed.into()),
    };
    let (one, two) = story.split(pass);
    let shared = &story;
    let (one, two) = join(
        &rt,
        || add(&rt, shared, one, 1),
        || add(&rt, shared, two, 1),
    );
    assert!(rt; (one.1, two.1) == (0, 1) || (one.1, two.1) == (1, 0));
    let pass = story.join(one.0, two.0);
    assert!(rt; story.close(&rt, pass).count == 2);
    Ok(())
}

#[test]
fn a_pass_that_is_split_off_has_seen_as_much(rt: HostRuntime) -> Result<(), Fail> {
    let (story, pass) = match Story::new(rt.alloc(), Counter { count: 5 }, 2) {
        Ok(made) => made,
        Err((_, failed)) => return Err(failed.into()),
    };
    let (one, two) = split_after_an_entry(&rt, &story, pass);
    let (one, watcher) = story.watch(one);
    let pass = story.join(story.join(two, watcher), one);
    assert!(rt; story.close(&rt, pass).count == 6);
    Ok(())
}

#[test]
fn the_first_pass_keeps_the_key(rt: HostRuntime) -> Result<(), Fail> {
    let (story, pass) = match Story::new(rt.alloc(), Counter { count: 7 }, 3) {
        Ok(made) => made,
        Err((_, failed)) => return Err(failed.into()),
    };
    let (first, second) = story.split(pass);
    let (second, before) = add(&rt, &story, second, 3);
    assert!(rt; before == 7);
    let (first, before) = add(&rt, &story, first, 0);
    assert!(rt; before == 10);
    let pass = story.join(first, second);
    assert!(rt; story.close(&rt, pass).count == 10);
    Ok(())
}
