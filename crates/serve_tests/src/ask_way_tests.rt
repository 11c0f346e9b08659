//! A way of two items in one thread, and one between two threads.

use flush_rounds::{Receiver, Sender, way};
use std::sync::Wait;
use std::test::Fail;
use std::thread;
use std::thread::join;

#[test]
fn a_full_way_drops_an_item_and_gives_the_others_in_order(rt: HostRuntime) -> Result<(), Fail> {
    let (mut sender, mut receiver) = way(rt.alloc(), 2)?;
    assert!(rt; receiver.count_beside(&mut sender) == 0);
    assert!(rt; receiver.take().is_none());
    assert!(rt; sender.put(1_u32));
    assert!(rt; sender.put(2));
    assert!(rt; !sender.put(3));
    assert!(rt; receiver.take() == Some(1));
    assert!(rt; sender.put(4));
    assert!(rt; receiver.take() == Some(2));
    assert!(rt; receiver.take() == Some(4));
    assert!(rt; receiver.take().is_none());
    Ok(())
}

// Puts an item once there is room.
fn put_once<R: Wait>(rt: &R, sender: &mut Sender<u32>, item: u32) {
    for _ in rt.forever() {
        if sender.put(item) {
            return;
        }
        thread::yield_now();
    }
    unreachable!()
}

// The next item, once it has come.
fn take_next<R: Wait>(rt: &R, receiver: &mut Receiver<u32>) -> u32 {
    for _ in rt.forever() {
        if let Some(item) = receiver.take() {
            return item;
        }
        thread::yield_now();
    }
    unreachable!()
}

// Puts the first thousand numbers.
fn put_all<R: Wait>(rt: &R, sender: Sender<u32>) {
    let mut sender = sender;
    for item in 0..1_000 {
        put_once(rt, &mut sender, item);
    }
}

// Takes a thousand items. Answers whether they are the first numbers in order.
fn take_all<R: Wait>(rt: &R, receiver: Receiver<u32>) -> bool {
    let mut receiver = receiver;
    let mut are_in_order = true;
    for item in 0..1_000 {
        are_in_order = take_next(rt, &mut receiver) == item && are_in_order;
    }
    are_in_order
}

#[test]
fn a_thousand_items_come_in_order_to_another_thread(rt: HostRuntime) -> Result<(), Fail> {
    let (sender, receiver) = way(rt.alloc(), 4)?;
    let ((), are_in_order) = join(&rt, || put_all(&rt, sender), || take_all(&rt, receiver));
    assert!(rt; are_in_order);
    Ok(())
}
