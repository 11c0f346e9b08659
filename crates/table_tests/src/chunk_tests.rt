//! Lists over several chunks, as their callers use them.

use chunks::{CHUNK, Chunks, Keyed};
use std::test::Fail;

/// A time, by which a list is searched.
#[derive(Clone, Copy)]
struct Stamp(u64);

impl Keyed for Stamp {
    ghost key = { λ stamp. stamp.0 };

    fn key(&self) -> u64 {
        self.0
    }
}

#[test]
fn items_are_found_over_three_chunks_and_after_cuts(rt: HostRuntime) -> Result<(), Fail> {
    let mut list = Chunks::new(rt.alloc());
    for number in 0..3000u64 {
        list.reserve(rt.alloc(), 1)?;
        list.push(number);
    }
    for (count, first) in [
        (0, 0u64),
        (1, 1),
        (1023, 1024),
        (1424, 2448),
        (500, 2948),
        (52, 3000),
    ] {
        assert!(rt; count <= list.len());
        list.cut(count);
        assert!(rt; first.wrapping_add(list.len() as u64) == 3000);
        for index in 0..list.len() {
            let number = list.at(index).wrapping_sub(first);
            assert!(rt; number == index as u64, "without {first}");
        }
    }
    list.reserve(rt.alloc(), CHUNK)?;
    list.push(3000);
    assert!(rt; (list.len(), list.at(0)) == (1, 3000));
    Ok(())
}

#[test]
fn the_first_at_or_past_a_bound_is_found(rt: HostRuntime) -> Result<(), Fail> {
    let mut list = Chunks::new(rt.alloc());
    list.reserve(rt.alloc(), 3)?;
    list.push(Stamp(5));
    list.push(Stamp(7));
    for (bound, index) in [(0, 0), (5, 0), (6, 1), (7, 1), (8, 2)] {
        assert!(rt; list.search(2, bound) == index, "at {bound}");
    }
    Ok(())
}
