//! Times in a tree. Each node has the earliest of the times below it: so one look tells that none has come, and the first that
//! has come is found by a step for each doubling of the tree.

ghost use Rattle.std.specs.Prelude.{◌≡◌, ◌<◌, ◌≤◌, ◌+◌, ◌*◌, ◌/◌, ◌^◌, ◌-◌, [], ℕ, length, drop, slice_get};
ghost use Rattle.std.specs.Prelude.{slice_set, OnErr, OnOk, IfOk, IfSome, IfNone, Some, vec_len};
ghost use Rattle.half_view.specs.Times.{AreAllLater, AreLeast, AreLeastBut};

use std::alloc::{AllocError, Global};
use std::marker::Model;

/// Stands for a time that never comes.
pub(crate) const NEVER: u64 = u64::MAX;

// A higher tree is not made: it would not fit in any memory.
const HEIGHT_MAX: u32 = 56;

/// Times in order. Contracts see the list of them.
#[derive(Drop)]
pub struct Times {
    // Node 1 is the root, and below node i stand the nodes 2 i and 2 i + 1. The second half of the nodes are the times; each
    // other one has the earlier of the two below it, and node 0 has nothing.
    nodes: Vec<u64>,
    // How many steps lead from the root to a time.
    height: u32,
}

impl Model for Times {
    ghost use Rattle.std.specs.Prelude.{List, ℕ};

    ghost Value = { List ℕ };

    ghost use Rattle.half_view.specs.Times.{times_in, IsTree};

    ghost view = { λ t. times_in t.nodes.items };

    ghost invariant = { λ t. IsTree t.nodes.items t.height };
}

// The node that stands below the same one as this does.
fn beside(node: usize) -> usize
    requires { node < 2 ^ 63 }
    ensures { result + node ≡ 4 * (node / 2) + 1 }
{
    node + 1 - 2 * (node % 2)
}

// A node was changed: those above it have their earliest times again.
fn climb(nodes: &mut Vec<u64>, from: usize)
    requires from { from < vec_len nodes.old }
    requires even { vec_len nodes.old ≡ 2 * (vec_len nodes.old / 2) }
    requires least { AreLeastBut nodes.old.items (from / 2) }
    ensures least { AreLeast nodes.new.items }
    ensures times { drop (length nodes.old.items / 2) nodes.new.items ≡ drop (length nodes.old.items / 2) nodes.old.items }
    ensures len { length nodes.new.items ≡ length nodes.old.items }
{
    let mut node = from;
    let mut least = nodes[from];
    while node > 1 {
        least = least.min(nodes[beside(node)]);
        node /= 2;
        if nodes[node] == least {
            return;
        }
        nodes[node] = least;
    }
}

// The node of the first time that has come, in a tree of this height.
fn first_node(nodes: &Vec<u64>, height: u32, now: u64) -> usize
    requires size { length nodes.now.items ≡ 2 * 2 ^ height }
    requires least { AreLeast nodes.now.items }
    requires come { (root : ℕ) → slice_get nodes.now.items 1 ≡ Some root → root ≤ now }
    ensures time { length nodes.now.items / 2 ≤ result }
    ensures come { (time : ℕ) × (slice_get nodes.now.items result ≡ Some time) × (time ≤ now) }
    ensures first { (j time : ℕ) → length nodes.now.items / 2 ≤ j → j < result → slice_get nodes.now.items j ≡ Some time → now < time }
{
    let mut node = 1;
    for _ in 0..height {
        node *= 2;
        if nodes[node] > now {
            node += 1;
        }
    }
    node
}

impl Times {
    // No times; takes no memory.
    pub(crate) fn new(alloc: Global) -> Times
        ensures { result ≡ [] }
    {
        Times {
            nodes: Vec::new(alloc),
            height: 0,
        }
    }

    // How many times there are.
    pub(crate) fn len(&self) -> usize
        ensures { result ≡ length self.now }
    {
        self.nodes.len() / 2
    }

    // The time at this index.
    fn at(&self, k: usize) -> u64
        requires { k < length self.now }
        ensures { slice_get self.now k ≡ Some result }
    {
        self.nodes[self.nodes.len() / 2 + k]
    }

    // Another time at this index.
    pub(crate) fn set(&mut self, k: usize, time: u64)
        requires { k < length self.old }
        ensures { self.new ≡ slice_set self.old k time }
    {
        let leaf = self.nodes.len() / 2 + k;
        self.nodes[leaf] = time;
        climb(&mut self.nodes, leaf);
    }

    // The index of the first time that is at most `now`.
    pub(crate) fn first(&self, now: u64) -> Option<usize>
        ensures come { IfSome result (λ k. (time : ℕ) × (slice_get self.now k ≡ Some time) × (time ≤ now)) }
        ensures first { IfSome result (λ k. AreAllLater now self.now k) }
        ensures none { IfNone result (AreAllLater now self.now (length self.now)) }
    {
        if self.nodes.is_empty() || self.nodes[1] > now {
            return None;
        }
        let node = first_node(&self.nodes, self.height, now);
        Some(node - self.nodes.len() / 2)
    }

    // The earliest of the times, where there are any.
    pub(crate) fn earliest(&self) -> Option<u64>
        ensures none { IfNone result (length self.now ≡ 0) }
        ensures later { IfSome result (λ earliest. (now : ℕ) → now < earliest → AreAllLater now self.now (length self.now)) }
        ensures come { IfSome result (λ earliest. (k : ℕ) × (time : ℕ) × (slice_get self.now k ≡ Some time) × (time ≤ earliest)) }
    {
        if self.nodes.is_empty() {
            return None;
        }
        Some(self.nodes[1])
    }

    // A tree of so many nodes, whose times never come.
    fn of_never(alloc: Global, count: usize, height: u32) -> Result<Times, AllocError>
        requires { count ≡ 2 * 2 ^ height }
        ensures all { IfOk result (λ times. length times ≡ count / 2) }
        ensures never { IfOk result (λ times. (k time : ℕ) → slice_get times k ≡ Some time → time ≡ 2 ^ 64 - 1) }
    {
        Ok(Times {
            nodes: vec![in alloc; NEVER; count]?,
            height,
        })
    }

    // More times than these, which never come.
    fn of_more(&self, alloc: Global) -> Result<Times, AllocError>
        ensures longer { IfOk result (λ times. length self.now < length times) }
        ensures never { IfOk result (λ times. (k time : ℕ) → slice_get times k ≡ Some time → time ≡ 2 ^ 64 - 1) }
    {
        if self.nodes.is_empty() {
            return Times::of_never(alloc, 2, 0);
        }
        if self.height >= HEIGHT_MAX {
            return Err(AllocError);
        }
        Times::of_never(alloc, 2 * self.nodes.len(), self.height + 1)
    }

    // Times more behind these, which never come. At `Err` nothing has changed.
    pub(crate) fn grow(&mut self, alloc: Global) -> Result<(), AllocError>
        ensures longer { OnOk result (length self.old < length self.new) }
        ensures err { OnErr result (self.new ≡ self.old) }
        ensures kept { length self.old ≤ length self.new }
        ensures same { (k time : ℕ) → slice_get self.old k ≡ Some time → slice_get self.new k ≡ Some time }
        ensures never { (k time : ℕ) → length self.old ≤ k → slice_get self.new k ≡ Some time → time ≡ 2 ^ 64 - 1 }
    {
        let mut more = self.of_more(alloc)?;
        for k in 0..self.len() {
            more.set(k, self.at(k));
        }
        *self = more;
        Ok(())
    }
}
