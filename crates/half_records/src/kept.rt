//! What is kept of a half message besides the row of its table.

ghost use Rattle.std.specs.Prelude.{◌≡◌, ◌==◌, ◌<◌, ◌≤◌, ◌+◌, not, [], find, option_map, OnOk, IfOk, true};
ghost use Rattle.half_records.specs.Kept.{with_room, with_member, without_family};
ghost use Rattle.half_records.specs.Verdicts.{is_other_id};

use mq_bytes::Text;
use record_copies::Whole;
use std::alloc::{AllocError, Global};
use std::marker::Model;

/// What is kept of a half message. Contracts see the members of its family that are kept, and for how many more there is room.
#[derive(Drop)]
pub struct KeptHalf {
    // The number of its producer group.
    group: u32,
    id: Option<Text>,
    // Of an open origin the origin and its renewals, in their order; else nothing.
    family: Vec<Whole>,
}

impl Model for KeptHalf {
    ghost use Rattle.half_records.specs.Kept.{KeptRow};

    ghost Value = { KeptRow };

    ghost use Rattle.std.specs.Prelude.{◌-◌, vec_len, vec_capacity};

    ghost view = { λ x. record {
      group = x.group;
      id = x.id;
      family = x.family.items;
      spare = vec_capacity x.family - vec_len x.family;
    } };
}

impl KeptHalf {
    // A half message of this group and id, of whose family nothing is kept; an origin has room for itself.
    pub(crate) fn new(
        alloc: Global,
        group: u32,
        id: Option<Text>,
        is_origin: bool,
    ) -> Result<KeptHalf, AllocError>
        ensures group { IfOk result (λ kept. kept.group ≡ group) }
        ensures id { IfOk result (λ kept. kept.id ≡ id) }
        ensures family { IfOk result (λ kept. kept.family ≡ []) }
        ensures room { IfOk result (λ kept. is_origin ≡ true → 0 < kept.spare) }
    {
        let mut family = Vec::new(alloc);
        if is_origin {
            family.reserve(1)?;
        }
        Ok(KeptHalf { group, id, family })
    }

    // The number of its producer group.
    pub(crate) fn group(&self) -> u32
        ensures { result ≡ self.now.group }
    {
        self.group
    }

    // It has this id or none, where one is named.
    pub(crate) fn has_id(&self, id: &str) -> bool
        ensures { result ≡ not (is_other_id id.now self.now.id) }
    {
        match &self.id {
            None => true,
            Some(own) => id.is_empty() || own.as_str() == id,
        }
    }

    // The member of its family with this queue offset.
    pub(crate) fn member(&self, half: u64) -> Option<&Whole>
        ensures { option_map (λ whole. whole.now) result ≡ find (λ r. r.queue_offset == half) self.now.family }
    {
        for whole in &self.family {
            if whole.queue_offset() == half {
                return Some(whole);
            }
        }
        None
    }

    // Makes room for a member more. No member changes, at `Err` either.
    pub(crate) fn reserve(&mut self) -> Result<(), AllocError>
        ensures same { self.new ≡ with_room self.old self.new.spare }
        ensures spare { OnOk result (0 < self.new.spare) }
        ensures kept { self.old.spare ≤ self.new.spare }
    {
        self.family.reserve(1)
    }

    // Adds a member, for which there is room.
    pub(crate) fn put(&mut self, whole: Whole)
        requires { 0 < self.old.spare }
        ensures { self.new ≡ with_member self.old whole self.new.spare }
    {
        self.family.push_reserved(whole);
    }

    // Lets its family go.
    pub(crate) fn let_go(&mut self, alloc: Global)
        ensures { self.new ≡ without_family self.old self.new.spare }
    {
        self.family = Vec::new(alloc);
    }
}
