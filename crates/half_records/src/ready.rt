//! Room for a half message more, and what is to be kept of it.

ghost use Rattle.std.specs.Prelude.{◌≡◌, ◌<◌, [], ℕ, codes, option_map, IfOk, OnOk, Some, None, vec_len, vec_capacity};
ghost use Rattle.log_model.specs.Numbered.{Log};
ghost use Rattle.half_records.specs.Kept.{KeptRow};
ghost use Rattle.half_records.specs.Names.{number_of};
ghost use Rattle.half_records.specs.OfLog.{HasHalves, IsKeptOf};
ghost use Rattle.half_records.specs.Tables.{HasRoomFor, HasRoomIn, StandsAs, kept_at};

use crate::halves::Halves;
use crate::kept::KeptHalf;
use crate::list::make_room;
use mq_bytes::Text;
use record_codec::Props;
use std::alloc::{AllocError, Global};

// The text, copied.
fn copied(alloc: Global, text: Option<&str>) -> Result<Option<Text>, AllocError>
    ensures { IfOk result (λ copy. copy ≡ option_map (λ t. t.now) text.entry) }
{
    match text {
        None => Ok(None),
        Some(text) => Ok(Some(Text::of(String::from_str(alloc, text)?))),
    }
}

impl Halves {
    // Makes room for a renewal of this origin.
    fn make_room(&mut self, origin: u64) -> Result<(), AllocError>
        ensures view { self.new.view ≡ self.old.view }
        ensures same { StandsAs self.old self.new }
        ensures room { OnOk result ((x : KeptRow) → kept_at self.new origin ≡ Some x → 0 < x.spare) }
        ensures rows { (vec_len self.new.kept ≡ vec_len self.old.kept) × (vec_capacity self.new.kept ≡ vec_capacity self.old.kept) }
    {
        match self.index(origin) {
            None => Ok(()),
            Some(k) => make_room(&mut self.kept, k),
        }
    }

    // Makes room for a half message that names this origin or none. Nothing else changes, at `Err` either.
    fn reserve(&mut self, alloc: Global, named: Option<u64>) -> Result<(), AllocError>
        ensures same { StandsAs self.old self.new }
        ensures room { OnOk result (HasRoomIn self.new named) }
    {
        self.view.reserve(alloc)?;
        self.kept.reserve(1)?;
        match named {
            None => Ok(()),
            Some(origin) => self.make_room(origin),
        }
    }

    // The same with what is to be kept of a half message of this group and id.
    pub(crate) fn make_ready_by(
        &mut self,
        alloc: Global,
        named: Option<u64>,
        group: &str,
        id: Option<&str>,
    ) -> Result<KeptHalf, AllocError>
        ensures room { IfOk result (λ kept. HasRoomFor self.new named kept) }
        ensures group { IfOk result (λ kept. number_of self.new.groups group.now ≡ Some kept.group) }
        ensures id { IfOk result (λ kept. kept.id ≡ option_map (λ t. t.now) id.entry) }
        ensures family { IfOk result (λ kept. kept.family ≡ []) }
        ensures same { StandsAs self.old self.new }
    {
        self.reserve(alloc, named)?;
        let group = self.groups.add(alloc, group)?;
        let id = copied(alloc, id)?;
        KeptHalf::new(alloc, group, id, named.is_none())
    }

    /// What is to be kept of a half message with these properties, which names this origin or none, and room for it. Nothing
    /// else changes, at `Err` either.
    pub fn make_ready(
        &mut self,
        alloc: Global,
        named: Option<u64>,
        props: &Props,
    ) -> Result<KeptHalf, AllocError>
        ensures room { IfOk result (λ kept. HasRoomFor self.new named kept) }
        ensures kept { IfOk result (λ kept. IsKeptOf self.new.groups props.now [] kept) }
        ensures view { (self.new.view.low ≡ self.old.view.low) × (self.new.view.halves ≡ self.old.view.halves) }
        ensures same { (log : Log) → HasHalves log self.old → HasHalves log self.new }
    {
        self.make_ready_by(
            alloc,
            named,
            props.get("PGROUP").unwrap_or(""),
            props.get("UNIQ_KEY"),
        )
    }
}
