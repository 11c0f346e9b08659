//! What is loaded before the broker opens: each record's row, the tables of queues, the topics, and the offsets that were kept.

ghost use Rattle.std.specs.Prelude.{◌≡◌, ◌<◌, ◌≤◌, ◌+◌, ◌^◌, ◌++◌, ◌∷◌, [], ℕ, List, Some, false, true};
ghost use Rattle.std.specs.Prelude.{IfOk, IfSome, OnOk, IsTrue, None, codes, if◌then◌else◌};
ghost use Rattle.std.specs.Str.Parse.{digits_value};
ghost use Rattle.record_codec.specs.Entry.{Entry};
ghost use Rattle.record_codec.specs.Layout.{is_legal};
ghost use Rattle.record_codec.specs.Props.{value_of};
ghost use Rattle.log_model.specs.Admissible.{is_system_topic as is_system};
ghost use Rattle.log_model.specs.Drafts.{text_in};
ghost use Rattle.log_model.specs.Numbered.{queue_max};
ghost use Rattle.broker_model.specs.Tables.{TopicRow, OffsetRow};
ghost use Rattle.group_tables.specs.Offsets.{offset_row, IsOffset};
ghost use Rattle.client_tables.specs.Counts.{queues_of};
ghost use Rattle.core_log.specs.Loads.{IsForLegalTopic, IsLoadedFrom, IsLoadedWith, whole_log, topic_row};
ghost use Rattle.core_log.specs.Loads.{count_with, known_with, own_with, real_with};

use client_tables::Topics;
use group_tables::Groups;
use half_records::Halves;
use key_view::{KeyView, RecordKeys};
use level_records::Levels;
use log_model::is_system_topic;
use mq_bytes::read_decimal;
use pending_log::{Row, Rows};
use queue_view::QueueView;
use record_codec::{View, is_legal_topic, unit_of};
use std::alloc::{AllocError, Global};

// How many queues a topic has at least that a record names first.
const QUEUES_MIN: u32 = 4;

// More records than this no log has.
const RECORDS_MAX: u64 = 1 << 61;

/// The records of a log as far as they were loaded, from place 0 on.
#[derive(Drop)]
pub struct Loaded {
    pub(crate) rows: Rows,
    pub(crate) keys: KeyView,
    pub(crate) halves: Halves,
    pub(crate) levels: Levels,
    pub(crate) queues: QueueView,
    pub(crate) topics: Topics,
    pub(crate) groups: Groups,
    // Where the last record ends, and when it was stored, in milliseconds.
    pub(crate) end: u64,
    pub(crate) store: u64,
}

// Whether a topic with so many queues has this one.
fn has_queue(had: Option<u32>, queue: u32) -> bool
    ensures { IsTrue result → had ≡ Some (count_with had queue) }
{
    match had {
        Some(queues) => queues > queue,
        None => false,
    }
}

// How many queues a topic has once it has this one.
fn queues_with(had: Option<u32>, queue: u32) -> u32
    requires { queue + 1 < 2 ^ 32 }
    ensures { result ≡ count_with had queue }
{
    match had {
        Some(queues) => queues.max(queue + 1),
        None => QUEUES_MIN.max(queue + 1),
    }
}

// The topic has this queue from now on.
fn know(topics: &mut Topics, alloc: Global, topic: &str, queue: u32) -> Result<(), AllocError>
    ensures { OnOk result ((other : List ℕ) → queues_of topics.new other ≡ known_with (queues_of topics.old) topic.now queue other) }
{
    let had = topics.find(topic);
    if has_queue(had, queue) {
        return Ok(());
    }
    if queue == u32::MAX {
        return Err(AllocError);
    }
    let name = String::from_str(alloc, topic)?;
    topics.reserve()?;
    topics.make(name, queues_with(had, queue));
    Ok(())
}

// The same of a topic of clients; the broker's own topics are in no table.
fn know_own(topics: &mut Topics, alloc: Global, topic: &str, queue: u32) -> Result<(), AllocError>
    ensures { OnOk result ((other : List ℕ) → queues_of topics.new other ≡ own_with (queues_of topics.old) topic.now queue other) }
{
    if is_system_topic(topic) {
        return Ok(());
    }
    know(topics, alloc, topic, queue)
}

// The queue that digits name, of which a topic has 1,024 at most.
fn queue_in(text: &str) -> Option<u32>
    ensures value { IfSome result (λ queue. queue ≡ digits_value 10 text.now) }
    ensures few { IfSome result (λ queue. queue < 1024) }
{
    if text.starts_with('-') {
        return None;
    }
    match read_decimal(text) {
        Some(queue) if queue >= 0 && queue < 1024 => Some(queue as u32),
        _ => None,
    }
}

// The queue that a message is for which waits.
fn real_queue(view: &View<'_>) -> Option<u32>
    ensures value { IfSome result (λ queue. queue ≡ digits_value 10 (text_in (codes "REAL_QID") view.now.props)) }
    ensures few { IfSome result (λ queue. queue < 1024) }
{
    queue_in(view.prop("REAL_QID")?)
}

// The topic that a half or delayed message is for has the queue that it is for. `Err` comes for want of memory, for a name that is
// not legal, and where the queue isn't told.
fn know_real(topics: &mut Topics, alloc: Global, view: &View<'_>) -> Result<(), AllocError>
    ensures topics { OnOk result ((other : List ℕ)
        → queues_of topics.new other ≡ real_with (queues_of topics.old) (value_of (codes "REAL_TOPIC") view.now.props) view.now other) }
    ensures real { OnOk result (IsForLegalTopic view.now) }
{
    let Some(topic) = view.prop("REAL_TOPIC") else {
        return Ok(());
    };
    if !is_legal_topic(topic) {
        return Err(AllocError);
    }
    match real_queue(view) {
        Some(queue) => know_own(topics, alloc, topic, queue),
        None => Err(AllocError),
    }
}

impl Loaded {
    /// Nothing is loaded yet.
    pub fn new(alloc: Global) -> Result<Loaded, AllocError>
        ensures { IfOk result (IsLoadedFrom [] []) }
    {
        Ok(Loaded {
            rows: Rows::new(alloc, 0),
            keys: KeyView::new(alloc),
            halves: Halves::new(alloc),
            levels: Levels::new(alloc)?,
            queues: QueueView::new(alloc),
            topics: Topics::new(alloc),
            groups: Groups::new(alloc),
            end: 0,
            store: 0,
        })
    }

    /// Loads a topic of the kept file, before all records. One that was loaded already stays as it is.
    pub fn add_topic(&mut self, alloc: Global, topic: &str, queues: u32) -> Result<(), AllocError>
        requires legal { is_legal topic.now ≡ true }
        requires plain { is_system topic.now ≡ false }
        requires some { 0 < queues }
        requires few { queues ≤ 1024 }
        ensures { (saved : List TopicRow) → IsLoadedFrom saved [] self.old
            → OnOk result (IsLoadedFrom (saved ++ topic_row topic.now queues ∷ []) [] self.new) }
    {
        if self.topics.find(topic).is_some() {
            return Ok(());
        }
        let name = String::from_str(alloc, topic)?;
        self.topics.reserve()?;
        self.topics.make(name, queues);
        Ok(())
    }

    /// Loads the next record. `Err` comes for want of memory, and for a record that no log of a broker has. What is loaded serves
    /// for nothing then.
    pub fn add(&mut self, alloc: Global, view: &View<'_>) -> Result<(), AllocError>
        ensures { (saved : List TopicRow) (records : List Entry) → IsLoadedFrom saved records self.old
            → OnOk result (IsLoadedFrom saved (records ++ view.now ∷ []) self.new) }
    {
        if self.rows.end() >= RECORDS_MAX {
            return Err(AllocError);
        }
        let topic = view.topic();
        let queue = view.queue();
        let place = view.offset();
        let size = view.size();
        let store = view.store();
        self.keys.reserve(alloc, RecordKeys::of_view(view).count())?;
        self.rows.reserve(alloc, 1)?;
        let table = self.queues.reserve(alloc, topic, queue, 1)?;
        know_own(&mut self.topics, alloc, topic, queue)?;
        know_real(&mut self.topics, alloc, view)?;
        self.halves.load(alloc, view, self.rows.end())?;
        self.levels.load(alloc, view)?;
        self.queues.add(table, unit_of(view), store);
        self.keys.add_all(RecordKeys::of_view(view), place, store);
        self.rows.push(Row { place, size, table });
        self.end = place + u64::from(size);
        self.store = store;
        Ok(())
    }

    /// The tables of queues.
    pub fn queues(&self) -> &QueueView
        ensures { result.now ≡ self.now.queues }
    {
        &self.queues
    }

    /// The table of keys.
    pub fn keys(&self) -> &KeyView
        ensures { result.now ≡ self.now.keys }
    {
        &self.keys
    }

    /// The half messages.
    pub fn halves(&self) -> &Halves
        ensures { result.now ≡ self.now.halves }
    {
        &self.halves
    }

    /// The delayed messages.
    pub fn levels(&self) -> &Levels
        ensures { result.now ≡ self.now.levels }
    {
        &self.levels
    }

    // The offset after the last record of a queue.
    fn end_of(&self, topic: &str, queue: u32) -> u64
        ensures { (saved : List TopicRow) (records : List Entry) (kept : List OffsetRow) → IsLoadedWith saved records kept self.entry.now
            → result ≡ queue_max (whole_log records) topic.now queue }
    {
        match self.queues.find(topic, queue) {
            Some(table) => self.queues.added(table),
            None => 0,
        }
    }

    /// Loads an offset of the kept file, behind all records; it is at most the end of its queue. An offset of the same group and
    /// queue that was loaded before counts no more, so that the rows of a file are loaded from the last to the first. At `Err`
    /// what is loaded serves for nothing.
    pub fn add_offset(
        &mut self,
        group: &str,
        topic: &str,
        queue: u32,
        offset: u64,
    ) -> Result<(), AllocError>
        requires { IsOffset (offset_row group.now topic.now queue offset) }
        ensures { (saved : List TopicRow) (records : List Entry) (kept : List OffsetRow) → IsLoadedWith saved records kept self.old
            → OnOk result (IsLoadedWith saved records (offset_row group.now topic.now queue offset ∷ kept) self.new) }
    {
        let end = self.end_of(topic, queue);
        self.groups.set_offset(group, topic, queue, offset.min(end))
    }
}
