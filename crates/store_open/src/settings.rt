//! The options of the commands: each is a name and its value, and is given at most once.
//!
//! | option          | value                                                     | of              |
//! |-----------------|-----------------------------------------------------------|-----------------|
//! | `--flush`       | `sync` or `async`                                         | `pipe`, `serve` |
//! | `--segment`     | bytes of a segment, 4096 to 1073741824                    | `pipe`, `serve` |
//! | `--slots`       | slots of an index file, 1 to 5000000                      | `pipe`, `serve` |
//! | `--entries`     | entry numbers of an index file, 2 to 20000000             | `pipe`, `serve` |
//! | `--host`        | `A.B.C.D:PORT`, the address that clients are told         | `pipe`, `serve` |
//! | `--store`       | the path of the store's folder, any text that isn't empty | all             |
//! | `--listen`      | `A.B.C.D:PORT`, where the broker listens                  | `serve`         |
//! | `--links`       | how many connections may be open at a time, 1 to 4096     | `serve`         |
//! | `--connections` | after how many connections the program ends, 1 to 4096    | `serve`         |

ghost use Rattle.std.specs.Prelude.{◌≡◌, ◌≢◌, ◌↔◌, ◌∷◌, ◌++◌, [], List, Bool, IfSome, IsNone, IsTrue};
ghost use Rattle.store_open.specs.declared.settings.Choice.{Choice};
ghost use Rattle.store_open.specs.declared.settings.Choice.TheVariants.{Flush};
ghost use Rattle.store_open.specs.declared.settings.Setting.{Setting};
ghost use Rattle.store_open.specs.Options.{spelled, choice_of, value_text, flush_text, IsInRange, IsOffered, IsFree, AreSaid};
ghost use Rattle.store_open.specs.Options.{sync_of, sizes_of, host_of, store_of, listen_of};

use crate::format::{AskedSizes, ENTRIES_MAX, ENTRIES_MIN, SLOTS_MAX, SLOTS_MIN};
use crate::host::read_host;
use crate::number::read_number;
use record_codec::{SEGMENT_MAX, SEGMENT_MIN};

// 127.0.0.1:10911
const DEFAULT_HOST: [u8; 8] = [127, 0, 0, 1, 0, 0, 42, 159];

// The folder of the current one that has the store.
pub(crate) const DEFAULT_STORE: &str = "store";

/// A command that has options.
#[derive(Debug, Clone, Copy, PartialEq, Eq)]
pub enum Verb {
    Pipe,
    Serve,
    Dump,
    Verify,
    Gen,
}

/// An option.
#[derive(Clone, Copy)]
pub(crate) enum Choice {
    Flush,
    Segment,
    Slots,
    Entries,
    Host,
    Store,
    Listen,
    Links,
    Connections,
}

/// An option with its value.
#[derive(Clone, Copy)]
pub(crate) enum Setting<'a> {
    FlushAs(bool),
    SegmentOf(u32),
    SlotsOf(u32),
    EntriesOf(u32),
    HostAt([u8; 8]),
    StoreIn(&'a str),
    ListenAt([u8; 8]),
    LinksOf(u32),
    ConnectionsOf(u32),
}

/// What the options say, each where it is given.
#[derive(Clone, Copy)]
pub(crate) struct Settings<'a> {
    pub(crate) sync: Option<bool>,
    pub(crate) segment: Option<u32>,
    pub(crate) slots: Option<u32>,
    pub(crate) entries: Option<u32>,
    pub(crate) host: Option<[u8; 8]>,
    pub(crate) store: Option<&'a str>,
    pub(crate) listen: Option<[u8; 8]>,
    pub(crate) links: Option<u32>,
    pub(crate) connections: Option<u32>,
}

impl Choice {
    /// The option's name, as it is given.
    pub(crate) fn name(self) -> &'static str
        ensures { result.now ≡ spelled self }
    {
        match self {
            Choice::Flush => "--flush",
            Choice::Segment => "--segment",
            Choice::Slots => "--slots",
            Choice::Entries => "--entries",
            Choice::Host => "--host",
            Choice::Store => "--store",
            Choice::Listen => "--listen",
            Choice::Links => "--links",
            Choice::Connections => "--connections",
        }
    }
}

/// All options, in the order in which the help shows them.
pub(crate) const CHOICES: [Choice; 9] = [
    Choice::Store,
    Choice::Host,
    Choice::Listen,
    Choice::Flush,
    Choice::Links,
    Choice::Connections,
    Choice::Segment,
    Choice::Slots,
    Choice::Entries,
];

/// What the help says of an option: its value, the default, and what it is for.
#[derive(Clone, Copy)]
pub(crate) struct About {
    pub(crate) value: &'static str,
    pub(crate) default: &'static str,
    pub(crate) text: &'static str,
}

impl About {
    fn new(value: &'static str, default: &'static str, text: &'static str) -> About
        ensures { result.value.now ≡ value.now }
    {
        About {
            value,
            default,
            text,
        }
    }
}

impl Choice {
    /// The option's row of the help.
    pub(crate) fn about(self) -> About {
        match self {
            Choice::Flush => About::new(
                "sync|async",
                "sync",
                "whether a message is on the disk before it is answered",
            ),
            Choice::Segment => About::new(
                "4096..1073741824",
                "1073741824",
                "bytes of a segment file of a new store",
            ),
            Choice::Slots => {
                About::new(
                    "1..5000000",
                    "65536",
                    "slots of an index file of a new store",
                )
            }
            Choice::Entries => About::new(
                "2..20000000",
                "262144",
                "entry numbers of an index file of a new store",
            ),
            Choice::Host => About::new(
                "A.B.C.D:PORT",
                "127.0.0.1:10911",
                "the address that message ids tell clients",
            ),
            Choice::Store => About::new("DIR", "store", "the folder of the store"),
            Choice::Listen => About::new(
                "A.B.C.D:PORT",
                "that of --host",
                "where connections are accepted; 0.0.0.0 is every address",
            ),
            Choice::Links => About::new(
                "1..4096",
                "1024",
                "connections that may be open at a time",
            ),
            Choice::Connections => {
                About::new(
                    "1..4096",
                    "no limit",
                    "end after this many connections have closed",
                )
            }
        }
    }
}

/// The option with this name, whosever it is.
pub(crate) fn read_any_choice(word: &str) -> Option<Choice>
    ensures found { IfSome result (λ choice. word.now ≡ spelled choice) }
    ensures none { IsNone result → (choice : Choice) → word.now ≢ spelled choice }
{
    if word == Choice::Flush.name() {
        Some(Choice::Flush)
    } else if word == Choice::Segment.name() {
        Some(Choice::Segment)
    } else if word == Choice::Slots.name() {
        Some(Choice::Slots)
    } else if word == Choice::Entries.name() {
        Some(Choice::Entries)
    } else if word == Choice::Host.name() {
        Some(Choice::Host)
    } else if word == Choice::Store.name() {
        Some(Choice::Store)
    } else if word == Choice::Listen.name() {
        Some(Choice::Listen)
    } else if word == Choice::Links.name() {
        Some(Choice::Links)
    } else if word == Choice::Connections.name() {
        Some(Choice::Connections)
    } else {
        None
    }
}

/// The command has this option.
pub(crate) fn is_offered(verb: Verb, choice: Choice) -> bool
    ensures { IsTrue result ↔ IsOffered verb choice }
{
    match verb {
        Verb::Serve => true,
        Verb::Pipe => !matches!(choice, Choice::Listen | Choice::Links | Choice::Connections),
        Verb::Dump | Verb::Verify | Verb::Gen => matches!(choice, Choice::Store),
    }
}

/// The option of the command with this name.
pub(crate) fn read_choice(verb: Verb, word: &str) -> Option<Choice>
    ensures found { IfSome result (λ choice. word.now ≡ spelled choice) }
    ensures offered { IfSome result (IsOffered verb) }
    ensures none { IsNone result → (choice : Choice) → IsOffered verb choice → word.now ≢ spelled choice }
{
    let choice = read_any_choice(word)?;
    if is_offered(verb, choice) {
        Some(choice)
    } else {
        None
    }
}

/// The option with the value that the word writes.
pub(crate) fn read_setting<'a>(choice: Choice, value: &'a str) -> Option<Setting<'a>>
    ensures found { IfSome result (λ setting. (choice_of setting ≡ choice) × (value_text setting ≡ value.now)) }
    ensures within { IfSome result (λ setting. IsInRange setting) }
    ensures none { IsNone result → (setting : Setting) → IsInRange setting → choice_of setting ≡ choice → value.now ≢ value_text setting }
{
    match choice {
        Choice::Flush => read_flush(value),
        Choice::Segment => match read_number(value, SEGMENT_MIN, SEGMENT_MAX) {
            Some(size) => Some(Setting::SegmentOf(size)),
            None => None,
        },
        Choice::Slots => match read_number(value, SLOTS_MIN, SLOTS_MAX) {
            Some(n) => Some(Setting::SlotsOf(n)),
            None => None,
        },
        Choice::Entries => match read_number(value, ENTRIES_MIN, ENTRIES_MAX) {
            Some(n) => Some(Setting::EntriesOf(n)),
            None => None,
        },
        Choice::Host => match read_host(value) {
            Some(host) => Some(Setting::HostAt(host)),
            None => None,
        },
        Choice::Store => {
            if value.is_empty() {
                None
            } else {
                Some(Setting::StoreIn(value))
            }
        }
        Choice::Listen => match read_host(value) {
            Some(host) => Some(Setting::ListenAt(host)),
            None => None,
        },
        Choice::Links => match read_number(value, 1, 4096) {
            Some(n) => Some(Setting::LinksOf(n)),
            None => None,
        },
        Choice::Connections => match read_number(value, 1, 4096) {
            Some(n) => Some(Setting::ConnectionsOf(n)),
            None => None,
        },
    }
}

// When a message counts as kept: once it is synced, or at once.
fn read_flush<'a>(value: &str) -> Option<Setting<'a>>
    ensures found { IfSome result (λ setting. (choice_of setting ≡ Flush) × (value_text setting ≡ value.now)) }
    ensures within { IfSome result (λ setting. IsInRange setting) }
    ensures none { IsNone result → (sync : Bool) → value.now ≢ flush_text sync }
{
    if value == "sync" {
        Some(Setting::FlushAs(true))
    } else if value == "async" {
        Some(Setting::FlushAs(false))
    } else {
        None
    }
}

impl<'a> Settings<'a> {
    /// No option is given.
    pub(crate) fn none() -> Settings<'a>
        ensures { AreSaid [] result }
    {
        Settings {
            sync: None,
            segment: None,
            slots: None,
            entries: None,
            host: None,
            store: None,
            listen: None,
            links: None,
            connections: None,
        }
    }

    /// Whether this option has no value yet.
    pub(crate) fn is_free(&self, choice: Choice) -> bool
        ensures { IsTrue result ↔ IsFree choice self.now }
    {
        match choice {
            Choice::Flush => self.sync.is_none(),
            Choice::Segment => self.segment.is_none(),
            Choice::Slots => self.slots.is_none(),
            Choice::Entries => self.entries.is_none(),
            Choice::Host => self.host.is_none(),
            Choice::Store => self.store.is_none(),
            Choice::Listen => self.listen.is_none(),
            Choice::Links => self.links.is_none(),
            Choice::Connections => self.connections.is_none(),
        }
    }

    /// This option too has its value.
    pub(crate) fn put(&mut self, setting: Setting<'a>)
        requires { IsFree (choice_of setting) self.now }
        ensures { (said : List Setting) → AreSaid said self.old → AreSaid (said ++ setting.entry ∷ []) self.new }
    {
        match setting {
            Setting::FlushAs(sync) => self.sync = Some(sync),
            Setting::SegmentOf(size) => self.segment = Some(size),
            Setting::SlotsOf(n) => self.slots = Some(n),
            Setting::EntriesOf(n) => self.entries = Some(n),
            Setting::HostAt(host) => self.host = Some(host),
            Setting::StoreIn(folder) => self.store = Some(folder),
            Setting::ListenAt(host) => self.listen = Some(host),
            Setting::LinksOf(n) => self.links = Some(n),
            Setting::ConnectionsOf(n) => self.connections = Some(n),
        }
    }

    /// Whether a message is synced before it counts as kept: where nothing is said it is.
    pub(crate) fn sync_or_default(&self) -> bool
        ensures { result ≡ sync_of self.now }
    {
        self.sync.unwrap_or(true)
    }

    /// The sizes that are asked for.
    pub(crate) fn sizes(&self) -> AskedSizes
        ensures { result ≡ sizes_of self.now }
    {
        AskedSizes {
            segment: self.segment,
            slots: self.slots,
            entries: self.entries,
        }
    }

    /// Where clients reach the broker, where nothing is said 127.0.0.1:10911.
    pub(crate) fn host_or_default(&self) -> [u8; 8]
        ensures { result ≡ host_of self.now }
    {
        self.host.unwrap_or(DEFAULT_HOST)
    }

    /// The store's folder, where nothing is said `store`.
    pub(crate) fn store_or_default(&self) -> &'a str
        ensures { result.now ≡ store_of self.now }
    {
        match self.store {
            Some(folder) => folder,
            None => DEFAULT_STORE,
        }
    }

    /// Where the broker listens, where nothing is said its host's address and port.
    pub(crate) fn listen_or_default(&self) -> [u8; 8]
        ensures { result ≡ listen_of self.now }
    {
        self.listen.unwrap_or(self.host_or_default())
    }
}
