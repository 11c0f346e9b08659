//! A row of the table, in 24 bytes: a key of a record, and how far behind it the row before it in its chain stands.

ghost use Rattle.std.specs.Prelude.{◌≡◌, ◌↔◌, ◌<◌, ◌-◌, ◌^◌, min, IsTrue};
ghost use Rattle.key_view.specs.Rooms.{entry_of};

use chunks::Keyed;

/// A key's hash, the place of its record, the record's store time in milliseconds, and the link.
#[derive(Clone, Copy)]
pub struct KeyRow {
    pub place: u64,
    pub store: u64,
    pub hash: u32,
    /// How many rows older the next row of the chain is, 1 for the one right before; past the first row where there is none.
    pub back: u32,
}

impl Keyed for KeyRow {
    ghost key = { λ row. row.place };

    fn key(&self) -> u64 {
        self.place
    }
}

// Whether the row is that of this key.
pub(crate) fn is_key(row: &KeyRow, hash: u32, place: u64, store: u64) -> bool
    ensures { IsTrue result ↔ (entry_of row.now ≡ record { hash = hash; place = place; store = store }) }
{
    row.hash == hash && row.place == place && row.store == store
}

// How far the row with number `number` stands behind the row `before`. The table has fewer rows than the greatest distance.
pub(crate) fn distance(number: u64, before: u64) -> u32
    requires { before < number }
    ensures { result ≡ min (number - before) (2 ^ 32 - 1) }
{
    let rows = number - before;
    if rows < u64::from(u32::MAX) {
        rows as u32
    } else {
        u32::MAX
    }
}
