//! Which units of a queue a pull takes.

ghost use Rattle.std.specs.Prelude.{◌≡◌, ◌≤◌, ◌+◌, ◌==◌, ◌&&◌, ◌||◌, nat_lt, nat_le, not, [], length, drop, take, map, filter, IfOk};
ghost use Rattle.log_model.specs.Pulls.{examined};
ghost use Rattle.queue_view.specs.Subscriptions.{tags_take};
ghost use Rattle.queue_view.specs.Tables.{unit_in};
ghost use Rattle.queue_view.specs.Answers.{this};

use crate::stored::StoredUnit;
use crate::tags::Tags;
use chunks::Chunks;
use record_codec::Unit;
use std::alloc::{AllocError, Global};

/// The most bytes of a body that has more than one record.
const BODY_MAX: u64 = 262_144;

/// The most units that are examined.
const EXAMINED_MAX: usize = 800;

/// How many units were examined, and those of them that are taken.
#[derive(Drop)]
pub(crate) struct Examined {
    pub(crate) count: usize,
    pub(crate) units: Vec<Unit>,
}

// Examines the units from `from` on, of the first `seen`.
pub(crate) fn examine(
    alloc: Global,
    all: &Chunks<StoredUnit>,
    from: usize,
    seen: usize,
    most: usize,
    tags: &Tags,
) -> Result<Examined, AllocError>
    requires ordered { from ≤ seen }
    requires within { seen ≤ length all.now.items }
    ensures within { IfOk result (λ e. from + e.count ≤ seen) }
    ensures count { IfOk result (λ e. e.count
        ≡ length (examined this most (tags_take tags.now) [] (drop from (map unit_in (take seen all.now.items))))) }
    ensures units { IfOk result (λ e. e.units.items
        ≡ filter (tags_take tags.now) (examined this most (tags_take tags.now) [] (drop from (map unit_in (take seen all.now.items))))) }
{
    let mut units = Vec::new(alloc);
    let mut size: u64 = 0;
    for i in from..seen {
        let unit = all.at(i).unit;
        let takes = tags.takes(&unit);
        if !goes_on(units.len(), i - from, size, most, takes, unit.size) {
            return Ok(Examined {
                count: i - from,
                units,
            });
        }
        if takes {
            units.push(unit)?;
            size = size.saturating_add(u64::from(unit.size));
        }
    }
    Ok(Examined {
        count: seen - from,
        units,
    })
}

// Whether a unit of this size is examined too, after so many were taken and examined, with so many bytes.
fn goes_on(taken: usize, before: usize, size: u64, most: usize, takes: bool, more: u32) -> bool
    ensures { result ≡ (nat_lt taken most && nat_lt before 800 && (not takes || (taken == 0) || nat_le (size + more) 262144)) }
{
    taken < most
        && before < EXAMINED_MAX
        && (!takes || taken == 0 || size.saturating_add(u64::from(more)) <= BODY_MAX)
}
