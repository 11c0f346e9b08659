//! How an origin is checked that is due.

ghost use Rattle.std.specs.Prelude.{◌≡◌};
ghost use Rattle.half_view.specs.Halves.{check_row, given_up_of};

use crate::check::Check;
use crate::row::HalfRow;

/// After so many renewals an origin is given up.
const CHECKS_MAX: u32 = 15;

// The last renewal, where the origin is given up.
fn given_up(row: &HalfRow) -> Option<u64>
    ensures { result ≡ given_up_of row.now }
{
    if row.checks < CHECKS_MAX {
        None
    } else {
        Some(row.last)
    }
}

// How the half message with this queue offset is checked.
pub(crate) fn check_of(row: &HalfRow, own: u64) -> Check
    ensures { result ≡ check_row own row.now }
{
    Check {
        origin: own,
        checks: row.checks,
        given_up: given_up(row),
    }
}
