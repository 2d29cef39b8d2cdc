//! Which process's places show data of a unit.

ghost use Rattle.std.specs.Prelude.{◌≡◌, map};
ghost use Rattle.hal_reach.specs.SeenUnits.{seen_reached};
ghost use Rattle.hal_storage.specs.report_names.Rows as rows;

use crate::own_places::is_sole;
use hal_reach::Reached;

/// The process whose places show data of a unit that these processes reach.
fn showing_by(all: &[usize], reaching: &[usize]) -> Option<usize>
    ensures { result ≡ rows.showing_by all.now reaching.now }
{
    all.iter()
        .position(|process| is_sole(all, *process, reaching))
}

/// The same of the unit with this number among units, None where it is none of them.
pub(crate) fn showing_among(all: &[usize], units: &[Reached], number: usize) -> Option<usize>
    ensures { result ≡ rows.showing_among all.now (map seen_reached units.now) number }
{
    for unit in units {
        if unit.unit == number {
            return showing_by(all, &unit.processes);
        }
    }
    None
}
