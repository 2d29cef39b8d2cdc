//! Whether runs are as they stand in bytes: each row at least once, and none beside an equal one.

ghost use Rattle.std.specs.Prelude.{◌≡◌, ◌↔◌, IsTrue, List};
ghost use Rattle.std.specs.List.{AllByRecursion};
ghost use Rattle.hal_object.specs.Images.{BeginsOtherwise, AreRuns, HaveRuns, ShapesAreRuns, HasRuns};

use hal_code::{ImageParts, OwnPlace, Process, Run};
use hal_values::{Cell, Kind, Listing};

/// What stands in runs.
pub(crate) trait Alike {
    /// Whether two are the same.
    fn is_alike(&self, other: &Self) -> bool
        ensures { IsTrue result ↔ (self.now ≡ other.now) };
}

impl Alike for Cell {
    fn is_alike(&self, other: &Cell) -> bool {
        *self == *other
    }
}

impl Alike for OwnPlace {
    fn is_alike(&self, other: &OwnPlace) -> bool {
        *self == *other
    }
}

impl Alike for Kind {
    fn is_alike(&self, other: &Kind) -> bool {
        *self == *other
    }
}

/// Whether the first of these runs, if there is one, has another row.
fn begins_otherwise<T: Alike>(row: &T, runs: &[Run<T>]) -> bool
    ensures { IsTrue result ↔ BeginsOtherwise row.now runs.now }
{
    match runs.split_first() {
        None => true,
        Some((run, _)) => !row.is_alike(&run.row),
    }
}

/// Whether these are runs as they stand in bytes.
pub(crate) fn are_runs<T: Alike>(runs: &[Run<T>]) -> bool
    ensures { IsTrue result ↔ AreRuns runs.now }
{
    let mut rest = runs;
    while let Some((run, after)) = rest.split_first() {
        if run.repeat == 0 || !begins_otherwise(&run.row, after) {
            return false;
        }
        rest = after;
    }
    true
}

/// Whether the own places of all processes are such runs.
fn have_runs(processes: &[Process]) -> bool
    ensures { IsTrue result ↔ HaveRuns processes.now }
{
    for process in processes {
        if !are_runs(process.places.as_slice()) {
            return false;
        }
    }
    true
}

/// Whether the kinds of all shapes are such runs.
fn shapes_are_runs(shapes: &[Listing<Run<Kind>>]) -> bool
    ensures { IsTrue result ↔ ShapesAreRuns shapes.now }
{
    for shape in shapes {
        if !are_runs(shape.as_slice()) {
            return false;
        }
    }
    true
}

/// Whether all runs of an image are such runs.
pub(crate) fn has_runs(image: &ImageParts) -> bool
    ensures { IsTrue result ↔ HasRuns image.now }
{
    let data = are_runs(image.cells.as_slice()) && are_runs(image.common.as_slice());
    data && have_runs(image.processes.as_slice()) && shapes_are_runs(image.shapes.as_slice())
}
