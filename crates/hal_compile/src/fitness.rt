//! Whether layouts and images have room for what stands in them.

ghost use Rattle.std.specs.Prelude.{◌≡◌, map};
ghost use Rattle.std.specs.List.{list_all, list_any};
ghost use Rattle.hal_storage.specs.layout.SeenLayout.{seen_layout};
ghost use Rattle.hal_storage.specs.processes.SeenPaths.{seen_path};
ghost use Rattle.hal_compile.specs.Fitness as fitness;

use hal_code::{ImageParts, Run, Target};
use hal_storage::layout::Layout;
use hal_values::Kind;

/// Whether names have at most 255 bytes.
fn are_short(names: &[Vec<u8>]) -> bool
    ensures { result ≡ list_all fitness.is_short (map seen_path names.now) }
{
    for name in names {
        if name.len() > 255 {
            return false;
        }
    }
    true
}

/// Whether tables have room for a layout.
pub(crate) fn is_narrow(layout: &Layout) -> bool
    ensures { result ≡ fitness.is_narrow (seen_layout layout.now) }
{
    are_short(&layout.processes) && layout.first <= 255
}

/// Whether there is a row in one of the runs.
fn has_row(runs: &[Run<Kind>]) -> bool
    ensures { result ≡ list_any fitness.has_rows runs.now }
{
    runs.iter().any(|run| run.repeat > 0)
}

/// Whether there is a cell to which a view of an image leads.
fn has_cell(image: &ImageParts, target: &Target) -> bool
    ensures { result ≡ fitness.has_cell image.now target.now }
{
    match target {
        Target::Cell(_) => true,
        Target::Shape(shape) => match image.shapes.as_slice().get(*shape as usize) {
            Some(runs) => has_row(runs.as_slice()),
            None => false,
        },
    }
}

/// Whether there is a cell to which each view leads.
pub(crate) fn have_cells(image: &ImageParts) -> bool
    ensures { result ≡ fitness.have_cells image.now }
{
    let views = image.views.as_slice();
    for view in views {
        if !has_cell(image, &view.target) {
            return false;
        }
    }
    true
}
