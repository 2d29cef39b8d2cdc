//! The rows of views.

ghost use Rattle.std.specs.Prelude.{◌≡◌, nat_le, map, IfOk};
ghost use Rattle.std.specs.List.{list_all};
ghost use Rattle.hal_code.specs.declared.row.Dimension.{Dimension as DimensionThere};
ghost use Rattle.hal_code.specs.Images.{expanded};
ghost use Rattle.hal_code.specs.Right.{target_right, form_right, views_lie, views_right};
ghost use Rattle.hal_verify.specs.Marking.{shared_lies};
ghost use Rattle.hal_verify.specs.Rooms.{room_of_cell};

use crate::counts::view_count;
use crate::marking::processes_fit;
use crate::memory::Memory;
use crate::rooms::shared_rooms;
use crate::sorts::is_kind;
use crate::tables::SPREAD_LIMIT;
use crate::viewing::view_lies;
use hal_code::{Base, Dimension, ImageParts, Target, View};
use std::alloc::{AllocError, Global};

/// Whether the kind of a view is one, or its shape is there.
fn target_right(image: &ImageParts, view: &View) -> bool
    ensures { result ≡ target_right image.now view.now }
{
    match view.target {
        Target::Cell(kind) => is_kind(kind),
        Target::Shape(shape) => (shape as usize) < image.shapes.as_slice().len(),
    }
}

/// Whether all dimensions have places.
fn dimensions_right(dimensions: &[Dimension]) -> bool
    ensures { result ≡ list_all (λ (d : DimensionThere). nat_le 1 d.size) dimensions.now }
{
    for dimension in dimensions {
        if dimension.size < 1 {
            return false;
        }
    }
    true
}

/// Whether a view gives something, and its dimensions have places.
fn form_right(image: &ImageParts, view: &View) -> bool
    ensures { result ≡ form_right image.now view.now }
{
    target_right(image, view) && dimensions_right(view.dimensions.as_slice())
}

/// Whether all views do.
fn forms_right(image: &ImageParts) -> bool
    ensures { result ≡ list_all (form_right image.now) image.now.views }
{
    let views = image.views.as_slice();
    for view in views {
        if !form_right(image, view) {
            return false;
        }
    }
    true
}

/// Whether a view of shared cells lies there, and begins somewhere.
fn shared_lies(image: &ImageParts, rooms: &Memory, view: &View) -> bool
    ensures { result ≡ shared_lies image.now (expanded rooms.now.runs.items) view.now }
{
    match view.base {
        Base::Shared(number) => view_lies(image, view, rooms.at(number)),
        Base::Own(_) => true,
        Base::Through { .. } => true,
        Base::Other { .. } => false,
    }
}

/// Whether all views do.
fn all_shared(image: &ImageParts, rooms: &Memory) -> bool
    ensures { result ≡ list_all (shared_lies image.now (expanded rooms.now.runs.items)) image.now.views }
{
    let views = image.views.as_slice();
    for view in views {
        if !shared_lies(image, rooms, view) {
            return false;
        }
    }
    true
}

/// Whether all views of shared cells lie there, and all views begin somewhere.
fn shared_right(alloc: Global, image: &ImageParts) -> Result<bool, AllocError>
    ensures { IfOk result (λ lie. lie ≡ list_all (shared_lies image.now (map room_of_cell (expanded image.now.cells))) image.now.views) }
{
    let rooms = shared_rooms(alloc, image)?;
    Ok(all_shared(image, &rooms))
}

/// Whether all views lie in memory.
#[tactic(auto, using(crate::proofs::Found::views_turned))]
fn views_lie(alloc: Global, image: &ImageParts) -> Result<bool, AllocError>
    ensures { IfOk result (λ lie. lie ≡ views_lie image.now 0 image.now.views) }
{
    if shared_right(alloc, image)? {
        processes_fit(alloc, image)
    } else {
        Ok(false)
    }
}

/// Whether views are right, and give few cells together.
pub(crate) fn views_right(alloc: Global, image: &ImageParts) -> Result<bool, AllocError>
    ensures { IfOk result (λ right. right ≡ views_right image.now) }
{
    if forms_right(image) && view_count(image) <= SPREAD_LIMIT {
        views_lie(alloc, image)
    } else {
        Ok(false)
    }
}
