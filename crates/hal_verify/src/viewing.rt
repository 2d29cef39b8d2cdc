//! When a view fits memory.

ghost use Rattle.std.specs.Prelude.{◌≡◌, IfOk};
ghost use Rattle.hal_code.specs.Images.{expanded};
ghost use Rattle.hal_code.specs.Memory.{is_own};
ghost use Rattle.hal_code.specs.Addressing.{is_of_cell};
ghost use Rattle.hal_verify.specs.Cursors.{seen_cursor};
ghost use Rattle.hal_code.specs.declared.row.Target.TheVariants as target;
ghost use Rattle.hal_verify.specs.declared.room.Room.TheVariants as room;
ghost use Rattle.hal_verify.specs.Viewing.{view_lies, lies_behind, fits_rooms, kind_runs};

use crate::cursor::Cursor;
use crate::memory::Memory;
use crate::room::Room;
use crate::rooms::rooms_of_shape;
use hal_code::{Base, ImageParts, Run, Target, View};
use hal_values::Kind;
use std::alloc::{AllocError, Global};

/// Whether a view gives a cell.
pub(crate) fn is_of_cell(view: &View) -> bool
    ensures { result ≡ is_of_cell view.now }
{
    match view.target {
        Target::Cell(_) => true,
        Target::Shape(_) => false,
    }
}

/// Whether a view begins at own places or through a reference.
pub(crate) fn is_own(view: &View) -> bool
    ensures { result ≡ is_own view.now }
{
    match view.base {
        Base::Shared(_) => false,
        Base::Own(_) => true,
        Base::Through { .. } => true,
        Base::Other { .. } => false,
    }
}

/// The kinds of the cells of the shape with this number, by runs.
pub(crate) fn kinds_of(image: &ImageParts, shape: u32) -> &[Run<Kind>]
    ensures { result.now ≡ kind_runs image.now (target.Shape shape) }
{
    match image.shapes.as_slice().get(shape as usize) {
        None => &[],
        Some(runs) => runs.as_slice(),
    }
}

/// Whether all that a view gives stands there.
pub(crate) fn view_lies(image: &ImageParts, view: &View, at: Cursor<'_>) -> bool
    ensures { result ≡ view_lies image.now view.now (seen_cursor at.entry) }
{
    let dimensions = view.dimensions.as_slice();
    match view.target {
        Target::Cell(kind) => at.spread_lies(
            &[Run {
                repeat: 1,
                row: kind,
            }],
            dimensions,
        ),
        Target::Shape(shape) => at.spread_lies(kinds_of(image, shape), dimensions),
    }
}

/// Whether all that a view gives stands so many cells behind the first of a shape.
fn lies_in_shape(
    alloc: Global,
    image: &ImageParts,
    view: &View,
    offset: u32,
    shape: u32,
) -> Result<bool, AllocError>
    ensures { IfOk result (λ lies. lies ≡ lies_behind image.now view.now offset (Some (room.To shape))) }
{
    let rooms = rooms_of_shape(alloc, image, shape)?;
    Ok(view_lies(image, view, rooms.at(offset)))
}

/// The same behind a reference that may stand there.
fn lies_behind(
    alloc: Global,
    image: &ImageParts,
    view: &View,
    offset: u32,
    there: Option<Room>,
) -> Result<bool, AllocError>
    ensures { IfOk result (λ lies. lies ≡ lies_behind image.now view.now offset there) }
{
    match there {
        None => Ok(false),
        Some(Room::Of(_)) => Ok(false),
        Some(Room::To(shape)) => lies_in_shape(alloc, image, view, offset, shape),
    }
}

/// Whether a view fits own places.
pub(crate) fn fits_rooms(
    alloc: Global,
    image: &ImageParts,
    view: &View,
    rooms: &Memory,
) -> Result<bool, AllocError>
    ensures { IfOk result (λ fits. fits ≡ fits_rooms image.now view.now (expanded rooms.now.runs.items)) }
{
    match view.base {
        Base::Shared(_) => Ok(true),
        Base::Own(number) => Ok(view_lies(image, view, rooms.at(number))),
        Base::Through { place, offset } => {
            let there = rooms.at(place).first();
            lies_behind(alloc, image, view, offset, there)
        }
        Base::Other { .. } => Ok(false),
    }
}
