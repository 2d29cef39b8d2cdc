//! The first instruction of an image that isn't right.

ghost use Rattle.std.specs.Prelude.{◌≡◌, ◌&&◌, ◌↔◌, length, IfOk, IsTrue, None, if◌then◌else◌};
ghost use Rattle.std.specs.List.{list_all};
ghost use Rattle.hal_values.specs.declared.tables.EventStart.{EventStart};
ghost use Rattle.hal_code.specs.declared.choice.Choice.{Choice as ChoiceThere};
ghost use Rattle.hal_code.specs.Blocks.{outward};
ghost use Rattle.hal_code.specs.Operands.{events_of, is_known};
ghost use Rattle.hal_code.specs.Right as right;
ghost use Rattle.hal_code.specs.Right.{IsRight};
ghost use Rattle.hal_verify.specs.Limits.{first_fault, limits_kept, spread_kept};

use crate::blocks::{blocks_right, outward, wrong_instr};
use crate::counts::{shape_count, view_count};
use crate::naming::names_right;
use crate::tables::{
    SPREAD_LIMIT, cells_right, events_right, expressions_right, limits_right, places_right,
    processes_right, shapes_right,
};
use crate::views::views_right;
use hal_code::ImageParts;
use std::alloc::{AllocError, Global};

/// Whether all rows of tables but those of blocks, views and report names are right.
fn plain_rows_right(image: &ImageParts) -> bool
    ensures { result ≡ ((((right.limits_right image.now && list_all right.cell_right image.now.cells) && (list_all (λ (one : ChoiceThere EventStart). is_known one) image.now.events && list_all (right.place_right image.now) image.now.common)) && (right.processes_right image.now 0 image.now.processes && right.shapes_right image.now)) && list_all (right.postfix_right (events_of image.now) 0) image.now.expressions) }
{
    limits_right(image)
        && cells_right(image.cells.as_slice())
        && events_right(image.events.as_slice())
        && places_right(image, image.common.as_slice())
        && processes_right(image)
        && shapes_right(image)
        && expressions_right(image)
}

/// Whether all rows of tables but those of blocks are right.
#[tactic(auto, using(crate::proofs::Verified::rows_there))]
fn rows_right(alloc: Global, image: &ImageParts) -> Result<bool, AllocError>
    ensures { IfOk result (λ found. found ≡ right.rows_right image.now) }
{
    if !plain_rows_right(image) || !views_right(alloc, image)? {
        return Ok(false);
    }
    names_right(alloc, image)
}

/// The first instruction of blocks that isn't right, or the number of instructions where rows of tables aren't.
fn first_of_blocks(alloc: Global, image: &ImageParts) -> Result<Option<u64>, AllocError>
    ensures { IfOk result (λ found. found ≡ elim (right.wrong_instr image.now (outward image.now) 0 image.now.blocks) [ None ↦ if right.rows_right image.now then None else Some (length image.now.code) | Some n ↦ Some n ]) }
{
    let outward = outward(alloc, image)?;
    if let Some(wrong) = wrong_instr(alloc, image, &outward)? {
        return Ok(Some(wrong));
    }
    if rows_right(alloc, image)? {
        Ok(None)
    } else {
        Ok(Some(image.code.as_slice().len() as u64))
    }
}

/// The first instruction of an image that isn't right, or the number of instructions where rows of tables alone aren't; None where the image is right (image
/// document, When an image is right). It fails only where memory is wanting. Runs are never expanded, so memory is bounded by the size of the image. Time goes
/// with the size of the image, and with the cells that views give, for each process whose places they may use; COPY looks at the runs of its shape each time.
/// Views of common blocks are looked at before their limit is, so where it isn't kept the time may be without any bound: `first_fault` asks for the limits first.
pub fn first_failure(alloc: Global, image: &ImageParts) -> Result<Option<u64>, AllocError>
    ensures { IfOk result (λ found. found ≡ right.first_failure image.now) }
{
    if blocks_right(image) {
        first_of_blocks(alloc, image)
    } else {
        Ok(Some(image.code.as_slice().len() as u64))
    }
}

/// Whether the cells of all shapes of an image, and those that all its views give, counted with repeats, are within their limits: at most 1,048,576 each (image
/// document, When an image is right).
pub fn spread_kept(image: &ImageParts) -> bool
    ensures { result ≡ spread_kept image.now }
{
    shape_count(image.shapes.as_slice()) <= SPREAD_LIMIT && view_count(image) <= SPREAD_LIMIT
}

/// Whether the limits of cells, processes, events, shapes and views are kept.
fn limits_kept(image: &ImageParts) -> bool
    ensures { result ≡ limits_kept image.now }
{
    limits_right(image) && shapes_right(image) && view_count(image) <= SPREAD_LIMIT
}

/// The first failure, but that where the limits aren't kept it is the number of instructions, and neither instructions nor the addresses of views are looked at: its time
/// goes with the size of the image and those limits (image document, When an image is right). It fails only where memory is wanting.
#[tactic(auto, using(crate::proofs::Limits::fault_none))]
pub fn first_fault(alloc: Global, image: &ImageParts) -> Result<Option<u64>, AllocError>
    ensures found { IfOk result (λ found. found ≡ first_fault image.now) }
    ensures right { IfOk result (λ found. (found ≡ None) ↔ IsRight image.now) }
{
    if limits_kept(image) {
        first_failure(alloc, image)
    } else {
        Ok(Some(image.code.as_slice().len() as u64))
    }
}

/// Whether an image is right (image document, When an image is right), by the limits first. It fails only where memory is wanting.
pub fn is_right(alloc: Global, image: &ImageParts) -> Result<bool, AllocError>
    ensures { IfOk result (λ right. IsTrue right ↔ IsRight image.now) }
{
    Ok(first_fault(alloc, image)?.is_none())
}
