//! The parts of an image, read and written in the order of the bytes.

ghost use Rattle.std.specs.Prelude.{◌≡◌, ◌↔◌, ◌++◌, ◌<◌, ◌^◌, IsTrue, length, OnOk, flat_map};
ghost use Rattle.std.specs.List.{AllByRecursion};
ghost use Rattle.hal_object.specs.Numbers.{in_eight};
ghost use Rattle.hal_object.specs.Instructions.{instr_bytes, FitsInstr};
ghost use Rattle.hal_object.specs.Images.{mark, later_bytes, parts_bytes, FitLater, FitsBytes};
ghost use Rattle.hal_object.specs.Fields.{Gives};
ghost use Rattle.hal_object.specs.Reading.{code_at, marked, parts_at, whole, image_at};

use crate::fault::ReadFault;
use crate::fits::fits_one;
use crate::numbers::{byte_of, eight_of, put_eight};
use crate::row::{has_list_bytes, have_bytes, list_of, rows_of, write_list, write_rows};
use hal_code::{ImageParts, Instr};
use hal_values::Listing;
use std::alloc::{AllocError, Global};

/// The instructions behind their count.
#[tactic(auto, unfolding(crate::specs::Reading::code_at))]
fn code_of(alloc: Global, bytes: &[u8]) -> Result<(Listing<Instr>, &[u8]), ReadFault>
    ensures { Gives (λ x. (x.0, x.1.now)) result (code_at bytes.now) }
{
    let (count, rest) = eight_of(bytes)?;
    rows_of(alloc, count, rest)
}

/// The tables and the code.
#[tactic(auto, unfolding(crate::specs::Reading::parts_at))]
fn parts_of(alloc: Global, bytes: &[u8]) -> Result<(ImageParts, &[u8]), ReadFault>
    ensures { Gives (λ x. (x.0, x.1.now)) result (parts_at bytes.now) }
{
    let (cells, rest) = list_of(alloc, bytes)?;
    let (events, rest) = list_of(alloc, rest)?;
    let (common, rest) = list_of(alloc, rest)?;
    let (processes, rest) = list_of(alloc, rest)?;
    let (first, rest) = byte_of(rest)?;
    let (shapes, rest) = list_of(alloc, rest)?;
    let (views, rest) = list_of(alloc, rest)?;
    let (expressions, rest) = list_of(alloc, rest)?;
    let (blocks, rest) = list_of(alloc, rest)?;
    let (names, rest) = list_of(alloc, rest)?;
    let (code, rest) = code_of(alloc, rest)?;
    let parts = ImageParts {
        cells,
        events,
        common,
        processes,
        first,
        shapes,
        views,
        expressions,
        blocks,
        names,
        code,
    };
    Ok((parts, rest))
}

/// The tables and the code behind `HALI` and the version.
#[tactic(auto, unfolding(crate::specs::Reading::marked))]
fn marked_of(alloc: Global, bytes: &[u8]) -> Result<(ImageParts, &[u8]), ReadFault>
    ensures { Gives (λ x. (x.0, x.1.now)) result (marked mark parts_at bytes.now) }
{
    match bytes {
        [b'H', b'A', b'L', b'I', 1, rest @ ..] => parts_of(alloc, rest),
        _ => Err(ReadFault::NotImage),
    }
}

/// The parts of an image that has all of these bytes, whatever its runs are.
#[tactic(auto, unfolding(crate::specs::Reading::image_at, crate::specs::Reading::whole))]
pub(crate) fn image_of(alloc: Global, bytes: &[u8]) -> Result<ImageParts, ReadFault>
    ensures { Gives (λ x. x) result (image_at bytes.now) }
{
    let (parts, rest) = marked_of(alloc, bytes)?;
    if rest.is_empty() {
        Ok(parts)
    } else {
        Err(ReadFault::NotImage)
    }
}

/// Whether the tables that the code names, those of the report, and the code have bytes.
fn have_later_bytes(image: &ImageParts) -> bool
    ensures { IsTrue result ↔ FitLater image.now }
{
    has_list_bytes(&image.shapes)
        && has_list_bytes(&image.views)
        && has_list_bytes(&image.expressions)
        && has_list_bytes(&image.blocks)
        && has_list_bytes(&image.names)
        && have_bytes(image.code.as_slice())
}

/// Whether all parts have bytes: numbers, counts and forms are as they can say.
pub(crate) fn have_part_bytes(image: &ImageParts) -> bool
    ensures { IsTrue result ↔ FitsBytes image.now }
{
    fits_one(image.first);
    has_list_bytes(&image.cells)
        && has_list_bytes(&image.events)
        && has_list_bytes(&image.common)
        && has_list_bytes(&image.processes)
        && have_later_bytes(image)
}

/// The code behind its count, behind other bytes.
fn write_code(code: &[Instr], into: &mut Vec<u8>) -> Result<(), AllocError>
    requires { AllByRecursion FitsInstr code.now }
    ensures { OnOk result (into.new.items ≡ into.old.items ++ (in_eight (length code.now) ++ flat_map instr_bytes code.now)) }
{
    put_eight(code.len() as u64, into)?;
    write_rows(code, into)
}

/// The bytes of the tables that the code names and of those of the report, and the code, behind other bytes.
fn write_later(image: &ImageParts, into: &mut Vec<u8>) -> Result<(), AllocError>
    requires { FitsBytes image.now }
    ensures { OnOk result (into.new.items ≡ into.old.items ++ later_bytes image.now) }
{
    write_list(&image.shapes, into)?;
    write_list(&image.views, into)?;
    write_list(&image.expressions, into)?;
    write_list(&image.blocks, into)?;
    write_list(&image.names, into)?;
    write_code(image.code.as_slice(), into)
}

/// The bytes of the parts, behind other bytes.
pub(crate) fn write_parts(image: &ImageParts, into: &mut Vec<u8>) -> Result<(), AllocError>
    requires { FitsBytes image.now }
    ensures { OnOk result (into.new.items ≡ into.old.items ++ parts_bytes image.now) }
{
    write_list(&image.cells, into)?;
    write_list(&image.events, into)?;
    write_list(&image.common, into)?;
    write_list(&image.processes, into)?;
    into.push(image.first)?;
    write_later(image, into)
}
