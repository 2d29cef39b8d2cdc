//! Memory by runs: what stands at shared cells, at own places, and at the cells of a shape. No run is ever expanded.

ghost use Rattle.std.specs.Prelude.{◌≡◌, ◌++◌, map, OnOk, IfOk};
ghost use Rattle.hal_code.specs.Images.{expanded, places_of, kinds_of};
ghost use Rattle.hal_code.specs.Blocks.{is_common};
ghost use Rattle.hal_verify.specs.Placed.{places_for};
ghost use Rattle.hal_verify.specs.Rooms.{room_of_place, room_of_cell, room_of_kind, place_run, cell_run, kind_run};

use crate::memory::Memory;
use crate::room::Room;
use hal_code::{Block, ImageParts, OwnPlace, Run};
use hal_values::{Cell, Kind};
use std::alloc::{AllocError, Global};

/// What stands at an own place.
fn room_of_place(place: &OwnPlace) -> Room
    ensures { result ≡ room_of_place place.now }
{
    match place {
        OwnPlace::Data { kind, initial: _ } => Room::Of(*kind),
        OwnPlace::Reference(shape) => Room::To(*shape),
    }
}

/// Adds what stands at own places.
#[tactic(auto, using(crate::proofs::Expanded::behind, crate::proofs::Expanded::none_behind))]
fn add_places(rooms: &mut Vec<Run<Room>>, runs: &[Run<OwnPlace>]) -> Result<(), AllocError>
    ensures { OnOk result (rooms.new.items ≡ rooms.old.items ++ map place_run runs.now) }
{
    for run in runs {
        rooms.push(Run {
            repeat: run.repeat,
            row: room_of_place(&run.row),
        })?;
    }
    Ok(())
}

/// What stands at the common places, and behind them at these.
#[tactic(auto, using(crate::proofs::Expanded::places_both))]
fn rooms_in(
    alloc: Global,
    common: &[Run<OwnPlace>],
    own: &[Run<OwnPlace>],
) -> Result<Memory, AllocError>
    ensures { IfOk result (λ rooms. expanded rooms.runs.items ≡ map room_of_place (expanded common.now ++ expanded own.now)) }
{
    let mut rooms = Vec::new(alloc);
    add_places(&mut rooms, common)?;
    add_places(&mut rooms, own)?;
    Memory::new(alloc, rooms)
}

/// What stands at the own places of the process with this number.
pub(crate) fn rooms_of_process(
    alloc: Global,
    image: &ImageParts,
    process: usize,
) -> Result<Memory, AllocError>
    ensures { IfOk result (λ rooms. expanded rooms.runs.items ≡ map room_of_place (places_of image.now process)) }
{
    match image.processes.as_slice().get(process) {
        None => Memory::new(alloc, Vec::new(alloc)),
        Some(one) => rooms_in(alloc, image.common.as_slice(), one.places.as_slice()),
    }
}

/// What stands at the common places.
#[tactic(auto, using(crate::proofs::Expanded::places_all))]
pub(crate) fn common_rooms(alloc: Global, image: &ImageParts) -> Result<Memory, AllocError>
    ensures { IfOk result (λ rooms. expanded rooms.runs.items ≡ map room_of_place (expanded image.now.common)) }
{
    let mut rooms = Vec::new(alloc);
    add_places(&mut rooms, image.common.as_slice())?;
    Memory::new(alloc, rooms)
}

/// Whether the block belongs to no process.
pub(crate) fn is_common(block: &Block) -> bool
    ensures { result ≡ is_common block.now }
{
    block.process == 255
}

/// What stands at the own places that the blocks of a process may name, or common blocks where it is 255.
pub(crate) fn rooms_for(
    alloc: Global,
    image: &ImageParts,
    process: u8,
) -> Result<Memory, AllocError>
    ensures { IfOk result (λ rooms. expanded rooms.runs.items ≡ map room_of_place (places_for image.now process)) }
{
    if process == 255 {
        common_rooms(alloc, image)
    } else {
        rooms_of_process(alloc, image, usize::from(process))
    }
}

/// Adds what stands at shared cells.
#[tactic(auto, using(crate::proofs::Expanded::behind, crate::proofs::Expanded::none_behind))]
fn add_cells(rooms: &mut Vec<Run<Room>>, cells: &[Run<Cell>]) -> Result<(), AllocError>
    ensures { OnOk result (rooms.new.items ≡ rooms.old.items ++ map cell_run cells.now) }
{
    for run in cells {
        rooms.push(Run {
            repeat: run.repeat,
            row: Room::Of(run.row.kind),
        })?;
    }
    Ok(())
}

/// What stands at the shared cells.
#[tactic(auto, using(crate::proofs::Expanded::cells_all))]
pub(crate) fn shared_rooms(alloc: Global, image: &ImageParts) -> Result<Memory, AllocError>
    ensures { IfOk result (λ rooms. expanded rooms.runs.items ≡ map room_of_cell (expanded image.now.cells)) }
{
    let mut rooms = Vec::new(alloc);
    add_cells(&mut rooms, image.cells.as_slice())?;
    Memory::new(alloc, rooms)
}

/// Adds what stands at cells of these kinds.
#[tactic(auto, using(crate::proofs::Expanded::behind, crate::proofs::Expanded::none_behind))]
fn add_kinds(rooms: &mut Vec<Run<Room>>, kinds: &[Run<Kind>]) -> Result<(), AllocError>
    ensures { OnOk result (rooms.new.items ≡ rooms.old.items ++ map kind_run kinds.now) }
{
    for run in kinds {
        rooms.push(Run {
            repeat: run.repeat,
            row: Room::Of(run.row),
        })?;
    }
    Ok(())
}

/// What stands at cells of these kinds.
#[tactic(auto, using(crate::proofs::Expanded::kinds_all))]
fn rooms_of_kinds(alloc: Global, kinds: &[Run<Kind>]) -> Result<Memory, AllocError>
    ensures { IfOk result (λ rooms. expanded rooms.runs.items ≡ map room_of_kind (expanded kinds.now)) }
{
    let mut rooms = Vec::new(alloc);
    add_kinds(&mut rooms, kinds)?;
    Memory::new(alloc, rooms)
}

/// What stands at the cells of the shape with this number.
pub(crate) fn rooms_of_shape(
    alloc: Global,
    image: &ImageParts,
    shape: u32,
) -> Result<Memory, AllocError>
    ensures { IfOk result (λ rooms. expanded rooms.runs.items ≡ map room_of_kind (kinds_of image.now shape)) }
{
    match image.shapes.as_slice().get(shape as usize) {
        None => Memory::new(alloc, Vec::new(alloc)),
        Some(runs) => rooms_of_kinds(alloc, runs.as_slice()),
    }
}
