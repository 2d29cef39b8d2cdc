//! Which views the blocks of a process name, and which of them fit its own places.

ghost use Rattle.std.specs.Prelude.{◌≡◌, ◌++◌, true, length, slice_set, IfOk, OnOk};
ghost use Rattle.hal_code.specs.Images.{expanded};
ghost use Rattle.hal_verify.specs.Marking.{mark, mark_code, mark_block, mark_blocks, no_marks, named_of, fits_of, rooms_fit, all_named, either_of, own_found, processes_fit};

use crate::code::code_of;
use crate::memory::Memory;
use crate::rooms::rooms_of_process;
use crate::viewing::{fits_rooms, is_own};
use hal_code::{Block, ImageParts, Instr, View};
use std::alloc::{AllocError, Global};

/// Marks the view with this number, where it is there.
#[tactic(auto, using(crate::proofs::Marks::set_past))]
fn mark_view(marks: &mut Vec<bool>, view: u32)
    ensures { marks.new.items ≡ slice_set marks.old.items view true }
{
    let view = view as usize;
    if view < marks.len() {
        marks[view] = true;
    }
}

/// Marks the view that an instruction names.
fn mark(marks: &mut Vec<bool>, instr: &Instr)
    ensures { marks.new.items ≡ mark marks.old.items instr.now }
{
    match instr {
        Instr::Cell(view) => mark_view(marks, *view),
        Instr::Whole(view) => mark_view(marks, *view),
        _ => {}
    }
}

/// Marks the views that instructions name.
fn mark_code(marks: &mut Vec<bool>, code: &[Instr])
    ensures { marks.new.items ≡ mark_code marks.old.items code.now }
{
    for instr in code {
        mark(marks, instr);
    }
}

/// Marks the views that a block names, where it is that of the process.
fn mark_block(marks: &mut Vec<bool>, image: &ImageParts, process: usize, block: &Block)
    ensures { marks.new.items ≡ mark_block image.now process marks.old.items block.now }
{
    if usize::from(block.process) == process {
        mark_code(marks, code_of(image, block));
    }
}

/// Marks the views that the blocks of the process name.
fn mark_blocks(marks: &mut Vec<bool>, image: &ImageParts, process: usize)
    ensures { marks.new.items ≡ mark_blocks image.now process marks.old.items image.now.blocks }
{
    let blocks = image.blocks.as_slice();
    for block in blocks {
        mark_block(marks, image, process, block);
    }
}

/// A mark for each view, which isn't set.
#[tactic(auto, using(crate::proofs::Expanded::behind, crate::proofs::Expanded::none_behind))]
fn add_marks(marks: &mut Vec<bool>, views: &[View]) -> Result<(), AllocError>
    ensures { OnOk result (marks.new.items ≡ marks.old.items ++ no_marks views.now) }
{
    for _view in views {
        marks.push(false)?;
    }
    Ok(())
}

/// A mark for each view, which isn't set.
fn no_marks(alloc: Global, image: &ImageParts) -> Result<Vec<bool>, AllocError>
    ensures { IfOk result (λ marks. marks.items ≡ no_marks image.now.views) }
{
    let mut marks = Vec::new(alloc);
    add_marks(&mut marks, image.views.as_slice())?;
    Ok(marks)
}

/// The views that the blocks of a process name.
fn named_of(alloc: Global, image: &ImageParts, process: usize) -> Result<Vec<bool>, AllocError>
    ensures { IfOk result (λ marks. marks.items ≡ named_of image.now process) }
{
    let mut marks = no_marks(alloc, image)?;
    mark_blocks(&mut marks, image, process);
    Ok(marks)
}

/// Of each view whether it fits own places.
#[tactic(auto, using(crate::proofs::Expanded::behind, crate::proofs::Expanded::none_behind))]
pub(crate) fn rooms_fit(
    alloc: Global,
    image: &ImageParts,
    rooms: &Memory,
) -> Result<Vec<bool>, AllocError>
    ensures { IfOk result (λ fits. fits.items ≡ rooms_fit image.now (expanded rooms.now.runs.items) image.now.views) }
{
    let mut fits = Vec::new(alloc);
    let views = image.views.as_slice();
    for view in views {
        let fit = fits_rooms(alloc, image, view, rooms)?;
        fits.push(fit)?;
    }
    Ok(fits)
}

/// The views that fit the own places of a process.
#[tactic(auto, using(crate::proofs::Marks::fits_there))]
fn fits_of(alloc: Global, image: &ImageParts, process: usize) -> Result<Vec<bool>, AllocError>
    ensures { IfOk result (λ fits. fits.items ≡ fits_of image.now process) }
{
    let rooms = rooms_of_process(alloc, image, process)?;
    rooms_fit(alloc, image, &rooms)
}

/// Whether all views that are named fit.
fn all_named(marks: &[bool], fits: &[bool]) -> bool
    ensures { result ≡ all_named marks.now fits.now }
{
    let mut rest = marks;
    let mut left = fits;
    while let Some((named, later)) = rest.split_first() {
        let Some((fit, others)) = left.split_first() else {
            return true;
        };
        if *named && !*fit {
            return false;
        }
        rest = later;
        left = others;
    }
    true
}

/// Whether all views that the blocks of a process name are among those that fit.
fn named_fit(
    alloc: Global,
    image: &ImageParts,
    process: usize,
    fits: &[bool],
) -> Result<bool, AllocError>
    ensures { IfOk result (λ fit. fit ≡ all_named (named_of image.now process) fits.now) }
{
    let marks = named_of(alloc, image, process)?;
    Ok(all_named(&marks, fits))
}

/// Of each view whether it was found to fit before, or does here.
#[tactic(auto, using(crate::proofs::Expanded::behind, crate::proofs::Expanded::none_behind, crate::proofs::Marks::none_left))]
fn either_of(alloc: Global, found: &[bool], fits: &[bool]) -> Result<Vec<bool>, AllocError>
    ensures { IfOk result (λ list. list.items ≡ either_of found.now fits.now) }
{
    let mut list = Vec::new(alloc);
    let mut rest = found;
    let mut left = fits;
    while let Some((one, later)) = rest.split_first() {
        let Some((fit, others)) = left.split_first() else {
            return Ok(list);
        };
        list.push(*one || *fit)?;
        rest = later;
        left = others;
    }
    Ok(list)
}

/// Whether each view of own places was found to fit.
fn own_found(views: &[View], found: &[bool]) -> bool
    ensures { result ≡ own_found views.now found.now }
{
    let mut rest = views;
    let mut left = found;
    while let Some((view, later)) = rest.split_first() {
        let Some((one, others)) = left.split_first() else {
            return true;
        };
        if is_own(view) && !*one {
            return false;
        }
        rest = later;
        left = others;
    }
    true
}

/// Whether each view that the blocks of a process name fits its own places, and each view of own places those of a process.
#[tactic(auto, using(crate::proofs::Marks::next_process, crate::proofs::Marks::wrong_process))]
pub(crate) fn processes_fit(alloc: Global, image: &ImageParts) -> Result<bool, AllocError>
    ensures { IfOk result (λ fit. fit ≡ processes_fit image.now 0 (no_marks image.now.views) (length image.now.processes)) }
{
    let mut found = no_marks(alloc, image)?;
    for process in 0..image.processes.as_slice().len() {
        let fits = fits_of(alloc, image, process)?;
        if !named_fit(alloc, image, process, &fits)? {
            return Ok(false);
        }
        found = either_of(alloc, &found, &fits)?;
    }
    Ok(own_found(image.views.as_slice(), &found))
}
