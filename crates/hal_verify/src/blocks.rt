//! Blocks of code.

ghost use Rattle.std.specs.Option.{ForSome};
ghost use Rattle.std.specs.Prelude.{◌≡◌, map, [], ◌∷◌, ◌++◌, IfOk, OnOk};
ghost use Rattle.std.specs.List.{list_any, list_all};
ghost use Rattle.hal_code.specs.Blocks as blocks;
ghost use Rattle.hal_code.specs.Blocks.{code_of, is_of_process, leads_out};
ghost use Rattle.hal_code.specs.Flow.{flow_of};
ghost use Rattle.hal_code.specs.Images.{expanded};
ghost use Rattle.hal_code.specs.Right as right;
ghost use Rattle.hal_verify.specs.Marking.{rooms_fit};
ghost use Rattle.hal_verify.specs.Placed.{places_for};
ghost use Rattle.hal_verify.specs.Rooms.{room_of_place};
ghost use Rattle.hal_code.specs.Right.{follow, block_right, blocks_right};

use crate::body::Body;
use crate::code::code_of;
use crate::counts::view_count;
use crate::events::is_known;
use crate::held::Held;
use crate::marking::rooms_fit;
use crate::memory::Memory;
use crate::noting::notes_of;
use crate::rooms::{common_rooms, is_common};
use crate::scope::Scope;
use crate::tables::SPREAD_LIMIT;
use crate::worldly::is_worldly;
use hal_code::{Block, ImageParts, Instr};
use std::alloc::{AllocError, Global};

/// Whether the block of some process has this number.
fn is_of_process(image: &ImageParts, number: usize) -> bool
    ensures { result ≡ is_of_process image.now number }
{
    let processes = image.processes.as_slice();
    for process in processes {
        if process.block as usize == number {
            return true;
        }
    }
    false
}

/// Whether an instruction asks or leads to one that does, where this is known of the first blocks.
fn leads_out(known: &[bool], instr: &Instr) -> bool
    ensures { result ≡ leads_out known.now instr.now }
{
    match instr {
        Instr::Call(callee) => match known.get(*callee as usize) {
            None => false,
            Some(outward) => *outward,
        },
        _ => is_worldly(instr),
    }
}

/// Whether one of these instructions does.
fn any_leads_out(known: &[bool], code: &[Instr]) -> bool
    ensures { result ≡ list_any (leads_out known.now) code.now }
{
    for instr in code {
        if leads_out(known, instr) {
            return true;
        }
    }
    false
}

/// Adds of the next block whether it has an instruction that asks, or calls such a block.
fn add_block(known: &mut Vec<bool>, image: &ImageParts, block: &Block) -> Result<(), AllocError>
    ensures { OnOk result (known.new.items ≡ known.old.items ++ (list_any (leads_out known.old.items) (code_of image.now block.now) ∷ [])) }
{
    let leads = any_leads_out(known, code_of(image, block));
    known.push(leads)?;
    Ok(())
}

/// Of each block whether it has an instruction that asks, or calls such a block.
pub(crate) fn outward(alloc: Global, image: &ImageParts) -> Result<Vec<bool>, AllocError>
    ensures { IfOk result (λ list. list.items ≡ blocks.outward image.now) }
{
    let mut known = Vec::new(alloc);
    let blocks = image.blocks.as_slice();
    for block in blocks {
        add_block(&mut known, image, block)?;
    }
    Ok(known)
}

/// Whether blocks aren't empty, and follow each other over so many instructions.
fn follow(size: usize, blocks: &[Block]) -> bool
    ensures { result ≡ follow size 0 blocks.now }
{
    let mut from: u64 = 0;
    for block in blocks {
        if block.first != from || block.end <= block.first {
            return false;
        }
        from = block.end;
    }
    from == size as u64
}

/// Whether a block is common or of a process that is there, and gives something that there is.
fn block_right(image: &ImageParts, block: &Block) -> bool
    ensures { result ≡ block_right image.now block.now }
{
    (is_common(block) || usize::from(block.process) < image.processes.as_slice().len())
        && is_known(block.result)
}

/// Whether all blocks are.
fn all_right(image: &ImageParts) -> bool
    ensures { result ≡ list_all (block_right image.now) image.now.blocks }
{
    let blocks = image.blocks.as_slice();
    for block in blocks {
        if !block_right(image, block) {
            return false;
        }
    }
    true
}

/// Whether the rows of blocks are right.
pub(crate) fn blocks_right(image: &ImageParts) -> bool
    ensures { result ≡ blocks_right image.now }
{
    follow(image.code.as_slice().len(), image.blocks.as_slice()) && all_right(image)
}

/// Which views fit the common places; None where views give too many cells to look at all of them beforehand.
fn common_fits(alloc: Global, image: &ImageParts) -> Result<Option<Vec<bool>>, AllocError>
    ensures { IfOk result (λ found. ForSome found (λ fits. fits.items ≡ rooms_fit image.now (map room_of_place (expanded image.now.common)) image.now.views)) }
{
    if view_count(image) > SPREAD_LIMIT {
        return Ok(None);
    }
    let rooms = common_rooms(alloc, image)?;
    let fits = rooms_fit(alloc, image, &rooms)?;
    Ok(Some(fits))
}

/// The first instruction of a block that isn't right.
#[tactic(auto, using(crate::proofs::Flowing::wrong_there))]
fn wrong_in(
    alloc: Global,
    image: &ImageParts,
    outward: &[bool],
    common_fits: Option<&[bool]>,
    rooms: &Memory,
    number: usize,
    block: &Block,
) -> Result<Option<u64>, AllocError>
    requires placed { expanded rooms.now.runs.items ≡ map room_of_place (places_for image.now block.now.process) }
    requires fitting { ForSome common_fits (λ fits. fits.now ≡ rooms_fit image.now (map room_of_place (expanded image.now.common)) image.now.views) }
    ensures { IfOk result (λ found. found ≡ right.wrong_in image.now outward.now (flow_of image.now block.now number (code_of image.now block.now))) }
{
    let code = code_of(image, block);
    let scope = Scope {
        alloc,
        image,
        block,
        number,
        rooms,
        common_fits,
    };
    let notes = notes_of(&scope, code)?;
    let body = Body {
        block,
        code,
        notes: &notes,
        outward,
        of_process: is_of_process(image, number),
    };
    Ok(body.first_wrong())
}

/// The first instruction of all blocks that isn't right.
fn wrong_from(
    alloc: Global,
    image: &ImageParts,
    outward: &[bool],
    common_fits: Option<&[bool]>,
) -> Result<Option<u64>, AllocError>
    requires { ForSome common_fits (λ fits. fits.now ≡ rooms_fit image.now (map room_of_place (expanded image.now.common)) image.now.views) }
    ensures { IfOk result (λ found. found ≡ right.wrong_instr image.now outward.now 0 image.now.blocks) }
{
    let mut held = Held::new(alloc, image)?;
    let blocks = image.blocks.as_slice();
    for (number, block) in blocks.iter().enumerate() {
        held.hold(alloc, image, block.process)?;
        let found = wrong_in(
            alloc,
            image,
            outward,
            common_fits,
            &held.memory,
            number,
            block,
        )?;
        if let Some(wrong) = found {
            return Ok(Some(wrong));
        }
    }
    Ok(None)
}

/// The first instruction of all blocks that isn't right, where it is known which blocks ask.
pub(crate) fn wrong_instr(
    alloc: Global,
    image: &ImageParts,
    outward: &[bool],
) -> Result<Option<u64>, AllocError>
    ensures { IfOk result (λ found. found ≡ right.wrong_instr image.now outward.now 0 image.now.blocks) }
{
    match common_fits(alloc, image)? {
        None => wrong_from(alloc, image, outward, None),
        Some(fits) => wrong_from(alloc, image, outward, Some(&fits)),
    }
}
