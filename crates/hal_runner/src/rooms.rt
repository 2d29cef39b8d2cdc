//! The room that a process takes for the blocks that it enters.

ghost use Rattle.std.specs.Prelude.{◌≡◌, ◌<◌, ◌+◌, ◌-◌, ◌*◌, ◌^◌, [], IfOk, if◌then◌else◌};
ghost use Rattle.hal_sound_code.specs.Entries.{is_on, on_count};
ghost use Rattle.hal_runner.specs.Ways.{IsAmple};

use hal_code::{ImageParts, Instr};
use hal_machine::Blocks;
use std::alloc::{AllocError, Global};

/// Whether an instruction is ON.
fn is_on(instr: &Instr) -> bool
    ensures { result ≡ is_on instr.now }
{
    match instr {
        Instr::On { .. } => true,
        _ => false,
    }
}

/// One more, where an instruction is ON.
fn counted(instr: &Instr, count: usize) -> usize
    requires { count < 2 ^ 64 - 1 }
    ensures { result ≡ (if is_on instr.now then 1 else 0) + count }
{
    if is_on(instr) { count + 1 } else { count }
}

/// How many ON instructions there are.
#[tactic(auto, using(crate::proofs::Counting::one_more_on, crate::proofs::Counting::no_more_than))]
fn on_count(code: &[Instr]) -> usize
    ensures { result ≡ on_count code.now }
{
    let mut count = 0;
    for instr in code {
        count = counted(instr, count);
    }
    count
}

/// One more than twice as many. It fails where a number of this size can't be told, and so much memory can't be had.
fn twice_and_one(count: usize) -> Result<usize, AllocError>
    ensures { IfOk result (λ room. room ≡ 2 * count + 1) }
{
    let twice = count.checked_mul(2).ok_or(AllocError)?;
    twice.checked_add(1).ok_or(AllocError)
}

/// The outermost block of a process of an image runs. There is room for each block that it enters and for each entry that these have, and for one more.
pub(crate) fn blocks_for(alloc: Global, image: &ImageParts) -> Result<Blocks, AllocError>
    ensures entries { IfOk result (λ b. b.entries ≡ []) }
    ensures frames { IfOk result (λ b. b.frames ≡ []) }
    ensures room { IfOk result (λ b. IsAmple image.now b.room) }
{
    let blocks = twice_and_one(image.blocks.as_slice().len())?;
    let entries = twice_and_one(on_count(image.code.as_slice()))?;
    Blocks::new(alloc, blocks, entries)
}
