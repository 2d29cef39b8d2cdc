//! The instructions of blocks.

ghost use Rattle.std.specs.Prelude.{◌≡◌, ◌≤◌, ◌-◌, ◌^◌, length, take, drop};
ghost use Rattle.hal_code.specs.Blocks.{code_of};

use hal_code::{Block, ImageParts, Instr};

/// The items from a number on.
#[tactic(auto, using(crate::proofs::Slices::past))]
fn from(code: &[Instr], number: u64) -> &[Instr]
    ensures items { result.now ≡ drop number code.now }
    ensures room { length result.now ≤ (2 ^ 64 - 1) - number }
{
    let count = code.len();
    if number as usize <= count {
        code.split_at(number as usize).1
    } else {
        &[]
    }
}

/// The first so many items.
#[tactic(auto, using(crate::proofs::Slices::all_of))]
fn first(code: &[Instr], count: u64) -> &[Instr]
    ensures items { result.now ≡ take count code.now }
    ensures room { length result.now ≤ length code.now }
{
    if count as usize <= code.len() {
        code.split_at(count as usize).0
    } else {
        code
    }
}

/// The instructions of a block.
pub(crate) fn code_of<'a>(image: &'a ImageParts, block: &Block) -> &'a [Instr]
    ensures code { result.now ≡ code_of image.now block.now }
    ensures room { length result.now ≤ (2 ^ 64 - 1) - block.now.first }
{
    let behind = from(image.code.as_slice(), block.first);
    first(behind, block.end.saturating_sub(block.first))
}
