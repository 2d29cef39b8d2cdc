//! What holds of code that fits.

ghost use Rattle.std.specs.Prelude.{◌≡◌, ◌<◌, ◌+◌, ℕ, length, true, Some, slice_get};
ghost use Rattle.hal_code.specs.declared.image.ImageParts.{ImageParts};
ghost use Rattle.hal_code.specs.declared.row.Block.{Block};
ghost use Rattle.hal_code.specs.Blocks.{code_of, is_of_process, outward};
ghost use Rattle.hal_code.specs.Effects.{Sorts};
ghost use Rattle.hal_code.specs.Flow.{flow_of, part_at, is_inside};
ghost use Rattle.hal_code.specs.Right.{IsRight, blocks_right, rows_right};
ghost use Rattle.hal_fitting.specs.Fitting.{Ground, Fits, IsRightAt, Passes, ground_flow};

/// Where code of a block fits that isn't its last, nor its first where the block is a process's, and the stack before it is the one from which it fits, each of its instructions is right, and
/// behind it stands the stack to which it fits (image document, When an image is right).
pub fn code_that_fits_is_right()
    ensures { (image : ImageParts) (g : Ground) (m n : ℕ) (stack after : Sorts) → Fits image g (g.block.first + m) stack (g.block.first + n) after
        → (is_of_process image g.number ≡ true → 0 < m) → n < length (ground_flow image g).code → slice_get (ground_flow image g).stacks m ≡ Some stack → is_inside (part_at (ground_flow image g) m) ≡ g.inside
        → Passes image g.out (ground_flow image g) m n after }
{}

/// An image is right where its rows are, and each instruction of each of its blocks is (image document, When an image is right).
pub fn an_image_is_right_where_its_instructions_are()
    ensures { (image : ImageParts) → blocks_right image ≡ true → ((b n : ℕ) (block : Block) → slice_get image.blocks b ≡ Some block → IsRightAt image (outward image) (flow_of image block b (code_of image block)) n)
        → rows_right image ≡ true → IsRight image }
{}
