//! What holds of linked images.

ghost use Rattle.std.specs.Prelude.{◌≡◌, ◌<◌, ℕ, true, List, length, Ok, Some, slice_get};
ghost use Rattle.hal_grammar.specs.Units.{File};
ghost use Rattle.hal_values.specs.Loads.{Agree};
ghost use Rattle.hal_meaning.specs.Sets.{set_of};
ghost use Rattle.hal_meaning.specs.SetLoad as set;
ghost use Rattle.hal_code.specs.declared.image.ImageParts.{ImageParts};
ghost use Rattle.hal_code.specs.declared.row.Block.{Block};
ghost use Rattle.hal_code.specs.declared.row.View.{View};
ghost use Rattle.hal_code.specs.Courses as code;
ghost use Rattle.hal_code.specs.Right.{blocks_right};
ghost use Rattle.hal_agreement.specs.Placed.{IsPlaced};
ghost use Rattle.hal_link.specs.KnownBlocks.{HasOwnBlock, IsKnown};
ghost use Rattle.hal_link.specs.LinkedBlocks.{IsLinkedBlock};
ghost use Rattle.hal_link.specs.Linking.{image_of};

/// Where a set of files has an image with some views, that image stands for the set, and agrees with it: its tables are the same, and so is what each process asks
/// after any answers, what its UPDATE blocks write, and what its own data hold (image document, The image of a set).
pub fn the_image_of_a_set_agrees_with_it()
    ensures stands { (turns : ℕ) (files : List File) (views : List View) (image : ImageParts) → image_of (set_of turns files) views ≡ Ok image → IsPlaced (set_of turns files) image }
    ensures agrees { (turns : ℕ) (files : List File) (views : List View) (image : ImageParts) → image_of (set_of turns files) views ≡ Ok image
        → Agree (set.load_of (set_of turns files)) (code.load_of turns image) }
{}

/// The blocks of an image of a set of files follow each other over its whole code, each of a process that is there. Each is that of a process, from BEGIN over the code
/// of its statements to FINISH, and those that it calls stand before it; or it is that of a unit that its process calls, from CLEAR of the unit's AUTOMATIC data over
/// the code of its statements to its last RETURN (image document, The image of a set).
pub fn each_block_of_a_linked_image_is_of_a_process_or_a_unit()
    ensures rows { (turns : ℕ) (files : List File) (views : List View) (image : ImageParts) → image_of (set_of turns files) views ≡ Ok image → blocks_right image ≡ true }
    ensures each { (turns : ℕ) (files : List File) (views : List View) (image : ImageParts) → image_of (set_of turns files) views ≡ Ok image
        → (number : ℕ) (row : Block) → slice_get image.blocks number ≡ Some row → IsLinkedBlock (set_of turns files) image number row }
    ensures known { (turns : ℕ) (files : List File) (views : List View) (image : ImageParts) → image_of (set_of turns files) views ≡ Ok image
        → (number : ℕ) (row : Block) → slice_get image.blocks number ≡ Some row → IsKnown (set_of turns files) views image number row }
    ensures own { (turns : ℕ) (files : List File) (views : List View) (image : ImageParts) → image_of (set_of turns files) views ≡ Ok image
        → (process : ℕ) → process < length (set_of turns files).tables.processes → HasOwnBlock (set_of turns files) image process }
{}
