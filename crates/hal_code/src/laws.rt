//! What holds of each image.

ghost use Rattle.std.specs.Prelude.{ℕ, ◌≡◌, ◌≤◌, ◌<◌, length, All};
ghost use Rattle.hal_values.specs.Loads.{IsLoad, IsWritten, turn_limit};
ghost use Rattle.hal_values.specs.Tables.{IsTables};
ghost use Rattle.hal_code.specs.declared.image.ImageParts.{ImageParts};
ghost use Rattle.hal_code.specs.Images.{tables_of};
ghost use Rattle.hal_code.specs.Cores.{Core, Moves};
ghost use Rattle.hal_code.specs.Courses.{rank, setting_of, load_of};
ghost use Rattle.hal_code.specs.Forward.{IsForward};
ghost use Rattle.hal_code.specs.Machine.{stepped};
ghost use Rattle.hal_code.specs.Right.{IsRight};

/// An image whose tables are right is a load, whatever its code: each process always asks, and in order; it asks Begin first, after Killed and after a
/// finished cycle; and an UPDATE block that it asks for ends, after one number of turns alone, which keeps the limit, and writes only cells that exist, with
/// values of their kinds (image document, The machine).
pub fn an_image_with_right_tables_is_a_load()
    ensures { (turns : ℕ) (image : ImageParts) → IsTables (tables_of image) → turns ≤ turn_limit → IsLoad (load_of turns image) }
{}

/// An image that is right is a load (image document, When an image is right).
pub fn a_right_image_is_a_load()
    ensures { (turns : ℕ) (image : ImageParts) → IsRight image → turns ≤ turn_limit → IsLoad (load_of turns image) }
{}

/// In the code of an image that is right each jump goes on, forward or back to a TURN that leads over the jump.
pub fn the_code_of_a_right_image_goes_on()
    ensures { (image : ImageParts) → IsRight image → IsForward image.code }
{}

/// So each move of a process lowers the rank, wherever it stands: between two requests there are fewer moves than the rank says, but for turns of an UPDATE block
/// that are counted. The process is one of the image, and what its UPDATE block wrote are values of cells (image document, What a process asks).
pub fn each_move_lowers_the_rank()
    ensures { (turns : ℕ) (image : ImageParts) (p : ℕ) (c after : Core) → IsRight image → p < length image.processes
        → All (IsWritten (tables_of image)) c.mode.writes
        → stepped (setting_of turns image p) c ≡ Moves after
        → rank (setting_of turns image p) after < rank (setting_of turns image p) c }
{}
