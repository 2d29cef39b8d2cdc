//! What holds of the processes of an image that is right.

ghost use Rattle.std.specs.Prelude.{ℕ, ◌≡◌, ◌<◌, ◌≤◌, ◌*◌, List, length};
ghost use Rattle.hal_values.specs.declared.request.Request.{Request};
ghost use Rattle.hal_values.specs.declared.request.Request.TheVariants as request;
ghost use Rattle.hal_values.specs.Answers.{Answered, Ends, Fits, error};
ghost use Rattle.hal_values.specs.Loads.{FitAll};
ghost use Rattle.hal_states.specs.Spots.{kept};
ghost use Rattle.hal_code.specs.declared.image.ImageParts.{ImageParts};
ghost use Rattle.hal_code.specs.Cores.{Core, Wait};
ghost use Rattle.hal_code.specs.Courses.{setting_of, course, next, load_of};
ghost use Rattle.hal_code.specs.Images.{tables_of};
ghost use Rattle.hal_code.specs.Machine.{begun, stepped, after_answer};
ghost use Rattle.hal_code.specs.Right.{IsRight};
ghost use Rattle.hal_sound_code.specs.Entries.{on_count, entry_count};
ghost use Rattle.hal_sound_code.specs.Room.{room_below, operand_count};
ghost use Rattle.hal_sound_code.specs.Standing.{call_count};
ghost use Rattle.hal_sound_code.specs.Typed.{IsTyped, IsTypedStep, Awaits, IsAwaited};

/// No process of an image that is right is ever stuck, whatever fitting answers it got: it never comes to an instruction whose operands aren't there or are of
/// another sort, or that names a place, a row or an entry that isn't there, and it never runs out of moves or turns. It would end with the error 0:0, and no
/// other error has the group 0 (image document, When an image is right).
pub fn a_right_image_is_never_stuck()
    ensures { (turns : ℕ) (image : ImageParts) (p : ℕ) (answers : List Answered) → IsRight image → p < length image.processes → FitAll (load_of turns image) p answers
        → (next (setting_of turns image p) answers ≡ request.Stop (error 0 0)) → ⊥ }
{}

/// After all fitting answers the operands have the sorts that the flow has at the instruction where the process goes on: those of the running block, and of each
/// block that called; and the own places hold what fits them.
pub fn the_stack_of_a_right_image_has_its_sorts()
    ensures { (turns : ℕ) (image : ImageParts) (p : ℕ) (answers : List Answered) → IsRight image → p < length image.processes → FitAll (load_of turns image) p answers
        → IsAwaited (setting_of turns image p) (course (setting_of turns image p) answers) }
{}

/// So it is from step to step: at the beginning, after each instruction, and after each answer that fits.
pub fn each_step_of_a_right_image_fits()
    ensures begins { (turns : ℕ) (image : ImageParts) (p : ℕ) → IsRight image → p < length image.processes
        → IsTypedStep (setting_of turns image p) (begun (setting_of turns image p) (kept (setting_of turns image p).firsts (error 0 0))) }
    ensures steps { (turns : ℕ) (image : ImageParts) (p : ℕ) (c : Core) → IsRight image → p < length image.processes → IsTyped (setting_of turns image p) c
        → IsTypedStep (setting_of turns image p) (stepped (setting_of turns image p) c) }
    ensures answers { (turns : ℕ) (image : ImageParts) (p : ℕ) (ends : Ends) (r : Request) (w : Wait) (c : Core) (a : Answered) → IsRight image → p < length image.processes
        → Awaits (setting_of turns image p) r w c → Fits (tables_of image) ends r a → IsTypedStep (setting_of turns image p) (after_answer (setting_of turns image p) w a c) }
{}

/// Blocks call only blocks with smaller numbers: fewer of them have called than there are blocks, and there are fewer frames than twice as many, those of UPDATE
/// blocks among them.
pub fn a_right_image_calls_downwards()
    ensures calls { (turns : ℕ) (image : ImageParts) (p : ℕ) (c : Core) → IsTyped (setting_of turns image p) c → call_count c.frames < length image.blocks }
    ensures frames { (turns : ℕ) (image : ImageParts) (p : ℕ) (c : Core) → IsTyped (setting_of turns image p) c → length c.frames < 2 * length image.blocks }
{}

/// All operands together, those of the running block and of each block that called, have room where each block has as many as the deepest stack of its flow.
pub fn operands_have_room()
    ensures { (turns : ℕ) (image : ImageParts) (p : ℕ) (c : Core) → IsTyped (setting_of turns image p) c → operand_count c ≤ room_below image (length image.blocks) }
{}

/// All entries for errors together, those of the running block and of each block below it, have room where there are twice as many as ON instructions: each comes
/// of one of its block, no two of a block have the same selector, and a block and an UPDATE block in it have entries of their own.
pub fn entries_have_room()
    ensures { (turns : ℕ) (image : ImageParts) (p : ℕ) (c : Core) → IsRight image → IsTyped (setting_of turns image p) c → entry_count c ≤ 2 * on_count image.code }
{}
