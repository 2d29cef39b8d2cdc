//! What holds of the values that the processes of a right image hold. Each law is said of images whose code keeps the ranges of its types, as the code of each
//! image does that is a value.

ghost use Rattle.std.specs.Prelude.{ℕ, ◌≡◌, ◌<◌, ◌≤◌, List, [], length, Some, slice_get};
ghost use Rattle.hal_values.specs.declared.request.Request.{Request};
ghost use Rattle.hal_values.specs.Answers.{Answered, Ends, Fits, error};
ghost use Rattle.hal_values.specs.Loads.{FitAll};
ghost use Rattle.hal_states.specs.Spots.{kept};
ghost use Rattle.hal_code.specs.declared.image.ImageParts.{ImageParts};
ghost use Rattle.hal_code.specs.declared.instr.Instr.{Instr};
ghost use Rattle.hal_code.specs.declared.instr.Instr.TheVariants as instr;
ghost use Rattle.hal_code.specs.declared.row.View.{View};
ghost use Rattle.hal_code.specs.Cores.{Core, Wait};
ghost use Rattle.hal_code.specs.Courses.{setting_of, course, load_of};
ghost use Rattle.hal_code.specs.Images.{tables_of, first_of, kinds_of};
ghost use Rattle.hal_code.specs.Machine.{begun, stepped, after_answer};
ghost use Rattle.hal_code.specs.Memory.{spread_limit, target_kinds};
ghost use Rattle.hal_code.specs.Right.{IsRight};
ghost use Rattle.hal_sound_code.specs.Typed.{IsTyped};
ghost use Rattle.hal_right_values.specs.Ranges.{IsInRangeAt, AreInRange};
ghost use Rattle.hal_right_values.specs.Holding.{Holding, HoldsAfter, HoldsAwaiting, HoldingStep};
ghost use Rattle.hal_right_values.specs.Finding.{Fits as Finds, HaveCells};
ghost use Rattle.hal_right_values.specs.Fitting.{OperandsFit};
ghost use Rattle.hal_right_values.specs.Spreading.{CellFits};

/// After all fitting answers all values that a process of a right image holds are right: those on its stack, on the stacks of the blocks that called, in its own
/// places, and those that an UPDATE block sees and wrote.
pub fn the_processes_of_a_right_image_hold_right_values()
    ensures { (turns : ℕ) (image : ImageParts) (p : ℕ) (answers : List Answered) → IsRight image → AreInRange image → p < length image.processes
        → FitAll (load_of turns image) p answers → HoldsAwaiting (course (setting_of turns image p) answers) }
{}

/// So it is from step to step: at the beginning, after each instruction, and after each answer that fits.
pub fn each_step_of_a_right_image_holds_right_values()
    ensures begins { (turns : ℕ) (image : ImageParts) (p : ℕ) → IsRight image → p < length image.processes
        → HoldingStep (begun (setting_of turns image p) (kept (setting_of turns image p).firsts (error 0 0))) }
    ensures steps { (turns : ℕ) (image : ImageParts) (p : ℕ) (c : Core) → IsRight image → p < length image.processes → IsTyped (setting_of turns image p) c
        → IsInRangeAt image c.at → Holding c → HoldingStep (stepped (setting_of turns image p) c) }
    ensures answers { (turns : ℕ) (image : ImageParts) (p : ℕ) (ends : Ends) (r : Request) (w : Wait) (c : Core) (a : Answered) → IsRight image → p < length image.processes
        → Holding c → HoldsAfter r w → Fits (tables_of image) ends r a → HoldingStep (after_answer (setting_of turns image p) w a c) }
{}

/// Each instruction takes the operands that it meets: an operation the values on top, a store the value under its address, PICK and PATCH what lies below the
/// places, and ITEM the value of which it makes a text.
pub fn the_operands_of_a_right_image_fit()
    ensures { (turns : ℕ) (image : ImageParts) (p : ℕ) (c : Core) (i : Instr) → IsRight image → p < length image.processes → IsTyped (setting_of turns image p) c → Holding c
        → slice_get image.code c.at ≡ Some i → OperandsFit i c.stack }
{}

/// And each instruction finds what it takes: a view also leads to cells whose numbers fit 32 bits, as those do that COPY copies, and the own places that CLEAR names
/// are there. The premise is that the shape of each view has a cell: WHOLE leads to any number where there is none.
pub fn each_instruction_of_a_right_image_finds_what_it_takes()
    ensures { (turns : ℕ) (image : ImageParts) (p : ℕ) (c : Core) (i : Instr) → IsRight image → HaveCells image → p < length image.processes → IsTyped (setting_of turns image p) c
        → Holding c → slice_get image.code c.at ≡ Some i → Finds (setting_of turns image p) i c }
{}

/// The views that instructions name lead to cells and places whose numbers fit 32 bits, whatever the subscripts are, where they lead to any.
pub fn the_views_of_a_right_image_lead_to_small_numbers()
    ensures cells { (turns : ℕ) (image : ImageParts) (p : ℕ) (c : Core) (v : ℕ) (view : View) → IsRight image → p < length image.processes → IsTyped (setting_of turns image p) c
        → slice_get image.code c.at ≡ Some (instr.Cell v) → slice_get image.views v ≡ Some view → CellFits view c }
    ensures areas { (turns : ℕ) (image : ImageParts) (p : ℕ) (c : Core) (v : ℕ) (view : View) → IsRight image → p < length image.processes → IsTyped (setting_of turns image p) c
        → slice_get image.code c.at ≡ Some (instr.Whole v) → slice_get image.views v ≡ Some view → (target_kinds image view.target ≡ [] → ⊥) → CellFits view c }
{}

/// Control stands within the code, each process begins there, and a shape has few cells.
pub fn a_right_image_keeps_its_bounds()
    ensures at { (turns : ℕ) (image : ImageParts) (p : ℕ) (c : Core) → IsRight image → IsTyped (setting_of turns image p) c → c.at < length image.code }
    ensures begin { (image : ImageParts) (p : ℕ) → IsRight image → p < length image.processes → first_of image p < length image.code }
    ensures shapes { (image : ImageParts) (shape : ℕ) → IsRight image → length (kinds_of image shape) ≤ spread_limit }
{}
