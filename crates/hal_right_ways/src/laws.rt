//! What the machine has to know before it goes on with a process. Each law is said of images whose code keeps the ranges of its types, as the code of each image
//! does that is a value, and whose views have cells.

ghost use Rattle.std.specs.Prelude.{ℕ, ◌≡◌, ◌<◌, List, [], ◌∷◌, ◌++◌, length};
ghost use Rattle.hal_values.specs.Answers.{Answered};
ghost use Rattle.hal_values.specs.Loads.{FitAll, FitsNext};
ghost use Rattle.hal_code.specs.declared.image.ImageParts.{ImageParts};
ghost use Rattle.hal_code.specs.Cores.{Setting, Wait, Core};
ghost use Rattle.hal_code.specs.Courses.{setting_of, course, load_of};
ghost use Rattle.hal_code.specs.Machine.{after_answer};
ghost use Rattle.hal_code.specs.Right.{IsRight};
ghost use Rattle.hal_right_values.specs.Finding.{HaveCells};
ghost use Rattle.hal_right_values.specs.Ranges.{AreInRange};
ghost use Rattle.hal_runner.specs.Ways.{AnswerFits, ShapesFit, WayFits};
ghost use Rattle.hal_right_ways.specs.Timed.{timed};

/// What is still to be done with an answer finds what it takes, wherever the process waits; and the cells of each shape can be counted.
pub fn the_answers_of_a_right_image_fit()
    ensures answers { (turns : ℕ) (image : ImageParts) (p : ℕ) (answers : List Answered) → IsRight image → AreInRange image → p < length image.processes
        → FitAll (load_of turns image) p answers → AnswerFits (course (setting_of turns image p) answers).wait }
    ensures shapes { (image : ImageParts) → IsRight image → ShapesFit image }
{}

/// After all fitting answers and one more each instruction finds what it takes, until the process asks again.
pub fn the_way_of_a_right_image_fits()
    ensures { (turns : ℕ) (image : ImageParts) (p : ℕ) (answers : List Answered) (a : Answered) → IsRight image → HaveCells image → AreInRange image → p < length image.processes
        → FitAll (load_of turns image) p answers → FitsNext (load_of turns image) p answers a
        → WayFits (setting_of turns image p) (after_answer (setting_of turns image p) (course (setting_of turns image p) answers).wait a (course (setting_of turns image p) answers).core) }
{}

/// No process looks at the number of turns that an answer tells.
pub fn no_process_uses_the_turns_of_an_answer()
    ensures step { (s : Setting) (w : Wait) (turns : ℕ) (a : Answered) (c : Core) → after_answer s w (timed turns a) c ≡ after_answer s w a c }
    ensures course { (s : Setting) (answers : List Answered) (turns : ℕ) (a : Answered) → course s (answers ++ timed turns a ∷ []) ≡ course s (answers ++ a ∷ []) }
{}
