//! What holds of code that stands for a set of files.

ghost use Rattle.std.specs.Prelude.{ℕ, List};
ghost use Rattle.hal_grammar.specs.Units.{File};
ghost use Rattle.hal_values.specs.Loads.{Agree};
ghost use Rattle.hal_meaning.specs.Sets.{set_of};
ghost use Rattle.hal_meaning.specs.SetLoad as set;
ghost use Rattle.hal_code.specs.declared.image.ImageParts.{ImageParts};
ghost use Rattle.hal_code.specs.Courses as code;
ghost use Rattle.hal_agreement.specs.Placed.{IsPlaced};

/// An image in which the code of each process of a set of files stands agrees with the set: its tables are the same, and so is what each process asks after
/// any answers, what its UPDATE blocks write, and what its own data hold (image document, Code that stands for a set).
pub fn code_that_stands_for_a_set_agrees_with_it()
    ensures { (turns : ℕ) (files : List File) (image : ImageParts) → IsPlaced (set_of turns files) image → Agree (set.load_of (set_of turns files)) (code.load_of turns image) }
{}
