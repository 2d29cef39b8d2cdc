//! What holds of the layout of each set of files.

ghost use Rattle.std.specs.Prelude.{◌≡◌, ℕ, List};
ghost use Rattle.hal_grammar.specs.Units.{File};
ghost use Rattle.hal_phrases.specs.GatheredUnits.{phrases_of};
ghost use Rattle.hal_constants.specs.Known.{known};
ghost use Rattle.hal_meaning.specs.Sets.{set_of};
ghost use Rattle.hal_storage.specs.layout.Layouts.{layout_of, tables_of};

/// The tables of a set's layout are those of the set.
pub fn tables_are_those_of_the_set()
    ensures { (turns : ℕ) (files : List File) → tables_of (layout_of (phrases_of files) (known (phrases_of files))) ≡ (set_of turns files).tables }
{}
