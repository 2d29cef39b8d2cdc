//! Laws: functions that run nothing, whose contract is proved of the definitions.

ghost use Rattle.std.specs.Prelude.{◌≡◌, ℕ, List};
ghost use Rattle.hal_grammar.specs.Units.{File};
ghost use Rattle.hal_checked.specs.Reading.{AreRead};

/// Texts are those of one list of files at most (language document, Words and Grammar).
pub fn texts_are_those_of_one_list_of_files()
    ensures { (number : ℕ) (texts : List (List ℕ)) (files others : List File) → AreRead number texts files → AreRead number texts others → files ≡ others }
{}
