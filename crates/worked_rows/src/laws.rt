//! The worked rows that follow from the definitions alone: no code of `hal` takes part in them.

ghost use Rattle.std.specs.Prelude.{[], ◌∷◌, codes};
ghost use Rattle.std.specs.Str.Lines.{lines};
ghost use Rattle.hal_words.specs.Words.{IsCut};
ghost use Rattle.hal_grammar.specs.SpellsFiles.{SpellsFile};
ghost use Rattle.hal_phrases.specs.GatheredUnits.{phrases_of};
ghost use Rattle.hal_checked.specs.Checking.{IsTyped};
ghost use Rattle.hal_checked.specs.Reading.{AreRead};
ghost use Rattle.hal_script.specs.ScriptTexts.{IsScriptOf};
ghost use Rattle.worked_rows.specs.Files.{hello_file, count_file};
ghost use Rattle.worked_rows.specs.HelloWords.{hello_text, hello_tokens};
ghost use Rattle.worked_rows.specs.CountWords.{count_text};
ghost use Rattle.worked_rows.specs.Runs.{run_script, count_script};

/// The text of HELLO is cut into its words.
pub fn hello_is_cut()
    ensures { IsCut 0 hello_text hello_tokens }
{}

/// The words of HELLO are those of its file.
pub fn hello_is_spelled()
    ensures { SpellsFile hello_file hello_tokens [] }
{}

/// So the text of HELLO is that of its file.
pub fn hello_is_read()
    ensures { AreRead 0 (hello_text ∷ []) (hello_file ∷ []) }
{}

/// HELLO breaks no rule of names or types.
pub fn hello_is_typed()
    ensures { IsTyped (phrases_of (hello_file ∷ [])) }
{}

/// The text of the unit with a group is that of its file.
pub fn count_is_read()
    ensures { AreRead 0 (count_text ∷ []) (count_file ∷ []) }
{}

/// The unit with a group breaks no rule of names or types.
pub fn count_is_typed()
    ensures { IsTyped (phrases_of (count_file ∷ [])) }
{}

/// A script of one line.
pub fn run_10_is_a_script()
    ensures { IsScriptOf (lines (codes "RUN 10\n")) (run_script 10) }
{}

/// A script of three lines.
pub fn ticks_are_a_script()
    ensures { IsScriptOf (lines (codes "RUN 3\nTICK 5\nRUN 10\n")) count_script }
{}
