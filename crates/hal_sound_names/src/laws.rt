//! What holds of all statements, and of each set of files.

ghost use Rattle.std.specs.Prelude.{List};
ghost use Rattle.hal_grammar.specs.Statements.{Statements};
ghost use Rattle.hal_grammar.specs.Units.{File};
ghost use Rattle.hal_phrases.specs.declared.around.Around.{Around};
ghost use Rattle.hal_phrases.specs.Phrases.{Phrase};
ghost use Rattle.hal_phrases.specs.GatheredUnits.{phrases_of};
ghost use Rattle.hal_meaning.specs.Bodies.{bodies_of};
ghost use Rattle.hal_sound_names.specs.LookedUp.{LooksUp, AllLookRight};

/// The meaning looks each name of a statement up in the block in which its phrase stands: that of the unit, or of the innermost DO FOR
/// group with a TEMPORARY variable, which it finds by its mark.
pub fn statements_look_names_up_where_they_stand()
    ensures { (before : List Phrase) (around : Around) (body : Statements) → LooksUp before around body }
{}

/// The same of the units of each set of files: behind the names of its declarations, the names that the phrases of a unit use are those of
/// its statements in order, each in the block in which the meaning looks it up.
pub fn units_look_names_up_where_they_stand()
    ensures { (files : List File) → AllLookRight (phrases_of files) (bodies_of files (phrases_of files)) }
{}
