//! What holds of each set of files.

ghost use Rattle.std.specs.Prelude.{List, length, ◌≤◌};
ghost use Rattle.hal_base.specs.declared.limits.TheConstants.{CELL_LIMIT};
ghost use Rattle.hal_grammar.specs.Units.{File};
ghost use Rattle.hal_phrases.specs.Phrases.{Phrase};
ghost use Rattle.hal_phrases.specs.GatheredUnits.{phrases_of};
ghost use Rattle.hal_constants.specs.Known.{Known, known};
ghost use Rattle.hal_meaning.specs.Sets.{cells_of};
ghost use Rattle.hal_views.specs.Views.{View, named_views, views_of, HasRoom};
ghost use Rattle.hal_views.specs.Once.{IsAmong, AreOnce};

/// A set that has room keeps the limit of shared cells, which each load keeps.
pub fn a_set_with_room_has_few_cells()
    ensures { (files : List File) → HasRoom files → length (cells_of (phrases_of files) (known (phrases_of files))) ≤ CELL_LIMIT }
{}

/// The views of a set are those of its phrases, each once.
pub fn views_are_those_of_phrases()
    ensures each { (ps : List Phrase) (vs : Known) (v : View) → IsAmong v (named_views ps vs) → IsAmong v (views_of ps vs) }
    ensures only { (ps : List Phrase) (vs : Known) (v : View) → IsAmong v (views_of ps vs) → IsAmong v (named_views ps vs) }
    ensures once { (ps : List Phrase) (vs : Known) → AreOnce (views_of ps vs) }
{}
