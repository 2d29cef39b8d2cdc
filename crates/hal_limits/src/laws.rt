//! What holds of each set of files within its limits.

ghost use Rattle.std.specs.Prelude.{List};
ghost use Rattle.hal_grammar.specs.Units.{File};
ghost use Rattle.hal_phrases.specs.GatheredUnits.{phrases_of};
ghost use Rattle.hal_constants.specs.Known.{known};
ghost use Rattle.hal_views.specs.Views.{HasRoom};
ghost use Rattle.hal_limits.specs.Limits.{IsWithin};

/// A set of files within its limits has room for its cells and for what its views reach.
pub fn a_set_within_its_limits_has_room()
    ensures { (files : List File) → IsWithin (phrases_of files) (known (phrases_of files)) → HasRoom files }
{}
