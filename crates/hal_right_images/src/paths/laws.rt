//! What holds of references with a path in a set that breaks no rule.

ghost use Rattle.std.specs.Prelude.{◌≡◌, ℕ, Bool, true, List, Some, slice_get};
ghost use Rattle.hal_grammar.specs.Leaves.{Naming};
ghost use Rattle.hal_grammar.specs.Declarations.{Part};
ghost use Rattle.hal_grammar.specs.Units.{File};
ghost use Rattle.hal_phrases.specs.Phrases.{OfPart, OfStructure, Phrase};
ghost use Rattle.hal_phrases.specs.GatheredUnits.{phrases_of};
ghost use Rattle.hal_scope.specs.Rules.{IsAmong, IsSound, rows};
ghost use Rattle.hal_kinds.specs.Data.{part_under};
ghost use Rattle.hal_templates.specs.Rules.{template_rows};
ghost use Rattle.hal_types.specs.Rules.{type_rows};
ghost use Rattle.hal_code.specs.declared.image.ImageParts.{ImageParts};
ghost use Rattle.hal_agreement.specs.Sites.{Site};
ghost use Rattle.hal_fitting.specs.Fitting.{Ground};
ghost use Rattle.hal_fit_expr.specs.Uses.{Uses};
ghost use Rattle.hal_fit_rules.specs.Used.{PhraseKnown};
ghost use Rattle.hal_fit_rules.specs.Valued.{HasConstants};
ghost use Rattle.hal_fit_names.specs.Known.{is_left_node};
ghost use Rattle.hal_fit_names.specs.Suited.{HasFitLiterals};
ghost use Rattle.hal_right_images.specs.paths.Known.{IsKnownPart};

use hal_names::{
    a_key_is_found_at_its_first_declaration, phrases_are_counted, the_search_never_runs_out,
    what_is_meant_declares_the_name,
};
use hal_templates::a_written_template_gives_what_its_unit_shows;

/// A part at the bottom of a structure has a type that is no structure, and the kind of its cells is known where the structure stands: a length of bits or of a text is
/// a number within its limits there too (language document, Structures).
pub fn kinds_of_parts_are_known()
    ensures { (files : List File) (k j : ℕ) (p q : Phrase) (name : Naming) (parts : List Part) (path : List Naming) (part : Part) → IsSound rows (phrases_of files) → IsSound type_rows (phrases_of files)
        → HasFitLiterals (phrases_of files) → slice_get (phrases_of files) k ≡ Some p → p.node ≡ OfStructure name parts → part_under (phrases_of files) k path ≡ Some j
        → slice_get (phrases_of files) j ≡ Some q → q.node ≡ OfPart true part → IsKnownPart (phrases_of files) p part }
{
    phrases_are_counted();
    what_is_meant_declares_the_name();
    a_key_is_found_at_its_first_declaration();
}

/// A reference with a path to a part of a structure is known, as the law of statements asks, in a set of files that breaks no rule of templates, names or types: what stands at
/// the end of the path is for the checks what its components are for the meaning, as a value, as what takes one, and behind UNTIL of SCHEDULE. The data that the
/// name means are the unit's own, or those of a COMPOOL, whose structures have the same parts as those that its written template shows (language document, Structures and
/// Templates).
pub fn references_with_a_path_are_known()
    ensures { (image : ImageParts) (g : Ground) (u : Bool → Uses) (files : List File) (site : Site) (q : Phrase) → site.set.phrases ≡ phrases_of files → HasConstants site
        → IsSound template_rows (phrases_of files) → IsSound rows (phrases_of files) → IsSound type_rows (phrases_of files) → HasFitLiterals (phrases_of files)
        → IsAmong q site.set.phrases → is_left_node q.node ≡ true → PhraseKnown image g u site q }
{
    phrases_are_counted();
    what_is_meant_declares_the_name();
    a_key_is_found_at_its_first_declaration();
    the_search_never_runs_out();
    a_written_template_gives_what_its_unit_shows();
}
