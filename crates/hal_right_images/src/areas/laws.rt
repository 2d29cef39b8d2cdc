//! What holds of the arguments of calls in an image.

ghost use Rattle.std.specs.Prelude.{◌≡◌, ◌≤◌, ℕ, true, List, Ok};
ghost use Rattle.hal_base.specs.declared.limits.TheConstants.{CELL_LIMIT};
ghost use Rattle.hal_grammar.specs.Units.{File};
ghost use Rattle.hal_phrases.specs.GatheredUnits.{phrases_of};
ghost use Rattle.hal_scope.specs.Rules.{IsSound, rows};
ghost use Rattle.hal_templates.specs.Rules.{template_rows};
ghost use Rattle.hal_types.specs.Rules.{type_rows};
ghost use Rattle.hal_meaning.specs.Sets.{set_of};
ghost use Rattle.hal_code.specs.declared.image.ImageParts.{ImageParts};
ghost use Rattle.hal_code.specs.Right.{cell_count};
ghost use Rattle.hal_verify.specs.Limits.{spread_kept};
ghost use Rattle.hal_link.specs.CalledViews.{views_of};
ghost use Rattle.hal_link.specs.Linking.{image_of};
ghost use Rattle.hal_fit_names.specs.Spelled.{AreSpelled};
ghost use Rattle.hal_fit_names.specs.Suited.{HasFitLiterals};
ghost use Rattle.hal_right_images.specs.views.Holding.{DataHold};
ghost use Rattle.hal_right_images.specs.views.Lying.{AreasLie};

use crate::paths::kinds_of_parts_are_known;
use hal_fit_constants::what_the_checks_know_is_constant;
use hal_fit_names::{data_of_written_templates_stand_for_those_of_units, kinds_of_cells_are_known};
use hal_names::{
    a_key_is_found_at_its_first_declaration, phrases_are_counted, the_search_never_runs_out,
    what_is_meant_declares_the_name,
};
use hal_templates::a_written_template_gives_what_its_unit_shows;

/// Where no rule of templates, names or types is broken, whole arguments and ASSIGN arguments have the cells of their parameters, so that the areas of a linked image lie where
/// the data do that are passed: those of arrays and of single values, which may be parts of data, and those of structures and their copies, to which names of parts may lead
/// (language document, Calls; image document, When an image is right).
pub fn arguments_have_the_cells_of_their_parameters()
    ensures { (turns : ℕ) (files : List File) (image : ImageParts) → image_of (set_of turns files) (views_of (set_of turns files)) ≡ Ok image → IsSound template_rows (phrases_of files) → IsSound rows (phrases_of files) → IsSound type_rows (phrases_of files)
        → HasFitLiterals (phrases_of files) → AreSpelled (phrases_of files) → spread_kept image ≡ true → cell_count image ≤ CELL_LIMIT → DataHold (set_of turns files) image
        → AreasLie (set_of turns files) image }
{
    phrases_are_counted();
    a_key_is_found_at_its_first_declaration();
    what_is_meant_declares_the_name();
    the_search_never_runs_out();
    kinds_of_cells_are_known();
    kinds_of_parts_are_known();
    what_the_checks_know_is_constant();
    a_written_template_gives_what_its_unit_shows();
    data_of_written_templates_stand_for_those_of_units();
}
