//! What holds of linked images whose blocks fit.

ghost use Rattle.std.specs.Prelude.{◌≡◌, ◌≤◌, ℕ, true, List, Ok};
ghost use Rattle.hal_grammar.specs.Units.{File};
ghost use Rattle.hal_values.specs.Loads.{turn_limit};
ghost use Rattle.hal_meaning.specs.Sets.{set_of};
ghost use Rattle.hal_code.specs.declared.image.ImageParts.{ImageParts};
ghost use Rattle.hal_code.specs.declared.row.View.{View};
ghost use Rattle.hal_code.specs.Right.{IsRight, rows_right};
ghost use Rattle.hal_link.specs.CalledViews.{views_of};
ghost use Rattle.hal_link.specs.Linking.{image_of};
ghost use Rattle.hal_right_images.specs.images.Accepted.{IsAccepted};
ghost use Rattle.hal_right_images.specs.images.Blocks.{AllFit};

use crate::areas::arguments_have_the_cells_of_their_parameters;
use crate::paths::references_with_a_path_are_known;
use crate::rows::{
    a_set_that_breaks_no_rule_of_calls_has_no_cycles, a_set_within_its_limits_is_small,
    parameters_of_units_are_stored, references_of_processes_are_to_shapes,
    the_names_of_an_image_are_right, the_shapes_of_an_image_are_right,
    views_of_an_image_are_formed,
};
use crate::spelled::what_right_words_spell_is_spelled;
use crate::views::views_lie_where_what_is_left_of_data_holds;
use hal_fit_calls::what_update_blocks_call_is_harmless;
use hal_fit_names::{units_are_known_where_what_is_left_is, units_have_bodies};
use hal_fit_rules::the_statements_of_each_known_unit_fit;
use hal_link::each_block_of_a_linked_image_is_of_a_process_or_a_unit;
use hal_meaning::a_set_is_a_load;
use hal_names::phrases_are_counted;

/// An image of a set of files is right where its blocks are linked in a way in which the statements of its processes and of the units that these call fit, and its rows
/// are right (image document, When an image is right).
pub fn an_image_of_blocks_that_fit_is_right()
    ensures { (turns : ℕ) (files : List File) (views : List View) (image : ImageParts) → image_of (set_of turns files) views ≡ Ok image → AllFit (set_of turns files) image → rows_right image ≡ true → IsRight image }
{
    each_block_of_a_linked_image_is_of_a_process_or_a_unit();
}

/// An image of a set of files that right words spell and that breaks no rule of templates, names, types, locks, calls or limits meets V1 to V8 (image document, When an image is
/// right).
pub fn a_linked_image_is_right()
    ensures { (turns : ℕ) (files : List File) (image : ImageParts) → image_of (set_of turns files) (views_of (set_of turns files)) ≡ Ok image → IsAccepted files image → turns ≤ turn_limit
        → IsRight image }
{
    phrases_are_counted();
    what_update_blocks_call_is_harmless();
    the_statements_of_each_known_unit_fit();
    what_right_words_spell_is_spelled();
    units_have_bodies();
    units_are_known_where_what_is_left_is();
    references_with_a_path_are_known();
    a_set_is_a_load();
    a_set_that_breaks_no_rule_of_calls_has_no_cycles();
    a_set_within_its_limits_is_small();
    parameters_of_units_are_stored();
    references_of_processes_are_to_shapes();
    the_names_of_an_image_are_right();
    the_shapes_of_an_image_are_right();
    views_of_an_image_are_formed();
    arguments_have_the_cells_of_their_parameters();
    views_lie_where_what_is_left_of_data_holds();
    each_block_of_a_linked_image_is_of_a_process_or_a_unit();
    an_image_of_blocks_that_fit_is_right();
}
