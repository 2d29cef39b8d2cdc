//! What holds of the views that the code of an image names.

ghost use Rattle.std.specs.Prelude.{◌≡◌, ◌≤◌, ℕ, true, List, ◌∷◌, Some, Ok};
ghost use Rattle.hal_base.specs.declared.limits.TheConstants.{CELL_LIMIT};
ghost use Rattle.hal_base.specs.declared.refusal.Place.{Place};
ghost use Rattle.hal_grammar.specs.Leaves.{Naming};
ghost use Rattle.hal_grammar.specs.Expressions.{Refers, Subscript};
ghost use Rattle.hal_grammar.specs.Units.{File};
ghost use Rattle.hal_phrases.specs.declared.role.Role.{Role};
ghost use Rattle.hal_phrases.specs.Phrases.{OfReference};
ghost use Rattle.hal_phrases.specs.GatheredUnits.{phrases_of};
ghost use Rattle.hal_scope.specs.Rules.{IsSound, rows};
ghost use Rattle.hal_templates.specs.Rules.{template_rows};
ghost use Rattle.hal_types.specs.Rules.{type_rows};
ghost use Rattle.hal_calls.specs.Rules.{call_rows};
ghost use Rattle.hal_meaning.specs.Elements.{chosen};
ghost use Rattle.hal_meaning.specs.Sets.{Set, set_of};
ghost use Rattle.hal_agreement.specs.Sites.{Site};
ghost use Rattle.hal_gen_expr.specs.Led.{Led, led_by};
ghost use Rattle.hal_gen_expr.specs.Referents.{referent};
ghost use Rattle.hal_code.specs.declared.image.ImageParts.{ImageParts};
ghost use Rattle.hal_code.specs.declared.row.View.{View};
ghost use Rattle.hal_code.specs.Right.{cell_count, process_names, views_lie};
ghost use Rattle.hal_verify.specs.Limits.{spread_kept};
ghost use Rattle.hal_link.specs.CalledViews.{views_of};
ghost use Rattle.hal_link.specs.Linking.{image_of};
ghost use Rattle.hal_right_images.specs.rows.Nested.{AllNested};
ghost use Rattle.hal_right_images.specs.rows.Parts.{HaveParts};
ghost use Rattle.hal_right_images.specs.rows.Purposes.{Says};
ghost use Rattle.hal_right_images.specs.views.Holding.{DataHold};
ghost use Rattle.hal_right_images.specs.views.Left.{LeadSomewhere};
ghost use Rattle.hal_right_images.specs.views.Lying.{AreasLie, PurposesLie};
ghost use Rattle.hal_right_images.specs.views.Naming.{NamesView};

use crate::rows::parameters_of_units_are_stored;
use hal_fit_names::data_of_written_templates_stand_for_those_of_units;
use hal_fit_parts::a_path_to_a_bottom_part_chooses_its_component;
use hal_names::{
    a_key_is_found_at_its_first_declaration, phrases_are_counted, what_is_meant_declares_the_name,
};
use hal_templates::a_written_template_gives_what_its_unit_shows;

/// Names of parts of a reference lead to components of the data that its name means, in a set that breaks no rule of templates or names; data of a written template of a COMPOOL stand for those of
/// the COMPOOL, whose structures have the same parts (language document, Structures and Templates).
pub fn names_of_parts_lead_to_components()
    ensures { (turns : ℕ) (files : List File) (site : Site) (role : Role) (place : Place) (name : List ℕ) (first : Naming) (others : List Naming) (subscript : Subscript) (led : Led)
        → IsSound template_rows (phrases_of files) → IsSound rows (phrases_of files) → site.set ≡ set_of turns files
        → Says site (OfReference role (Refers place name (first ∷ others) subscript)) → led_by (first ∷ others) (referent site name) ≡ Some led
        → LeadSomewhere (chosen led.path led.shape.components) }
{
    phrases_are_counted();
    a_key_is_found_at_its_first_declaration();
    what_is_meant_declares_the_name();
    a_written_template_gives_what_its_unit_shows();
    data_of_written_templates_stand_for_those_of_units();
    a_path_to_a_bottom_part_chooses_its_component();
}

/// The blocks of a process name views that are for what phrases of its units name where they stand in it: for data, for own places of groups, for input parameters of the units
/// that it calls, and for arguments (image document, The image of a set).
pub fn the_blocks_of_a_process_name_views_for_its_phrases()
    ensures { (turns : ℕ) (files : List File) (views : List View) (image : ImageParts) → image_of (set_of turns files) views ≡ Ok image → (process view : ℕ)
        → process_names image view process ≡ true → NamesView (set_of turns files) views process view }
{}

/// So the views of a linked image lie in memory where those do that are for something at a site of a process, in that process: a view of own places fits each process
/// whose blocks name it, and at least one (image document, When an image is right).
pub fn views_lie_where_all_that_they_are_for_does()
    ensures { (turns : ℕ) (files : List File) (image : ImageParts) → image_of (set_of turns files) (views_of (set_of turns files)) ≡ Ok image
        → PurposesLie (set_of turns files) image → views_lie image 0 image.views ≡ true }
{}

/// And so they do in a set that breaks no rule of templates, names, types or calls, whose STRUCTUREs have parts and whose units stand in units that may hold them, whose image has few cells, and where
/// what is left of arguments holds: the elements of data to which names lead, those among which subscripts choose, own places of groups, and input parameters lie where they are stored
/// (image document, When an image is right).
pub fn views_lie_where_what_is_left_of_data_holds()
    ensures { (turns : ℕ) (files : List File) (image : ImageParts) → image_of (set_of turns files) (views_of (set_of turns files)) ≡ Ok image → IsSound template_rows (phrases_of files) → IsSound rows (phrases_of files)
        → IsSound type_rows (phrases_of files) → IsSound call_rows (phrases_of files) → HaveParts (phrases_of files) → AllNested files → spread_kept image ≡ true → cell_count image ≤ CELL_LIMIT
        → (DataHold (set_of turns files) image → AreasLie (set_of turns files) image) → views_lie image 0 image.views ≡ true }
{
    phrases_are_counted();
    a_key_is_found_at_its_first_declaration();
    what_is_meant_declares_the_name();
    a_written_template_gives_what_its_unit_shows();
    parameters_of_units_are_stored();
    views_lie_where_all_that_they_are_for_does();
    names_of_parts_lead_to_components();
}
