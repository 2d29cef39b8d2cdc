//! What holds of sets that break no rule, and of their images.

ghost use Rattle.std.specs.Prelude.{◌≡◌, ◌≤◌, ◌⊎◌, ℕ, ◌+◌, true, List, [], ◌∷◌, map, None, Some, slice_get, Ok};
ghost use Rattle.std.specs.List.{list_all};
ghost use Rattle.hal_grammar.specs.Leaves.{Naming};
ghost use Rattle.hal_grammar.specs.Declarations.{Attribute, Declared};
ghost use Rattle.hal_grammar.specs.Units.{File};
ghost use Rattle.hal_phrases.specs.Phrases.{OfItem, Phrase};
ghost use Rattle.hal_phrases.specs.GatheredUnits.{phrases_of};
ghost use Rattle.hal_names.specs.Laws.{IsCounted};
ghost use Rattle.hal_scope.specs.Rules.{IsSound, rows};
ghost use Rattle.hal_constants.specs.Known.{known};
ghost use Rattle.hal_values.specs.Loads.{turn_limit};
ghost use Rattle.hal_meaning.specs.Bodies.{processes_reaching, reaches_within};
ghost use Rattle.hal_meaning.specs.Calls.{parameter_named};
ghost use Rattle.hal_meaning.specs.Elements.{copy_size, shape_of};
ghost use Rattle.hal_meaning.specs.Expressions.{inputs_at, outputs_at};
ghost use Rattle.hal_meaning.specs.Places.{ByReference, InCells, InPlaces, places_of, storing, unit_numbers};
ghost use Rattle.hal_meaning.specs.ReportNames.{first_cell, first_place};
ghost use Rattle.hal_meaning.specs.Runs.{places_of_process};
ghost use Rattle.hal_meaning.specs.SetLoad.{IsSmall};
ghost use Rattle.hal_meaning.specs.Sets.{Set, cells_of, set_of};
ghost use Rattle.hal_meaning.specs.Variables.{kind_of_first};
ghost use Rattle.hal_calls.specs.Programs.{has_program};
ghost use Rattle.hal_calls.specs.Rules.{call_rows};
ghost use Rattle.hal_limits.specs.Limits.{IsWithin};
ghost use Rattle.hal_code.specs.declared.image.ImageParts.{ImageParts};
ghost use Rattle.hal_code.specs.declared.row.View.{View};
ghost use Rattle.hal_code.specs.Images.{expanded};
ghost use Rattle.hal_code.specs.Memory.{lies_from, own_memory, shared_memory};
ghost use Rattle.hal_code.specs.Right.{form_right, names_right, shapes_right};
ghost use Rattle.hal_right_values.specs.Finding.{HaveCells};
ghost use Rattle.hal_verify.specs.Limits.{spread_kept};
ghost use Rattle.hal_link.specs.CalledViews.{views_of};
ghost use Rattle.hal_gen_expr.specs.declared.elements.Element.{Element};
ghost use Rattle.hal_gen_expr.specs.Elements.{counted, element_in};
ghost use Rattle.hal_reach.specs.Places.{is_among};
ghost use Rattle.hal_link.specs.Linking.{image_of, own_row};
ghost use Rattle.hal_link.specs.Shapes.{Shapes, shapes_of};
ghost use Rattle.hal_fit_calls.specs.Each.{Each};
ghost use Rattle.hal_fit_layout.specs.Owned.{AreStored, IsStored};
ghost use Rattle.hal_fit_layout.specs.Ranked.{AreReentrant, IsAcyclic};
ghost use Rattle.hal_fit_layout.specs.Rows.{IsNumbered};
ghost use Rattle.hal_right_images.specs.rows.Homes.{Encloses, IsOpenUnit, ItemsStandForData, StandsHome};
ghost use Rattle.hal_right_images.specs.rows.Parts.{HaveParts};
ghost use Rattle.hal_right_images.specs.rows.Purposes.{HasPurpose};

use hal_names::{
    a_key_is_found_at_its_first_declaration, phrases_are_counted, what_is_meant_declares_the_name,
};

/// Where no rule of calls is broken, no unit calls itself, by itself or through others, and several processes reach REENTRANT units alone (language document, Calls).
pub fn a_set_that_breaks_no_rule_of_calls_has_no_cycles()
    ensures acyclic { (ps : List Phrase) → IsCounted ps → IsSound call_rows ps → IsAcyclic ps }
    ensures reentrant { (ps : List Phrase) → IsCounted ps → IsSound call_rows ps → AreReentrant ps }
{}

/// A set with a PROGRAM that is within the limits of cells, processes and events is small enough for a load (language document, Limits).
pub fn a_set_within_its_limits_is_small()
    ensures { (turns : ℕ) (files : List File) → IsWithin (phrases_of files) (known (phrases_of files)) → has_program (phrases_of files) ≡ true → turns ≤ turn_limit → IsSmall turns files }
{}

/// The shapes of a linked image have kinds in their ranges, and few cells where rule 951 isn't broken of the image (image document, When an image is right).
pub fn the_shapes_of_an_image_are_right()
    ensures { (s : Set) (views : List View) (image : ImageParts) → image_of s views ≡ Ok image → spread_kept image ≡ true → shapes_right image ≡ true }
{}

/// The parameters of a unit are declared in it as data that have elements, where no rule of names is broken and each STRUCTURE has a part: input parameters are stored in
/// own places, and ASSIGN parameters as references (language document, Blocks).
pub fn parameters_of_units_are_stored()
    ensures inputs { (turns : ℕ) (files : List File) → IsSound rows (phrases_of files) → HaveParts (phrases_of files) → (unit : ℕ)
        → AreStored (set_of turns files) unit (inputs_at (set_of turns files) unit) InPlaces }
    ensures outputs { (turns : ℕ) (files : List File) → IsSound rows (phrases_of files) → HaveParts (phrases_of files) → (unit : ℕ)
        → AreStored (set_of turns files) unit (outputs_at (set_of turns files) unit) ByReference }
{
    phrases_are_counted();
    a_key_is_found_at_its_first_declaration();
    what_is_meant_declares_the_name();
}

/// So the references among the own places of a process are to shapes that are there (image document, The image of a set).
pub fn references_of_processes_are_to_shapes()
    ensures { (turns : ℕ) (files : List File) → IsSound rows (phrases_of files) → HaveParts (phrases_of files) → (process : ℕ)
        → Each (IsNumbered (set_of turns files) (shapes_of (set_of turns files))) (places_of_process (set_of turns files) process) }
{
    phrases_are_counted();
    a_key_is_found_at_its_first_declaration();
    what_is_meant_declares_the_name();
}

/// Each view of a set has a purpose: it gives cells that phrases of a unit name where they stand in a process which has or calls the unit (image document, The image of a
/// set).
pub fn each_view_of_a_set_has_a_purpose()
    ensures { (turns : ℕ) (files : List File) → Each (HasPurpose (set_of turns files)) (views_of (set_of turns files)) }
{}

/// So the views of a linked image have kinds in their ranges or shapes that are there, and dimensions with places (image document, When an image is right).
pub fn views_of_an_image_are_formed()
    ensures { (turns : ℕ) (files : List File) (image : ImageParts) → image_of (set_of turns files) (views_of (set_of turns files)) ≡ Ok image → list_all (form_right image) image.views ≡ true }
{}

/// And each of them gives a cell (image document, When an image is right).
pub fn each_view_of_an_image_has_a_cell()
    ensures { (turns : ℕ) (files : List File) (image : ImageParts) → image_of (set_of turns files) (views_of (set_of turns files)) ≡ Ok image → HaveCells image }
{
    views_of_an_image_are_formed();
}

/// The names of the report of a linked image of a set within its limits are right: the elements that they show are there, among the shared cells, the own places of the
/// process that shows them, or the events, and they give no more lines than the set has cells and events (image document, When an image is right).
pub fn the_names_of_an_image_are_right()
    ensures { (turns : ℕ) (files : List File) (views : List View) (image : ImageParts) → image_of (set_of turns files) views ≡ Ok image
        → IsWithin (phrases_of files) (known (phrases_of files)) → has_program (phrases_of files) ≡ true → names_right image ≡ true }
{
    phrases_are_counted();
}

/// An element of an item to which names lead lies, with its kind, among the own places of a process that reaches the item's unit: so many places behind the first one of the
/// item as elements lie before it (language document, Storage).
pub fn elements_of_items_lie_in_own_places()
    ensures { (s : Set) (shapes : Shapes) → IsCounted s.phrases → (process m : ℕ) (p : Phrase) (k : ℕ) → slice_get s.phrases k ≡ Some p → (common : List Attribute) (item : Declared)
        → p.node ≡ OfItem common item → storing s.phrases s.constants p (OfItem common item) ≡ InPlaces → slice_get (unit_numbers s.phrases) m ≡ Some p.around.home
        → is_among (processes_reaching s.phrases p.around.home) process ≡ true → (path : List Naming) (one : Element) → (shape_of s.phrases s.constants p common item).copies ≡ None
        → copy_size (shape_of s.phrases s.constants p common item).components ≤ counted → element_in path (shape_of s.phrases s.constants p common item).components ≡ Some one
        → lies_from (own_memory (map (own_row s shapes) (places_of s.phrases s.constants process))) (first_place (places_of s.phrases s.constants process) k + one.before) (one.kind ∷ []) ≡ true }
{}

/// So does the first element of an input parameter of a unit that the process reaches, in which a call stores its argument (language document, Calls).
pub fn input_parameters_lie_in_own_places()
    ensures { (s : Set) (shapes : Shapes) → IsCounted s.phrases → (process m unit : ℕ) (name : Naming) → IsStored s unit name InPlaces → slice_get (unit_numbers s.phrases) m ≡ Some unit
        → is_among (processes_reaching s.phrases unit) process ≡ true
        → lies_from (own_memory (map (own_row s shapes) (places_of s.phrases s.constants process))) (first_place (places_of s.phrases s.constants process) (parameter_named s unit name).number) (kind_of_first (parameter_named s unit name).shape.components ∷ []) ≡ true }
{}

/// An element of an item in shared cells lies there: so many cells behind the first one of the item as elements lie before it (language document, Storage).
pub fn elements_of_items_lie_in_shared_cells()
    ensures { (s : Set) (image : ImageParts) → expanded image.cells ≡ cells_of s.phrases s.constants → (p : Phrase) (k : ℕ) → slice_get s.phrases k ≡ Some p → (common : List Attribute) (item : Declared)
        → p.node ≡ OfItem common item → (group : ℕ) → storing s.phrases s.constants p (OfItem common item) ≡ InCells group → (path : List Naming) (one : Element)
        → (shape_of s.phrases s.constants p common item).copies ≡ None → copy_size (shape_of s.phrases s.constants p common item).components ≤ counted
        → element_in path (shape_of s.phrases s.constants p common item).components ≡ Some one
        → lies_from (shared_memory image) (first_cell s.phrases s.constants k + one.before) (one.kind ∷ []) ≡ true }
{}

/// The block around each phrase of a set is its unit, or a group with a TEMPORARY variable in it that stands in such a block (language document, Blocks).
pub fn phrases_stand_in_blocks_of_their_units()
    ensures { (files : List File) → Each (StandsHome (phrases_of files)) (phrases_of files) }
{}

/// A unit that reaches another one by so many calls reaches what stands around that one too, where this is a unit and no COMPOOL, or stands in it itself: the name of a unit
/// is known inside of what stands around it alone, where no item of a template stands for a block (language document, Names).
pub fn units_reach_what_stands_around_those_that_they_reach()
    ensures { (files : List File) → ItemsStandForData (phrases_of files) → (calls from to unit : ℕ) → IsOpenUnit (phrases_of files) unit
        → reaches_within calls (phrases_of files) from to ≡ true → Encloses (phrases_of files) unit to
        → (reaches_within calls (phrases_of files) from unit ≡ true) ⊎ Encloses (phrases_of files) unit from }
{
    phrases_are_counted();
    a_key_is_found_at_its_first_declaration();
    what_is_meant_declares_the_name();
}
