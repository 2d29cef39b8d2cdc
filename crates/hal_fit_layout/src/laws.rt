//! What holds of the own places of processes.

ghost use Rattle.std.specs.Prelude.{◌≡◌, ◌<◌, ◌≤◌, ℕ, ◌+◌, true, List, length, Some, slice_get};
ghost use Rattle.hal_base.specs.declared.limits.TheConstants.{PROCESS_LIMIT};
ghost use Rattle.hal_grammar.specs.Leaves.{Naming};
ghost use Rattle.hal_phrases.specs.Phrases.{Phrase};
ghost use Rattle.hal_names.specs.Laws.{IsCounted};
ghost use Rattle.hal_constants.specs.Known.{Known};
ghost use Rattle.hal_meaning.specs.Bodies.{callees, processes_of, processes_reaching};
ghost use Rattle.hal_meaning.specs.Places.{InPlaces, cell_count, places_at, places_of, unit_numbers};
ghost use Rattle.hal_meaning.specs.Runs.{places_of_process};
ghost use Rattle.hal_meaning.specs.Sets.{Set, cells_of};
ghost use Rattle.hal_reach.specs.Places.{is_among};
ghost use Rattle.hal_code.specs.declared.row.View.{View};
ghost use Rattle.hal_code.specs.Right as right;
ghost use Rattle.hal_fitting.specs.Fitting.{Ground};
ghost use Rattle.hal_fit_expr.specs.Serving.{HavePlaces};
ghost use Rattle.hal_fit.specs.Ending.{ClearsFit};
ghost use Rattle.hal_link.specs.KnownBlocks.{numbers};
ghost use Rattle.hal_link.specs.Linking.{Linked, image_with};
ghost use Rattle.hal_link.specs.Outlines.{Outline, outlines_of};
ghost use Rattle.hal_link.specs.UnitCode.{clears_from};
ghost use Rattle.hal_code.specs.declared.row.Block.{Block};
ghost use Rattle.hal_fit_layout.specs.Owned.{AreStored, LiesIn};
ghost use Rattle.hal_fit_layout.specs.Ranked.{AreReentrant, IsAcyclic};

/// Among the own places of a process that reaches a unit, those of a declaration of the unit lie together, and no place before them is the declaration's (language
/// document, Storage).
pub fn own_places_of_a_declaration_lie_together()
    ensures { (ps : List Phrase) (vs : Known) → IsCounted ps → (u k : ℕ) (p : Phrase) → slice_get ps k ≡ Some p → p.around.home ≡ u → (process m : ℕ) → slice_get (unit_numbers ps) m ≡ Some u
        → is_among (processes_reaching ps u) process ≡ true → LiesIn (places_of ps vs process) k (places_at ps vs p p.node) }
{}

/// In a block of a process the CLEAR instructions of the AUTOMATIC data of a unit name own places that hold values (image document, When an image is right).
pub fn clear_instructions_name_places_that_hold_values()
    ensures { (s : Set) (views : List View) (one : Linked) (row : Block) (unit : ℕ) → row.process < length s.tables.processes → length s.tables.processes ≤ PROCESS_LIMIT
        → ClearsFit (image_with s views one) row (clears_from s unit 0 (places_of_process s row.process)) }
{}

/// In a block of a process that reaches a unit, the own places of its parameters that are arrays or structures are there, with the kinds of their elements, where the
/// parameters are declared as data in the unit (image document, When an image is right).
pub fn whole_parameters_have_their_places()
    ensures { (s : Set) (views : List View) (one : Linked) (g : Ground) (k unit m : ℕ) (names : List Naming) → IsCounted s.phrases → g.block.process < length s.tables.processes
        → length s.tables.processes ≤ PROCESS_LIMIT → slice_get (processes_of s.phrases) g.block.process ≡ Some k → slice_get (unit_numbers s.phrases) m ≡ Some unit
        → is_among (processes_reaching s.phrases unit) k ≡ true → AreStored s unit names InPlaces
        → HavePlaces (image_with s views one) g s (places_of_process s g.block.process) unit names }
{}

/// Where no unit calls itself, the block of a unit stands before the blocks of all units of the process that call it (image document, The image of a set).
pub fn a_called_unit_stands_before_those_that_call_it()
    ensures { (s : Set) (views : List View) (process place : ℕ) (o : Outline) (caller callee number : ℕ) → IsAcyclic s.phrases → slice_get (outlines_of s) process ≡ Some o
        → slice_get o.called place ≡ Some caller → is_among (unit_numbers s.phrases) caller ≡ true → is_among (callees s.phrases caller) callee ≡ true
        → numbers s views o callee ≡ Some number → number < o.first + place }
{}

/// Where several processes reach REENTRANT units alone, a linked image has no more cells than its set: the own places of each process are counted for it (image document,
/// When an image is right).
pub fn an_image_has_no_more_cells_than_its_set()
    ensures { (s : Set) (views : List View) (one : Linked) → IsCounted s.phrases → AreReentrant s.phrases → s.tables.cells ≡ cells_of s.phrases s.constants
        → length s.tables.processes ≡ length (processes_of s.phrases) → right.cell_count (image_with s views one) ≤ cell_count s.phrases s.constants }
{}
