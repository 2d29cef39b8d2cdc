//! What holds of the parts of structures of a set that breaks no rule of names.

ghost use Rattle.std.specs.Prelude.{◌≡◌, ◌<◌, ℕ, Bool, true, false, List, [], ◌∷◌, length, map, Option, Some, slice_get};
ghost use Rattle.hal_base.specs.declared.refusal.Place.{Place};
ghost use Rattle.hal_grammar.specs.Leaves.{Naming};
ghost use Rattle.hal_grammar.specs.Expressions.{Expression};
ghost use Rattle.hal_grammar.specs.Declarations.{Attribute, Declared, Double, Kind, Part, StructureKind};
ghost use Rattle.hal_grammar.specs.Units.{File};
ghost use Rattle.hal_phrases.specs.Phrases.{OfItem, OfPart, OfStructure, Phrase};
ghost use Rattle.hal_phrases.specs.GatheredUnits.{phrases_of};
ghost use Rattle.hal_names.specs.Means.{means};
ghost use Rattle.hal_scope.specs.Rules.{IsSound, rows};
ghost use Rattle.hal_scope.specs.Sorts.{type_among, type_of};
ghost use Rattle.hal_kinds.specs.Attributes.{has_mark};
ghost use Rattle.hal_kinds.specs.Data.{data_at, data_of_part, part_under};
ghost use Rattle.hal_values.specs.declared.value.Kind as values;
ghost use Rattle.hal_constants.specs.Known.{Known, kind_of_type};
ghost use Rattle.hal_meaning.specs.Elements.{Shape, chosen, component, components_at, shape_of};
ghost use Rattle.hal_fit_rules.specs.Agreeing.{AreAlike};
ghost use Rattle.hal_fit_parts.specs.Parts.{IsPartAt};

use hal_names::{a_key_is_found_at_its_first_declaration, phrases_are_counted};

/// Where no rule of names is broken, a path that leads from a STRUCTURE to a part without parts of its own chooses the one component that the part is; a path that leads to a
/// part with parts chooses some components; and what a path leads to is a part (language document, Structures).
pub fn a_path_to_a_bottom_part_chooses_its_component()
    ensures bottom { (files : List File) (vs : Known) (k j : ℕ) (p q : Phrase) (name : Naming) (parts : List Part) (path : List Naming) (part : Part) → IsSound rows (phrases_of files)
        → slice_get (phrases_of files) k ≡ Some p → p.node ≡ OfStructure name parts → part_under (phrases_of files) k path ≡ Some j → slice_get (phrases_of files) j ≡ Some q
        → q.node ≡ OfPart true part → chosen path (components_at (phrases_of files) vs p p.node) ≡ component (phrases_of files) vs p (map (λ (n : Naming). n.name) path) part.attributes ∷ [] }
    ensures others { (files : List File) (vs : Known) (k j : ℕ) (p q : Phrase) (name : Naming) (parts : List Part) (path : List Naming) (part : Part) → IsSound rows (phrases_of files)
        → slice_get (phrases_of files) k ≡ Some p → p.node ≡ OfStructure name parts → part_under (phrases_of files) k path ≡ Some j → slice_get (phrases_of files) j ≡ Some q
        → q.node ≡ OfPart false part → 0 < length (chosen path (components_at (phrases_of files) vs p p.node)) }
    ensures parts { (files : List File) (k j : ℕ) (n : Naming) (path : List Naming) → part_under (phrases_of files) k (n ∷ path) ≡ Some j → IsPartAt (phrases_of files) j }
{
    phrases_are_counted();
    a_key_is_found_at_its_first_declaration();
}

/// So a part at the bottom, to which a path of data of that STRUCTURE leads, is for the checks what its component is for the meaning: of the same sort, and an array where that
/// has one, where a kind is known of its type; and so is what stands at the end of a path of an item (language document, Structures).
pub fn a_part_at_the_bottom_is_what_its_component_is()
    ensures part { (files : List File) (vs : Known) (k j : ℕ) (p q : Phrase) (name : Naming) (parts : List Part) (path : List Naming) (part : Part) (copies : Bool) (type_ : Kind) (cells : values.Kind) (shape : Shape)
        → IsSound rows (phrases_of files) → slice_get (phrases_of files) k ≡ Some p → p.node ≡ OfStructure name parts → part_under (phrases_of files) k path ≡ Some j
        → slice_get (phrases_of files) j ≡ Some q → q.node ≡ OfPart true part → type_among part.attributes ≡ Some type_
        → kind_of_type (phrases_of files) vs p (has_mark Double part.attributes) (Some type_) ≡ Some cells → shape.components ≡ components_at (phrases_of files) vs p p.node
        → AreAlike (data_of_part (phrases_of files) copies (Some j)) path shape }
    ensures item { (files : List File) (vs : Known) (k j : ℕ) (x p q : Phrase) (name : Naming) (parts : List Part) (n : Naming) (path : List Naming) (common : List Attribute) (declared : Declared) (place : Place) (template : List ℕ)
        (copies : Option Expression) (part : Part) (type_ : Kind) (cells : values.Kind) → IsSound rows (phrases_of files) → type_of common declared ≡ Some (StructureKind place template copies)
        → means (phrases_of files) x.around.block template ≡ Some k → slice_get (phrases_of files) k ≡ Some p → p.node ≡ OfStructure name parts → part_under (phrases_of files) k (n ∷ path) ≡ Some j
        → slice_get (phrases_of files) j ≡ Some q → q.node ≡ OfPart true part → type_among part.attributes ≡ Some type_
        → kind_of_type (phrases_of files) vs p (has_mark Double part.attributes) (Some type_) ≡ Some cells
        → AreAlike (data_at (phrases_of files) x (n ∷ path) (OfItem common declared)) (n ∷ path) (shape_of (phrases_of files) vs x common declared) }
{
    a_path_to_a_bottom_part_chooses_its_component();
}
