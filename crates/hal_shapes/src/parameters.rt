//! What is wanted of an argument.

ghost use Rattle.std.specs.Prelude.{◌≡◌, map};
ghost use Rattle.std.specs.Option.{option_map};
ghost use Rattle.hal_tree.specs.SeenDeclarations.{seen_attribute, seen_declared, seen_type};
ghost use Rattle.hal_tree.specs.SeenExpressions.{seen_reference};
ghost use Rattle.hal_phrases.specs.SeenPhrases.{seen_phrase};
ghost use Rattle.hal_names.specs.SeenNames.{seen_names};
ghost use Rattle.hal_constants.specs.SeenKnown.{seen_known};
ghost use Rattle.hal_shapes.specs.Shapes as shapes;
ghost use Rattle.hal_shapes.specs.Arguments as arguments;

use crate::arrays::fits_array;
use crate::selections::structure_of;
use crate::structures::fits_structure;
use hal_constants::{Known, kind_of_item};
use hal_kinds::{Class, is_structure_type, sizes_of};
use hal_names::Names;
use hal_operands::takes;
use hal_phrases::Phrase;
use hal_scope::type_of;
use hal_sizes::{copies_of, extent_of};
use hal_tree::{Attribute, Declared, Reference, Type};

/// Whether one value is taken by a parameter of a class.
#[tactic(auto, unfolding(crate::specs::Shapes::fits_single))]
pub(crate) fn fits_single(wanted: Class, class: Option<Class>) -> bool
    ensures { result ≡ shapes.fits_single wanted class }
{
    match class {
        Some(Class::Structure) => false,
        Some(Class::Array) => false,
        other => takes(Some(wanted), other),
    }
}

/// Whether an expression that isn't known, or is a condition, breaks another rule.
#[tactic(auto, unfolding(crate::specs::Shapes::is_excused))]
pub(crate) fn is_excused(class: Option<Class>) -> bool
    ensures { result ≡ shapes.is_excused class }
{
    match class {
        None => true,
        Some(Class::Condition) => true,
        _ => false,
    }
}

/// Whether this is several elements.
#[tactic(auto, unfolding(crate::specs::Shapes::is_whole_array))]
pub(crate) fn is_whole_array(class: Option<Class>) -> bool
    ensures { result ≡ shapes.is_whole_array class }
{
    match class {
        Some(Class::Array) => true,
        _ => false,
    }
}

/// Whether this is a structure.
#[tactic(auto, unfolding(crate::specs::Shapes::is_whole_structure))]
pub(crate) fn is_whole_structure(class: Option<Class>) -> bool
    ensures { result ≡ shapes.is_whole_structure class }
{
    match class {
        Some(Class::Structure) => true,
        _ => false,
    }
}

/// Whether a reference of this class, if it is one, is what a parameter that is an array is.
#[tactic(auto, unfolding(crate::specs::Shapes::array_argument))]
fn fits_places(
    names: &Names<'_>,
    known: &Known,
    phrase: &Phrase<'_>,
    parameter: &Phrase<'_>,
    common: &[Attribute],
    item: &Declared,
    class: Option<Class>,
    reference: Option<&Reference>,
) -> bool
    ensures { result ≡ arguments.fits_places (seen_names names.now) (seen_known known.now) (seen_phrase phrase.now) (seen_phrase parameter.now) (map seen_attribute common.now) (seen_declared item.now) class (option_map (λ reference. seen_reference reference.now) reference.entry) }
{
    if !is_whole_array(class) {
        return false;
    }
    let kind = kind_of_item(names, known, parameter, common, item);
    let wanted = extent_of(names, known, parameter, sizes_of(common, item));
    match reference {
        None => false,
        Some(reference) => fits_array(names, known, phrase, kind, wanted, reference),
    }
}

/// The same of a structure.
#[tactic(auto, unfolding(crate::specs::Shapes::structure_argument))]
fn fits_parts(
    names: &Names<'_>,
    known: &Known,
    phrase: &Phrase<'_>,
    parameter: &Phrase<'_>,
    common: &[Attribute],
    item: &Declared,
    class: Option<Class>,
    reference: Option<&Reference>,
) -> bool
    ensures { result ≡ arguments.fits_parts (seen_names names.now) (seen_known known.now) (seen_phrase phrase.now) (seen_phrase parameter.now) (map seen_attribute common.now) (seen_declared item.now) class (option_map (λ reference. seen_reference reference.now) reference.entry) }
{
    if !is_whole_structure(class) {
        return false;
    }
    let kind = type_of(common, item);
    let template = structure_of(names, parameter.around.block, kind);
    let wanted = copies_of(names, known, parameter, kind);
    match reference {
        None => false,
        Some(reference) => fits_structure(names, known, phrase, template, wanted, reference),
    }
}

/// Whether a parameter of this type is an array or a structure.
#[tactic(auto, using(hal_kinds::proofs::Options::some_mapped))]
pub(crate) fn is_whole(common: &[Attribute], item: &Declared, kind: &Type) -> bool
    ensures { result ≡ arguments.is_whole (map seen_attribute common.now) (seen_declared item.now) (seen_type kind.now) }
{
    is_structure_type(Some(kind)) || sizes_of(common, item).is_some()
}

/// Whether a reference of this class, if it is one, is what a parameter that is an array or a structure is.
pub(crate) fn fits_whole(
    names: &Names<'_>,
    known: &Known,
    phrase: &Phrase<'_>,
    parameter: &Phrase<'_>,
    common: &[Attribute],
    item: &Declared,
    class: Option<Class>,
    reference: Option<&Reference>,
    kind: &Type,
) -> bool
    ensures { result ≡ arguments.fits_whole (seen_names names.now) (seen_known known.now) (seen_phrase phrase.now) (seen_phrase parameter.now) (map seen_attribute common.now) (seen_declared item.now) class (option_map (λ reference. seen_reference reference.now) reference.entry) (seen_type kind.now) }
{
    if is_structure_type(Some(kind)) {
        fits_parts(
            names, known, phrase, parameter, common, item, class, reference,
        )
    } else {
        fits_places(
            names, known, phrase, parameter, common, item, class, reference,
        )
    }
}
