//! The shapes of data.

ghost use Rattle.std.specs.Prelude.{◌≡◌, IfOk, map};
ghost use Rattle.std.specs.Option.{option_map};
ghost use Rattle.hal_tree.specs.SeenDeclarations.{seen_attribute, seen_declared, seen_type};
ghost use Rattle.hal_tree.specs.SeenExpressions.{seen_expression};
ghost use Rattle.hal_phrases.specs.SeenPhrases.{seen_phrase};
ghost use Rattle.hal_names.specs.SeenNames.{seen_names};
ghost use Rattle.hal_constants.specs.SeenKnown.{seen_known};
ghost use Rattle.hal_meaning.specs.Elements as elements;
ghost use Rattle.hal_storage.specs.elements.Components as shapes;
ghost use Rattle.hal_storage.specs.elements.SeenComponents.{seen_component, seen_shape};

use crate::elements::component::{Component, Shape};
use crate::elements::sizes::{size_given, sizes_given};
use crate::elements::structures::components_named;
use hal_constants::{Known, kind_of_item};
use hal_kinds::sizes_of;
use hal_names::Names;
use hal_phrases::Phrase;
use hal_scope::type_of;
use hal_tree::{Attribute, Declared, Expr, Type};
use hal_values::Kind;
use hal_words::Name;
use std::alloc::{AllocError, Global};

/// The one component of data that are no structure.
fn component_of_item(
    alloc: Global,
    names: &Names<'_>,
    known: &Known,
    phrase: &Phrase<'_>,
    common: &[Attribute],
    item: &Declared,
) -> Result<Component, AllocError>
    ensures { IfOk result (λ c. seen_component c ≡ shapes.component_of_item (seen_names names.now) (seen_known known.now) (seen_phrase phrase.now) (map seen_attribute common.now) (seen_declared item.now)) }
{
    let kind = kind_of_item(names, known, phrase, common, item);
    let list = sizes_of(common, item);
    Ok(Component {
        path: Vec::new(alloc),
        kind: kind.unwrap_or(Kind::Single),
        sizes: sizes_given(alloc, names, known, phrase, list)?,
    })
}

/// The shape of data that are no structure.
fn shape_of_item(
    alloc: Global,
    names: &Names<'_>,
    known: &Known,
    phrase: &Phrase<'_>,
    common: &[Attribute],
    item: &Declared,
) -> Result<Shape, AllocError>
    ensures { IfOk result (λ shape. seen_shape shape ≡ shapes.shape_of_item (seen_names names.now) (seen_known known.now) (seen_phrase phrase.now) (map seen_attribute common.now) (seen_declared item.now)) }
{
    let mut components = Vec::new(alloc);
    components.push(component_of_item(alloc, names, known, phrase, common, item)?)?;
    Ok(Shape {
        copies: None,
        components,
    })
}

/// How many copies there are, where there are copies.
fn copies_given(
    names: &Names<'_>,
    known: &Known,
    phrase: &Phrase<'_>,
    copies: &Option<Expr>,
) -> Option<u16>
    ensures { result ≡ option_map (elements.size_given (seen_names names.now) (seen_known known.now) (seen_phrase phrase.now)) (option_map seen_expression copies.now) }
{
    match copies {
        None => None,
        Some(tree) => Some(size_given(names, known, phrase, tree)),
    }
}

/// The shape of structures of this template.
fn shape_of_structure(
    alloc: Global,
    names: &Names<'_>,
    known: &Known,
    phrase: &Phrase<'_>,
    template: &Name,
    copies: &Option<Expr>,
) -> Result<Shape, AllocError>
    ensures { IfOk result (λ shape. seen_shape shape ≡ shapes.shape_of_structure (seen_names names.now) (seen_known known.now) (seen_phrase phrase.now) template.now (option_map seen_expression copies.now)) }
{
    Ok(Shape {
        copies: copies_given(names, known, phrase, copies),
        components: components_named(alloc, names, known, phrase.around.block, template)?,
    })
}

/// The shape of data of this type.
#[tactic(auto, using(hal_tree::proofs::MadeDeclarations::made_integer_type, hal_tree::proofs::MadeDeclarations::made_boolean_type, hal_tree::proofs::MadeDeclarations::made_event_type, hal_tree::proofs::MadeDeclarations::made_bit_type, hal_tree::proofs::MadeDeclarations::made_character_type, hal_tree::proofs::MadeDeclarations::made_structure_type))]
fn shape_by(
    alloc: Global,
    names: &Names<'_>,
    known: &Known,
    phrase: &Phrase<'_>,
    common: &[Attribute],
    item: &Declared,
    kind: Option<&Type>,
) -> Result<Shape, AllocError>
    ensures { IfOk result (λ shape. seen_shape shape ≡ shapes.shape_by (seen_names names.now) (seen_known known.now) (seen_phrase phrase.now) (map seen_attribute common.now) (seen_declared item.now) (option_map (λ kind. seen_type kind.now) kind.entry)) }
{
    match kind {
        Some(
            Type::Structure {
                place: _,
                template,
                copies,
            },
        ) => shape_of_structure(alloc, names, known, phrase, template, copies),
        None => shape_of_item(alloc, names, known, phrase, common, item),
        Some(Type::Integer { place: _ }) => {
            shape_of_item(alloc, names, known, phrase, common, item)
        }
        Some(Type::Boolean { place: _ }) => {
            shape_of_item(alloc, names, known, phrase, common, item)
        }
        Some(Type::Event { place: _ }) => shape_of_item(alloc, names, known, phrase, common, item),
        Some(Type::Bit { .. }) => shape_of_item(alloc, names, known, phrase, common, item),
        Some(Type::Character { .. }) => shape_of_item(alloc, names, known, phrase, common, item),
    }
}

/// The shape of what a phrase declares behind these common attributes; a size that isn't known is 1 (language document, Places).
#[tactic(auto, using(crate::proofs::elements::Shaped::shape_seen))]
pub fn shape_of(
    alloc: Global,
    names: &Names<'_>,
    known: &Known,
    phrase: &Phrase<'_>,
    common: &[Attribute],
    item: &Declared,
) -> Result<Shape, AllocError>
    ensures { IfOk result (λ shape. seen_shape shape ≡ elements.shape_of (seen_names names.now) (seen_known known.now) (seen_phrase phrase.now) (map seen_attribute common.now) (seen_declared item.now)) }
{
    let kind = type_of(common, item);
    shape_by(alloc, names, known, phrase, common, item, kind)
}
