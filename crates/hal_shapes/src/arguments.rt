//! Whether one argument fits a parameter.

ghost use Rattle.std.specs.Prelude.{◌≡◌, map};
ghost use Rattle.hal_tree.specs.SeenDeclarations.{seen_attribute, seen_declared, seen_type};
ghost use Rattle.hal_tree.specs.SeenExpressions.{seen_expression, seen_reference, seen_subscript};
ghost use Rattle.hal_tree.specs.SeenLeaves.{seen_name};
ghost use Rattle.hal_phrases.specs.SeenPhrases.{seen_phrase};
ghost use Rattle.hal_names.specs.SeenNames.{seen_names};
ghost use Rattle.hal_constants.specs.SeenKnown.{seen_known};
ghost use Rattle.hal_shapes.specs.Arguments as arguments;

use crate::arrays::may_equal;
use crate::parameters::{
    fits_single, fits_whole, is_excused, is_whole, is_whole_array, is_whole_structure,
};
use crate::selections::{declared_for, kind_at, reference_in};
use hal_constants::{Known, kind_of_item};
use hal_kinds::{Class, chosen, class_of, class_of_reference, class_of_type, data_named};
use hal_names::Names;
use hal_phrases::{Node, Phrase};
use hal_scope::type_of;
use hal_tree::{Attribute, Declared, Expr, Identifier, Reference, Subscript, Type};
use hal_values::Kind;
use hal_words::Name;

/// An input argument of a parameter of this type.
fn input_as(
    names: &Names<'_>,
    known: &Known,
    phrase: &Phrase<'_>,
    parameter: &Phrase<'_>,
    common: &[Attribute],
    item: &Declared,
    tree: &Expr,
    kind: &Type,
) -> bool
    ensures { result ≡ arguments.input_as (seen_names names.now) (seen_known known.now) (seen_phrase phrase.now) (seen_phrase parameter.now) (map seen_attribute common.now) (seen_declared item.now) (seen_expression tree.now) (seen_type kind.now) }
{
    let class = class_of(tree, names, phrase.around.block);
    if !is_whole(common, item, kind) {
        return fits_single(class_of_type(kind), class);
    }
    let reference = reference_in(tree);
    is_excused(class)
        || fits_whole(
            names, known, phrase, parameter, common, item, class, reference, kind,
        )
}

/// An input argument of the parameter that a phrase declares.
#[tactic(auto, unfolding(crate::specs::Arguments::input_fits))]
pub(crate) fn input_fits(
    names: &Names<'_>,
    known: &Known,
    phrase: &Phrase<'_>,
    parameter: &Phrase<'_>,
    tree: &Expr,
) -> bool
    ensures { result ≡ arguments.input_fits (seen_names names.now) (seen_known known.now) (seen_phrase phrase.now) (seen_phrase parameter.now) (seen_expression tree.now) (seen_phrase parameter.now).node }
{
    match parameter.node {
        Node::Item { common, item } => match type_of(common, item) {
            None => true,
            Some(kind) => { input_as(names, known, phrase, parameter, common, item, tree, kind) }
        },
        _ => true,
    }
}

/// Whether a reference chooses places of a component.
fn has_component(
    names: &Names<'_>,
    block: usize,
    name: &Name,
    path: &[Identifier],
    subscript: &Subscript,
) -> bool
    ensures { result ≡ arguments.has_component_in (seen_names names.now) block name.now (map seen_name path.now) (seen_subscript subscript.now) }
{
    match data_named(names, block, name, path) {
        None => false,
        Some(data) => 0 < chosen(data, subscript).components,
    }
}

/// The kind of a reference to data; of a component another rule speaks.
#[tactic(auto, using(hal_tree::proofs::MadeExpressions::made_reference), unfolding(crate::specs::Arguments::kind_of_reference))]
fn kind_of_reference(
    names: &Names<'_>,
    known: &Known,
    phrase: &Phrase<'_>,
    reference: &Reference,
) -> Option<Kind>
    ensures { result ≡ arguments.kind_of_reference (seen_names names.now) (seen_known known.now) (seen_phrase phrase.now) (seen_reference reference.now) }
{
    let block = phrase.around.block;
    if has_component(
        names,
        block,
        &reference.name,
        &reference.further,
        &reference.subscript,
    ) {
        return None;
    }
    let declared = declared_for(names, phrase, &reference.name)?;
    kind_at(names, known, &declared, &reference.further)
}

/// Whether this is one value.
fn is_single(class: Option<Class>) -> bool
    ensures { result ≡ arguments.is_single class }
{
    !(is_whole_array(class) || is_whole_structure(class))
}

/// An ASSIGN argument of a parameter of this type.
fn output_as(
    names: &Names<'_>,
    known: &Known,
    phrase: &Phrase<'_>,
    parameter: &Phrase<'_>,
    common: &[Attribute],
    item: &Declared,
    reference: &Reference,
    kind: &Type,
) -> bool
    ensures { result ≡ arguments.output_as (seen_names names.now) (seen_known known.now) (seen_phrase phrase.now) (seen_phrase parameter.now) (map seen_attribute common.now) (seen_declared item.now) (seen_reference reference.now) (seen_type kind.now) }
{
    let class = class_of_reference(names, phrase.around.block, reference);
    if is_whole(common, item, kind) {
        return is_excused(class)
            || fits_whole(
                names,
                known,
                phrase,
                parameter,
                common,
                item,
                class,
                Some(reference),
                kind,
            );
    }
    let own = kind_of_reference(names, known, phrase, reference);
    is_single(class) && may_equal(own, kind_of_item(names, known, parameter, common, item))
}

/// An ASSIGN argument of the parameter that a phrase declares.
#[tactic(auto, unfolding(crate::specs::Arguments::output_fits))]
pub(crate) fn output_fits(
    names: &Names<'_>,
    known: &Known,
    phrase: &Phrase<'_>,
    parameter: &Phrase<'_>,
    reference: &Reference,
) -> bool
    ensures { result ≡ arguments.output_fits (seen_names names.now) (seen_known known.now) (seen_phrase phrase.now) (seen_phrase parameter.now) (seen_reference reference.now) (seen_phrase parameter.now).node }
{
    match parameter.node {
        Node::Item { common, item } => match type_of(common, item) {
            None => true,
            Some(kind) => {
                output_as(
                    names, known, phrase, parameter, common, item, reference, kind,
                )
            }
        },
        _ => true,
    }
}
