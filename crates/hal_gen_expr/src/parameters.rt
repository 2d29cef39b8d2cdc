//! The parameters of units that are called.

ghost use Rattle.std.specs.Prelude.{◌≡◌, IfOk, map};
ghost use Rattle.std.specs.Option.{option_map};
ghost use Rattle.hal_storage.specs.elements.SeenComponents.{seen_component, seen_shape};
ghost use Rattle.hal_phrases.specs.SeenPhrases.{seen_phrase};
ghost use Rattle.hal_storage.specs.sets.SeenSets.{seen_set};
ghost use Rattle.hal_tree.specs.SeenLeaves.{seen_name};
ghost use Rattle.hal_meaning.specs.Calls.{parameter_named};
ghost use Rattle.hal_meaning.specs.Variables as variables;
ghost use Rattle.hal_gen_expr.specs.Parameters as parameters;
ghost use Rattle.hal_gen_expr.specs.Shapes.{runs_of};

use crate::shapes::runs_of;
use hal_code::Run;
use hal_names::{Key, Space};
use hal_phrases::{Node, Phrase};
use hal_storage::elements::{Component, Shape, shape_of};
use hal_storage::sets::Set;
use hal_tree::Identifier;
use hal_values::Kind;
use std::alloc::{AllocError, Global};

/// A parameter: the number of the phrase that declares it, the kind of its first element, and whether it is an array or a structure.
#[derive(Clone, Copy)]
pub struct Parameter {
    pub declared: usize,
    pub kind: Kind,
    pub whole: bool,
}

/// What a name has that no phrase declares, to which no accepted set comes.
const UNDECLARED: Parameter = Parameter {
    declared: 0,
    kind: Kind::Double,
    whole: true,
};

/// The kind of the first of these components.
fn kind_of_first(components: &[Component]) -> Kind
    ensures { result ≡ variables.kind_of_first (map seen_component components.now) }
{
    match components.first() {
        None => Kind::Double,
        Some(component) => component.kind,
    }
}

/// Whether these components are one element that has no name of its own.
fn are_plain(components: &[Component]) -> bool
    ensures { result ≡ variables.are_plain_components (map seen_component components.now) }
{
    match components {
        [component] => component.path.is_empty() && component.sizes.is_empty(),
        _ => false,
    }
}

/// Whether data are several elements or a structure.
fn is_whole(shape: &Shape) -> bool
    ensures { result ≡ variables.is_whole (seen_shape shape.now) }
{
    shape.copies.is_some() || !are_plain(&shape.components)
}

/// The parameter that the phrase with this number declares, and that has this shape.
fn parameter_shaped(declared: usize, shape: &Shape) -> Parameter
    ensures { result ≡ parameters.parameter_with declared (seen_shape shape.now) }
{
    Parameter {
        declared,
        kind: kind_of_first(&shape.components),
        whole: is_whole(shape),
    }
}

/// The parameter that a phrase declares.
fn parameter_at(alloc: Global, set: &Set<'_>, phrase: &Phrase<'_>) -> Result<Parameter, AllocError>
    ensures { IfOk result (λ one. one ≡ parameters.parameter_at (seen_set set.now) (seen_phrase phrase.now)) }
{
    match phrase.node {
        Node::Item { common, item } => {
            let shape = shape_of(alloc, set.names, set.known, phrase, common, item)?;
            Ok(parameter_shaped(phrase.number, &shape))
        }
        _ => Ok(Parameter {
            declared: phrase.number,
            kind: Kind::Double,
            whole: true,
        }),
    }
}

/// The kinds of the cells of the parameter that a phrase declares; none where it declares no data.
#[tactic(auto, unfolding(hal_runs::specs::Joined::with_runs))]
pub fn runs_at(
    alloc: Global,
    set: &Set<'_>,
    phrase: &Phrase<'_>,
) -> Result<Vec<Run<Kind>>, AllocError>
    ensures { IfOk result (λ runs. runs.items ≡ parameters.runs_at (seen_set set.now) (seen_phrase phrase.now)) }
{
    match phrase.node {
        Node::Item { common, item } => {
            let shape = shape_of(alloc, set.names, set.known, phrase, common, item)?;
            runs_of(alloc, &shape)
        }
        _ => Ok(Vec::new(alloc)),
    }
}

/// The phrase that declares the parameter of this name of the unit with this number.
fn declaration<'a>(set: &Set<'a>, unit: usize, name: &Identifier) -> Option<Phrase<'a>>
    ensures { option_map seen_phrase result ≡ parameters.declaration (seen_set set.now) unit (seen_name name.now) }
{
    let number = set.names.own(&Key {
        space: Space::Declared,
        owner: unit,
        name: name.name,
    })?;
    set.names.phrase(number)
}

/// The parameter of this name of the unit with this number (language document, Units).
#[tactic(auto, using(crate::proofs::FoundParameters::parameter_found))]
pub fn parameter_named(
    alloc: Global,
    set: &Set<'_>,
    unit: usize,
    name: &Identifier,
) -> Result<Parameter, AllocError>
    ensures { IfOk result (λ one. one ≡ parameters.as_parameter (parameter_named (seen_set set.now) unit (seen_name name.now))) }
{
    match declaration(set, unit, name) {
        None => Ok(UNDECLARED),
        Some(phrase) => parameter_at(alloc, set, &phrase),
    }
}

/// The kinds of the cells of the parameter of this name of the unit with this number (language document, Units).
#[tactic(auto, using(crate::proofs::FoundParameters::runs_found), unfolding(hal_runs::specs::Joined::with_runs))]
pub fn parameter_runs(
    alloc: Global,
    set: &Set<'_>,
    unit: usize,
    name: &Identifier,
) -> Result<Vec<Run<Kind>>, AllocError>
    ensures { IfOk result (λ runs. runs.items ≡ runs_of (parameter_named (seen_set set.now) unit (seen_name name.now)).shape) }
{
    match declaration(set, unit, name) {
        None => Ok(Vec::new(alloc)),
        Some(phrase) => runs_at(alloc, set, &phrase),
    }
}
