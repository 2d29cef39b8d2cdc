//! The types of names.

ghost use Rattle.std.specs.Prelude.{◌≡◌, map};
ghost use Rattle.std.specs.Option.{option_map};
ghost use Rattle.hal_tree.specs.SeenDeclarations.{seen_attribute, seen_declared, seen_type};
ghost use Rattle.hal_tree.specs.SeenUnits.{seen_head, seen_returns};
ghost use Rattle.hal_phrases.specs.SeenPhrases.{seen_node, seen_phrase};
ghost use Rattle.hal_names.specs.SeenNames.{seen_names};
ghost use Rattle.hal_attributes.specs.Typed as typed;

use hal_base::Place;
use hal_kinds::{is_event_type, is_parameter, is_structure_type, sizes_of};
use hal_names::Names;
use hal_phrases::{Node, Phrase};
use hal_scope::{type_among, type_of, unless};
use hal_tree::{Attribute, Declared, Head, Returns, Type};
use hal_words::Name;

/// Whether nothing is said of a result.
#[tactic(auto, using(hal_tree::proofs::MadeUnits::made_untyped, hal_tree::proofs::MadeUnits::made_typed_returns), unfolding(crate::specs::Typed::is_untyped))]
fn is_untyped(returns: &Returns) -> bool
    ensures { result ≡ typed.is_untyped (seen_returns returns.now) }
{
    match returns {
        Returns::Untyped => true,
        Returns::Typed { .. } => false,
    }
}

/// Where a head breaks rule 323.
#[tactic(auto, using(hal_tree::proofs::MadeUnits::made_program, hal_tree::proofs::MadeUnits::made_compool, hal_tree::proofs::MadeUnits::made_task, hal_tree::proofs::MadeUnits::made_procedure, hal_tree::proofs::MadeUnits::made_function), unfolding(crate::specs::Typed::untyped_head))]
fn untyped_head(head: &Head) -> Option<Place>
    ensures { result ≡ typed.untyped_head (seen_head head.now) }
{
    match head {
        Head::Function { place, returns, .. } => unless(!is_untyped(returns), *place),
        Head::Program { place: _ } => None,
        Head::Task { place: _ } => None,
        Head::Compool { place: _ } => None,
        Head::Procedure { .. } => None,
    }
}

/// Where a phrase breaks rule 323 (language document, Kinds).
#[tactic(auto, using(hal_tree::proofs::MadeDeclarations::made_declared, hal_tree::proofs::MadeDeclarations::made_part, hal_kinds::proofs::Options::some_mapped), unfolding(crate::specs::Typed::untyped))]
pub fn untyped(node: Node<'_>) -> Option<Place>
    ensures { result ≡ typed.untyped (seen_node node.entry) }
{
    match node {
        Node::Template { head, .. } => untyped_head(head),
        Node::Unit { head, .. } => untyped_head(head),
        Node::Item { common, item } => unless(type_of(common, item).is_some(), item.name.place),
        Node::Part { bottom, part } => unless(
            !bottom || type_among(&part.attributes).is_some(),
            part.place,
        ),
        _ => None,
    }
}

/// Whether a type is that of a structure with this template.
#[tactic(auto, using(hal_tree::proofs::MadeDeclarations::made_integer_type, hal_tree::proofs::MadeDeclarations::made_boolean_type, hal_tree::proofs::MadeDeclarations::made_event_type, hal_tree::proofs::MadeDeclarations::made_bit_type, hal_tree::proofs::MadeDeclarations::made_character_type, hal_tree::proofs::MadeDeclarations::made_structure_type), unfolding(crate::specs::Typed::is_template))]
fn is_template(name: &Name, kind: Option<&Type>) -> bool
    ensures { result ≡ typed.is_template name.now (option_map (λ kind. seen_type kind.now) kind.entry) }
{
    match kind {
        None => false,
        Some(Type::Structure { template, .. }) => template.bytes() == name.bytes(),
        Some(Type::Integer { place: _ }) => false,
        Some(Type::Boolean { place: _ }) => false,
        Some(Type::Event { place: _ }) => false,
        Some(Type::Bit { .. }) => false,
        Some(Type::Character { .. }) => false,
    }
}

/// Where a phrase breaks rule 325 (language document, Kinds).
#[tactic(auto, using(hal_tree::proofs::MadeDeclarations::made_declared), unfolding(crate::specs::Typed::named_as_template))]
pub fn named_as_template(node: Node<'_>) -> Option<Place>
    ensures { result ≡ typed.named_as_template (seen_node node.entry) }
{
    match node {
        Node::Item { common, item } => unless(
            !is_template(&item.name.name, type_of(common, item)),
            item.name.place,
        ),
        _ => None,
    }
}

/// Where a phrase breaks rule 326 (language document, Kinds).
#[tactic(auto, using(hal_tree::proofs::MadeDeclarations::made_part), unfolding(crate::specs::Typed::nested))]
pub fn nested(node: Node<'_>) -> Option<Place>
    ensures { result ≡ typed.nested (seen_node node.entry) }
{
    match node {
        Node::Part { bottom: _, part } => unless(
            !is_structure_type(type_among(&part.attributes)),
            part.place,
        ),
        _ => None,
    }
}

/// Whether data that are no single variable have this name: an array or a parameter.
#[tactic(auto, using(hal_tree::proofs::MadeDeclarations::made_declared, hal_kinds::proofs::Options::some_mapped))]
fn is_no_variable(
    names: &Names<'_>,
    phrase: &Phrase<'_>,
    common: &[Attribute],
    item: &Declared,
) -> bool
    ensures { result ≡ typed.is_no_variable (seen_names names.now) (seen_phrase phrase.now) (map seen_attribute common.now) (seen_declared item.now) }
{
    sizes_of(common, item).is_some() || is_parameter(names, phrase, &item.name.name)
}

/// Where a phrase breaks rule 327 (language document, Kinds).
#[tactic(auto, using(hal_tree::proofs::MadeDeclarations::made_declared, hal_tree::proofs::MadeDeclarations::made_part), unfolding(crate::specs::Typed::misplaced_event))]
pub fn misplaced_event(names: &Names<'_>, phrase: &Phrase<'_>) -> Option<Place>
    ensures { result ≡ typed.misplaced_event (seen_names names.now) (seen_phrase phrase.now) (seen_phrase phrase.now).node }
{
    match phrase.node {
        Node::Item { common, item } => unless(
            !(is_event_type(type_of(common, item)) && is_no_variable(names, phrase, common, item)),
            item.name.place,
        ),
        Node::Part { bottom: _, part } => unless(
            !is_event_type(type_among(&part.attributes)),
            part.place,
        ),
        _ => None,
    }
}

/// Whether a type is none of results.
#[tactic(auto, using(hal_tree::proofs::MadeDeclarations::made_integer_type, hal_tree::proofs::MadeDeclarations::made_boolean_type, hal_tree::proofs::MadeDeclarations::made_event_type, hal_tree::proofs::MadeDeclarations::made_bit_type, hal_tree::proofs::MadeDeclarations::made_character_type, hal_tree::proofs::MadeDeclarations::made_structure_type), unfolding(crate::specs::Typed::is_no_result))]
fn is_no_result(kind: &Type) -> bool
    ensures { result ≡ typed.is_no_result (seen_type kind.now) }
{
    match kind {
        Type::Event { place: _ } => true,
        Type::Structure { .. } => true,
        Type::Integer { place: _ } => false,
        Type::Boolean { place: _ } => false,
        Type::Bit { .. } => false,
        Type::Character { .. } => false,
    }
}

/// Whether a result has a type that is none of results.
#[tactic(auto, using(hal_tree::proofs::MadeUnits::made_untyped, hal_tree::proofs::MadeUnits::made_typed_returns), unfolding(crate::specs::Typed::gives_no_value))]
fn gives_no_value(returns: &Returns) -> bool
    ensures { result ≡ typed.gives_no_value (seen_returns returns.now) }
{
    match returns {
        Returns::Untyped => false,
        Returns::Typed { kind, precision: _ } => is_no_result(kind),
    }
}

/// Where a head breaks rule 724.
#[tactic(auto, using(hal_tree::proofs::MadeUnits::made_program, hal_tree::proofs::MadeUnits::made_compool, hal_tree::proofs::MadeUnits::made_task, hal_tree::proofs::MadeUnits::made_procedure, hal_tree::proofs::MadeUnits::made_function), unfolding(crate::specs::Typed::no_result_head))]
fn no_result_head(head: &Head) -> Option<Place>
    ensures { result ≡ typed.no_result_head (seen_head head.now) }
{
    match head {
        Head::Function { place, returns, .. } => unless(!gives_no_value(returns), *place),
        Head::Program { place: _ } => None,
        Head::Task { place: _ } => None,
        Head::Compool { place: _ } => None,
        Head::Procedure { .. } => None,
    }
}

/// Where a phrase breaks rule 724 (language document, Kinds).
#[tactic(auto, unfolding(crate::specs::Typed::no_result))]
pub fn no_result(node: Node<'_>) -> Option<Place>
    ensures { result ≡ typed.no_result (seen_node node.entry) }
{
    match node {
        Node::Template { head, .. } => no_result_head(head),
        Node::Unit { head, .. } => no_result_head(head),
        _ => None,
    }
}
