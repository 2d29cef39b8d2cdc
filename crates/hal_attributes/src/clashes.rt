//! Attributes that are there twice, or exclude each other.

ghost use Rattle.std.specs.Prelude.{◌≡◌, map};
ghost use Rattle.std.specs.Option.{option_map};
ghost use Rattle.hal_tree.specs.SeenDeclarations.{seen_attribute, seen_type};
ghost use Rattle.hal_tree.specs.SeenUnits.{seen_head, seen_precision, seen_returns};
ghost use Rattle.hal_phrases.specs.SeenPhrases.{seen_node};
ghost use Rattle.hal_attributes.specs.Clashes as clashes;

use crate::feature::Feature;
use crate::features::{clash, excludes, feature_of, feature_of_kind, place_of_attribute};
use hal_base::Place;
use hal_phrases::Node;
use hal_scope::unless;
use hal_tree::{Attribute, Head, Precision, Returns, Type};

/// Whether two attributes don't go together.
fn attributes_clash(one: &Attribute, other: &Attribute) -> bool
    ensures { result ≡ clashes.attributes_clash (seen_attribute one.now) (seen_attribute other.now) }
{
    clash(feature_of(one), feature_of(other))
}

/// Whether an attribute doesn't go with one of others.
fn clashes_with(attribute: &Attribute, others: &[Attribute]) -> bool
    ensures { result ≡ clashes.clashes_with (seen_attribute attribute.now) (map seen_attribute others.now) }
{
    for other in others {
        if attributes_clash(attribute, other) {
            return true;
        }
    }
    false
}

/// The first of these attributes that doesn't go with one before them.
#[tactic(auto, unfolding(crate::specs::Clashes::clash_behind))]
fn clash_behind(attribute: &Attribute, others: &[Attribute]) -> Option<Place>
    ensures { result ≡ clashes.clash_behind (seen_attribute attribute.now) (map seen_attribute others.now) }
{
    for other in others {
        if attributes_clash(attribute, other) {
            return Some(place_of_attribute(other));
        }
    }
    None
}

/// Where an attribute doesn't go with a common one, or one of the rest with it.
fn clash_at(common: &[Attribute], attribute: &Attribute, rest: &[Attribute]) -> Option<Place>
    ensures { result ≡ clashes.clash_at (map seen_attribute common.now) (seen_attribute attribute.now) (map seen_attribute rest.now) }
{
    if clashes_with(attribute, common) {
        return Some(place_of_attribute(attribute));
    }
    clash_behind(attribute, rest)
}

/// An attribute among these that doesn't go with a common one or with one before it.
#[tactic(auto, unfolding(crate::specs::Clashes::clash_among))]
fn clash_among(common: &[Attribute], attributes: &[Attribute]) -> Option<Place>
    ensures { result ≡ clashes.clash_among (map seen_attribute common.now) (map seen_attribute attributes.now) }
{
    let mut rest = attributes;
    while let Some((attribute, later)) = rest.split_first() {
        let found = clash_at(common, attribute, later);
        if found.is_some() {
            return found;
        }
        rest = later;
    }
    None
}

/// The place of a precision.
#[tactic(auto, unfolding(crate::specs::Clashes::place_of_precision))]
fn place_of_precision(precision: Precision) -> Place
    ensures { result ≡ clashes.place_of_precision (seen_precision precision) }
{
    match precision {
        Precision::Single { place } => place,
        Precision::Double { place } => place,
    }
}

/// Where a result that is no integer has a precision.
#[tactic(auto, unfolding(crate::specs::Clashes::clash_of_precision))]
fn clash_of_precision(kind: &Type, precision: Option<Precision>) -> Option<Place>
    ensures { result ≡ clashes.clash_of_precision (seen_type kind.now) (option_map seen_precision precision) }
{
    let precision = precision?;
    unless(
        !excludes(Feature::Double, feature_of_kind(kind)),
        place_of_precision(precision),
    )
}

/// The same of what a head says of a result.
#[tactic(auto, using(hal_tree::proofs::MadeUnits::made_untyped, hal_tree::proofs::MadeUnits::made_typed_returns), unfolding(crate::specs::Clashes::clash_of_returns))]
fn clash_of_returns(returns: &Returns) -> Option<Place>
    ensures { result ≡ clashes.clash_of_returns (seen_returns returns.now) }
{
    match returns {
        Returns::Untyped => None,
        Returns::Typed { kind, precision } => clash_of_precision(kind, *precision),
    }
}

/// The same of a head.
#[tactic(auto, using(hal_tree::proofs::MadeUnits::made_program, hal_tree::proofs::MadeUnits::made_compool, hal_tree::proofs::MadeUnits::made_task, hal_tree::proofs::MadeUnits::made_procedure, hal_tree::proofs::MadeUnits::made_function), unfolding(crate::specs::Clashes::clash_of_head))]
fn clash_of_head(head: &Head) -> Option<Place>
    ensures { result ≡ clashes.clash_of_head (seen_head head.now) }
{
    match head {
        Head::Function { returns, .. } => clash_of_returns(returns),
        Head::Program { place: _ } => None,
        Head::Task { place: _ } => None,
        Head::Compool { place: _ } => None,
        Head::Procedure { .. } => None,
    }
}

/// Where a phrase breaks rule 701, parts that have parts aside (language document, Kinds).
#[tactic(auto, using(hal_tree::proofs::MadeDeclarations::made_declared, hal_tree::proofs::MadeDeclarations::made_part), unfolding(crate::specs::Clashes::clashing))]
pub fn clashing(node: Node<'_>) -> Option<Place>
    ensures { result ≡ clashes.clashing (seen_node node.entry) }
{
    match node {
        Node::Template { head, .. } => clash_of_head(head),
        Node::Unit { head, .. } => clash_of_head(head),
        Node::Declare { common } => clash_among(&[], common),
        Node::Item { common, item } => clash_among(common, &item.attributes),
        Node::Part { bottom: _, part } => clash_among(&[], &part.attributes),
        _ => None,
    }
}
