//! Components that a structure doesn't have.

ghost use Rattle.std.specs.Prelude.{◌≡◌, map};
ghost use Rattle.std.specs.Option.{option_map};
ghost use Rattle.hal_tree.specs.SeenDeclarations.{seen_type};
ghost use Rattle.hal_tree.specs.SeenExpressions.{seen_reference};
ghost use Rattle.hal_tree.specs.SeenLeaves.{seen_name};
ghost use Rattle.hal_phrases.specs.SeenPhrases.{seen_node, seen_phrase};
ghost use Rattle.hal_names.specs.SeenNames.{seen_names};
ghost use Rattle.hal_scope.specs.Components as components;

use crate::builtin::builtin_named;
use crate::sorts::{is_operand, sort_of, type_of};
use crate::uses::unless;
use hal_base::Place;
use hal_names::{Key, Names, Space};
use hal_phrases::{Node, Phrase};
use hal_tree::{Identifier, Reference, Type};
use hal_words::Name;

/// Whether parts of these names, each a part of the one before, stand under the structure or part with this number.
#[tactic(auto, unfolding(crate::specs::Components::has_path))]
fn has_path(names: &Names<'_>, number: usize, path: &[Identifier]) -> bool
    ensures { result ≡ components.has_path (seen_names names.now) number (map seen_name path.now) }
{
    let mut owner = number;
    for part in path {
        let Some(found) = names.own(&Key {
            space: Space::Part,
            owner,
            name: part.name,
        }) else {
            return false;
        };
        owner = found;
    }
    true
}

/// Whether a phrase is a structure template.
#[tactic(auto, unfolding(crate::specs::Components::is_structure))]
fn is_structure(node: Node<'_>) -> bool
    ensures { result ≡ components.is_structure (seen_node node.entry) }
{
    match node {
        Node::Structure { name: _, parts: _ } => true,
        _ => false,
    }
}

/// Whether the phrase with this number has such a component, where it is a structure template.
fn structure_has(names: &Names<'_>, number: usize, path: &[Identifier]) -> bool
    ensures { result ≡ components.structure_has (seen_names names.now) number (map seen_name path.now) }
{
    let Some(phrase) = names.phrase(number) else {
        return true;
    };
    !is_structure(phrase.node) || has_path(names, number, path)
}

/// Whether the structure that a name means in a block has such a component.
fn template_has(names: &Names<'_>, block: usize, template: &Name, path: &[Identifier]) -> bool
    ensures { result ≡ components.template_has (seen_names names.now) block template.now (map seen_name path.now) }
{
    match names.means(block, template) {
        None => true,
        Some(number) => structure_has(names, number, path),
    }
}

/// Whether data of this type, declared in this block, have such a component.
#[tactic(auto, using(hal_tree::proofs::MadeDeclarations::made_integer_type, hal_tree::proofs::MadeDeclarations::made_boolean_type, hal_tree::proofs::MadeDeclarations::made_event_type, hal_tree::proofs::MadeDeclarations::made_bit_type, hal_tree::proofs::MadeDeclarations::made_character_type, hal_tree::proofs::MadeDeclarations::made_structure_type), unfolding(crate::specs::Components::type_has))]
fn type_has(names: &Names<'_>, block: usize, path: &[Identifier], kind: Option<&Type>) -> bool
    ensures { result ≡ components.type_has (seen_names names.now) block (map seen_name path.now) (option_map (λ kind. seen_type kind.now) kind.entry) }
{
    match kind {
        None => false,
        Some(Type::Structure { template, .. }) => template_has(names, block, template, path),
        Some(Type::Integer { place: _ }) => false,
        Some(Type::Boolean { place: _ }) => false,
        Some(Type::Event { place: _ }) => false,
        Some(Type::Bit { .. }) => false,
        Some(Type::Character { .. }) => false,
    }
}

/// Whether what a phrase declares may be an operand.
fn declares_operand(node: Node<'_>) -> bool
    ensures { result ≡ components.declares_operand (seen_node node.entry) }
{
    match sort_of(node) {
        None => false,
        Some(sort) => is_operand(sort),
    }
}

/// Whether what a phrase declares has such a component; true where it is nothing that may be an operand.
#[tactic(auto, unfolding(crate::specs::Components::has_component))]
fn has_component(names: &Names<'_>, phrase: &Phrase<'_>, path: &[Identifier]) -> bool
    ensures { result ≡ components.has_component (seen_names names.now) (seen_phrase phrase.now) (map seen_name path.now) (seen_phrase phrase.now).node }
{
    match phrase.node {
        Node::Item { common, item } => {
            type_has(names, phrase.around.block, path, type_of(common, item))
        }
        _ => !declares_operand(phrase.node),
    }
}

/// Whether what a name means in a block, if it is known, has such a component: a built-in function has none.
fn meaning_has(names: &Names<'_>, block: usize, name: &Name, path: &[Identifier]) -> bool
    ensures { result ≡ components.meaning_has (seen_names names.now) block name.now (map seen_name path.now) }
{
    let Some(number) = names.means(block, name) else {
        return builtin_named(name).is_none();
    };
    match names.phrase(number) {
        None => true,
        Some(phrase) => has_component(names, &phrase, path),
    }
}

/// Where a reference breaks rule 608.
#[tactic(auto, using(hal_tree::proofs::MadeExpressions::made_reference, crate::proofs::Lists::nil_seen), unfolding(crate::specs::Components::lacks_in))]
fn lacks_in(names: &Names<'_>, block: usize, reference: &Reference) -> Option<Place>
    ensures { result ≡ components.lacks_in (seen_names names.now) block (seen_reference reference.now) }
{
    unless(
        reference.further.is_empty()
            || meaning_has(names, block, &reference.name, &reference.further),
        reference.place,
    )
}

/// Where a phrase breaks rule 608.
#[tactic(auto, unfolding(crate::specs::Components::lacks))]
pub(crate) fn lacks(names: &Names<'_>, phrase: &Phrase<'_>) -> Option<Place>
    ensures { result ≡ components.lacks (seen_names names.now) (seen_phrase phrase.now) (seen_phrase phrase.now).node }
{
    match phrase.node {
        Node::Reference { role: _, reference } => lacks_in(names, phrase.around.block, reference),
        _ => None,
    }
}
