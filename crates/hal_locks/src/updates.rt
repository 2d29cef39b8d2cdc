//! What stands in UPDATE blocks, and the names that stand outside them.

ghost use Rattle.std.specs.Prelude.{◌≡◌};
ghost use Rattle.std.specs.Option.{option_map};
ghost use Rattle.hal_tree.specs.SeenLeaves.{seen_name};
ghost use Rattle.hal_phrases.specs.SeenPhrases.{seen_node, seen_phrase};
ghost use Rattle.hal_names.specs.SeenNames.{seen_names};
ghost use Rattle.hal_locks.specs.Updates as updates;

use crate::locked::means_grouped;
use hal_base::Place;
use hal_names::Names;
use hal_phrases::{Node, Phrase};
use hal_scope::unless;
use hal_tree::Identifier;

/// The name that a phrase uses, where it stands.
#[tactic(auto, using(hal_tree::proofs::MadeExpressions::made_reference), unfolding(hal_scope::specs::Sorts::used, hal_scope::specs::Sorts::use_of_reference))]
pub(crate) fn named_in(node: Node<'_>) -> Option<Identifier>
    ensures { option_map seen_name result ≡ updates.named_in (seen_node node.entry) }
{
    let (place, name) = match node {
        Node::Reference { role: _, reference } => (reference.place, reference.name),
        Node::SubscriptName { name } => (name.place, name.name),
        Node::InitialName { name } => (name.place, name.name),
        Node::CallForm { place, name, .. } => (*place, *name),
        Node::StructureType { place, template } => (place, *template),
        Node::Variable { name } => (name.place, name.name),
        Node::Call { name, .. } => (name.place, name.name),
        Node::Process { name } => (name.place, name.name),
        Node::Event(event) => (event.name.place, event.name.name),
        _ => return None,
    };
    Some(Identifier { place, name })
}

/// Where a phrase names data of a known lock group.
fn naming_grouped(names: &Names<'_>, phrase: &Phrase<'_>) -> Option<Place>
    ensures { result ≡ updates.naming_grouped (seen_names names.now) (seen_phrase phrase.now) }
{
    let named = named_in(phrase.node)?;
    unless(
        !means_grouped(names, phrase.around.block, &named.name),
        named.place,
    )
}

/// Where a phrase breaks rule 801 (language document, Locks).
pub(crate) fn unheld(names: &Names<'_>, phrase: &Phrase<'_>) -> Option<Place>
    ensures { result ≡ updates.unheld (seen_names names.now) (seen_phrase phrase.now) }
{
    if phrase.around.update.is_some() {
        return None;
    }
    naming_grouped(names, phrase)
}

/// Where a phrase is UPDATE.
#[tactic(auto, unfolding(crate::specs::Updates::updating))]
pub(crate) fn updating(node: Node<'_>) -> Option<Place>
    ensures { result ≡ updates.updating (seen_node node.entry) }
{
    match node {
        Node::Update { place, labels: _ } => Some(place),
        _ => None,
    }
}

/// Where a phrase breaks rule 802 (language document, Locks).
pub(crate) fn nested(phrase: &Phrase<'_>) -> Option<Place>
    ensures { result ≡ updates.nested (seen_phrase phrase.now) }
{
    if phrase.around.update.is_none() {
        return None;
    }
    updating(phrase.node)
}

/// Where a phrase is RETURN.
#[tactic(auto, unfolding(crate::specs::Updates::returning))]
fn returning(node: Node<'_>) -> Option<Place>
    ensures { result ≡ updates.returning (seen_node node.entry) }
{
    match node {
        Node::Return { place, value: _ } => Some(place),
        _ => None,
    }
}

/// Where a phrase breaks rule 807 (language document, Locks).
pub(crate) fn returned(phrase: &Phrase<'_>) -> Option<Place>
    ensures { result ≡ updates.returned (seen_phrase phrase.now) }
{
    if phrase.around.update.is_none() {
        return None;
    }
    returning(phrase.node)
}
