//! How the data are stored that phrases name.

ghost use Rattle.std.specs.Prelude.{◌≡◌, IfOk, map};
ghost use Rattle.hal_phrases.specs.SeenPhrases.{seen_node, seen_phrase};
ghost use Rattle.hal_names.specs.SeenNames.{seen_names};
ghost use Rattle.hal_constants.specs.SeenKnown.{seen_known};
ghost use Rattle.hal_storage.specs.cells.SeenStoring.{seen_storing};
ghost use Rattle.hal_lock_groups.specs.Naming as naming;

use hal_constants::Known;
use hal_names::Names;
use hal_phrases::{Node, Phrase};
use hal_reach::meant;
use hal_storage::cells::{Storing, storing_of};
use hal_words::Name;
use std::alloc::{AllocError, Global};

/// The name that a phrase uses.
#[tactic(auto, using(hal_tree::proofs::MadeExpressions::made_reference), unfolding(hal_scope::specs::Sorts::used, hal_scope::specs::Sorts::use_of_reference))]
fn used_name(node: Node<'_>) -> Option<Name>
    ensures { result ≡ naming.used_name (seen_node node.entry) }
{
    match node {
        Node::Reference { role: _, reference } => Some(reference.name),
        Node::SubscriptName { name } => Some(name.name),
        Node::InitialName { name } => Some(name.name),
        Node::CallForm { name, .. } => Some(*name),
        Node::StructureType { place: _, template } => Some(*template),
        Node::Variable { name } => Some(name.name),
        Node::Call { name, .. } => Some(name.name),
        Node::Process { name } => Some(name.name),
        Node::Event(event) => Some(event.name.name),
        _ => None,
    }
}

/// The number of the declaration that it means.
fn named(names: &Names<'_>, phrase: &Phrase<'_>) -> Option<usize>
    ensures { result ≡ naming.named (seen_names names.now) (seen_phrase phrase.now) }
{
    let name = used_name(phrase.node)?;
    meant(names, phrase.around.block, &name)
}

/// How what each phrase declares is stored.
#[tactic(auto, unfolding(crate::specs::Naming::all_storings))]
pub(crate) fn all_storings(
    alloc: Global,
    names: &Names<'_>,
    known: &Known,
) -> Result<Vec<Storing>, AllocError>
    ensures { IfOk result (λ list. map seen_storing list.items ≡ naming.all_storings (seen_names names.now) (seen_known known.now)) }
{
    let phrases = names.phrases();
    let mut list = Vec::with_capacity(alloc, phrases.len())?;
    for phrase in phrases {
        list.push(storing_of(names, known, phrase))?;
    }
    Ok(list)
}

/// The same of the phrase with this number.
fn stored_at(storings: &[Storing], number: usize) -> Storing
    ensures { seen_storing result ≡ naming.stored_at (map seen_storing storings.now) number }
{
    match storings.get(number) {
        None => Storing::Unstored,
        Some(storing) => *storing,
    }
}

/// How the data are stored that a phrase names.
pub(crate) fn storing_named(names: &Names<'_>, storings: &[Storing], phrase: &Phrase<'_>) -> Storing
    ensures { seen_storing result ≡ naming.storing_named (seen_names names.now) (map seen_storing storings.now) (seen_phrase phrase.now) }
{
    match named(names, phrase) {
        None => Storing::Unstored,
        Some(number) => stored_at(storings, number),
    }
}
