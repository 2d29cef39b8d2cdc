//! What an UPDATE block may not do.

ghost use Rattle.std.specs.Prelude.{◌≡◌};
ghost use Rattle.hal_phrases.specs.SeenPhrases.{seen_node, seen_phrase};
ghost use Rattle.hal_names.specs.SeenNames.{seen_names};
ghost use Rattle.hal_scope.specs.Uses as uses;
ghost use Rattle.hal_locks.specs.Barred as barred;

use crate::updates::named_in;
use hal_base::Place;
use hal_names::Names;
use hal_phrases::{Node, Phrase, Role};
use hal_scope::{Builtin, Sort, builtin_named, sort_at, unless};
use hal_words::Name;

/// Whether a reference of this role is read.
#[tactic(auto, unfolding(crate::specs::Barred::is_read))]
fn is_read(role: Role) -> bool
    ensures { result ≡ barred.is_read role }
{
    match role {
        Role::Receiver | Role::Output | Role::Event | Role::EventOrTime => false,
        _ => true,
    }
}

/// Whether a phrase reads what it names.
#[tactic(auto, unfolding(crate::specs::Barred::is_reading))]
fn is_reading(node: Node<'_>) -> bool
    ensures { result ≡ barred.is_reading (seen_node node.entry) }
{
    match node {
        Node::Reference { role, reference: _ } => is_read(role),
        Node::SubscriptName { name: _ } => true,
        Node::CallForm { .. } => true,
        _ => false,
    }
}

/// Whether this is RUNTIME.
#[tactic(auto, unfolding(crate::specs::Barred::is_runtime))]
fn is_runtime(builtin: Option<Builtin>) -> bool
    ensures { result ≡ barred.is_runtime builtin }
{
    match builtin {
        Some(Builtin::Runtime) => true,
        _ => false,
    }
}

/// Whether this is an event or a process.
#[tactic(auto, unfolding(hal_scope::specs::Uses::is_eventful))]
fn is_eventful(sort: Option<Sort>) -> bool
    ensures { result ≡ uses.is_eventful sort }
{
    match sort {
        Some(Sort::Event) | Some(Sort::Process) => true,
        _ => false,
    }
}

/// Whether a name is RUNTIME, or is read and is that of an event or a process.
fn is_asked(names: &Names<'_>, block: usize, reading: bool, name: &Name) -> bool
    ensures { result ≡ barred.is_asked (seen_names names.now) block reading name.now }
{
    match names.means(block, name) {
        None => is_runtime(builtin_named(name)),
        Some(number) => reading && is_eventful(sort_at(names, number)),
    }
}

/// Where a phrase names such a one.
fn asking(names: &Names<'_>, block: usize, node: Node<'_>) -> Option<Place>
    ensures { result ≡ barred.asking (seen_names names.now) block (seen_node node.entry) }
{
    let named = named_in(node)?;
    unless(
        !is_asked(names, block, is_reading(node), &named.name),
        named.place,
    )
}

/// Where a phrase does what an UPDATE block may not do.
#[tactic(auto, unfolding(crate::specs::Barred::barred))]
pub(crate) fn barred(names: &Names<'_>, block: usize, node: Node<'_>) -> Option<Place>
    ensures { result ≡ barred.barred (seen_names names.now) block (seen_node node.entry) }
{
    match node {
        Node::Read { place } => Some(place),
        Node::Write { place } => Some(place),
        Node::RealTime { place } => Some(place),
        Node::Event(event) => Some(event.place),
        _ => asking(names, block, node),
    }
}

/// Where a phrase breaks rule 803 (language document, Locks).
pub(crate) fn barred_within(names: &Names<'_>, phrase: &Phrase<'_>) -> Option<Place>
    ensures { result ≡ barred.barred_within (seen_names names.now) (seen_phrase phrase.now) }
{
    if phrase.around.update.is_none() {
        return None;
    }
    barred(names, phrase.around.block, phrase.node)
}
