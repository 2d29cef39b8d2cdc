//! Names in real-time statements.

ghost use Rattle.std.specs.Prelude.{◌≡◌};
ghost use Rattle.hal_tree.specs.SeenStatements.{seen_action};
ghost use Rattle.hal_phrases.specs.SeenPhrases.{seen_node, seen_phrase};
ghost use Rattle.hal_names.specs.SeenNames.{seen_names};
ghost use Rattle.hal_uses.specs.Real as real;

use hal_base::Place;
use hal_kinds::{is_event_type, is_marked};
use hal_names::Names;
use hal_phrases::{Node, Phrase};
use hal_scope::{Sort, builtin_named, sort_at, type_of, unless};
use hal_tree::{EventAction, Mark};
use hal_words::Name;

/// Whether a declared name is an event that isn't latched.
#[tactic(auto, unfolding(crate::specs::Real::is_unlatched))]
fn is_unlatched(node: Node<'_>) -> bool
    ensures { result ≡ real.is_unlatched (seen_node node.entry) }
{
    match node {
        Node::Item { common, item } => {
            is_event_type(type_of(common, item)) && !is_marked(Mark::Latched, common, item)
        }
        _ => false,
    }
}

/// Whether a name means an unlatched event in a block.
fn means_unlatched(names: &Names<'_>, block: usize, name: &Name) -> bool
    ensures { result ≡ real.means_unlatched (seen_names names.now) block name.now }
{
    let Some(number) = names.means(block, name) else {
        return false;
    };
    match names.phrase(number) {
        None => false,
        Some(phrase) => is_unlatched(phrase.node),
    }
}

/// Whether an event gets a value that it keeps.
#[tactic(auto, unfolding(crate::specs::Real::is_kept))]
fn is_kept(action: EventAction) -> bool
    ensures { result ≡ real.is_kept (seen_action action) }
{
    match action {
        EventAction::Signal => false,
        EventAction::Set => true,
        EventAction::Reset => true,
    }
}

/// Where a phrase breaks rule 715 (language document, Events).
#[tactic(auto, unfolding(crate::specs::Real::unlatched))]
pub fn unlatched(names: &Names<'_>, phrase: &Phrase<'_>) -> Option<Place>
    ensures { result ≡ real.unlatched (seen_names names.now) (seen_phrase phrase.now) (seen_phrase phrase.now).node }
{
    match phrase.node {
        Node::Event(event) => unless(
            !(is_kept(event.action)
                && means_unlatched(names, phrase.around.block, &event.name.name)),
            event.place,
        ),
        _ => None,
    }
}

/// Whether this is a process.
#[tactic(auto, unfolding(crate::specs::Real::is_process))]
fn is_process(sort: Option<Sort>) -> bool
    ensures { result ≡ real.is_process sort }
{
    match sort {
        Some(Sort::Process) => true,
        _ => false,
    }
}

/// Whether a name is that of a process, or unknown.
fn may_be_process(names: &Names<'_>, block: usize, name: &Name) -> bool
    ensures { result ≡ real.may_be_process (seen_names names.now) block name.now }
{
    match names.means(block, name) {
        None => builtin_named(name).is_none(),
        Some(number) => is_process(sort_at(names, number)),
    }
}

/// Where a phrase breaks rule 723 (language document, Processes).
#[tactic(auto, unfolding(crate::specs::Real::no_process))]
pub fn no_process(names: &Names<'_>, phrase: &Phrase<'_>) -> Option<Place>
    ensures { result ≡ real.no_process (seen_names names.now) (seen_phrase phrase.now) (seen_phrase phrase.now).node }
{
    match phrase.node {
        Node::Process { name } => unless(
            may_be_process(names, phrase.around.block, &name.name),
            name.place,
        ),
        _ => None,
    }
}
