//! Blocks that reach themselves by calls, and blocks that two processes reach.

ghost use Rattle.std.specs.Prelude.{◌≡◌};
ghost use Rattle.hal_phrases.specs.SeenPhrases.{seen_node, seen_phrase};
ghost use Rattle.hal_calls.specs.Blocks as blocks;

use hal_base::Place;
use hal_phrases::{Node, Phrase};
use hal_reach::{is_among, is_reentrant};
use hal_scope::unless;

/// Where a phrase is a unit: at its name.
#[tactic(auto, unfolding(crate::specs::Blocks::name_at))]
fn name_at(node: Node<'_>) -> Option<Place>
    ensures { result ≡ blocks.name_at (seen_node node.entry) }
{
    match node {
        Node::Unit { name, .. } => Some(name.place),
        _ => None,
    }
}

/// Where a phrase breaks rule 901, by the units that reach themselves (language document, Calls).
pub(crate) fn named_among(units: &[usize], phrase: &Phrase<'_>) -> Option<Place>
    ensures { result ≡ blocks.named_among units.now (seen_phrase phrase.now) }
{
    let place = name_at(phrase.node)?;
    unless(!is_among(units, phrase.number), place)
}

/// Where a phrase breaks rule 902, by the units that more than one process reaches (language document, Calls).
pub(crate) fn lone_among(units: &[usize], phrase: &Phrase<'_>) -> Option<Place>
    ensures { result ≡ blocks.lone_among units.now (seen_phrase phrase.now) }
{
    if is_reentrant(phrase.node) {
        return None;
    }
    named_among(units, phrase)
}
