//! The name that a phrase declares.

ghost use Rattle.std.specs.Prelude.{◌≡◌};
ghost use Rattle.hal_phrases.specs.SeenPhrases.{seen_phrase};
ghost use Rattle.hal_names.specs.Keys.{declared_by};

use crate::key::{Key, Space};
use hal_phrases::{Node, Phrase};

/// The key of the name that a phrase declares.
#[tactic(auto, using(hal_tree::proofs::MadeDeclarations::made_declared, hal_tree::proofs::MadeDeclarations::made_part), unfolding(crate::specs::Keys::declared_at))]
pub fn declared_by(phrase: &Phrase<'_>) -> Option<Key>
    ensures { result ≡ declared_by (seen_phrase phrase.now) }
{
    let (space, owner, name) = match phrase.node {
        Node::File { prefaces: _, name } => (Space::Unit, 0, name),
        Node::Template { name, .. } => (Space::Declared, phrase.around.home, name),
        Node::Unit { name, .. } => (Space::Declared, phrase.around.home, name),
        Node::Parameter { name, output: _ } => (Space::Parameter, phrase.around.home, name),
        Node::Item { common: _, item } => (Space::Declared, phrase.around.home, &item.name),
        Node::Structure { name, parts: _ } => (Space::Declared, phrase.around.home, name),
        Node::Part { bottom: _, part } => (Space::Part, phrase.around.parent, &part.name),
        Node::Label { name } => (Space::Declared, phrase.around.home, name),
        Node::TemporaryGroup {
            labels: _,
            variable,
        } => (Space::Declared, phrase.number, variable),
        _ => return None,
    };
    Some(Key {
        space,
        owner,
        name: name.name,
    })
}
