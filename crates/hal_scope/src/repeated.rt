//! Names that are given twice, and parameters that their block doesn't declare.

ghost use Rattle.std.specs.Prelude.{◌≡◌, ℕ, Bool, map};
ghost use Rattle.std.specs.Option.{option_map};
ghost use Rattle.hal_tree.specs.SeenLeaves.{seen_name};
ghost use Rattle.hal_tree.specs.SeenUnits.{seen_preface};
ghost use Rattle.hal_phrases.specs.SeenPhrases.{seen_node, seen_phrase};
ghost use Rattle.hal_names.specs.SeenNames.{seen_names};
ghost use Rattle.hal_scope.specs.Repeated as repeated;

use crate::uses::unless;
use hal_base::Place;
use hal_names::{Key, Names, Space, declared_by, prefaces_of};
use hal_phrases::{Node, Phrase};
use hal_tree::{Identifier, Preface};
use hal_words::Name;

/// The name that a phrase declares, where it may be given twice.
#[tactic(auto, using(hal_tree::proofs::MadeDeclarations::made_declared, hal_tree::proofs::MadeDeclarations::made_part), unfolding(crate::specs::Repeated::given))]
fn given<'a>(node: Node<'a>) -> Option<&'a Identifier>
    ensures { option_map (λ name. seen_name name.now) result ≡ repeated.given (seen_node node.entry) }
{
    match node {
        Node::Template { name, .. } => Some(name),
        Node::Unit { name, .. } => Some(name),
        Node::Parameter { name, output: _ } => Some(name),
        Node::Item { common: _, item } => Some(&item.name),
        Node::Structure { name, parts: _ } => Some(name),
        Node::Part { bottom: _, part } => Some(&part.name),
        Node::Label { name } => Some(name),
        _ => None,
    }
}

/// Whether this is the number of the phrase, or there is none.
fn is_number(number: usize, found: Option<usize>) -> bool
    ensures { result ≡ repeated.is_number number found }
{
    match found {
        None => true,
        Some(found) => found == number,
    }
}

/// Whether no phrase before this one declares its key.
fn is_first(names: &Names<'_>, phrase: &Phrase<'_>) -> bool
    ensures { result ≡ repeated.is_first (seen_names names.now) (seen_phrase phrase.now) }
{
    match declared_by(phrase) {
        None => true,
        Some(key) => is_number(phrase.number, names.own(&key)),
    }
}

/// The prefaces of the file to which the names of a phrase belong, where they belong to a file.
fn prefaces_around<'a>(names: &Names<'a>, phrase: &Phrase<'_>) -> Option<&'a [Preface]>
    ensures { option_map (λ prefaces. map seen_preface prefaces.now) result ≡ repeated.prefaces_around (seen_names names.now) (seen_phrase phrase.now) }
{
    let home = names.phrase(phrase.around.home)?;
    prefaces_of(home.node)
}

/// Whether an INCLUDE before the phrase gives the name to the file to which the phrase's names belong.
pub(crate) fn is_included_before(names: &Names<'_>, phrase: &Phrase<'_>, name: &Name) -> bool
    ensures { result ≡ repeated.is_included_before (seen_names names.now) (seen_phrase phrase.now) name.now }
{
    match prefaces_around(names, phrase) {
        None => false,
        Some(prefaces) => names
            .included_before(phrase.around.prefaces, prefaces, name)
            .is_some(),
    }
}

/// Whether a phrase gives its name to a block or to the file.
#[tactic(auto, unfolding(crate::specs::Repeated::is_of_block))]
fn is_of_block(node: Node<'_>) -> bool
    ensures { result ≡ repeated.is_of_block (seen_node node.entry) }
{
    match node {
        Node::Template { .. } => true,
        Node::Unit { .. } => true,
        Node::Item { common: _, item: _ } => true,
        Node::Structure { name: _, parts: _ } => true,
        _ => false,
    }
}

/// Whether the name that a phrase declares was given before.
fn is_given_before(names: &Names<'_>, phrase: &Phrase<'_>, name: &Name) -> bool
    ensures { result ≡ repeated.is_given_before (seen_names names.now) (seen_phrase phrase.now) name.now }
{
    !is_first(names, phrase)
        || (is_of_block(phrase.node) && is_included_before(names, phrase, name))
}

/// Where a phrase that declares breaks rule 602.
#[tactic(auto, unfolding(crate::specs::Repeated::twice))]
pub(crate) fn twice(names: &Names<'_>, phrase: &Phrase<'_>) -> Option<Place>
    ensures { result ≡ repeated.twice (seen_names names.now) (seen_phrase phrase.now) }
{
    let name = given(phrase.node)?;
    unless(!is_given_before(names, phrase, &name.name), name.place)
}

/// Whether a phrase declares data.
#[tactic(auto, unfolding(crate::specs::Repeated::is_item))]
fn is_item(node: Node<'_>) -> bool
    ensures { result ≡ repeated.is_item (seen_node node.entry) }
{
    match node {
        Node::Item { common: _, item: _ } => true,
        _ => false,
    }
}

/// Whether the phrase with this number, if there is one, declares data.
fn is_item_at(names: &Names<'_>, number: Option<usize>) -> bool
    ensures { result ≡ repeated.is_item_at (seen_names names.now) number }
{
    let Some(number) = number else {
        return false;
    };
    match names.phrase(number) {
        None => false,
        Some(phrase) => is_item(phrase.node),
    }
}

/// Where a phrase breaks rule 606.
#[tactic(auto, unfolding(crate::specs::Repeated::undeclared))]
pub(crate) fn undeclared(names: &Names<'_>, phrase: &Phrase<'_>) -> Option<Place>
    ensures { result ≡ repeated.undeclared (seen_names names.now) (seen_phrase phrase.now) (seen_phrase phrase.now).node }
{
    match phrase.node {
        Node::Parameter { name, output: _ } => {
            let declared = names.own(&Key {
                space: Space::Declared,
                owner: phrase.around.home,
                name: name.name,
            });
            unless(is_item_at(names, declared), name.place)
        }
        _ => None,
    }
}
