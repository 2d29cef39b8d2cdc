//! How declarations are stored.

ghost use Rattle.std.specs.Prelude.{◌≡◌, map};
ghost use Rattle.hal_tree.specs.SeenDeclarations.{seen_attribute, seen_declared};
ghost use Rattle.hal_phrases.specs.Phrases.{OfItem};
ghost use Rattle.hal_phrases.specs.SeenPhrases.{seen_node, seen_phrase};
ghost use Rattle.hal_names.specs.SeenNames.{seen_names};
ghost use Rattle.hal_constants.specs.SeenKnown.{seen_known};
ghost use Rattle.hal_meaning.specs.Places as places;
ghost use Rattle.hal_storage.specs.cells.Groups as groups;
ghost use Rattle.hal_storage.specs.cells.SeenStoring.{seen_storing};

use crate::cells::groups::group_of;
use crate::cells::sharing::home_shares;
use crate::cells::storing::Storing;
use hal_constants::{Known, is_value_item};
use hal_kinds::{is_event_type, is_marked};
use hal_names::{Key, Names, Space};
use hal_phrases::{Node, Phrase};
use hal_scope::type_of;
use hal_tree::{Attribute, Declared, Mark};
use hal_words::Name;

/// Whether this is an ASSIGN parameter, where it is a parameter.
fn parameter_at(node: Node<'_>) -> Option<bool>
    ensures { result ≡ places.parameter_at (seen_node node.entry) }
{
    match node {
        Node::Parameter { name: _, output } => Some(output),
        _ => None,
    }
}

/// Whether the parameter of this name of the block with this number is an ASSIGN parameter; None where there is none (language document, Places).
pub fn parameter(names: &Names<'_>, home: usize, name: &Name) -> Option<bool>
    ensures { result ≡ places.parameter (seen_names names.now) home name.now }
{
    let number = names.own(&Key {
        space: Space::Parameter,
        owner: home,
        name: *name,
    })?;
    let phrase = names.phrase(number)?;
    parameter_at(phrase.node)
}

/// Whether the phrase with this number is a unit of the set, and not a template (language document, Places).
pub fn is_in_unit(names: &Names<'_>, home: usize) -> bool
    ensures { result ≡ places.is_in_unit (seen_names names.now) home }
{
    let Some(phrase) = names.phrase(home) else {
        return false;
    };
    match phrase.node {
        Node::Unit { .. } => true,
        _ => false,
    }
}

/// How data are stored that are no parameter.
fn storing_of_data(shared: bool, automatic: bool, group: Option<u8>) -> Storing
    ensures { seen_storing result ≡ places.storing_of_data shared automatic group }
{
    match group {
        Some(group) => Storing::InCells(group),
        None => {
            if shared && !automatic {
                Storing::InCells(0)
            } else {
                Storing::InPlaces
            }
        }
    }
}

/// How what a phrase declares is stored, where it is no parameter.
fn storing_of_named(
    names: &Names<'_>,
    known: &Known,
    phrase: &Phrase<'_>,
    common: &[Attribute],
    item: &Declared,
) -> Storing
    ensures { seen_storing result ≡ groups.storing_of_named (seen_names names.now) (seen_known known.now) (seen_phrase phrase.now) (map seen_attribute common.now) (seen_declared item.now) }
{
    if is_event_type(type_of(common, item)) || is_value_item(common, item) {
        return Storing::Unstored;
    }
    storing_of_data(
        home_shares(names, phrase.around.home),
        is_marked(Mark::Automatic, common, item),
        group_of(names, known, phrase, common, item),
    )
}

/// How what a phrase declares is stored.
#[tactic(auto, using(hal_tree::proofs::MadeDeclarations::made_declared))]
fn storing_of_item(
    names: &Names<'_>,
    known: &Known,
    phrase: &Phrase<'_>,
    common: &[Attribute],
    item: &Declared,
) -> Storing
    ensures { seen_storing result ≡ groups.storing_of_item (seen_names names.now) (seen_known known.now) (seen_phrase phrase.now) (map seen_attribute common.now) (seen_declared item.now) }
{
    if !is_in_unit(names, phrase.around.home) {
        return Storing::Unstored;
    }
    match parameter(names, phrase.around.home, &item.name.name) {
        Some(true) => Storing::ByReference,
        Some(false) => Storing::InPlaces,
        None => storing_of_named(names, known, phrase, common, item),
    }
}

/// The same, by the declaration alone.
fn storing_of_declared(
    names: &Names<'_>,
    known: &Known,
    phrase: &Phrase<'_>,
    common: &[Attribute],
    item: &Declared,
) -> Storing
    ensures { seen_storing result ≡ places.storing (seen_names names.now) (seen_known known.now) (seen_phrase phrase.now) (OfItem (map seen_attribute common.now) (seen_declared item.now)) }
{
    storing_of_item(names, known, phrase, common, item)
}

/// How the data are stored that a phrase declares (language document, Places).
pub fn storing_of(names: &Names<'_>, known: &Known, phrase: &Phrase<'_>) -> Storing
    ensures { seen_storing result ≡ places.storing (seen_names names.now) (seen_known known.now) (seen_phrase phrase.now) (seen_phrase phrase.now).node }
{
    match phrase.node {
        Node::Item { common, item } => storing_of_declared(names, known, phrase, common, item),
        _ => Storing::Unstored,
    }
}
