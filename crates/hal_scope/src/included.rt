//! Names that an INCLUDE gives twice.

ghost use Rattle.std.specs.Prelude.{◌≡◌, map};
ghost use Rattle.std.specs.List.{list_any};
ghost use Rattle.std.specs.Option.{option_or};
ghost use Rattle.hal_tree.specs.SeenDeclarations.{seen_declaration, seen_declared};
ghost use Rattle.hal_phrases.specs.SeenPhrases.{seen_node, seen_phrase};
ghost use Rattle.hal_names.specs.SeenNames.{seen_names};
ghost use Rattle.hal_scope.specs.Repeated as repeated;

use crate::repeated::{is_included_before, twice};
use crate::uses::unless;
use hal_base::Place;
use hal_names::{Key, Names, Space, is_compool_unit};
use hal_phrases::{Node, Phrase};
use hal_tree::{Declaration, Declared};
use hal_words::Name;

/// Whether there is a lower number.
fn is_lower(number: usize, found: Option<usize>) -> bool
    ensures { result ≡ repeated.is_lower number found }
{
    match found {
        None => false,
        Some(found) => found < number,
    }
}

/// Whether the file has the name before an INCLUDE.
fn is_there_before(names: &Names<'_>, phrase: &Phrase<'_>, name: &Name) -> bool
    ensures { result ≡ repeated.is_there_before (seen_names names.now) (seen_phrase phrase.now) name.now }
{
    let declared = names.own(&Key {
        space: Space::Declared,
        owner: phrase.around.home,
        name: *name,
    });
    is_lower(phrase.number, declared) || is_included_before(names, phrase, name)
}

/// Whether the name of an item is there before an INCLUDE.
#[tactic(auto, using(hal_tree::proofs::MadeDeclarations::made_declared))]
fn is_item_there(names: &Names<'_>, phrase: &Phrase<'_>, item: &Declared) -> bool
    ensures { result ≡ repeated.is_item_there (seen_names names.now) (seen_phrase phrase.now) (seen_declared item.now) }
{
    is_there_before(names, phrase, &item.name.name)
}

/// Whether one of these names is there before an INCLUDE.
fn is_any_item_there(names: &Names<'_>, phrase: &Phrase<'_>, items: &[Declared]) -> bool
    ensures { result ≡ list_any (repeated.is_item_there (seen_names names.now) (seen_phrase phrase.now)) (map seen_declared items.now) }
{
    for item in items {
        if is_item_there(names, phrase, item) {
            return true;
        }
    }
    false
}

/// Whether one of the names that a declaration declares is there before an INCLUDE.
#[tactic(auto, using(hal_tree::proofs::MadeDeclarations::made_declare, hal_tree::proofs::MadeDeclarations::made_structure), unfolding(crate::specs::Repeated::declares_one_there))]
fn declares_one_there(names: &Names<'_>, phrase: &Phrase<'_>, tree: &Declaration) -> bool
    ensures { result ≡ repeated.declares_one_there (seen_names names.now) (seen_phrase phrase.now) (seen_declaration tree.now) }
{
    match tree {
        Declaration::Declare { items, .. } => is_any_item_there(names, phrase, items),
        Declaration::Structure { name, .. } => is_there_before(names, phrase, &name.name),
    }
}

/// Whether one of the names that declarations declare is there before an INCLUDE.
fn declare_one_there(names: &Names<'_>, phrase: &Phrase<'_>, trees: &[Declaration]) -> bool
    ensures { result ≡ list_any (repeated.declares_one_there (seen_names names.now) (seen_phrase phrase.now)) (map seen_declaration trees.now) }
{
    for tree in trees {
        if declares_one_there(names, phrase, tree) {
            return true;
        }
    }
    false
}

/// Whether a COMPOOL with this name and number declares its own name, or one that is there before an INCLUDE.
fn compool_repeats(
    names: &Names<'_>,
    phrase: &Phrase<'_>,
    name: &Name,
    number: usize,
    declarations: &[Declaration],
) -> bool
    ensures { result ≡ repeated.compool_repeats (seen_names names.now) (seen_phrase phrase.now) name.now number (map seen_declaration declarations.now) }
{
    let own = names.own(&Key {
        space: Space::Declared,
        owner: number,
        name: *name,
    });
    own.is_some() || declare_one_there(names, phrase, declarations)
}

/// Whether the template of a unit with this name, number and node gives a name twice, or one that is there before an INCLUDE.
#[tactic(auto, using(crate::proofs::Lists::or_false), unfolding(crate::specs::Repeated::declarations_of, hal_names::specs::Means::is_compool_unit))]
fn repeats(
    names: &Names<'_>,
    phrase: &Phrase<'_>,
    name: &Name,
    number: usize,
    unit: Node<'_>,
) -> bool
    ensures { result ≡ repeated.repeats (seen_names names.now) (seen_phrase phrase.now) name.now number (seen_node unit.entry) }
{
    let there = is_there_before(names, phrase, name);
    match unit {
        Node::Unit { declarations, .. } => {
            there
                || (is_compool_unit(unit)
                    && compool_repeats(names, phrase, name, number, declarations))
        }
        _ => there,
    }
}

/// Where an INCLUDE breaks rule 602.
#[tactic(auto, unfolding(crate::specs::Repeated::included_twice))]
fn included_twice(names: &Names<'_>, phrase: &Phrase<'_>) -> Option<Place>
    ensures { result ≡ repeated.included_twice (seen_names names.now) (seen_phrase phrase.now) (seen_phrase phrase.now).node }
{
    match phrase.node {
        Node::Include { name } => {
            let number = names.unit_named(&name.name)?;
            let unit = names.phrase(number)?;
            unless(
                !repeats(names, phrase, &name.name, number, unit.node),
                name.place,
            )
        }
        _ => None,
    }
}

/// Where a phrase breaks rule 602.
pub(crate) fn repeated(names: &Names<'_>, phrase: &Phrase<'_>) -> Option<Place>
    ensures { result ≡ repeated.repeated (seen_names names.now) (seen_phrase phrase.now) }
{
    let place = twice(names, phrase);
    if place.is_some() {
        return place;
    }
    included_twice(names, phrase)
}
