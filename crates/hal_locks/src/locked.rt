//! Data with LOCK.

ghost use Rattle.std.specs.Prelude.{◌≡◌, map};
ghost use Rattle.std.specs.List.{list_any};
ghost use Rattle.std.specs.Option.{option_map};
ghost use Rattle.hal_tree.specs.SeenDeclarations.{seen_attribute, seen_declared};
ghost use Rattle.hal_phrases.specs.SeenPhrases.{seen_node, seen_phrase};
ghost use Rattle.hal_names.specs.SeenNames.{seen_names};
ghost use Rattle.hal_locks.specs.Locked as locked;

use hal_kinds::is_event_type;
use hal_names::Names;
use hal_phrases::{Node, Phrase};
use hal_scope::type_of;
use hal_tree::{Attribute, Declared};
use hal_words::Name;

/// Whether an attribute is LOCK with a number.
#[tactic(auto, using(hal_tree::proofs::MadeDeclarations::made_dimensions, hal_tree::proofs::MadeDeclarations::made_typed, hal_tree::proofs::MadeDeclarations::made_marked, hal_tree::proofs::MadeDeclarations::made_lock_group, hal_tree::proofs::MadeDeclarations::made_lock_any, hal_tree::proofs::MadeDeclarations::made_initial, hal_tree::proofs::MadeDeclarations::made_constant), unfolding(crate::specs::Locked::is_numbered))]
fn is_numbered(attribute: &Attribute) -> bool
    ensures { result ≡ locked.is_numbered (seen_attribute attribute.now) }
{
    match attribute {
        Attribute::LockGroup { .. } => true,
        Attribute::Dimensions { .. } => false,
        Attribute::Typed(_) => false,
        Attribute::Marked { .. } => false,
        Attribute::LockAny { .. } => false,
        Attribute::Initial { .. } => false,
        Attribute::Constant { .. } => false,
    }
}

/// Whether one of these attributes is.
fn is_any_numbered(attributes: &[Attribute]) -> bool
    ensures { result ≡ list_any locked.is_numbered (map seen_attribute attributes.now) }
{
    for attribute in attributes {
        if is_numbered(attribute) {
            return true;
        }
    }
    false
}

/// Whether an attribute is LOCK with a star.
#[tactic(auto, using(hal_tree::proofs::MadeDeclarations::made_dimensions, hal_tree::proofs::MadeDeclarations::made_typed, hal_tree::proofs::MadeDeclarations::made_marked, hal_tree::proofs::MadeDeclarations::made_lock_group, hal_tree::proofs::MadeDeclarations::made_lock_any, hal_tree::proofs::MadeDeclarations::made_initial, hal_tree::proofs::MadeDeclarations::made_constant), unfolding(crate::specs::Locked::is_starred))]
fn is_starred(attribute: &Attribute) -> bool
    ensures { result ≡ locked.is_starred (seen_attribute attribute.now) }
{
    match attribute {
        Attribute::LockAny { .. } => true,
        Attribute::Dimensions { .. } => false,
        Attribute::Typed(_) => false,
        Attribute::Marked { .. } => false,
        Attribute::LockGroup { .. } => false,
        Attribute::Initial { .. } => false,
        Attribute::Constant { .. } => false,
    }
}

/// Whether one of these attributes is.
fn is_any_starred(attributes: &[Attribute]) -> bool
    ensures { result ≡ list_any locked.is_starred (map seen_attribute attributes.now) }
{
    for attribute in attributes {
        if is_starred(attribute) {
            return true;
        }
    }
    false
}

/// Whether a name that is declared has LOCK with a number.
#[tactic(auto, using(hal_tree::proofs::MadeDeclarations::made_declared))]
fn has_number(common: &[Attribute], item: &Declared) -> bool
    ensures { result ≡ locked.has_number (map seen_attribute common.now) (seen_declared item.now) }
{
    is_any_numbered(&item.attributes) || is_any_numbered(common)
}

/// Whether it has LOCK with a star.
#[tactic(auto, using(hal_tree::proofs::MadeDeclarations::made_declared))]
pub(crate) fn has_star(common: &[Attribute], item: &Declared) -> bool
    ensures { result ≡ locked.has_star (map seen_attribute common.now) (seen_declared item.now) }
{
    is_any_starred(&item.attributes) || is_any_starred(common)
}

/// Whether a phrase declares data of a known lock group.
#[tactic(auto, unfolding(crate::specs::Locked::is_grouped))]
fn is_grouped(node: Node<'_>) -> bool
    ensures { result ≡ locked.is_grouped (seen_node node.entry) }
{
    match node {
        Node::Item { common, item } => {
            !is_event_type(type_of(common, item)) && has_number(common, item)
        }
        _ => false,
    }
}

/// Whether a phrase of a set does.
#[tactic(auto, unfolding(crate::specs::Locked::declares_grouped))]
fn declares_grouped(phrase: &Phrase<'_>) -> bool
    ensures { result ≡ locked.declares_grouped (seen_phrase phrase.now) }
{
    is_grouped(phrase.node)
}

/// Whether one of these phrases does.
fn is_any_grouped(phrases: &[Phrase<'_>]) -> bool
    ensures { result ≡ list_any locked.declares_grouped (map seen_phrase phrases.now) }
{
    for phrase in phrases {
        if declares_grouped(phrase) {
            return true;
        }
    }
    false
}

/// Whether a set of files has data of a known lock group.
pub(crate) fn has_grouped(names: &Names<'_>) -> bool
    ensures { result ≡ locked.has_grouped (seen_names names.now) }
{
    is_any_grouped(names.phrases())
}

/// Whether a phrase declares data with LOCK.
#[tactic(auto, unfolding(crate::specs::Locked::is_locked))]
fn is_locked(node: Node<'_>) -> bool
    ensures { result ≡ locked.is_locked (seen_node node.entry) }
{
    match node {
        Node::Item { common, item } => {
            !is_event_type(type_of(common, item))
                && (has_number(common, item) || has_star(common, item))
        }
        _ => false,
    }
}

/// The phrase that declares what a name means in the block with this number.
fn meaning<'a>(names: &Names<'a>, block: usize, name: &Name) -> Option<Phrase<'a>>
    ensures { option_map seen_phrase result ≡ locked.meaning (seen_names names.now) block name.now }
{
    let number = names.means(block, name)?;
    names.phrase(number)
}

/// Whether a name means data of a known lock group.
pub(crate) fn means_grouped(names: &Names<'_>, block: usize, name: &Name) -> bool
    ensures { result ≡ locked.means_grouped (seen_names names.now) block name.now }
{
    match meaning(names, block, name) {
        None => false,
        Some(declared) => is_grouped(declared.node),
    }
}

/// Whether a name means data with LOCK.
pub(crate) fn means_locked(names: &Names<'_>, block: usize, name: &Name) -> bool
    ensures { result ≡ locked.means_locked (seen_names names.now) block name.now }
{
    match meaning(names, block, name) {
        None => false,
        Some(declared) => is_locked(declared.node),
    }
}
