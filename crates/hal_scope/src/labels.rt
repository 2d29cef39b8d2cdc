//! The rules of labels.

ghost use Rattle.std.specs.Prelude.{◌≡◌, map};
ghost use Rattle.std.specs.Option.{is_some, option_map};
ghost use Rattle.hal_tree.specs.SeenLeaves.{seen_name};
ghost use Rattle.hal_phrases.specs.SeenPhrases.{seen_node, seen_phrase};
ghost use Rattle.hal_names.specs.SeenNames.{seen_names};
ghost use Rattle.hal_scope.specs.Labels as rules;

use crate::uses::unless;
use hal_base::Place;
use hal_names::Names;
use hal_phrases::{Node, Phrase};
use hal_tree::Identifier;
use hal_words::Name;

/// Whether a name is among labels.
fn is_label(name: &Name, labels: &[Identifier]) -> bool
    ensures { result ≡ rules.is_label name.now (map seen_name labels.now) }
{
    for label in labels {
        if label.name.bytes() == name.bytes() {
            return true;
        }
    }
    false
}

/// Whether a name is a label of a block or a group.
#[tactic(auto, unfolding(crate::specs::Labels::is_label_of))]
fn is_label_of(name: &Name, node: Node<'_>) -> bool
    ensures { result ≡ rules.is_label_of name.now (seen_node node.entry) }
{
    match node {
        Node::Template { name: unit, .. } => unit.name.bytes() == name.bytes(),
        Node::Unit { name: unit, .. } => unit.name.bytes() == name.bytes(),
        Node::Group { labels, looping: _ } => is_label(name, labels),
        Node::TemporaryGroup {
            labels,
            variable: _,
        } => is_label(name, labels),
        Node::Update { place: _, labels } => is_label(name, labels),
        _ => false,
    }
}

/// Where a phrase breaks rule 604.
#[tactic(auto, unfolding(crate::specs::Labels::misclosed))]
pub(crate) fn misclosed(names: &Names<'_>, phrase: &Phrase<'_>) -> Option<Place>
    ensures { result ≡ rules.misclosed (seen_names names.now) (seen_phrase phrase.now) (seen_phrase phrase.now).node }
{
    match phrase.node {
        Node::Close { name } => {
            let closed = names.phrase(phrase.around.parent)?;
            unless(is_label_of(&name.name, closed.node), name.place)
        }
        _ => None,
    }
}

/// Whether a group is a loop.
#[tactic(auto, unfolding(crate::specs::Labels::is_loop))]
fn is_loop(node: Node<'_>) -> bool
    ensures { result ≡ rules.is_loop (seen_node node.entry) }
{
    match node {
        Node::Group { labels: _, looping } => looping,
        Node::TemporaryGroup {
            labels: _,
            variable: _,
        } => true,
        _ => false,
    }
}

/// The first of the groups around, from this one on, that has the label; at most so many are looked at.
#[tactic(auto, unfolding(crate::specs::Labels::group_around))]
fn group_named<'a>(
    names: &Names<'a>,
    name: &Name,
    steps: usize,
    group: Option<usize>,
) -> Option<Node<'a>>
    ensures { option_map seen_node result ≡ rules.group_around (seen_names names.now) (rules.is_label_of name.now) steps group }
{
    let Some(fewer) = steps.checked_sub(1) else {
        return None;
    };
    let phrase = names.phrase(group?)?;
    if is_label_of(name, phrase.node) {
        return Some(phrase.node);
    }
    group_named(names, name, fewer, phrase.around.group)
}

/// Whether one of the groups around, from this one on, is a loop; at most so many are looked at.
#[tactic(auto, unfolding(crate::specs::Labels::group_around))]
fn is_in_loop(names: &Names<'_>, steps: usize, group: Option<usize>) -> bool
    ensures { result ≡ is_some (rules.group_around (seen_names names.now) rules.is_loop steps group) }
{
    let Some(fewer) = steps.checked_sub(1) else {
        return false;
    };
    let Some(number) = group else {
        return false;
    };
    let Some(phrase) = names.phrase(number) else {
        return false;
    };
    if is_loop(phrase.node) {
        return true;
    }
    is_in_loop(names, fewer, phrase.around.group)
}

/// The group around a phrase with this label.
fn group_of<'a>(names: &Names<'a>, phrase: &Phrase<'_>, name: &Name) -> Option<Node<'a>>
    ensures { option_map seen_node result ≡ rules.group_named (seen_names names.now) (seen_phrase phrase.now) name.now }
{
    group_named(names, name, names.phrases().len(), phrase.around.group)
}

/// Where a phrase breaks rule 605.
#[tactic(auto, unfolding(crate::specs::Labels::misled))]
pub(crate) fn misled(names: &Names<'_>, phrase: &Phrase<'_>) -> Option<Place>
    ensures { result ≡ rules.misled (seen_names names.now) (seen_phrase phrase.now) (seen_phrase phrase.now).node }
{
    let (place, label) = match phrase.node {
        Node::Exit { place, label } => (place, label),
        Node::Repeat { place, label } => (place, label),
        _ => return None,
    };
    match label {
        None => None,
        Some(label) => unless(group_of(names, phrase, &label.name).is_some(), place),
    }
}

/// Whether a group, where there is one, is a loop.
#[tactic(auto, unfolding(crate::specs::Labels::is_loop))]
fn is_no_plain_group(group: Option<Node<'_>>) -> bool
    ensures { result ≡ rules.is_no_plain_group (option_map seen_node group.entry) }
{
    match group {
        None => true,
        Some(group) => is_loop(group),
    }
}

/// Where a REPEAT breaks rule 607.
fn astray_repeat(
    names: &Names<'_>,
    phrase: &Phrase<'_>,
    place: Place,
    label: &Option<Identifier>,
) -> Option<Place>
    ensures { result ≡ rules.astray_repeat (seen_names names.now) (seen_phrase phrase.now) place (option_map seen_name label.now) }
{
    match label {
        None => unless(
            is_in_loop(names, names.phrases().len(), phrase.around.group),
            place,
        ),
        Some(label) => unless(
            is_no_plain_group(group_of(names, phrase, &label.name)),
            place,
        ),
    }
}

/// Where a phrase breaks rule 607.
#[tactic(auto, unfolding(crate::specs::Labels::astray))]
pub(crate) fn astray(names: &Names<'_>, phrase: &Phrase<'_>) -> Option<Place>
    ensures { result ≡ rules.astray (seen_names names.now) (seen_phrase phrase.now) (seen_phrase phrase.now).node }
{
    match phrase.node {
        Node::Exit { place, label } => match label {
            None => unless(phrase.around.group.is_some(), place),
            Some(_) => None,
        },
        Node::Repeat { place, label } => astray_repeat(names, phrase, place, label),
        _ => None,
    }
}
