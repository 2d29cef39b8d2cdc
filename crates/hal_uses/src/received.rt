//! What a phrase declares, as far as it may take values.

ghost use Rattle.std.specs.Prelude.{◌≡◌, map};
ghost use Rattle.hal_tree.specs.SeenDeclarations.{seen_attribute, seen_declared};
ghost use Rattle.hal_tree.specs.SeenExpressions.{seen_subscript};
ghost use Rattle.hal_tree.specs.SeenLeaves.{seen_name};
ghost use Rattle.hal_phrases.specs.SeenPhrases.{seen_node, seen_phrase};
ghost use Rattle.hal_names.specs.SeenNames.{seen_names};
ghost use Rattle.hal_uses.specs.Receivers as receivers;

use hal_base::rules::{LOOP_VARIABLE_NOT_SINGLE, NOT_ASSIGNABLE, WRONG_ASSIGN_ARGUMENT};
use hal_kinds::{Class, Data, chosen, constant_of, data_at, is_event_type};
use hal_names::{Key, Names, Space};
use hal_phrases::{Node, Phrase};
use hal_scope::type_of;
use hal_tree::{Attribute, Declared, Identifier, Subscript};
use hal_words::Name;

/// Whether a phrase is an input parameter.
#[tactic(auto, unfolding(crate::specs::Receivers::is_input))]
fn is_input(node: Node<'_>) -> bool
    ensures { result ≡ receivers.is_input (seen_node node.entry) }
{
    match node {
        Node::Parameter { name: _, output } => !output,
        _ => false,
    }
}

/// Whether the phrase with this number, if there is one, is an input parameter.
fn is_input_at(names: &Names<'_>, number: Option<usize>) -> bool
    ensures { result ≡ receivers.is_input_at (seen_names names.now) number }
{
    let Some(number) = number else {
        return false;
    };
    match names.phrase(number) {
        None => false,
        Some(parameter) => is_input(parameter.node),
    }
}

/// Whether a name is that of an input parameter of the block to which a phrase's names belong.
fn is_input_parameter(names: &Names<'_>, phrase: &Phrase<'_>, name: &Name) -> bool
    ensures { result ≡ receivers.is_input_parameter (seen_names names.now) (seen_phrase phrase.now) name.now }
{
    let parameter = names.own(&Key {
        space: Space::Parameter,
        owner: phrase.around.home,
        name: *name,
    });
    is_input_at(names, parameter)
}

/// Whether data are never assigned.
#[tactic(auto, using(hal_tree::proofs::MadeDeclarations::made_declared, hal_kinds::proofs::Options::some_mapped))]
fn is_fixed(names: &Names<'_>, phrase: &Phrase<'_>, common: &[Attribute], item: &Declared) -> bool
    ensures { result ≡ receivers.is_fixed (seen_names names.now) (seen_phrase phrase.now) (map seen_attribute common.now) (seen_declared item.now) }
{
    constant_of(common, item).is_some() || is_input_parameter(names, phrase, &item.name.name)
}

/// Whether what a phrase declares may stand on the left of an assignment, or another rule says that it may not.
#[tactic(auto, unfolding(crate::specs::Receivers::may_receive))]
pub(crate) fn may_receive(names: &Names<'_>, phrase: &Phrase<'_>) -> bool
    ensures { result ≡ receivers.may_receive (seen_names names.now) (seen_phrase phrase.now) (seen_phrase phrase.now).node }
{
    match phrase.node {
        Node::Item { common, item } => {
            !(is_fixed(names, phrase, common, item) || is_event_type(type_of(common, item)))
        }
        Node::TemporaryGroup { .. } => true,
        Node::Structure { .. } => true,
        _ => false,
    }
}

/// Whether these data, where they are known, have a component subscript.
#[tactic(auto, unfolding(crate::specs::Receivers::is_component))]
fn is_component(found: Option<Data>, subscript: &Subscript) -> bool
    ensures { result ≡ receivers.is_component found (seen_subscript subscript.now) }
{
    match found {
        None => false,
        Some(found) => 0 < chosen(found, subscript).components,
    }
}

/// The rule that an ASSIGN argument breaks which is what this phrase declares.
#[tactic(auto, unfolding(crate::specs::Receivers::put_fault))]
pub(crate) fn put_fault(
    names: &Names<'_>,
    phrase: &Phrase<'_>,
    path: &[Identifier],
    subscript: &Subscript,
) -> Option<u16>
    ensures { result ≡ receivers.put_fault (seen_names names.now) (seen_phrase phrase.now) (map seen_name path.now) (seen_subscript subscript.now) (seen_phrase phrase.now).node }
{
    match phrase.node {
        Node::Item { common, item } => {
            if is_event_type(type_of(common, item)) {
                Some(WRONG_ASSIGN_ARGUMENT)
            } else if is_fixed(names, phrase, common, item) {
                Some(NOT_ASSIGNABLE)
            } else if is_component(data_at(names, phrase, path), subscript) {
                Some(WRONG_ASSIGN_ARGUMENT)
            } else {
                None
            }
        }
        Node::TemporaryGroup { .. } => None,
        _ => Some(WRONG_ASSIGN_ARGUMENT),
    }
}

/// Whether a class is that of integers.
#[tactic(auto, unfolding(crate::specs::Receivers::is_integer))]
fn is_integer(class: Class) -> bool
    ensures { result ≡ receivers.is_integer class }
{
    match class {
        Class::Integer => true,
        _ => false,
    }
}

/// Whether data are a single integer.
fn is_single_integer(found: Data) -> bool
    ensures { result ≡ receivers.is_single_integer found }
{
    is_integer(found.class) && !(0 < found.dimensions || found.copies)
}

/// The rule that the variable of DO FOR breaks which is data that this phrase declares.
#[tactic(auto, unfolding(crate::specs::Receivers::counted_fault))]
fn counted_fault(
    names: &Names<'_>,
    phrase: &Phrase<'_>,
    common: &[Attribute],
    item: &Declared,
    found: Option<Data>,
) -> Option<u16>
    ensures { result ≡ receivers.counted_fault (seen_names names.now) (seen_phrase phrase.now) (map seen_attribute common.now) (seen_declared item.now) found }
{
    if !is_single_integer(found?) {
        return Some(LOOP_VARIABLE_NOT_SINGLE);
    }
    if is_fixed(names, phrase, common, item) {
        Some(NOT_ASSIGNABLE)
    } else {
        None
    }
}

/// The rule that the variable of DO FOR breaks which is what this phrase declares.
#[tactic(auto, unfolding(crate::specs::Receivers::variable_fault))]
pub(crate) fn variable_fault(names: &Names<'_>, phrase: &Phrase<'_>) -> Option<u16>
    ensures { result ≡ receivers.variable_fault (seen_names names.now) (seen_phrase phrase.now) (seen_phrase phrase.now).node }
{
    match phrase.node {
        Node::Item { common, item } => {
            counted_fault(names, phrase, common, item, data_at(names, phrase, &[]))
        }
        Node::TemporaryGroup { .. } => None,
        _ => Some(LOOP_VARIABLE_NOT_SINGLE),
    }
}
