//! Subscripts.

ghost use Rattle.std.specs.Prelude.{◌≡◌, map};
ghost use Rattle.hal_tree.specs.SeenExpressions.{seen_reference, seen_subscript};
ghost use Rattle.hal_tree.specs.SeenLeaves.{seen_name};
ghost use Rattle.hal_tree.specs.SeenUnits.{seen_head};
ghost use Rattle.hal_phrases.specs.SeenPhrases.{seen_node, seen_phrase};
ghost use Rattle.hal_names.specs.SeenNames.{seen_names};
ghost use Rattle.hal_uses.specs.Subscripts as subscripts;

use hal_base::Place;
use hal_base::rules::{MISPLACED_COMPONENT_SUBSCRIPT, WRONG_NUMBER_OF_SUBSCRIPTS};
use hal_kinds::{
    Choice, Class, Data, chosen, class_of_head, data_at, is_event_type, is_miscounted,
};
use hal_names::Names;
use hal_phrases::{Node, Phrase};
use hal_scope::{builtin_named, type_of};
use hal_tree::{Head, Identifier, Reference, Subscript};
use hal_words::Name;

/// Whether a class has components that subscripts choose.
#[tactic(auto, unfolding(crate::specs::Subscripts::is_string))]
fn is_string(class: Class) -> bool
    ensures { result ≡ subscripts.is_string class }
{
    match class {
        Class::Bits | Class::Text => true,
        _ => false,
    }
}

/// The rule that subscripts of a component break, of data that have components or not.
fn component_fault(has: bool, choice: Choice) -> Option<u16>
    ensures { result ≡ subscripts.component_fault has choice }
{
    if has {
        if 1 < choice.components {
            Some(WRONG_NUMBER_OF_SUBSCRIPTS)
        } else {
            None
        }
    } else if 0 < choice.components {
        Some(MISPLACED_COMPONENT_SUBSCRIPT)
    } else {
        None
    }
}

/// The rule that subscripts break of data, which may be an event.
fn choice_fault(eventful: bool, found: Data, choice: Choice) -> Option<u16>
    ensures { result ≡ subscripts.choice_fault eventful found choice }
{
    if is_miscounted(found, choice) {
        return Some(WRONG_NUMBER_OF_SUBSCRIPTS);
    }
    component_fault(is_string(found.class) && !eventful, choice)
}

/// Whether the name of a block is an event as an operand.
#[tactic(auto, using(hal_tree::proofs::MadeUnits::made_program, hal_tree::proofs::MadeUnits::made_compool, hal_tree::proofs::MadeUnits::made_task, hal_tree::proofs::MadeUnits::made_procedure, hal_tree::proofs::MadeUnits::made_function), unfolding(crate::specs::Subscripts::is_eventful_head))]
fn is_eventful_head(head: &Head) -> bool
    ensures { result ≡ subscripts.is_eventful_head (seen_head head.now) }
{
    match head {
        Head::Function { .. } => false,
        Head::Program { place: _ } => true,
        Head::Task { place: _ } => true,
        Head::Compool { place: _ } => true,
        Head::Procedure { .. } => true,
    }
}

/// A single value of this class.
fn single(class: Class) -> Data
    ensures { result ≡ subscripts.single class }
{
    Data {
        class,
        dimensions: 0,
        copies: false,
    }
}

/// The rule that a subscript breaks of a block's name.
#[tactic(auto, unfolding(crate::specs::Subscripts::head_fault))]
fn head_fault(head: &Head, subscript: &Subscript, class: Option<Class>) -> Option<u16>
    ensures { result ≡ subscripts.head_fault (seen_head head.now) (seen_subscript subscript.now) class }
{
    let found = single(class?);
    choice_fault(is_eventful_head(head), found, chosen(found, subscript))
}

/// Whether a name without a path is an event's.
#[tactic(auto, using(hal_scope::proofs::Lists::nil_seen), unfolding(crate::specs::Subscripts::is_event_name))]
fn is_event_name(path: &[Identifier], node: Node<'_>) -> bool
    ensures { result ≡ subscripts.is_event_name (map seen_name path.now) (seen_node node.entry) }
{
    match node {
        Node::Item { common, item } => path.is_empty() && is_event_type(type_of(common, item)),
        _ => false,
    }
}

/// The rule that a subscript breaks of data, which may be an event.
#[tactic(auto, unfolding(crate::specs::Subscripts::data_fault))]
fn data_fault(eventful: bool, subscript: &Subscript, found: Option<Data>) -> Option<u16>
    ensures { result ≡ subscripts.data_fault eventful (seen_subscript subscript.now) found }
{
    let found = found?;
    choice_fault(eventful, found, chosen(found, subscript))
}

/// The rule that a subscript breaks of what a phrase declares.
#[tactic(auto, unfolding(crate::specs::Subscripts::fault_at))]
fn fault_at(
    names: &Names<'_>,
    phrase: &Phrase<'_>,
    path: &[Identifier],
    subscript: &Subscript,
) -> Option<u16>
    ensures { result ≡ subscripts.fault_at (seen_names names.now) (seen_phrase phrase.now) (map seen_name path.now) (seen_subscript subscript.now) (seen_phrase phrase.now).node }
{
    match phrase.node {
        Node::Template { head, .. } => head_fault(head, subscript, class_of_head(head)),
        Node::Unit { head, .. } => head_fault(head, subscript, class_of_head(head)),
        _ => data_fault(
            is_event_name(path, phrase.node),
            subscript,
            data_at(names, phrase, path),
        ),
    }
}

/// The rule that a subscript breaks of a built-in function, which is an integer where it has no list.
fn builtin_fault(name: &Name, subscript: &Subscript) -> Option<u16>
    ensures { result ≡ subscripts.builtin_fault name.now (seen_subscript subscript.now) }
{
    if builtin_named(name).is_some() {
        let found = single(Class::Integer);
        choice_fault(false, found, chosen(found, subscript))
    } else {
        None
    }
}

/// The rule that the subscript of a name and a path breaks.
fn named_fault(
    names: &Names<'_>,
    block: usize,
    name: &Name,
    path: &[Identifier],
    subscript: &Subscript,
) -> Option<u16>
    ensures { result ≡ subscripts.named_fault (seen_names names.now) block name.now (map seen_name path.now) (seen_subscript subscript.now) }
{
    match names.means(block, name) {
        None => builtin_fault(name, subscript),
        Some(number) => {
            let phrase = names.phrase(number)?;
            fault_at(names, &phrase, path, subscript)
        }
    }
}

/// The rule that a reference breaks by its subscript, and where.
#[tactic(auto, using(hal_tree::proofs::MadeExpressions::made_reference), unfolding(crate::specs::Subscripts::reference_fault))]
fn reference_fault(names: &Names<'_>, block: usize, reference: &Reference) -> Option<(u16, Place)>
    ensures { result ≡ subscripts.reference_fault (seen_names names.now) block (seen_reference reference.now) }
{
    let rule = named_fault(
        names,
        block,
        &reference.name,
        &reference.further,
        &reference.subscript,
    )?;
    Some((rule, reference.place))
}

/// Which rule of 707 and 721 a phrase breaks, and where (language document, Kinds).
#[tactic(auto, unfolding(crate::specs::Subscripts::missubscripted))]
pub fn missubscripted(names: &Names<'_>, phrase: &Phrase<'_>) -> Option<(u16, Place)>
    ensures { result ≡ subscripts.missubscripted (seen_names names.now) (seen_phrase phrase.now) (seen_phrase phrase.now).node }
{
    match phrase.node {
        Node::Reference { role: _, reference } => {
            reference_fault(names, phrase.around.block, reference)
        }
        _ => None,
    }
}
