//! The event expressions of statements.

ghost use Rattle.std.specs.Prelude.{◌≡◌, ◌≤◌, ◌+◌, IfOk, length, map};
ghost use Rattle.std.specs.Option.{option_map};
ghost use Rattle.hal_tree.specs.SeenExpressions.{seen_expression};
ghost use Rattle.hal_phrases.specs.SeenPhrases.{seen_node, seen_phrase};
ghost use Rattle.hal_names.specs.SeenNames.{seen_names};
ghost use Rattle.hal_meaning.specs.Bodies.{processes_of};
ghost use Rattle.hal_meaning.specs.Events as events;
ghost use Rattle.hal_storage.specs.event_expressions.Numbered as numbered;
ghost use Rattle.hal_storage.specs.event_expressions.SeenStated.{seen_stated};

use crate::event_expressions::postfix::push_postfix;
use crate::event_expressions::stated::Stated;
use hal_names::Names;
use hal_phrases::{Node, Phrase, Role};
use hal_scope::holds_event;
use hal_tree::Expr;
use std::alloc::{AllocError, Global};

/// Whether a phrase is a real-time statement.
fn is_real_time(node: Node<'_>) -> bool
    ensures { result ≡ events.is_real_time (seen_node node.entry) }
{
    match node {
        Node::RealTime { place: _ } => true,
        _ => false,
    }
}

/// Whether the phrase with this number is.
fn is_real_time_at(names: &Names<'_>, number: usize) -> bool
    ensures { result ≡ numbered.is_real_time_at (seen_names names.now) number }
{
    match names.phrase(number) {
        None => false,
        Some(phrase) => is_real_time(phrase.node),
    }
}

/// Whether an expression of this role is an event expression.
fn is_for_event(names: &Names<'_>, block: usize, role: Role, tree: &Expr) -> bool
    ensures { result ≡ events.is_for_event (seen_names names.now) block role (seen_expression tree.now) }
{
    match role {
        Role::Event => true,
        Role::EventOrTime => holds_event(tree, names, block),
        _ => false,
    }
}

/// The event expression that a phrase is, where it is one.
fn expression_at<'a>(names: &Names<'a>, phrase: &Phrase<'a>) -> Option<&'a Expr>
    ensures { option_map (λ tree. seen_expression tree.now) result ≡ numbered.expression_at (seen_names names.now) (seen_phrase phrase.now) (seen_phrase phrase.now).node }
{
    match phrase.node {
        Node::Expression { role, tree } => {
            if is_for_event(names, phrase.around.block, role, tree)
                && is_real_time_at(names, phrase.around.parent)
            {
                Some(tree)
            } else {
                None
            }
        }
        _ => None,
    }
}

/// The event expression of this tree in a phrase.
fn stated(
    alloc: Global,
    names: &Names<'_>,
    processes: &[usize],
    declared: &[usize],
    phrase: &Phrase<'_>,
    tree: &Expr,
) -> Result<Stated, AllocError>
    requires few { length processes.now + length declared.now ≤ 65535 }
    requires of_processes { processes.now ≡ processes_of (seen_names names.now) }
    requires of_events { declared.now ≡ events.declared_events (seen_names names.now) }
    ensures { IfOk result (λ one. seen_stated one ≡ numbered.stated_with (seen_names names.now) (seen_phrase phrase.now) (seen_expression tree.now)) }
{
    let mut items = Vec::new(alloc);
    push_postfix(
        tree,
        &mut items,
        names,
        processes,
        declared,
        phrase.around.block,
    )?;
    Ok(Stated {
        statement: phrase.around.parent,
        items,
    })
}

/// The event expressions of a set of files with these processes and declared events.
#[tactic(auto, unfolding(crate::specs::event_expressions::Numbered::all_stated))]
fn all_stated(
    alloc: Global,
    names: &Names<'_>,
    processes: &[usize],
    declared: &[usize],
) -> Result<Vec<Stated>, AllocError>
    requires few { length processes.now + length declared.now ≤ 65535 }
    requires of_processes { processes.now ≡ processes_of (seen_names names.now) }
    requires of_events { declared.now ≡ events.declared_events (seen_names names.now) }
    ensures { IfOk result (λ list. map seen_stated list.items ≡ numbered.all_stated (seen_names names.now)) }
{
    let mut list = Vec::new(alloc);
    let phrases = names.phrases();
    for phrase in phrases {
        if let Some(tree) = expression_at(names, phrase) {
            let one = stated(alloc, names, processes, declared, phrase, tree)?;
            list.push(one)?;
        }
    }
    Ok(list)
}

/// The event expressions of a set of files, in the order in which they stand, where these are its processes and its declared events: their items,
/// each event by its number, from 0 (language document, Events).
#[tactic(auto, using(crate::proofs::event_expressions::Behind::all_seen))]
pub fn stated_of(
    alloc: Global,
    names: &Names<'_>,
    processes: &[usize],
    declared: &[usize],
) -> Result<Vec<Stated>, AllocError>
    requires few { length processes.now + length declared.now ≤ 65535 }
    requires of_processes { processes.now ≡ processes_of (seen_names names.now) }
    requires of_events { declared.now ≡ events.declared_events (seen_names names.now) }
    ensures { IfOk result (λ list. map seen_stated list.items ≡ events.stated (seen_names names.now)) }
{
    let list = all_stated(alloc, names, processes, declared)?;
    Ok(list)
}
