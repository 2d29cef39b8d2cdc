//! The classes of call forms.

ghost use Rattle.std.specs.Prelude.{◌≡◌};
ghost use Rattle.hal_tree.specs.SeenUnits.{seen_head};
ghost use Rattle.hal_phrases.specs.SeenPhrases.{seen_node};
ghost use Rattle.hal_names.specs.SeenNames.{seen_names};
ghost use Rattle.hal_kinds.specs.Classes as classes;

use crate::class::Class;
use crate::references::class_of_returns;
use hal_names::Names;
use hal_phrases::Node;
use hal_scope::{Builtin, builtin_named};
use hal_tree::Head;
use hal_words::Name;

/// What a built-in function with a list gives.
#[tactic(auto, unfolding(crate::specs::Classes::class_of_function))]
fn class_of_function(builtin: Builtin) -> Option<Class>
    ensures { result ≡ classes.class_of_function builtin }
{
    match builtin {
        Builtin::Odd | Builtin::Xor => Some(Class::Bits),
        Builtin::Ljust | Builtin::Rjust | Builtin::Trim => Some(Class::Text),
        Builtin::Errgrp | Builtin::Errnum | Builtin::Runtime => None,
        Builtin::Max | Builtin::Min | Builtin::Prod | Builtin::Sum => None,
        _ => Some(Class::Integer),
    }
}

/// What a block gives that is called with a list.
#[tactic(auto, using(hal_tree::proofs::MadeUnits::made_program, hal_tree::proofs::MadeUnits::made_compool, hal_tree::proofs::MadeUnits::made_task, hal_tree::proofs::MadeUnits::made_procedure, hal_tree::proofs::MadeUnits::made_function), unfolding(crate::specs::Classes::class_of_called_head))]
fn class_of_called_head(head: &Head) -> Option<Class>
    ensures { result ≡ classes.class_of_called_head (seen_head head.now) }
{
    match head {
        Head::Function { returns, .. } => class_of_returns(returns),
        Head::Program { place: _ } => None,
        Head::Task { place: _ } => None,
        Head::Compool { place: _ } => None,
        Head::Procedure { .. } => None,
    }
}

/// What the call form of a name gives that a phrase declares.
#[tactic(auto, unfolding(crate::specs::Classes::class_of_called))]
fn class_of_called(node: Node<'_>) -> Option<Class>
    ensures { result ≡ classes.class_of_called (seen_node node.entry) }
{
    match node {
        Node::Template { head, .. } => class_of_called_head(head),
        Node::Unit { head, .. } => class_of_called_head(head),
        Node::Item { .. } => Some(Class::Integer),
        Node::TemporaryGroup { .. } => Some(Class::Integer),
        _ => None,
    }
}

/// What the call form of a name gives in a block.
pub(crate) fn class_of_call(names: &Names<'_>, block: usize, name: &Name) -> Option<Class>
    ensures { result ≡ classes.class_of_call (seen_names names.now) block name.now }
{
    match names.means(block, name) {
        None => class_of_function(builtin_named(name)?),
        Some(number) => {
            let phrase = names.phrase(number)?;
            class_of_called(phrase.node)
        }
    }
}
