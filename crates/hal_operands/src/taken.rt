//! Values that their receivers don't take.

ghost use Rattle.std.specs.Prelude.{◌≡◌, map};
ghost use Rattle.hal_tree.specs.SeenExpressions.{seen_expression, seen_reference};
ghost use Rattle.hal_tree.specs.SeenUnits.{seen_head};
ghost use Rattle.hal_phrases.specs.SeenPhrases.{seen_node, seen_phrase};
ghost use Rattle.hal_names.specs.SeenNames.{seen_names};
ghost use Rattle.hal_operands.specs.Taken as taken;

use hal_base::Place;
use hal_kinds::{Class, class_of, class_of_reference, class_of_returns};
use hal_names::Names;
use hal_phrases::{Node, Phrase, Role};
use hal_scope::unless;
use hal_tree::{Expr, Head, Reference};

/// Whether data of a class take a value of another one; true where one isn't known, or is none of a value.
#[tactic(auto, unfolding(crate::specs::Taken::takes))]
pub fn takes(receiver: Option<Class>, value: Option<Class>) -> bool
    ensures { result ≡ taken.takes receiver value }
{
    match (receiver, value) {
        (Some(Class::Integer), Some(Class::Bits | Class::Text)) => false,
        (Some(Class::Bits), Some(Class::Integer | Class::Text)) => false,
        (Some(Class::Text), Some(Class::Bits)) => false,
        _ => true,
    }
}

/// Whether all receivers take a value of this class.
#[tactic(auto, unfolding(crate::specs::Taken::all_take))]
fn all_take(names: &Names<'_>, block: usize, class: Option<Class>, receivers: &[Reference]) -> bool
    ensures { result ≡ taken.all_take (seen_names names.now) block class (map seen_reference receivers.now) }
{
    for receiver in receivers {
        if !takes(class_of_reference(names, block, receiver), class) {
            return false;
        }
    }
    true
}

/// Whether the receivers of an assignment take a value of this class.
#[tactic(auto, unfolding(crate::specs::Taken::assigned_taken))]
fn assigned_taken(names: &Names<'_>, block: usize, class: Option<Class>, node: Node<'_>) -> bool
    ensures { result ≡ taken.assigned_taken (seen_names names.now) block class (seen_node node.entry) }
{
    match node {
        Node::Assignment {
            receivers,
            value: _,
        } => all_take(names, block, class, receivers),
        _ => true,
    }
}

/// Whether the result of a FUNCTION takes a value of this class.
#[tactic(auto, using(hal_tree::proofs::MadeUnits::made_program, hal_tree::proofs::MadeUnits::made_compool, hal_tree::proofs::MadeUnits::made_task, hal_tree::proofs::MadeUnits::made_procedure, hal_tree::proofs::MadeUnits::made_function), unfolding(crate::specs::Taken::head_takes))]
fn head_takes(class: Option<Class>, head: &Head) -> bool
    ensures { result ≡ taken.head_takes class (seen_head head.now) }
{
    match head {
        Head::Function { returns, .. } => takes(class_of_returns(returns), class),
        Head::Program { place: _ } => true,
        Head::Task { place: _ } => true,
        Head::Compool { place: _ } => true,
        Head::Procedure { .. } => true,
    }
}

/// The same of a phrase that is a block.
#[tactic(auto, unfolding(crate::specs::Taken::returned_taken))]
fn returned_taken(class: Option<Class>, node: Node<'_>) -> bool
    ensures { result ≡ taken.returned_taken class (seen_node node.entry) }
{
    match node {
        Node::Template { head, .. } => head_takes(class, head),
        Node::Unit { head, .. } => head_takes(class, head),
        _ => true,
    }
}

/// Whether the value of an assignment or RETURN is taken.
#[tactic(auto, unfolding(crate::specs::Taken::is_taken))]
fn is_taken(names: &Names<'_>, phrase: &Phrase<'_>, role: Role, tree: &Expr) -> bool
    ensures { result ≡ taken.is_taken (seen_names names.now) (seen_phrase phrase.now) role (seen_expression tree.now) }
{
    let block = phrase.around.block;
    match role {
        Role::Assigned => match names.phrase(phrase.around.parent) {
            None => true,
            Some(parent) => {
                assigned_taken(names, block, class_of(tree, names, block), parent.node)
            }
        },
        Role::Returned => match names.phrase(phrase.around.home) {
            None => true,
            Some(home) => returned_taken(class_of(tree, names, block), home.node),
        },
        _ => true,
    }
}

/// Where a value breaks rule 702 since it isn't taken (language document, Kinds).
#[tactic(auto, unfolding(crate::specs::Taken::untaken))]
pub fn untaken(names: &Names<'_>, phrase: &Phrase<'_>) -> Option<Place>
    ensures { result ≡ taken.untaken (seen_names names.now) (seen_phrase phrase.now) (seen_phrase phrase.now).node }
{
    match phrase.node {
        Node::Expression { role, tree } => {
            unless(is_taken(names, phrase, role, tree), tree.place())
        }
        _ => None,
    }
}
