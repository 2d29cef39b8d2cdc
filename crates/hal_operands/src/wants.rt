//! Operands of other classes than are wanted.

ghost use Rattle.std.specs.Prelude.{◌≡◌};
ghost use Rattle.hal_tree.specs.SeenExpressions.{seen_expression, seen_reference};
ghost use Rattle.hal_tree.specs.SeenLeaves.{seen_name};
ghost use Rattle.hal_phrases.specs.SeenPhrases.{seen_phrase};
ghost use Rattle.hal_names.specs.SeenNames.{seen_names};
ghost use Rattle.hal_operands.specs.Wants as wants;

use crate::want::Want;
use hal_base::Place;
use hal_base::rules::{CONDITION_AS_VALUE, SEVERAL_ELEMENTS, WRONG_KIND_OF_OPERAND};
use hal_kinds::{Class, class_of, class_of_name, class_of_reference};
use hal_names::Names;
use hal_phrases::{Node, Phrase, Role};
use hal_tree::{Expr, Identifier, Reference};

/// What is wanted of an operand of this role.
#[tactic(auto, unfolding(crate::specs::Wants::wanted))]
fn wanted(role: Role) -> Want
    ensures { result ≡ wants.wanted role }
{
    match role {
        Role::Disjunct | Role::Conjunct | Role::Condition => Want::Truth,
        Role::Negated => Want::Bits,
        Role::Compared | Role::Joined | Role::Assigned | Role::Returned => Want::Value,
        Role::Item | Role::ToText | Role::Initial => Want::Value,
        Role::ToInteger => Want::String,
        Role::Enclosed => Want::Single,
        Role::Exponent | Role::Argument | Role::Receiver | Role::Input => Want::Anything,
        Role::Output | Role::Channel | Role::Time => Want::Anything,
        Role::Event | Role::EventOrTime => Want::Anything,
        _ => Want::Integer,
    }
}

/// The rule that an integer, bits or a text breaks where this is wanted.
#[tactic(auto, unfolding(crate::specs::Wants::misfit_of_value))]
fn misfit_of_value(want: Want, class: Class) -> Option<u16>
    ensures { result ≡ wants.misfit_of_value want class }
{
    let fits = match want {
        Want::Anything | Want::Value | Want::Single => true,
        Want::Integer => matches!(class, Class::Integer),
        Want::Bits | Want::Truth => matches!(class, Class::Bits),
        Want::Text => matches!(class, Class::Text),
        Want::String => matches!(class, Class::Bits | Class::Text),
    };
    if fits {
        None
    } else {
        Some(WRONG_KIND_OF_OPERAND)
    }
}

/// The rule that a condition breaks where this is wanted.
#[tactic(auto, unfolding(crate::specs::Wants::misfit_of_condition))]
fn misfit_of_condition(want: Want) -> Option<u16>
    ensures { result ≡ wants.misfit_of_condition want }
{
    match want {
        Want::Anything | Want::Truth | Want::Single => None,
        _ => Some(CONDITION_AS_VALUE),
    }
}

/// The rule that a whole structure or several elements break where this is wanted.
#[tactic(auto, unfolding(crate::specs::Wants::misfit_of_whole))]
fn misfit_of_whole(rule: u16, want: Want) -> Option<u16>
    ensures { result ≡ wants.misfit_of_whole rule want }
{
    match want {
        Want::Anything => None,
        _ => Some(rule),
    }
}

/// The rule that an operand of this class breaks where this is wanted.
#[tactic(auto, unfolding(crate::specs::Wants::misfit))]
pub fn misfit(want: Want, class: Class) -> Option<u16>
    ensures { result ≡ wants.misfit want class }
{
    match class {
        Class::Condition => misfit_of_condition(want),
        Class::Structure => misfit_of_whole(WRONG_KIND_OF_OPERAND, want),
        Class::Array => misfit_of_whole(SEVERAL_ELEMENTS, want),
        Class::Integer | Class::Bits | Class::Text => misfit_of_value(want, class),
    }
}

/// The rule that an expression breaks of which this is wanted, and where.
pub fn misfit_at(names: &Names<'_>, block: usize, want: Want, tree: &Expr) -> Option<(u16, Place)>
    ensures { result ≡ wants.misfit_at (seen_names names.now) block want (seen_expression tree.now) }
{
    let class = class_of(tree, names, block)?;
    let rule = misfit(want, class)?;
    Some((rule, tree.place()))
}

/// The rule that a receiver of this class breaks.
#[tactic(auto, unfolding(crate::specs::Wants::misfit_of_receiver))]
fn misfit_of_receiver(class: Class) -> Option<u16>
    ensures { result ≡ wants.misfit_of_receiver class }
{
    match class {
        Class::Structure => Some(WRONG_KIND_OF_OPERAND),
        Class::Array => Some(SEVERAL_ELEMENTS),
        _ => None,
    }
}

/// The rule that a reference breaks which takes a value, and where.
#[tactic(auto, using(hal_tree::proofs::MadeExpressions::made_reference), unfolding(crate::specs::Wants::receiver_misfit))]
fn receiver_misfit(
    names: &Names<'_>,
    block: usize,
    role: Role,
    reference: &Reference,
) -> Option<(u16, Place)>
    ensures { result ≡ wants.receiver_misfit (seen_names names.now) block role (seen_reference reference.now) }
{
    match role {
        Role::Receiver => {
            let class = class_of_reference(names, block, reference)?;
            let rule = misfit_of_receiver(class)?;
            Some((rule, reference.place))
        }
        _ => None,
    }
}

/// The rule that a name directly behind `$` breaks, and where: it is an integer.
fn name_misfit(names: &Names<'_>, block: usize, name: &Identifier) -> Option<(u16, Place)>
    ensures { result ≡ wants.name_misfit (seen_names names.now) block (seen_name name.now) }
{
    let class = class_of_name(names, block, &name.name)?;
    let rule = misfit(Want::Integer, class)?;
    Some((rule, name.place))
}

/// Which rule of 702, 703 and 720 one operand or receiver breaks, and where (language document, Kinds).
#[tactic(auto, unfolding(crate::specs::Wants::unfit))]
pub fn unfit(names: &Names<'_>, phrase: &Phrase<'_>) -> Option<(u16, Place)>
    ensures { result ≡ wants.unfit (seen_names names.now) (seen_phrase phrase.now) (seen_phrase phrase.now).node }
{
    match phrase.node {
        Node::Expression { role, tree } => {
            misfit_at(names, phrase.around.block, wanted(role), tree)
        }
        Node::Reference { role, reference } => {
            receiver_misfit(names, phrase.around.block, role, reference)
        }
        Node::SubscriptName { name } => name_misfit(names, phrase.around.block, name),
        _ => None,
    }
}
