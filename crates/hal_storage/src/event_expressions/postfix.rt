//! Event expressions, operands first.

ghost use Rattle.std.specs.Prelude.{◌≡◌, ◌≤◌, ◌+◌, ◌++◌, ◌∷◌, [], OnOk, length, map};
ghost use Rattle.hal_tree.specs.Rows.{expressions};
ghost use Rattle.hal_tree.specs.SeenExpressions.{seen_expression, seen_reference};
ghost use Rattle.hal_names.specs.SeenNames.{seen_names};
ghost use Rattle.hal_meaning.specs.Bodies.{processes_of};
ghost use Rattle.hal_meaning.specs.Events as events;

use crate::event_expressions::numbers::event_named;
use hal_names::Names;
use hal_tree::{Expr, Reference};
use hal_values::Item;
use std::alloc::AllocError;

/// The number of the event to which a reference refers.
#[tactic(auto, using(hal_tree::proofs::MadeExpressions::made_reference))]
fn event_of_reference(
    names: &Names<'_>,
    processes: &[usize],
    declared: &[usize],
    block: usize,
    reference: &Reference,
) -> u16
    requires few { length processes.now + length declared.now ≤ 65535 }
    requires of_processes { processes.now ≡ processes_of (seen_names names.now) }
    requires of_events { declared.now ≡ events.declared_events (seen_names names.now) }
    ensures { result ≡ events.event_of_reference (seen_names names.now) block (seen_reference reference.now) }
{
    event_named(names, processes, declared, block, &reference.name)
}

/// Adds the items of an event expression.
#[cycle(postfix)]
#[tactic(auto, using(hal_tree::proofs::MadeExpressions::made_or, hal_tree::proofs::MadeExpressions::made_and, hal_tree::proofs::MadeExpressions::made_compare, hal_tree::proofs::MadeExpressions::made_cat, hal_tree::proofs::MadeExpressions::made_sum, hal_tree::proofs::MadeExpressions::made_product, hal_tree::proofs::MadeExpressions::made_power, hal_tree::proofs::MadeExpressions::made_not, hal_tree::proofs::MadeExpressions::made_literal, hal_tree::proofs::MadeExpressions::made_decimal, hal_tree::proofs::MadeExpressions::made_referred, hal_tree::proofs::MadeExpressions::made_call, hal_tree::proofs::MadeExpressions::made_convert, hal_tree::proofs::MadeExpressions::made_parenthesis, crate::proofs::event_expressions::Behind::joined_behind, crate::proofs::elements::Repeated::behind))]
pub(crate) fn push_postfix(
    tree: &Expr,
    into: &mut Vec<Item>,
    names: &Names<'_>,
    processes: &[usize],
    declared: &[usize],
    block: usize,
) -> Result<(), AllocError>
    requires few { length processes.now + length declared.now ≤ 65535 }
    requires of_processes { processes.now ≡ processes_of (seen_names names.now) }
    requires of_events { declared.now ≡ events.declared_events (seen_names names.now) }
    ensures { OnOk result (into.new.items ≡ into.old.items ++ events.postfix (seen_names names.now) block (seen_expression tree.now)) }
{
    match tree {
        Expr::Or { first, others, .. } => {
            push_postfix(first, into, names, processes, declared, block)?;
            push_joined(others, into, Item::Or, names, processes, declared, block)
        }
        Expr::And { first, others, .. } => {
            push_postfix(first, into, names, processes, declared, block)?;
            push_joined(others, into, Item::And, names, processes, declared, block)
        }
        Expr::Not { operand, .. } => {
            push_postfix(operand, into, names, processes, declared, block)?;
            push(into, Item::Not)
        }
        Expr::Parenthesis { inner, .. } => {
            push_postfix(inner, into, names, processes, declared, block)
        }
        Expr::Reference(reference) => push(
            into,
            Item::Event(event_of_reference(names, processes, declared, block, reference)),
        ),
        Expr::Compare { .. } => push(into, Item::Event(0)),
        Expr::Cat { .. } => push(into, Item::Event(0)),
        Expr::Sum { .. } => push(into, Item::Event(0)),
        Expr::Product { .. } => push(into, Item::Event(0)),
        Expr::Power { .. } => push(into, Item::Event(0)),
        Expr::Literal { .. } => push(into, Item::Event(0)),
        Expr::Decimal { .. } => push(into, Item::Event(0)),
        Expr::Call { .. } => push(into, Item::Event(0)),
        Expr::Convert { .. } => push(into, Item::Event(0)),
    }
}

/// Adds operands that are joined with those before them.
#[cycle(postfix)]
#[tactic(auto, using(crate::proofs::elements::Repeated::behind), unfolding(hal_tree::specs::Rows::expressions))]
fn push_joined(
    others: &[Expr],
    into: &mut Vec<Item>,
    joint: Item,
    names: &Names<'_>,
    processes: &[usize],
    declared: &[usize],
    block: usize,
) -> Result<(), AllocError>
    requires few { length processes.now + length declared.now ≤ 65535 }
    requires of_processes { processes.now ≡ processes_of (seen_names names.now) }
    requires of_events { declared.now ≡ events.declared_events (seen_names names.now) }
    ensures { OnOk result (into.new.items ≡ events.postfix_joined (seen_names names.now) block joint into.old.items (expressions (map seen_expression others.now))) }
{
    for tree in others {
        push_postfix(tree, into, names, processes, declared, block)?;
        push(into, joint)?;
    }
    Ok(())
}

/// Adds an item.
fn push(into: &mut Vec<Item>, item: Item) -> Result<(), AllocError>
    ensures { OnOk result (into.new.items ≡ into.old.items ++ (item ∷ [])) }
{
    into.push(item)?;
    Ok(())
}
