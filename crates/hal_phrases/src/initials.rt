//! The phrases of initial values.

ghost use Rattle.std.specs.Prelude.{◌≡◌, map, OnOk};
ghost use Rattle.hal_tree.specs.Rows.{initials};
ghost use Rattle.hal_tree.specs.SeenDeclarations.{seen_initial};
ghost use Rattle.hal_phrases.specs.GatheredDeclarations.{gathered_initial, gathered_initials};
ghost use Rattle.hal_phrases.specs.SeenPhrases.{seen_phrase};

use crate::around::Around;
use crate::expressions::gather_expression;
use crate::node::{Node, Phrase, below, push};
use crate::role::Role;
use hal_tree::Initial;
use std::alloc::AllocError;

/// Adds initial values and their phrases.
#[cycle(initials)]
#[tactic(auto, unfolding(crate::specs::GatheredDeclarations::gathered_initials, hal_tree::specs::Rows::initials))]
pub(crate) fn gather_initials<'a>(
    into: &mut Vec<Phrase<'a>>,
    around: Around,
    trees: &'a [Initial],
) -> Result<(), AllocError>
    ensures { OnOk result (map seen_phrase into.new.items ≡ gathered_initials (map seen_phrase into.old.items) around (initials (map seen_initial trees.now))) }
{
    for tree in trees {
        gather_initial(into, around, tree)?;
    }
    Ok(())
}

/// Adds an initial value and its phrases.
#[cycle(initials)]
#[tactic(auto, using(hal_tree::proofs::MadeDeclarations::made_value, hal_tree::proofs::MadeDeclarations::made_literal_times, hal_tree::proofs::MadeDeclarations::made_name_times, hal_tree::proofs::MadeDeclarations::made_list_times), unfolding(crate::specs::GatheredDeclarations::gathered_initial))]
fn gather_initial<'a>(
    into: &mut Vec<Phrase<'a>>,
    around: Around,
    tree: &'a Initial,
) -> Result<(), AllocError>
    ensures { OnOk result (map seen_phrase into.new.items ≡ gathered_initial (map seen_phrase into.old.items) around (seen_initial tree.now)) }
{
    let below = below(into, around);
    push(into, around, Node::Initial(tree))?;
    match tree {
        Initial::Value { value } => gather_expression(into, below, Role::Initial, value),
        Initial::LiteralTimes {
            place: _,
            count: _,
            sign: _,
            at: _,
            literal: _,
        } => Ok(()),
        Initial::NameTimes {
            place: _,
            count: _,
            sign: _,
            name,
        } => push(into, below, Node::InitialName { name }),
        Initial::ListTimes {
            place: _,
            count: _,
            values,
        } => gather_initials(into, below, values),
    }
}
