//! The phrases of expressions.

ghost use Rattle.std.specs.Prelude.{◌≡◌, map, OnOk};
ghost use Rattle.std.specs.Option.{option_map};
ghost use Rattle.hal_tree.specs.Rows.{expressions, terms, subscripts};
ghost use Rattle.hal_tree.specs.SeenExpressions.{seen_expression, seen_position, seen_reference, seen_signed, seen_sub, seen_subscript};
ghost use Rattle.hal_phrases.specs.GatheredDeclarations.{gathered_optional};
ghost use Rattle.hal_phrases.specs.SeenPhrases.{seen_phrase};
ghost use Rattle.hal_phrases.specs.GatheredExpressions.{gathered, gathered_all, gathered_position, gathered_reference, gathered_sub, gathered_subs, gathered_subscript, gathered_terms};

use crate::around::Around;
use crate::node::{Node, Phrase, below, push};
use crate::role::Role;
use hal_tree::{Expr, Position, Reference, SignedTerm, Sub, Subscript};
use std::alloc::AllocError;

/// Adds the phrases of an expression.
#[cycle(walk)]
#[tactic(auto, using(hal_tree::proofs::MadeExpressions::made_or, hal_tree::proofs::MadeExpressions::made_and, hal_tree::proofs::MadeExpressions::made_compare, hal_tree::proofs::MadeExpressions::made_cat, hal_tree::proofs::MadeExpressions::made_sum, hal_tree::proofs::MadeExpressions::made_product, hal_tree::proofs::MadeExpressions::made_power, hal_tree::proofs::MadeExpressions::made_not, hal_tree::proofs::MadeExpressions::made_literal, hal_tree::proofs::MadeExpressions::made_decimal, hal_tree::proofs::MadeExpressions::made_referred, hal_tree::proofs::MadeExpressions::made_call, hal_tree::proofs::MadeExpressions::made_convert, hal_tree::proofs::MadeExpressions::made_parenthesis), unfolding(crate::specs::GatheredExpressions::gathered))]
pub(crate) fn gather_expression<'a>(
    into: &mut Vec<Phrase<'a>>,
    around: Around,
    role: Role,
    tree: &'a Expr,
) -> Result<(), AllocError>
    ensures { OnOk result (map seen_phrase into.new.items ≡ gathered (map seen_phrase into.old.items) around role (seen_expression tree.now)) }
{
    let below = below(into, around);
    push(into, around, Node::Expression { role, tree })?;
    match tree {
        Expr::Or {
            place: _,
            first,
            others,
        } => {
            gather_expression(into, below, role.under(Role::Disjunct), first)?;
            gather_expressions(into, below, role.under(Role::Disjunct), others)
        }
        Expr::And {
            place: _,
            first,
            others,
        } => {
            gather_expression(into, below, role.under(Role::Conjunct), first)?;
            gather_expressions(into, below, role.under(Role::Conjunct), others)
        }
        Expr::Compare {
            place: _,
            left,
            relation: _,
            right,
        } => {
            gather_expression(into, below, Role::Compared, left)?;
            gather_expression(into, below, Role::Compared, right)
        }
        Expr::Cat {
            place: _,
            first,
            others,
        } => {
            gather_expression(into, below, Role::Joined, first)?;
            gather_expressions(into, below, Role::Joined, others)
        }
        Expr::Sum {
            place: _,
            opening: _,
            first,
            others,
        } => {
            gather_expression(into, below, Role::Summand, first)?;
            gather_terms(into, below, others)
        }
        Expr::Product {
            place: _,
            first,
            others,
        } => {
            gather_expression(into, below, Role::Factor, first)?;
            gather_expressions(into, below, Role::Factor, others)
        }
        Expr::Power {
            place: _,
            base,
            exponent,
        } => {
            gather_expression(into, below, Role::Base, base)?;
            gather_expression(into, below, Role::Exponent, exponent)
        }
        Expr::Not { place: _, operand } => {
            gather_expression(into, below, role.under(Role::Negated), operand)
        }
        Expr::Literal {
            place: _,
            literal: _,
        } => Ok(()),
        Expr::Decimal {
            place,
            thousandths: _,
        } => push(
            into,
            below,
            Node::Decimal {
                role,
                place: *place,
            },
        ),
        Expr::Reference(reference) => gather_reference(into, below, role, reference),
        Expr::Call {
            place,
            name,
            arguments,
        } => {
            push(
                into,
                below,
                Node::CallForm {
                    place,
                    name,
                    arguments,
                },
            )?;
            gather_expressions(into, below, Role::Argument, arguments)
        }
        Expr::Convert {
            place: _,
            conversion,
            operand,
        } => gather_expression(into, below, Role::of(*conversion), operand),
        Expr::Parenthesis { place: _, inner } => {
            gather_expression(into, below, role.under(Role::Enclosed), inner)
        }
    }
}

/// Adds the phrases of expressions of one role.
#[cycle(walk)]
#[tactic(auto, unfolding(crate::specs::GatheredExpressions::gathered_all, hal_tree::specs::Rows::expressions))]
pub(crate) fn gather_expressions<'a>(
    into: &mut Vec<Phrase<'a>>,
    around: Around,
    role: Role,
    trees: &'a [Expr],
) -> Result<(), AllocError>
    ensures { OnOk result (map seen_phrase into.new.items ≡ gathered_all (map seen_phrase into.old.items) around role (expressions (map seen_expression trees.now))) }
{
    for tree in trees {
        gather_expression(into, around, role, tree)?;
    }
    Ok(())
}

/// Adds the phrases of signed terms.
#[cycle(walk)]
#[tactic(auto, unfolding(crate::specs::GatheredExpressions::gathered_terms, hal_tree::specs::Rows::terms))]
fn gather_terms<'a>(
    into: &mut Vec<Phrase<'a>>,
    around: Around,
    trees: &'a [SignedTerm],
) -> Result<(), AllocError>
    ensures { OnOk result (map seen_phrase into.new.items ≡ gathered_terms (map seen_phrase into.old.items) around (terms (map seen_signed trees.now))) }
{
    for tree in trees {
        gather_term(into, around, tree)?;
    }
    Ok(())
}

/// Adds the phrases of a signed term.
#[cycle(walk)]
#[tactic(auto, using(hal_tree::proofs::MadeExpressions::made_signed))]
fn gather_term<'a>(
    into: &mut Vec<Phrase<'a>>,
    around: Around,
    tree: &'a SignedTerm,
) -> Result<(), AllocError>
    ensures { OnOk result (map seen_phrase into.new.items ≡ gathered (map seen_phrase into.old.items) around Role.Summand (seen_signed tree.now).2) }
{
    gather_expression(into, around, Role::Summand, &tree.term)
}

/// Adds the phrases of a reference.
#[cycle(walk)]
#[tactic(auto, using(hal_tree::proofs::MadeExpressions::made_reference), unfolding(crate::specs::GatheredExpressions::gathered_reference))]
pub(crate) fn gather_reference<'a>(
    into: &mut Vec<Phrase<'a>>,
    around: Around,
    role: Role,
    reference: &'a Reference,
) -> Result<(), AllocError>
    ensures { OnOk result (map seen_phrase into.new.items ≡ gathered_reference (map seen_phrase into.old.items) around role (seen_reference reference.now)) }
{
    let below = below(into, around);
    push(into, around, Node::Reference { role, reference })?;
    gather_subscript(into, below, &reference.subscript)
}

/// Adds the phrases of a subscript.
#[cycle(walk)]
#[tactic(auto, using(hal_tree::proofs::MadeExpressions::made_unsubscripted, hal_tree::proofs::MadeExpressions::made_by_name, hal_tree::proofs::MadeExpressions::made_by_integer, hal_tree::proofs::MadeExpressions::made_by_parts), unfolding(crate::specs::GatheredExpressions::gathered_subscript))]
fn gather_subscript<'a>(
    into: &mut Vec<Phrase<'a>>,
    around: Around,
    subscript: &'a Subscript,
) -> Result<(), AllocError>
    ensures { OnOk result (map seen_phrase into.new.items ≡ gathered_subscript (map seen_phrase into.old.items) around (seen_subscript subscript.now)) }
{
    match subscript {
        Subscript::None => Ok(()),
        Subscript::Name { place: _, name } => push(into, around, Node::SubscriptName { name }),
        Subscript::Integer {
            place: _,
            at: _,
            number: _,
        } => Ok(()),
        Subscript::Parts {
            place: _,
            copies,
            arrays,
            components,
        } => {
            gather_subs(into, around, Role::CopySubscript, copies)?;
            gather_subs(into, around, Role::ArraySubscript, arrays)?;
            gather_subs(into, around, Role::ComponentSubscript, components)
        }
    }
}

/// Adds the phrases of the subscripts of a part.
#[cycle(walk)]
#[tactic(auto, unfolding(crate::specs::GatheredExpressions::gathered_subs, hal_tree::specs::Rows::subscripts))]
fn gather_subs<'a>(
    into: &mut Vec<Phrase<'a>>,
    around: Around,
    role: Role,
    trees: &'a [Sub],
) -> Result<(), AllocError>
    ensures { OnOk result (map seen_phrase into.new.items ≡ gathered_subs (map seen_phrase into.old.items) around role (subscripts (map seen_sub trees.now))) }
{
    for tree in trees {
        gather_sub(into, around, role, tree)?;
    }
    Ok(())
}

/// Adds the phrases of one subscript.
#[cycle(walk)]
#[tactic(auto, using(hal_tree::proofs::MadeExpressions::made_every, hal_tree::proofs::MadeExpressions::made_one, hal_tree::proofs::MadeExpressions::made_range, hal_tree::proofs::MadeExpressions::made_portion), unfolding(crate::specs::GatheredExpressions::gathered_sub))]
fn gather_sub<'a>(
    into: &mut Vec<Phrase<'a>>,
    around: Around,
    role: Role,
    tree: &'a Sub,
) -> Result<(), AllocError>
    ensures { OnOk result (map seen_phrase into.new.items ≡ gathered_sub (map seen_phrase into.old.items) around role (seen_sub tree.now)) }
{
    match tree {
        Sub::Every { place: _ } => Ok(()),
        Sub::One { position } => gather_position(into, around, role, position),
        Sub::Range { first, last } => {
            gather_position(into, around, role, first)?;
            gather_position(into, around, role, last)
        }
        Sub::Portion { count, first } => {
            gather_expression(into, around, role, count)?;
            gather_position(into, around, role, first)
        }
    }
}

/// Adds the phrases of a place.
#[cycle(walk)]
#[tactic(auto, using(hal_tree::proofs::MadeExpressions::made_from_beginning, hal_tree::proofs::MadeExpressions::made_from_end), unfolding(crate::specs::GatheredExpressions::gathered_position))]
fn gather_position<'a>(
    into: &mut Vec<Phrase<'a>>,
    around: Around,
    role: Role,
    tree: &'a Position,
) -> Result<(), AllocError>
    ensures { OnOk result (map seen_phrase into.new.items ≡ gathered_position (map seen_phrase into.old.items) around role (seen_position tree.now)) }
{
    match tree {
        Position::FromBeginning { position } => gather_expression(into, around, role, position),
        Position::FromEnd { place: _, terms } => gather_terms(into, around, terms),
    }
}

/// Adds the phrases of an expression that may be there.
pub(crate) fn gather_optional<'a>(
    into: &mut Vec<Phrase<'a>>,
    around: Around,
    role: Role,
    tree: &'a Option<Expr>,
) -> Result<(), AllocError>
    ensures { OnOk result (map seen_phrase into.new.items ≡ gathered_optional (map seen_phrase into.old.items) around role (option_map seen_expression tree.now)) }
{
    match tree {
        None => Ok(()),
        Some(tree) => gather_expression(into, around, role, tree),
    }
}
