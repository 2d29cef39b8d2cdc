//! The classes of expressions.

ghost use Rattle.std.specs.Prelude.{◌≡◌, map};
ghost use Rattle.hal_tree.specs.Rows.{expressions};
ghost use Rattle.hal_tree.specs.SeenExpressions.{seen_expression};
ghost use Rattle.hal_tree.specs.SeenLeaves.{seen_conversion, seen_literal};
ghost use Rattle.hal_names.specs.SeenNames.{seen_names};
ghost use Rattle.hal_kinds.specs.Classes as classes;

use crate::called::class_of_call;
use crate::class::Class;
use crate::references::class_of_reference;
use hal_names::Names;
use hal_tree::{Conversion, Expr, LiteralValue};

/// The class of a literal.
#[tactic(auto, unfolding(crate::specs::Classes::class_of_literal))]
pub fn class_of_literal(literal: LiteralValue) -> Class
    ensures { result ≡ classes.class_of_literal (seen_literal literal) }
{
    match literal {
        LiteralValue::Integer(_) => Class::Integer,
        LiteralValue::Text(_) => Class::Text,
        LiteralValue::Bits { len: _, word: _ } => Class::Bits,
        LiteralValue::True => Class::Bits,
        LiteralValue::False => Class::Bits,
        LiteralValue::On => Class::Bits,
        LiteralValue::Off => Class::Bits,
    }
}

/// The class of what a conversion makes.
#[tactic(auto, unfolding(crate::specs::Classes::class_of_conversion))]
fn class_of_conversion(conversion: Conversion) -> Class
    ensures { result ≡ classes.class_of_conversion (seen_conversion conversion) }
{
    match conversion {
        Conversion::Integer => Class::Integer,
        Conversion::Bit => Class::Bits,
        Conversion::Character => Class::Text,
    }
}

/// What two operands of AND or OR give: bits, or a condition where one is.
#[tactic(auto, unfolding(crate::specs::Classes::beside))]
pub fn beside(one: Option<Class>, other: Option<Class>) -> Option<Class>
    ensures { result ≡ classes.beside one other }
{
    match (one?, other?) {
        (Class::Bits, Class::Bits) => Some(Class::Bits),
        (Class::Bits, Class::Condition) => Some(Class::Condition),
        (Class::Condition, Class::Bits) => Some(Class::Condition),
        (Class::Condition, Class::Condition) => Some(Class::Condition),
        _ => None,
    }
}

/// What two operands of CAT give: bits, or a text and what is one beside it.
#[tactic(auto, unfolding(crate::specs::Classes::joined))]
pub fn joined(one: Option<Class>, other: Option<Class>) -> Option<Class>
    ensures { result ≡ classes.joined one other }
{
    match (one?, other?) {
        (Class::Bits, Class::Bits) => Some(Class::Bits),
        (Class::Text, Class::Text) => Some(Class::Text),
        (Class::Text, Class::Integer) => Some(Class::Text),
        (Class::Integer, Class::Text) => Some(Class::Text),
        _ => None,
    }
}

/// What stands in parentheses: one value or a condition.
#[tactic(auto, unfolding(crate::specs::Classes::enclosed))]
fn enclosed(class: Option<Class>) -> Option<Class>
    ensures { result ≡ classes.enclosed class }
{
    match class? {
        Class::Structure | Class::Array => None,
        class => Some(class),
    }
}

/// The class of an expression in this block; None where it has none (language document, Kinds).
#[cycle(classes)]
#[tactic(auto, using(hal_tree::proofs::MadeExpressions::made_or, hal_tree::proofs::MadeExpressions::made_and, hal_tree::proofs::MadeExpressions::made_compare, hal_tree::proofs::MadeExpressions::made_cat, hal_tree::proofs::MadeExpressions::made_sum, hal_tree::proofs::MadeExpressions::made_product, hal_tree::proofs::MadeExpressions::made_power, hal_tree::proofs::MadeExpressions::made_not, hal_tree::proofs::MadeExpressions::made_literal, hal_tree::proofs::MadeExpressions::made_decimal, hal_tree::proofs::MadeExpressions::made_referred, hal_tree::proofs::MadeExpressions::made_call, hal_tree::proofs::MadeExpressions::made_convert, hal_tree::proofs::MadeExpressions::made_parenthesis), unfolding(crate::specs::Classes::class_of))]
pub fn class_of(tree: &Expr, names: &Names<'_>, block: usize) -> Option<Class>
    ensures { result ≡ classes.class_of (seen_names names.now) block (seen_expression tree.now) }
{
    match tree {
        Expr::Or { first, others, .. } => {
            class_beside(others, class_of(first, names, block), names, block)
        }
        Expr::And { first, others, .. } => {
            class_beside(others, class_of(first, names, block), names, block)
        }
        Expr::Compare { .. } => Some(Class::Condition),
        Expr::Cat { first, others, .. } => {
            class_joined(others, class_of(first, names, block), names, block)
        }
        Expr::Sum { .. } => Some(Class::Integer),
        Expr::Product { .. } => Some(Class::Integer),
        Expr::Power { .. } => Some(Class::Integer),
        Expr::Not { .. } => Some(Class::Bits),
        Expr::Literal { place: _, literal } => Some(class_of_literal(literal.value())),
        Expr::Decimal { .. } => None,
        Expr::Reference(reference) => class_of_reference(names, block, reference),
        Expr::Call { name, .. } => class_of_call(names, block, name),
        Expr::Convert { conversion, .. } => Some(class_of_conversion(*conversion)),
        Expr::Parenthesis { inner, .. } => enclosed(class_of(inner, names, block)),
    }
}

/// The class of operands of AND or OR behind one of this class.
#[cycle(classes)]
#[tactic(auto, unfolding(crate::specs::Classes::class_beside, hal_tree::specs::Rows::expressions))]
fn class_beside(
    trees: &[Expr],
    first: Option<Class>,
    names: &Names<'_>,
    block: usize,
) -> Option<Class>
    ensures { result ≡ classes.class_beside (seen_names names.now) block first (expressions (map seen_expression trees.now)) }
{
    let mut class = first;
    for tree in trees {
        class = beside(class, class_of(tree, names, block));
    }
    class
}

/// The class of operands of CAT behind one of this class.
#[cycle(classes)]
#[tactic(auto, unfolding(crate::specs::Classes::class_joined, hal_tree::specs::Rows::expressions))]
fn class_joined(
    trees: &[Expr],
    first: Option<Class>,
    names: &Names<'_>,
    block: usize,
) -> Option<Class>
    ensures { result ≡ classes.class_joined (seen_names names.now) block first (expressions (map seen_expression trees.now)) }
{
    let mut class = first;
    for tree in trees {
        class = joined(class, class_of(tree, names, block));
    }
    class
}
