//! Copies of expressions.

ghost use Rattle.std.specs.Prelude.{◌≡◌, map, IfOk};
ghost use Rattle.std.specs.Option.{option_map};
ghost use Rattle.hal_tree.specs.SeenExpressions.{seen_expression, seen_position, seen_reference, seen_signed, seen_sub, seen_subscript};

use crate::parts::{both, boxed, with_next};
use hal_tree::{Expr, Identifier, KeptLiteral, Position, Reference, SignedTerm, Sub, Subscript};
use std::alloc::{AllocError, Global};

/// Names as they are, or an error where there is no memory.
pub fn copy_names(alloc: Global, names: &[Identifier]) -> Result<Vec<Identifier>, AllocError>
    ensures { IfOk result (λ copied. copied.items ≡ names.now) }
{
    let mut copied = Vec::new(alloc);
    copied.extend_from_slice(names)?;
    Ok(copied)
}

/// An expression like this one, or an error where there is no memory.
#[cycle(copying)]
#[tactic(auto, using(hal_tree::proofs::MadeExpressions::made_or, hal_tree::proofs::MadeExpressions::made_and, hal_tree::proofs::MadeExpressions::made_compare, hal_tree::proofs::MadeExpressions::made_cat, hal_tree::proofs::MadeExpressions::made_sum, hal_tree::proofs::MadeExpressions::made_product, hal_tree::proofs::MadeExpressions::made_power, hal_tree::proofs::MadeExpressions::made_not, hal_tree::proofs::MadeExpressions::made_literal, hal_tree::proofs::MadeExpressions::made_decimal, hal_tree::proofs::MadeExpressions::made_referred, hal_tree::proofs::MadeExpressions::made_call, hal_tree::proofs::MadeExpressions::made_convert, hal_tree::proofs::MadeExpressions::made_parenthesis))]
pub fn copy_expression(alloc: Global, tree: &Expr) -> Result<Expr, AllocError>
    ensures { IfOk result (λ copied. seen_expression copied ≡ seen_expression tree.now) }
{
    match tree {
        Expr::Or {
            place,
            first,
            others,
        } => {
            let (first, others) = both(copy_box(alloc, first), copy_expressions(alloc, others))?;
            Ok(Expr::Or {
                place: *place,
                first,
                others,
            })
        }
        Expr::And {
            place,
            first,
            others,
        } => {
            let (first, others) = both(copy_box(alloc, first), copy_expressions(alloc, others))?;
            Ok(Expr::And {
                place: *place,
                first,
                others,
            })
        }
        Expr::Compare {
            place,
            left,
            relation,
            right,
        } => {
            let (left, right) = both(copy_box(alloc, left), copy_box(alloc, right))?;
            Ok(Expr::Compare {
                place: *place,
                left,
                relation: *relation,
                right,
            })
        }
        Expr::Cat {
            place,
            first,
            others,
        } => {
            let (first, others) = both(copy_box(alloc, first), copy_expressions(alloc, others))?;
            Ok(Expr::Cat {
                place: *place,
                first,
                others,
            })
        }
        Expr::Sum {
            place,
            opening,
            first,
            others,
        } => {
            let (first, others) = both(copy_box(alloc, first), copy_terms(alloc, others))?;
            Ok(Expr::Sum {
                place: *place,
                opening: *opening,
                first,
                others,
            })
        }
        Expr::Product {
            place,
            first,
            others,
        } => {
            let (first, others) = both(copy_box(alloc, first), copy_expressions(alloc, others))?;
            Ok(Expr::Product {
                place: *place,
                first,
                others,
            })
        }
        Expr::Power {
            place,
            base,
            exponent,
        } => {
            let (base, exponent) = both(copy_box(alloc, base), copy_box(alloc, exponent))?;
            Ok(Expr::Power {
                place: *place,
                base,
                exponent,
            })
        }
        Expr::Not { place, operand } => Ok(Expr::Not {
            place: *place,
            operand: copy_box(alloc, operand)?,
        }),
        Expr::Literal { place, literal } => Ok(Expr::Literal {
            place: *place,
            literal: KeptLiteral::new(alloc, literal.value())?,
        }),
        Expr::Decimal { place, thousandths } => Ok(Expr::Decimal {
            place: *place,
            thousandths: *thousandths,
        }),
        Expr::Reference(reference) => Ok(Expr::Reference(copy_reference(alloc, reference)?)),
        Expr::Call {
            place,
            name,
            arguments,
        } => Ok(Expr::Call {
            place: *place,
            name: *name,
            arguments: copy_expressions(alloc, arguments)?,
        }),
        Expr::Convert {
            place,
            conversion,
            operand,
        } => Ok(Expr::Convert {
            place: *place,
            conversion: *conversion,
            operand: copy_box(alloc, operand)?,
        }),
        Expr::Parenthesis { place, inner } => Ok(Expr::Parenthesis {
            place: *place,
            inner: copy_box(alloc, inner)?,
        }),
    }
}

/// The same in a box.
#[cycle(copying)]
fn copy_box(alloc: Global, tree: &Expr) -> Result<Box<Expr>, AllocError>
    ensures { IfOk result (λ copied. seen_expression copied.value ≡ seen_expression tree.now) }
{
    boxed(alloc, copy_expression(alloc, tree))
}

/// Expressions like these, or an error where there is no memory.
#[cycle(copying)]
pub fn copy_expressions(alloc: Global, trees: &[Expr]) -> Result<Vec<Expr>, AllocError>
    ensures { IfOk result (λ copied. map seen_expression copied.items ≡ map seen_expression trees.now) }
{
    let mut copied = Vec::new(alloc);
    for tree in trees {
        copied = with_next(copied, copy_expression(alloc, tree))?;
    }
    Ok(copied)
}

/// A signed term like this one.
#[cycle(copying)]
#[tactic(auto, using(hal_tree::proofs::MadeExpressions::made_signed))]
fn copy_term(alloc: Global, tree: &SignedTerm) -> Result<SignedTerm, AllocError>
    ensures { IfOk result (λ copied. seen_signed copied ≡ seen_signed tree.now) }
{
    Ok(SignedTerm {
        place: tree.place,
        sign: tree.sign,
        term: copy_expression(alloc, &tree.term)?,
    })
}

/// Signed terms like these.
#[cycle(copying)]
fn copy_terms(alloc: Global, trees: &[SignedTerm]) -> Result<Vec<SignedTerm>, AllocError>
    ensures { IfOk result (λ copied. map seen_signed copied.items ≡ map seen_signed trees.now) }
{
    let mut copied = Vec::new(alloc);
    for tree in trees {
        copied = with_next(copied, copy_term(alloc, tree))?;
    }
    Ok(copied)
}

/// A reference like this one, or an error where there is no memory.
#[cycle(copying)]
#[tactic(auto, using(hal_tree::proofs::MadeExpressions::made_reference))]
pub fn copy_reference(alloc: Global, tree: &Reference) -> Result<Reference, AllocError>
    ensures { IfOk result (λ copied. seen_reference copied ≡ seen_reference tree.now) }
{
    let further = copy_names(alloc, &tree.further);
    let (further, subscript) = both(further, copy_subscript(alloc, &tree.subscript))?;
    Ok(Reference {
        place: tree.place,
        name: tree.name,
        further,
        subscript,
    })
}

/// References like these, or an error where there is no memory.
pub fn copy_references(alloc: Global, trees: &[Reference]) -> Result<Vec<Reference>, AllocError>
    ensures { IfOk result (λ copied. map seen_reference copied.items ≡ map seen_reference trees.now) }
{
    let mut copied = Vec::new(alloc);
    for tree in trees {
        copied = with_next(copied, copy_reference(alloc, tree))?;
    }
    Ok(copied)
}

/// An expression like this one, where there is one, or an error where there is no memory.
pub fn copy_optional(alloc: Global, tree: &Option<Expr>) -> Result<Option<Expr>, AllocError>
    ensures { IfOk result (λ copied. option_map seen_expression copied ≡ option_map seen_expression tree.now) }
{
    match tree {
        None => Ok(None),
        Some(tree) => copy_expression(alloc, tree).map(Some),
    }
}

/// A subscript like this one.
#[cycle(copying)]
#[tactic(auto, using(hal_tree::proofs::MadeExpressions::made_unsubscripted, hal_tree::proofs::MadeExpressions::made_by_name, hal_tree::proofs::MadeExpressions::made_by_integer, hal_tree::proofs::MadeExpressions::made_by_parts))]
fn copy_subscript(alloc: Global, tree: &Subscript) -> Result<Subscript, AllocError>
    ensures { IfOk result (λ copied. seen_subscript copied ≡ seen_subscript tree.now) }
{
    match tree {
        Subscript::None => Ok(Subscript::None),
        Subscript::Name { place, name } => Ok(Subscript::Name {
            place: *place,
            name: *name,
        }),
        Subscript::Integer { place, at, number } => Ok(Subscript::Integer {
            place: *place,
            at: *at,
            number: *number,
        }),
        Subscript::Parts {
            place,
            copies,
            arrays,
            components,
        } => {
            let first = both(copy_subs(alloc, copies), copy_subs(alloc, arrays));
            let ((copies, arrays), components) = both(first, copy_subs(alloc, components))?;
            Ok(Subscript::Parts {
                place: *place,
                copies,
                arrays,
                components,
            })
        }
    }
}

/// Subscripts of a part like these.
#[cycle(copying)]
fn copy_subs(alloc: Global, trees: &[Sub]) -> Result<Vec<Sub>, AllocError>
    ensures { IfOk result (λ copied. map seen_sub copied.items ≡ map seen_sub trees.now) }
{
    let mut copied = Vec::new(alloc);
    for tree in trees {
        copied = with_next(copied, copy_sub(alloc, tree))?;
    }
    Ok(copied)
}

/// One subscript like this one.
#[cycle(copying)]
#[tactic(auto, using(hal_tree::proofs::MadeExpressions::made_every, hal_tree::proofs::MadeExpressions::made_one, hal_tree::proofs::MadeExpressions::made_range, hal_tree::proofs::MadeExpressions::made_portion))]
fn copy_sub(alloc: Global, tree: &Sub) -> Result<Sub, AllocError>
    ensures { IfOk result (λ copied. seen_sub copied ≡ seen_sub tree.now) }
{
    match tree {
        Sub::Every { place } => Ok(Sub::Every { place: *place }),
        Sub::One { position } => Ok(Sub::One {
            position: copy_position(alloc, position)?,
        }),
        Sub::Range { first, last } => {
            let (first, last) = both(copy_position(alloc, first), copy_position(alloc, last))?;
            Ok(Sub::Range { first, last })
        }
        Sub::Portion { count, first } => {
            let (count, first) = both(copy_expression(alloc, count), copy_position(alloc, first))?;
            Ok(Sub::Portion { count, first })
        }
    }
}

/// A place like this one.
#[cycle(copying)]
#[tactic(auto, using(hal_tree::proofs::MadeExpressions::made_from_beginning, hal_tree::proofs::MadeExpressions::made_from_end))]
fn copy_position(alloc: Global, tree: &Position) -> Result<Position, AllocError>
    ensures { IfOk result (λ copied. seen_position copied ≡ seen_position tree.now) }
{
    match tree {
        Position::FromBeginning { position } => Ok(Position::FromBeginning {
            position: copy_expression(alloc, position)?,
        }),
        Position::FromEnd { place, terms } => Ok(Position::FromEnd {
            place: *place,
            terms: copy_terms(alloc, terms)?,
        }),
    }
}
