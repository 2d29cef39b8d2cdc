//! Primaries: what NOT, a literal, a name, a conversion or a parenthesis begins. Only here an expression stands in another one.

ghost use Rattle.std.specs.Prelude.{◌≡◌, IfOk};
ghost use Rattle.hal_tree.specs.SeenExpressions.{seen_expression};
ghost use Rattle.hal_tree.specs.SeenLeaves.{seen_conversion};
ghost use Rattle.hal_parse_expr.specs.Openings.{opened_at};
ghost use Rattle.hal_parse_expr.specs.Reading.{made_of};
ghost use Rattle.hal_parse_expr.specs.ReadingExpressions.{closed, converted_at, deeper_than, expression_of, expressions, expressions_of, named_at, negated_at, primary_at};
ghost use Rattle.hal_grammar.specs.Expressions.{Called, Parenthesis};
ghost use Rattle.hal_parse_expr.specs.Seen.{seen_as, seen_as_list};

use crate::found;
use crate::leading::past_symbol;
use crate::levels::expression;
use crate::lists::expressions;
use crate::opening::{Opening, opened_by};
use crate::references::reference_behind;
use hal_base::Place;
use hal_tree::{Conversion, Expr, KeptLiteral};
use hal_words::{Name, Symbol, Token};
use std::alloc::{AllocError, Global};

/// A primary.
#[cycle(expressions)]
#[tactic(auto, unfolding(crate::specs::Seen::seen_as))]
pub(crate) fn primary(
    alloc: Global,
    words: &[Token],
    depth: u32,
) -> Result<Option<(Expr, &[Token])>, AllocError>
    ensures { IfOk result (λ found. seen_as seen_expression found ≡ primary_at depth words.now) }
{
    let Some((first, rest)) = words.split_first() else {
        return Ok(None);
    };
    let Some(opening) = opened_by(&first.word) else {
        return Ok(None);
    };
    opened(alloc, first.place, opening, rest, depth)
}

/// The primary that a word opens.
#[cycle(expressions)]
#[tactic(auto, using(hal_tree::proofs::MadeExpressions::made_decimal, hal_tree::proofs::MadeExpressions::made_literal), unfolding(crate::specs::Openings::opened_at, crate::specs::Seen::seen_as))]
fn opened(
    alloc: Global,
    place: Place,
    opening: Opening,
    rest: &[Token],
    depth: u32,
) -> Result<Option<(Expr, &[Token])>, AllocError>
    ensures { IfOk result (λ found. seen_as seen_expression found ≡ opened_at (deeper_than depth) place opening rest.now) }
{
    match opening {
        Opening::Name(name) => named(alloc, place, name, rest, depth),
        Opening::Decimal(thousandths) => Ok(Some((Expr::Decimal { place, thousandths }, rest))),
        Opening::Parenthesis => parenthesis(alloc, place, rest, depth),
        Opening::Not => negation(alloc, place, rest, depth),
        Opening::Literal(literal) => {
            let literal = KeptLiteral::new(alloc, literal)?;
            Ok(Some((Expr::Literal { place, literal }, rest)))
        }
        Opening::Conversion(conversion) => converted(alloc, place, conversion, rest, depth),
    }
}

/// `(inner)`
#[cycle(expressions)]
#[tactic(auto, using(hal_tree::proofs::MadeExpressions::made_parenthesis), unfolding(crate::specs::Reading::made_of, crate::specs::Seen::seen_as))]
fn parenthesis(
    alloc: Global,
    place: Place,
    words: &[Token],
    depth: u32,
) -> Result<Option<(Expr, &[Token])>, AllocError>
    ensures { IfOk result (λ found. seen_as seen_expression found ≡ made_of (λ t. Parenthesis place t) (closed expression_of (deeper_than depth) words.now)) }
{
    let (inner, rest) = found!(closed_expression(alloc, words, depth));
    let inner = Box::new(alloc, inner)?;
    Ok(Some((Expr::Parenthesis { place, inner }, rest)))
}

/// `NOT operand`
#[cycle(expressions)]
#[tactic(auto, using(hal_tree::proofs::MadeExpressions::made_not, crate::proofs::Depths::deeper_none, crate::proofs::Depths::deeper_some), unfolding(crate::specs::ReadingExpressions::negated_at, crate::specs::Reading::made_of, crate::specs::Seen::seen_as))]
fn negation(
    alloc: Global,
    place: Place,
    words: &[Token],
    depth: u32,
) -> Result<Option<(Expr, &[Token])>, AllocError>
    ensures { IfOk result (λ found. seen_as seen_expression found ≡ negated_at (deeper_than depth) place words.now) }
{
    if depth == 0 {
        return Ok(None);
    }
    let (operand, rest) = found!(primary(alloc, words, depth - 1));
    let operand = Box::new(alloc, operand)?;
    Ok(Some((Expr::Not { place, operand }, rest)))
}

/// `INTEGER(operand)`
#[cycle(expressions)]
#[tactic(auto, using(hal_tree::proofs::MadeExpressions::made_convert), unfolding(crate::specs::ReadingExpressions::converted_at, crate::specs::Reading::followed, crate::specs::Reading::made_of, crate::specs::Seen::seen_as, crate::specs::Seen::seen))]
fn converted(
    alloc: Global,
    place: Place,
    conversion: Conversion,
    words: &[Token],
    depth: u32,
) -> Result<Option<(Expr, &[Token])>, AllocError>
    ensures { IfOk result (λ found. seen_as seen_expression found ≡ converted_at (deeper_than depth) place (seen_conversion conversion) words.now) }
{
    let Some((_, inside)) = past_symbol(words, Symbol::LeftParenthesis) else {
        return Ok(None);
    };
    let (operand, rest) = found!(closed_expression(alloc, inside, depth));
    let operand = Box::new(alloc, operand)?;
    let whole = Expr::Convert {
        place,
        conversion,
        operand,
    };
    Ok(Some((whole, rest)))
}

/// Behind a name: arguments, where a parenthesis opens, else the rest of a reference.
#[cycle(expressions)]
#[tactic(auto, using(hal_tree::proofs::MadeExpressions::made_referred), unfolding(crate::specs::ReadingExpressions::named_at, crate::specs::Reading::made_of, crate::specs::Seen::seen_as, crate::specs::Seen::seen))]
fn named(
    alloc: Global,
    place: Place,
    name: Name,
    words: &[Token],
    depth: u32,
) -> Result<Option<(Expr, &[Token])>, AllocError>
    ensures { IfOk result (λ found. seen_as seen_expression found ≡ named_at (deeper_than depth) place name words.now) }
{
    if let Some((_, inside)) = past_symbol(words, Symbol::LeftParenthesis) {
        return called(alloc, place, name, inside, depth);
    }
    let (reference, rest) = found!(reference_behind(alloc, place, name, words, depth));
    Ok(Some((Expr::Reference(reference), rest)))
}

/// The arguments of the call form.
#[cycle(expressions)]
#[tactic(auto, using(hal_tree::proofs::MadeExpressions::made_call), unfolding(crate::specs::Reading::made_of, crate::specs::Seen::seen_as, crate::specs::Seen::seen_as_list))]
fn called(
    alloc: Global,
    place: Place,
    name: Name,
    words: &[Token],
    depth: u32,
) -> Result<Option<(Expr, &[Token])>, AllocError>
    ensures { IfOk result (λ found. seen_as seen_expression found ≡ made_of (λ ts. Called place name ts) (closed expressions_of (deeper_than depth) words.now)) }
{
    let (arguments, rest) = found!(closed_expressions(alloc, words, depth));
    let whole = Expr::Call {
        place,
        name,
        arguments,
    };
    Ok(Some((whole, rest)))
}

/// An expression with a parenthesis behind it.
#[cycle(expressions)]
#[tactic(auto, using(crate::proofs::Depths::deeper_none, crate::proofs::Depths::deeper_some), unfolding(crate::specs::ReadingExpressions::closed, crate::specs::Reading::before_symbol, crate::specs::Reading::followed, crate::specs::Reading::made_of, crate::specs::Seen::seen_as, crate::specs::Seen::seen))]
fn closed_expression(
    alloc: Global,
    words: &[Token],
    depth: u32,
) -> Result<Option<(Expr, &[Token])>, AllocError>
    ensures { IfOk result (λ found. seen_as seen_expression found ≡ closed expression_of (deeper_than depth) words.now) }
{
    if depth == 0 {
        return Ok(None);
    }
    let (inner, end) = found!(expression(alloc, words, depth - 1));
    let Some((_, rest)) = past_symbol(end, Symbol::RightParenthesis) else {
        return Ok(None);
    };
    Ok(Some((inner, rest)))
}

/// Expressions parted by commas, with a parenthesis behind them.
#[cycle(expressions)]
#[tactic(auto, using(crate::proofs::Depths::deeper_none, crate::proofs::Depths::deeper_some), unfolding(crate::specs::ReadingExpressions::closed, crate::specs::Reading::before_symbol, crate::specs::Reading::followed, crate::specs::Reading::made_of, crate::specs::Seen::seen_as_list, crate::specs::Seen::seen))]
pub(crate) fn closed_expressions(
    alloc: Global,
    words: &[Token],
    depth: u32,
) -> Result<Option<(Vec<Expr>, &[Token])>, AllocError>
    ensures { IfOk result (λ found. seen_as_list seen_expression expressions found ≡ closed expressions_of (deeper_than depth) words.now) }
{
    if depth == 0 {
        return Ok(None);
    }
    let (list, end) = found!(expressions(alloc, words, depth - 1));
    let Some((_, rest)) = past_symbol(end, Symbol::RightParenthesis) else {
        return Ok(None);
    };
    Ok(Some((list, rest)))
}
