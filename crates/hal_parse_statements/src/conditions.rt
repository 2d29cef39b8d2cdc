//! The conditions of loops and schedules, and the values of a loop's variable.

ghost use Rattle.std.specs.Prelude.{◌≡◌, Some, IfOk};
ghost use Rattle.std.specs.Option.{option_map};
ghost use Rattle.hal_tree.specs.SeenExpressions.{seen_expression};
ghost use Rattle.hal_tree.specs.SeenStatements.{seen_guard, seen_span};
ghost use Rattle.hal_parse_expr.specs.Reading.{after_comma};
ghost use Rattle.hal_parse_expr.specs.ReadingExpressions.{expression_at};
ghost use Rattle.hal_parse_expr.specs.Seen.{seen_as};
ghost use Rattle.hal_parse_statements.specs.ReadingStatements.{guard_at, listed_from, span_at, step_at, stepped_from, temporary_at, until_at};

use hal_parse_expr::{found, past, past_symbol, read_expression};
use hal_tree::{Expr, Guard, Span};
use hal_words::{Reserved, Symbol, Token};
use std::alloc::{AllocError, Global};

/// WHILE or UNTIL and a condition, or none.
#[tactic(auto, using(hal_tree::proofs::MadeStatements::made_while), unfolding(crate::specs::ReadingStatements::guard_at, hal_parse_expr::specs::Reading::decided, hal_parse_expr::specs::Reading::made_of, hal_parse_expr::specs::Seen::seen_as, hal_parse_expr::specs::Seen::seen))]
pub(crate) fn guard(
    alloc: Global,
    words: &[Token],
    depth: u32,
) -> Result<Option<(Option<Guard>, &[Token])>, AllocError>
    ensures { IfOk result (λ found. seen_as (option_map seen_guard) found ≡ guard_at depth words.now) }
{
    let Some((place, behind)) = past(words, Reserved::While) else {
        return until(alloc, words, depth);
    };
    let (condition, rest) = found!(read_expression(alloc, behind, depth));
    Ok(Some((Some(Guard::While { place, condition }), rest)))
}

/// UNTIL and a condition, or none.
#[tactic(auto, using(hal_tree::proofs::MadeStatements::made_until), unfolding(crate::specs::ReadingStatements::until_at, hal_parse_expr::specs::Reading::decided, hal_parse_expr::specs::Reading::made_of, hal_parse_expr::specs::Seen::seen_as, hal_parse_expr::specs::Seen::seen))]
fn until(
    alloc: Global,
    words: &[Token],
    depth: u32,
) -> Result<Option<(Option<Guard>, &[Token])>, AllocError>
    ensures { IfOk result (λ found. seen_as (option_map seen_guard) found ≡ until_at depth words.now) }
{
    let Some((place, behind)) = past(words, Reserved::Until) else {
        return Ok(Some((None, words)));
    };
    let (condition, rest) = found!(read_expression(alloc, behind, depth));
    Ok(Some((Some(Guard::Until { place, condition }), rest)))
}

/// An expression TO another, with a step or without, or expressions parted by commas.
#[tactic(auto, unfolding(crate::specs::ReadingStatements::span_at, hal_parse_expr::specs::Reading::followed, hal_parse_expr::specs::Reading::decided, hal_parse_expr::specs::Seen::seen_as, hal_parse_expr::specs::Seen::seen))]
pub(crate) fn span(
    alloc: Global,
    words: &[Token],
    depth: u32,
) -> Result<Option<(Span, &[Token])>, AllocError>
    ensures { IfOk result (λ found. seen_as seen_span found ≡ span_at depth words.now) }
{
    let (first, behind) = found!(read_expression(alloc, words, depth));
    if let Some((_, rest)) = past(behind, Reserved::To) {
        return stepped(alloc, first, rest, depth);
    }
    let (span, rest) = listed(alloc, first, behind, depth)?;
    Ok(Some((span, rest)))
}

/// Behind an expression and TO: the last value, and a step or none.
#[tactic(auto, using(hal_tree::proofs::MadeStatements::made_range_span), unfolding(crate::specs::ReadingStatements::stepped_from, hal_parse_expr::specs::Reading::followed, hal_parse_expr::specs::Reading::made_of, hal_parse_expr::specs::Seen::seen_as))]
fn stepped(
    alloc: Global,
    first: Expr,
    words: &[Token],
    depth: u32,
) -> Result<Option<(Span, &[Token])>, AllocError>
    ensures { IfOk result (λ found. seen_as seen_span found ≡ stepped_from depth (seen_expression first) words.now) }
{
    let (last, behind) = found!(read_expression(alloc, words, depth));
    let (step, rest) = found!(step(alloc, behind, depth));
    Ok(Some((Span::Range { first, last, step }, rest)))
}

/// BY and an expression, or none.
#[tactic(auto, unfolding(crate::specs::ReadingStatements::step_at, hal_parse_expr::specs::Reading::decided, hal_parse_expr::specs::Reading::made_of, hal_parse_expr::specs::Seen::seen_as, hal_parse_expr::specs::Seen::seen))]
fn step(
    alloc: Global,
    words: &[Token],
    depth: u32,
) -> Result<Option<(Option<Expr>, &[Token])>, AllocError>
    ensures { IfOk result (λ found. seen_as (option_map seen_expression) found ≡ step_at depth words.now) }
{
    let Some((_, behind)) = past(words, Reserved::By) else {
        return Ok(Some((None, words)));
    };
    let (step, rest) = found!(read_expression(alloc, behind, depth));
    Ok(Some((Some(step), rest)))
}

/// Behind an expression: the others of a list.
#[tactic(auto, using(hal_tree::proofs::MadeStatements::made_list_span, crate::proofs::CodeLists::listed_read), unfolding(hal_parse_expr::specs::Seen::seen_as))]
fn listed(
    alloc: Global,
    first: Expr,
    words: &[Token],
    depth: u32,
) -> Result<(Span, &[Token]), AllocError>
    ensures { IfOk result (λ found. Some (seen_span found.0, found.1.now) ≡ listed_from depth (seen_expression first) words.now) }
{
    let mut values = Vec::new(alloc);
    values.push(first)?;
    let mut rest = words;
    'values: while let Some((next, after)) = further_value(alloc, rest, depth)? {
        values.push(next)?;
        rest = after;
    }
    Ok((Span::List { values }, rest))
}

/// A comma and an expression.
#[tactic(auto, unfolding(hal_parse_expr::specs::Reading::after_comma, hal_parse_expr::specs::Reading::followed, hal_parse_expr::specs::Seen::seen_as, hal_parse_expr::specs::Seen::seen))]
fn further_value(
    alloc: Global,
    words: &[Token],
    depth: u32,
) -> Result<Option<(Expr, &[Token])>, AllocError>
    ensures { IfOk result (λ found. seen_as seen_expression found ≡ after_comma (expression_at depth) words.now) }
{
    let Some((_, rest)) = past_symbol(words, Symbol::Comma) else {
        return Ok(None);
    };
    read_expression(alloc, rest, depth)
}

/// TEMPORARY or not.
#[tactic(auto, unfolding(crate::specs::ReadingStatements::temporary_at, hal_parse_expr::specs::Reading::decided, hal_parse_expr::specs::Seen::seen))]
pub(crate) fn temporary(words: &[Token]) -> (bool, &[Token])
    ensures { Some (result.0, result.1.now) ≡ temporary_at words.now }
{
    match past(words, Reserved::Temporary) {
        Some((_, rest)) => (true, rest),
        None => (false, words),
    }
}
