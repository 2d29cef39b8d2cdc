//! Expressions with what ends them, arguments and receivers.

ghost use Rattle.std.specs.Prelude.{◌≡◌, IfOk};
ghost use Rattle.hal_tree.specs.SeenExpressions.{seen_expression, seen_reference};
ghost use Rattle.hal_parse_expr.specs.Reading.{after_comma};
ghost use Rattle.hal_parse_expr.specs.ReadingExpressions.{expressions, reference_at};
ghost use Rattle.hal_parse_expr.specs.Seen.{seen_as, seen_as_list};
ghost use Rattle.hal_parse_statements.specs.ReadingStatements.{arguments_at, expression_end, items_end_at, receivers_at, references_at, references_closed};

use hal_parse_expr::{
    found, past, past_symbol, read_arguments, read_expression, read_expressions, read_reference,
};
use hal_tree::{Expr, Reference};
use hal_words::{Reserved, Symbol, Token};
use std::alloc::{AllocError, Global};

/// An expression and a semicolon.
#[tactic(auto, unfolding(crate::specs::ReadingStatements::expression_end, hal_parse_expr::specs::Reading::before_symbol, hal_parse_expr::specs::Reading::followed, hal_parse_expr::specs::Reading::made_of, hal_parse_expr::specs::Seen::seen_as, hal_parse_expr::specs::Seen::seen))]
pub(crate) fn expression_end(
    alloc: Global,
    words: &[Token],
    depth: u32,
) -> Result<Option<(Expr, &[Token])>, AllocError>
    ensures { IfOk result (λ found. seen_as seen_expression found ≡ expression_end depth words.now) }
{
    let (expression, end) = found!(read_expression(alloc, words, depth));
    let Some((_, rest)) = past_symbol(end, Symbol::Semicolon) else {
        return Ok(None);
    };
    Ok(Some((expression, rest)))
}

/// Expressions and a semicolon, or a semicolon alone.
#[tactic(auto, unfolding(crate::specs::ReadingStatements::items_end_at, hal_parse_expr::specs::Reading::decided, hal_parse_expr::specs::Reading::before_symbol, hal_parse_expr::specs::Reading::followed, hal_parse_expr::specs::Reading::made_of, hal_parse_expr::specs::Seen::seen_as_list, hal_parse_expr::specs::Seen::seen, hal_tree::specs::Rows::expressions))]
pub(crate) fn items_end(
    alloc: Global,
    words: &[Token],
    depth: u32,
) -> Result<Option<(Vec<Expr>, &[Token])>, AllocError>
    ensures { IfOk result (λ found. seen_as_list seen_expression expressions found ≡ items_end_at depth words.now) }
{
    if let Some((_, rest)) = past_symbol(words, Symbol::Semicolon) {
        return Ok(Some((Vec::new(alloc), rest)));
    }
    let (items, end) = found!(read_expressions(alloc, words, depth));
    let Some((_, rest)) = past_symbol(end, Symbol::Semicolon) else {
        return Ok(None);
    };
    Ok(Some((items, rest)))
}

/// One reference or more, parted by commas.
#[tactic(auto, using(hal_parse_declarations::proofs::CodeLists::no_list, hal_parse_declarations::proofs::CodeLists::list_read), unfolding(crate::specs::ReadingStatements::references_at, hal_parse_expr::specs::Seen::seen_as, hal_parse_expr::specs::Seen::seen_as_list))]
pub(crate) fn references(
    alloc: Global,
    words: &[Token],
    depth: u32,
) -> Result<Option<(Vec<Reference>, &[Token])>, AllocError>
    ensures { IfOk result (λ found. seen_as_list seen_reference (λ xs. xs) found ≡ references_at depth words.now) }
{
    let Some((first, behind)) = read_reference(alloc, words, depth)? else {
        return Ok(None);
    };
    let mut list = Vec::new(alloc);
    list.push(first)?;
    let mut rest = behind;
    'list: while let Some((next, after)) = further_reference(alloc, rest, depth)? {
        list.push(next)?;
        rest = after;
    }
    Ok(Some((list, rest)))
}

/// A comma and a reference.
#[tactic(auto, unfolding(hal_parse_expr::specs::Reading::after_comma, hal_parse_expr::specs::Reading::followed, hal_parse_expr::specs::Seen::seen_as, hal_parse_expr::specs::Seen::seen))]
fn further_reference(
    alloc: Global,
    words: &[Token],
    depth: u32,
) -> Result<Option<(Reference, &[Token])>, AllocError>
    ensures { IfOk result (λ found. seen_as seen_reference found ≡ after_comma (reference_at depth) words.now) }
{
    let Some((_, rest)) = past_symbol(words, Symbol::Comma) else {
        return Ok(None);
    };
    read_reference(alloc, rest, depth)
}

/// References with a parenthesis behind them. They are one deeper.
#[tactic(auto, using(crate::proofs::CodeLists::closed_none, crate::proofs::CodeLists::closed_some), unfolding(hal_parse_expr::specs::Reading::before_symbol, hal_parse_expr::specs::Reading::followed, hal_parse_expr::specs::Reading::made_of, hal_parse_expr::specs::Seen::seen_as_list, hal_parse_expr::specs::Seen::seen))]
fn closed_references(
    alloc: Global,
    words: &[Token],
    depth: u32,
) -> Result<Option<(Vec<Reference>, &[Token])>, AllocError>
    ensures { IfOk result (λ found. seen_as_list seen_reference (λ xs. xs) found ≡ references_closed depth words.now) }
{
    if depth == 0 {
        return Ok(None);
    }
    let (references, end) = found!(references(alloc, words, depth - 1));
    let Some((_, rest)) = past_symbol(end, Symbol::RightParenthesis) else {
        return Ok(None);
    };
    Ok(Some((references, rest)))
}

/// Arguments in parentheses, or none.
#[tactic(auto, unfolding(crate::specs::ReadingStatements::arguments_at, hal_parse_expr::specs::Reading::decided, hal_parse_expr::specs::Seen::seen_as_list, hal_parse_expr::specs::Seen::seen, hal_tree::specs::Rows::expressions))]
pub(crate) fn arguments(
    alloc: Global,
    words: &[Token],
    depth: u32,
) -> Result<Option<(Vec<Expr>, &[Token])>, AllocError>
    ensures { IfOk result (λ found. seen_as_list seen_expression expressions found ≡ arguments_at depth words.now) }
{
    let Some((_, inside)) = past_symbol(words, Symbol::LeftParenthesis) else {
        return Ok(Some((Vec::new(alloc), words)));
    };
    read_arguments(alloc, inside, depth)
}

/// ASSIGN and references in parentheses, or none.
#[tactic(auto, unfolding(crate::specs::ReadingStatements::receivers_at, hal_parse_expr::specs::Reading::decided, hal_parse_expr::specs::Reading::followed, hal_parse_expr::specs::Seen::seen_as_list, hal_parse_expr::specs::Seen::seen))]
pub(crate) fn receivers(
    alloc: Global,
    words: &[Token],
    depth: u32,
) -> Result<Option<(Vec<Reference>, &[Token])>, AllocError>
    ensures { IfOk result (λ found. seen_as_list seen_reference (λ xs. xs) found ≡ receivers_at depth words.now) }
{
    let Some((_, behind)) = past(words, Reserved::Assign) else {
        return Ok(Some((Vec::new(alloc), words)));
    };
    let Some((_, inside)) = past_symbol(behind, Symbol::LeftParenthesis) else {
        return Ok(None);
    };
    closed_references(alloc, inside, depth)
}
