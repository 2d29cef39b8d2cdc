//! Expressions parted by commas.

ghost use Rattle.std.specs.Prelude.{◌≡◌, IfOk};
ghost use Rattle.hal_tree.specs.SeenExpressions.{seen_expression};
ghost use Rattle.hal_parse_expr.specs.Reading.{after_comma};
ghost use Rattle.hal_parse_expr.specs.ReadingExpressions.{expression_of, expressions, expressions_of, primary_at};
ghost use Rattle.hal_parse_expr.specs.Seen.{seen_as, seen_as_list};

use crate::leading::past_symbol;
use crate::levels::expression;
use hal_tree::Expr;
use hal_words::{Symbol, Token};
use std::alloc::{AllocError, Global};

/// One expression or more.
#[cycle(expressions)]
#[tactic(auto, using(crate::proofs::PartedLists::no_expressions, crate::proofs::PartedLists::expressions_read), unfolding(crate::specs::Seen::seen_as, crate::specs::Seen::seen_as_list))]
pub(crate) fn expressions(
    alloc: Global,
    words: &[Token],
    depth: u32,
) -> Result<Option<(Vec<Expr>, &[Token])>, AllocError>
    ensures { IfOk result (λ found. seen_as_list seen_expression expressions found ≡ expressions_of (primary_at depth) words.now) }
{
    let Some((first, behind)) = expression(alloc, words, depth)? else {
        return Ok(None);
    };
    let mut list = Vec::new(alloc);
    list.push(first)?;
    let mut rest = behind;
    'list: while let Some((next, after)) = further_expression(alloc, rest, depth)? {
        list.push(next)?;
        rest = after;
    }
    Ok(Some((list, rest)))
}

/// A comma and an expression.
#[cycle(expressions)]
#[tactic(auto, unfolding(crate::specs::Reading::after_comma, crate::specs::Reading::followed, crate::specs::Seen::seen_as, crate::specs::Seen::seen))]
fn further_expression(
    alloc: Global,
    words: &[Token],
    depth: u32,
) -> Result<Option<(Expr, &[Token])>, AllocError>
    ensures { IfOk result (λ found. seen_as seen_expression found ≡ after_comma (expression_of (primary_at depth)) words.now) }
{
    let Some((_, rest)) = past_symbol(words, Symbol::Comma) else {
        return Ok(None);
    };
    expression(alloc, rest, depth)
}
