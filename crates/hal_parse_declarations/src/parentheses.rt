//! Expressions in parentheses.

ghost use Rattle.std.specs.Prelude.{◌≡◌, IfOk};
ghost use Rattle.hal_tree.specs.SeenExpressions.{seen_expression};
ghost use Rattle.hal_parse_expr.specs.ReadingExpressions.{expression_at};
ghost use Rattle.hal_parse_expr.specs.Seen.{seen_as};
ghost use Rattle.hal_parse_declarations.specs.ReadingDeclarations.{in_parentheses};

use hal_parse_expr::{found, past_symbol, read_expression};
use hal_tree::Expr;
use hal_words::{Symbol, Token};
use std::alloc::{AllocError, Global};

/// An expression in parentheses.
#[tactic(auto, unfolding(crate::specs::ReadingDeclarations::in_parentheses, hal_parse_expr::specs::Reading::before_symbol, hal_parse_expr::specs::Reading::followed, hal_parse_expr::specs::Reading::made_of, hal_parse_expr::specs::Seen::seen_as, hal_parse_expr::specs::Seen::seen))]
pub fn enclosed_expression(
    alloc: Global,
    words: &[Token],
    depth: u32,
) -> Result<Option<(Expr, &[Token])>, AllocError>
    ensures { IfOk result (λ found. seen_as seen_expression found ≡ in_parentheses (expression_at depth) words.now) }
{
    let Some((_, inside)) = past_symbol(words, Symbol::LeftParenthesis) else {
        return Ok(None);
    };
    let (expression, end) = found!(read_expression(alloc, inside, depth));
    let Some((_, rest)) = past_symbol(end, Symbol::RightParenthesis) else {
        return Ok(None);
    };
    Ok(Some((expression, rest)))
}
