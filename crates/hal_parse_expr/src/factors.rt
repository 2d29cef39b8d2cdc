//! Factors: primaries, and powers of primaries.

ghost use Rattle.std.specs.Prelude.{◌≡◌, IfOk};
ghost use Rattle.hal_tree.specs.SeenExpressions.{seen_expression};
ghost use Rattle.hal_parse_expr.specs.ReadingExpressions.{exponent_of, factor_of, further_factor, primary_at};
ghost use Rattle.hal_parse_expr.specs.Seen.{seen_as};

use crate::found;
use crate::leading::{past, past_symbol};
use crate::primaries::primary;
use hal_tree::Expr;
use hal_words::{Reserved, Symbol, Token};
use std::alloc::{AllocError, Global};

/// A primary, or a primary to the power of a primary.
#[cycle(expressions)]
#[tactic(auto, using(hal_tree::proofs::MadeExpressions::made_power), unfolding(crate::specs::ReadingExpressions::factor_of, crate::specs::ReadingExpressions::exponent_of, crate::specs::Reading::followed, crate::specs::Reading::with_tail, crate::specs::Seen::seen_as))]
pub(crate) fn factor(
    alloc: Global,
    words: &[Token],
    depth: u32,
) -> Result<Option<(Expr, &[Token])>, AllocError>
    ensures { IfOk result (λ found. seen_as seen_expression found ≡ factor_of (primary_at depth) words.now) }
{
    let (base, rest) = found!(primary(alloc, words, depth));
    let Some((exponent, after)) = exponent(alloc, rest, depth)? else {
        return Ok(Some((base, rest)));
    };
    let whole = Expr::Power {
        place: base.place(),
        base: Box::new(alloc, base)?,
        exponent: Box::new(alloc, exponent)?,
    };
    Ok(Some((whole, after)))
}

/// `**` and a primary.
#[cycle(expressions)]
#[tactic(auto, unfolding(crate::specs::ReadingExpressions::exponent_of, crate::specs::Reading::followed, crate::specs::Seen::seen_as, crate::specs::Seen::seen))]
fn exponent(
    alloc: Global,
    words: &[Token],
    depth: u32,
) -> Result<Option<(Expr, &[Token])>, AllocError>
    ensures { IfOk result (λ found. seen_as seen_expression found ≡ exponent_of (primary_at depth) words.now) }
{
    let Some((_, rest)) = past_symbol(words, Symbol::Power) else {
        return Ok(None);
    };
    primary(alloc, rest, depth)
}

/// A factor behind another one, which doesn't begin with NOT.
#[cycle(expressions)]
#[tactic(auto, unfolding(crate::specs::ReadingExpressions::further_factor, crate::specs::Seen::seen_as, crate::specs::Seen::seen))]
pub(crate) fn further_factor(
    alloc: Global,
    words: &[Token],
    depth: u32,
) -> Result<Option<(Expr, &[Token])>, AllocError>
    ensures { IfOk result (λ found. seen_as seen_expression found ≡ further_factor (primary_at depth) words.now) }
{
    let None = past(words, Reserved::Not) else {
        return Ok(None);
    };
    factor(alloc, words, depth)
}
