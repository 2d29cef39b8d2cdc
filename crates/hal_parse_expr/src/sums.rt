//! Sums of signed terms.

ghost use Rattle.std.specs.Prelude.{◌≡◌, Some, IfOk, map};
ghost use Rattle.hal_tree.specs.SeenExpressions.{seen_expression, seen_signed};
ghost use Rattle.hal_parse_expr.specs.Reading.{all};
ghost use Rattle.hal_parse_expr.specs.ReadingExpressions.{primary_at, signed_sum, signed_term, sum_from, sum_of, unsigned_sum};
ghost use Rattle.hal_parse_expr.specs.Seen.{seen_as, seen_list};

use crate::found;
use crate::leaves::sign;
use crate::levels::term;
use hal_tree::{Expr, SignedTerm};
use hal_words::Token;
use std::alloc::{AllocError, Global};

/// Terms with a sign before each of them, but for the first one, which may have none.
#[cycle(expressions)]
#[tactic(auto, unfolding(crate::specs::ReadingExpressions::sum_of, crate::specs::Seen::seen_placed))]
pub(crate) fn sum(
    alloc: Global,
    words: &[Token],
    depth: u32,
) -> Result<Option<(Expr, &[Token])>, AllocError>
    ensures { IfOk result (λ found. seen_as seen_expression found ≡ sum_of (primary_at depth) words.now) }
{
    match sign(words) {
        Some(_) => opened_sum(alloc, words, depth),
        None => unsigned_sum(alloc, words, depth),
    }
}

/// A sum without an opening sign.
#[cycle(expressions)]
#[tactic(auto, unfolding(crate::specs::ReadingExpressions::unsigned_sum, crate::specs::Reading::followed, crate::specs::Seen::seen_as, crate::specs::Seen::seen_list))]
fn unsigned_sum(
    alloc: Global,
    words: &[Token],
    depth: u32,
) -> Result<Option<(Expr, &[Token])>, AllocError>
    ensures { IfOk result (λ found. seen_as seen_expression found ≡ unsigned_sum (primary_at depth) words.now) }
{
    let (first, rest) = found!(term(alloc, words, depth));
    let (others, after) = terms(alloc, rest, depth)?;
    let whole = sum_from(alloc, first, others)?;
    Ok(Some((whole, after)))
}

/// A term, or the sum that it begins.
#[tactic(auto, using(hal_tree::proofs::MadeExpressions::made_sum, crate::proofs::RowsMade::sum_alone, crate::proofs::RowsMade::sum_more))]
fn sum_from(alloc: Global, first: Expr, others: Vec<SignedTerm>) -> Result<Expr, AllocError>
    ensures { IfOk result (λ whole. seen_expression whole ≡ sum_from (seen_expression first) (map seen_signed others.items)) }
{
    if others.is_empty() {
        return Ok(first);
    }
    Ok(Expr::Sum {
        place: first.place(),
        opening: None,
        first: Box::new(alloc, first)?,
        others,
    })
}

/// A sum with an opening sign.
#[cycle(expressions)]
#[tactic(auto, using(hal_tree::proofs::MadeExpressions::made_sum, hal_tree::proofs::MadeExpressions::made_signed), unfolding(crate::specs::ReadingExpressions::signed_sum, crate::specs::Reading::followed, crate::specs::Seen::seen_as, crate::specs::Seen::seen_list))]
fn opened_sum(
    alloc: Global,
    words: &[Token],
    depth: u32,
) -> Result<Option<(Expr, &[Token])>, AllocError>
    ensures { IfOk result (λ found. seen_as seen_expression found ≡ signed_sum (primary_at depth) words.now) }
{
    let (opening, rest) = found!(signed_term(alloc, words, depth));
    let (others, after) = terms(alloc, rest, depth)?;
    let whole = Expr::Sum {
        place: opening.place,
        opening: Some(opening.sign),
        first: Box::new(alloc, opening.term)?,
        others,
    };
    Ok(Some((whole, after)))
}

/// A sign and a term.
#[cycle(expressions)]
#[tactic(auto, using(hal_tree::proofs::MadeExpressions::made_signed), unfolding(crate::specs::ReadingExpressions::signed_term, crate::specs::Reading::followed, crate::specs::Reading::made_of, crate::specs::Seen::seen_as, crate::specs::Seen::seen_placed))]
fn signed_term(
    alloc: Global,
    words: &[Token],
    depth: u32,
) -> Result<Option<(SignedTerm, &[Token])>, AllocError>
    ensures { IfOk result (λ found. seen_as seen_signed found ≡ signed_term (primary_at depth) words.now) }
{
    let Some((place, sign, rest)) = sign(words) else {
        return Ok(None);
    };
    let (term, after) = found!(term(alloc, rest, depth));
    Ok(Some((SignedTerm { place, sign, term }, after)))
}

/// As many signed terms as there are.
#[cycle(expressions)]
#[tactic(auto, unfolding(crate::specs::Seen::seen_list))]
pub(crate) fn terms(
    alloc: Global,
    words: &[Token],
    depth: u32,
) -> Result<(Vec<SignedTerm>, &[Token]), AllocError>
    ensures { IfOk result (λ found. seen_list seen_signed found ≡ all (signed_term (primary_at depth)) words.now) }
{
    let mut terms = Vec::new(alloc);
    let mut rest = words;
    'terms: while let Some((next, after)) = signed_term(alloc, rest, depth)? {
        terms.push(next)?;
        rest = after;
    }
    Ok((terms, rest))
}
