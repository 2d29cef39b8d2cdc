//! One subscript: `*`, a place, a range of places, or so many places from one on.

ghost use Rattle.std.specs.Prelude.{◌≡◌, IfOk};
ghost use Rattle.hal_words.specs.declared.reserved.Reserved.TheVariants as reserved;
ghost use Rattle.hal_tree.specs.SeenExpressions.{seen_expression, seen_position, seen_sub};
ghost use Rattle.hal_parse_expr.specs.ReadingExpressions.{at_position, from_end, portion_from, position_of, primary_at, range_from, sub_of, to_position};
ghost use Rattle.hal_parse_expr.specs.Seen.{seen_as};
ghost use Rattle.hal_parse_expr.specs.Reading.{followed, past};
ghost use Rattle.hal_grammar.specs.Expressions.{FromBeginning};

use crate::found;
use crate::leading::{past, past_symbol};
use crate::sums::{sum, terms};
use hal_tree::{Expr, Position, Sub};
use hal_words::{Reserved, Symbol, Token};
use std::alloc::{AllocError, Global};

/// One subscript.
#[cycle(expressions)]
#[tactic(auto, using(hal_tree::proofs::MadeExpressions::made_every), unfolding(crate::specs::ReadingExpressions::sub_of, crate::specs::ReadingExpressions::every_at, crate::specs::Reading::or_else, crate::specs::Reading::followed, crate::specs::Reading::made_of, crate::specs::Seen::seen_as, crate::specs::Seen::seen))]
pub(crate) fn sub(
    alloc: Global,
    words: &[Token],
    depth: u32,
) -> Result<Option<(Sub, &[Token])>, AllocError>
    ensures { IfOk result (λ found. seen_as seen_sub found ≡ sub_of (primary_at depth) words.now) }
{
    if let Some((place, rest)) = past_symbol(words, Symbol::Star) {
        return Ok(Some((Sub::Every { place }, rest)));
    }
    let (first, rest) = found!(position(alloc, words, depth));
    portion_from(alloc, first, rest, depth)
}

/// What a place begins: so many places from one on, a range, or the place alone.
#[cycle(expressions)]
#[tactic(auto, using(hal_tree::proofs::MadeExpressions::made_from_beginning, hal_tree::proofs::MadeExpressions::made_from_end), unfolding(crate::specs::ReadingExpressions::portion_from))]
fn portion_from(
    alloc: Global,
    first: Position,
    words: &[Token],
    depth: u32,
) -> Result<Option<(Sub, &[Token])>, AllocError>
    ensures { IfOk result (λ found. seen_as seen_sub found ≡ portion_from (primary_at depth) (seen_position first) words.now) }
{
    match first {
        Position::FromBeginning { position } => portion_of(alloc, position, words, depth),
        Position::FromEnd { place, terms } => {
            let first = Position::FromEnd { place, terms };
            range_from(alloc, first, words, depth)
        }
    }
}

/// A sum AT a place, or the place that it is.
#[cycle(expressions)]
#[tactic(auto, using(hal_tree::proofs::MadeExpressions::made_portion, hal_tree::proofs::MadeExpressions::made_from_beginning), unfolding(crate::specs::ReadingExpressions::portion_from, crate::specs::ReadingExpressions::at_position, crate::specs::Reading::or_else, crate::specs::Reading::made_of, crate::specs::Seen::seen_as))]
fn portion_of(
    alloc: Global,
    count: Expr,
    words: &[Token],
    depth: u32,
) -> Result<Option<(Sub, &[Token])>, AllocError>
    ensures { IfOk result (λ found. seen_as seen_sub found ≡ portion_from (primary_at depth) (FromBeginning (seen_expression count)) words.now) }
{
    if let Some((first, rest)) = place_behind(alloc, Reserved::At, words, depth)? {
        return Ok(Some((Sub::Portion { count, first }, rest)));
    }
    let first = Position::FromBeginning { position: count };
    range_from(alloc, first, words, depth)
}

/// A place, or the range that it begins.
#[cycle(expressions)]
#[tactic(auto, using(hal_tree::proofs::MadeExpressions::made_range, hal_tree::proofs::MadeExpressions::made_one), unfolding(crate::specs::ReadingExpressions::range_from, crate::specs::ReadingExpressions::to_position, crate::specs::Reading::with_tail, crate::specs::Seen::seen_as))]
fn range_from(
    alloc: Global,
    first: Position,
    words: &[Token],
    depth: u32,
) -> Result<Option<(Sub, &[Token])>, AllocError>
    ensures { IfOk result (λ found. seen_as seen_sub found ≡ range_from (primary_at depth) (seen_position first) words.now) }
{
    let Some((last, rest)) = place_behind(alloc, Reserved::To, words, depth)? else {
        return Ok(Some((Sub::One { position: first }, words)));
    };
    Ok(Some((Sub::Range { first, last }, rest)))
}

/// A place behind TO or AT.
#[cycle(expressions)]
#[tactic(auto, unfolding(crate::specs::Reading::followed, crate::specs::Seen::seen_as, crate::specs::Seen::seen))]
fn place_behind(
    alloc: Global,
    wanted: Reserved,
    words: &[Token],
    depth: u32,
) -> Result<Option<(Position, &[Token])>, AllocError>
    ensures { IfOk result (λ found. seen_as seen_position found ≡ followed (past wanted words.now) (λ p rest. position_of (primary_at depth) rest)) }
{
    let Some((_, rest)) = past(words, wanted) else {
        return Ok(None);
    };
    position(alloc, rest, depth)
}

/// A place as it is counted from the beginning or from the end.
#[cycle(expressions)]
#[tactic(auto, using(hal_tree::proofs::MadeExpressions::made_from_beginning, hal_tree::proofs::MadeExpressions::made_from_end), unfolding(crate::specs::ReadingExpressions::position_of, crate::specs::ReadingExpressions::from_end, crate::specs::Reading::or_else, crate::specs::Reading::followed, crate::specs::Reading::made_of, crate::specs::Seen::seen_as, crate::specs::Seen::seen, crate::specs::Seen::seen_list))]
fn position(
    alloc: Global,
    words: &[Token],
    depth: u32,
) -> Result<Option<(Position, &[Token])>, AllocError>
    ensures { IfOk result (λ found. seen_as seen_position found ≡ position_of (primary_at depth) words.now) }
{
    if let Some((place, rest)) = past_symbol(words, Symbol::Number) {
        let (terms, after) = terms(alloc, rest, depth)?;
        return Ok(Some((Position::FromEnd { place, terms }, after)));
    }
    let (position, rest) = found!(sum(alloc, words, depth));
    Ok(Some((Position::FromBeginning { position }, rest)))
}
