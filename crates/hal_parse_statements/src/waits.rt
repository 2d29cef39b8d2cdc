//! WAIT and what it waits for.

ghost use Rattle.std.specs.Prelude.{◌≡◌, IfOk};
ghost use Rattle.hal_grammar.specs.Statements.{Wait, WaitFor, WaitUntil};
ghost use Rattle.hal_tree.specs.SeenStatements.{seen_basic};
ghost use Rattle.hal_parse_expr.specs.Reading.{made_of};
ghost use Rattle.hal_parse_expr.specs.Seen.{seen_as};
ghost use Rattle.hal_parse_statements.specs.ReadingStatements.{expression_end, wait_at, wait_for_at};

use crate::phrases::expression_end;
use hal_base::Place;
use hal_parse_expr::{found, past, past_symbol};
use hal_tree::Basic;
use hal_words::{Reserved, Symbol, Token};
use std::alloc::{AllocError, Global};

/// Behind WAIT.
#[tactic(auto, unfolding(crate::specs::ReadingStatements::wait_at, hal_parse_expr::specs::Reading::decided, hal_parse_expr::specs::Seen::seen_as, hal_parse_expr::specs::Seen::seen))]
#[inline(never)]
pub(crate) fn wait(
    alloc: Global,
    place: Place,
    words: &[Token],
    depth: u32,
) -> Result<Option<(Basic, &[Token])>, AllocError>
    ensures { IfOk result (λ found. seen_as seen_basic found ≡ wait_at depth place words.now) }
{
    if let Some((_, rest)) = past(words, Reserved::Until) {
        return wait_until(alloc, place, rest, depth);
    }
    if let Some((_, rest)) = past(words, Reserved::For) {
        return wait_for(alloc, place, rest, depth);
    }
    wait_time(alloc, place, words, depth)
}

/// A time and a semicolon, behind WAIT and UNTIL.
#[tactic(auto, using(hal_tree::proofs::MadeStatements::made_wait_until), unfolding(hal_parse_expr::specs::Reading::made_of, hal_parse_expr::specs::Seen::seen_as))]
fn wait_until(
    alloc: Global,
    place: Place,
    words: &[Token],
    depth: u32,
) -> Result<Option<(Basic, &[Token])>, AllocError>
    ensures { IfOk result (λ found. seen_as seen_basic found ≡ made_of (λ t. WaitUntil place t) (expression_end depth words.now)) }
{
    let (time, rest) = found!(expression_end(alloc, words, depth));
    Ok(Some((Basic::WaitUntil { place, time }, rest)))
}

/// Behind WAIT and FOR.
#[tactic(auto, using(hal_tree::proofs::MadeStatements::made_wait_for_dependent), unfolding(crate::specs::ReadingStatements::wait_for_at, hal_parse_expr::specs::Reading::decided, hal_parse_expr::specs::Reading::made_of, hal_parse_expr::specs::Seen::seen_as, hal_parse_expr::specs::Seen::seen))]
fn wait_for(
    alloc: Global,
    place: Place,
    words: &[Token],
    depth: u32,
) -> Result<Option<(Basic, &[Token])>, AllocError>
    ensures { IfOk result (λ found. seen_as seen_basic found ≡ wait_for_at depth place words.now) }
{
    let Some((_, end)) = past(words, Reserved::Dependent) else {
        return wait_event(alloc, place, words, depth);
    };
    let Some((_, rest)) = past_symbol(end, Symbol::Semicolon) else {
        return Ok(None);
    };
    Ok(Some((Basic::WaitForDependent { place }, rest)))
}

/// An event and a semicolon, behind WAIT and FOR.
#[tactic(auto, using(hal_tree::proofs::MadeStatements::made_wait_for), unfolding(hal_parse_expr::specs::Reading::made_of, hal_parse_expr::specs::Seen::seen_as))]
fn wait_event(
    alloc: Global,
    place: Place,
    words: &[Token],
    depth: u32,
) -> Result<Option<(Basic, &[Token])>, AllocError>
    ensures { IfOk result (λ found. seen_as seen_basic found ≡ made_of (λ t. WaitFor place t) (expression_end depth words.now)) }
{
    let (event, rest) = found!(expression_end(alloc, words, depth));
    Ok(Some((Basic::WaitFor { place, event }, rest)))
}

/// A time and a semicolon, behind WAIT.
#[tactic(auto, using(hal_tree::proofs::MadeStatements::made_wait), unfolding(hal_parse_expr::specs::Reading::made_of, hal_parse_expr::specs::Seen::seen_as))]
fn wait_time(
    alloc: Global,
    place: Place,
    words: &[Token],
    depth: u32,
) -> Result<Option<(Basic, &[Token])>, AllocError>
    ensures { IfOk result (λ found. seen_as seen_basic found ≡ made_of (λ t. Wait place t) (expression_end depth words.now)) }
{
    let (time, rest) = found!(expression_end(alloc, words, depth));
    Ok(Some((Basic::Wait { place, time }, rest)))
}
