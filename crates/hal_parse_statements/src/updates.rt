//! UPDATE: statements that are done as one, and a process that gets another priority.

ghost use Rattle.std.specs.Prelude.{◌≡◌, IfOk};
ghost use Rattle.hal_tree.specs.SeenStatements.{seen_basic};
ghost use Rattle.hal_parse_expr.specs.Seen.{seen_as};
ghost use Rattle.hal_parse_statements.specs.ReadingStatements.{statement_below, update_of, updates_of};

use crate::inside::all_inside;
use crate::simple::update_priority;
use hal_base::Place;
use hal_parse_declarations::name_end;
use hal_parse_expr::{past, past_symbol};
use hal_tree::Basic;
use hal_words::{Reserved, Symbol, Token};
use std::alloc::{AllocError, Global};

/// Behind UPDATE.
#[cycle(statements)]
#[tactic(auto, unfolding(crate::specs::ReadingStatements::update_of, hal_parse_expr::specs::Reading::decided, hal_parse_expr::specs::Reading::followed, hal_parse_expr::specs::Seen::seen_as, hal_parse_expr::specs::Seen::seen))]
#[inline(never)]
pub(crate) fn update(
    alloc: Global,
    place: Place,
    words: &[Token],
    depth: u32,
) -> Result<Option<(Basic, &[Token])>, AllocError>
    ensures { IfOk result (λ found. seen_as seen_basic found ≡ update_of depth (statement_below depth) place words.now) }
{
    if let Some((_, rest)) = past_symbol(words, Symbol::Semicolon) {
        return update_block(alloc, place, rest, depth);
    }
    let Some((_, rest)) = past(words, Reserved::Priority) else {
        return Ok(None);
    };
    update_priority(alloc, place, rest, depth)
}

/// Behind UPDATE and its semicolon, where one level more is left.
#[cycle(statements)]
#[tactic(auto, using(hal_tree::proofs::MadeStatements::made_update, crate::proofs::CodeStatements::updates_none, crate::proofs::CodeStatements::updates_some), unfolding(hal_parse_expr::specs::Reading::followed, hal_parse_expr::specs::Reading::made_of, hal_parse_expr::specs::Seen::seen_as, hal_parse_expr::specs::Seen::seen, hal_parse_expr::specs::Seen::seen_list))]
fn update_block(
    alloc: Global,
    place: Place,
    words: &[Token],
    depth: u32,
) -> Result<Option<(Basic, &[Token])>, AllocError>
    ensures { IfOk result (λ found. seen_as seen_basic found ≡ updates_of (statement_below depth) place words.now) }
{
    if depth == 0 {
        return Ok(None);
    }
    let (body, end) = all_inside(alloc, words, depth)?;
    let Some((_, behind)) = past(end, Reserved::Close) else {
        return Ok(None);
    };
    let Some((close, rest)) = name_end(behind) else {
        return Ok(None);
    };
    let whole = Basic::Update { place, body, close };
    Ok(Some((whole, rest)))
}
