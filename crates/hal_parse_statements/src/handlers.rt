//! ON ERROR: what answers an error.

ghost use Rattle.std.specs.Prelude.{◌≡◌, IfOk};
ghost use Rattle.hal_grammar.specs.Statements.{OnErrorResponse};
ghost use Rattle.hal_tree.specs.SeenStatements.{seen_basic, seen_response, seen_selector};
ghost use Rattle.hal_parse_expr.specs.Reading.{made_of};
ghost use Rattle.hal_parse_expr.specs.Seen.{seen_as};
ghost use Rattle.hal_parse_statements.specs.ReadingStatements.{event_end_at, handled_of, on_of, statement_below};

use crate::events::{event_end, response};
use crate::inside::inside;
use crate::selectors::selector;
use hal_base::Place;
use hal_parse_expr::{found, past};
use hal_tree::{Basic, Response, Selector};
use hal_words::{Reserved, Token};
use std::alloc::{AllocError, Global};

/// Behind ON.
#[cycle(statements)]
#[tactic(auto, unfolding(crate::specs::ReadingStatements::on_of, hal_parse_expr::specs::Reading::followed, hal_parse_expr::specs::Seen::seen_as, hal_parse_expr::specs::Seen::seen))]
#[inline(never)]
pub(crate) fn on_error(
    alloc: Global,
    place: Place,
    words: &[Token],
    depth: u32,
) -> Result<Option<(Basic, &[Token])>, AllocError>
    ensures { IfOk result (λ found. seen_as seen_basic found ≡ on_of (statement_below depth) place words.now) }
{
    let Some((_, behind)) = past(words, Reserved::Error) else {
        return Ok(None);
    };
    let Some((selector, rest)) = selector(behind) else {
        return Ok(None);
    };
    handled(alloc, place, selector, rest, depth)
}

/// Behind ON, ERROR and which errors.
#[cycle(statements)]
#[tactic(auto, using(hal_tree::proofs::MadeStatements::made_on_error_statement), unfolding(crate::specs::ReadingStatements::handled_of, hal_parse_expr::specs::Reading::decided, hal_parse_expr::specs::Reading::made_of, hal_parse_expr::specs::Seen::seen_as))]
fn handled(
    alloc: Global,
    place: Place,
    selector: Selector,
    words: &[Token],
    depth: u32,
) -> Result<Option<(Basic, &[Token])>, AllocError>
    ensures { IfOk result (λ found. seen_as seen_basic found ≡ handled_of (statement_below depth) place (seen_selector selector) words.now) }
{
    if let Some((response, rest)) = response(words) {
        return Ok(answered(place, selector, response, rest));
    }
    let (handler, rest) = found!(inside(alloc, words, depth));
    let handler = Box::new(alloc, handler)?;
    let whole = Basic::OnErrorStatement {
        place,
        selector,
        handler,
    };
    Ok(Some((whole, rest)))
}

/// Behind SYSTEM or IGNORE.
#[tactic(auto, using(hal_tree::proofs::MadeStatements::made_on_error_response), unfolding(hal_parse_expr::specs::Reading::made_of, hal_parse_expr::specs::Seen::seen_as))]
fn answered(
    place: Place,
    selector: Selector,
    response: Response,
    words: &[Token],
) -> Option<(Basic, &[Token])>
    ensures { seen_as seen_basic result ≡ made_of (λ e. OnErrorResponse place (seen_selector selector) (seen_response response) e) (event_end_at words.now) }
{
    let Some((event, rest)) = event_end(words) else {
        return None;
    };
    let whole = Basic::OnErrorResponse {
        place,
        selector,
        response,
        event,
    };
    Some((whole, rest))
}
