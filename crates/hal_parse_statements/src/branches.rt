//! IF and DO CASE: statements one of which is chosen.

ghost use Rattle.std.specs.Prelude.{◌≡◌, IfOk};
ghost use Rattle.hal_tree.specs.SeenExpressions.{seen_expression};
ghost use Rattle.hal_tree.specs.SeenStatements.{seen_alternative, seen_basic};
ghost use Rattle.hal_parse_expr.specs.Seen.{seen_as};
ghost use Rattle.hal_parse_statements.specs.ReadingStatements.{alternative_of, case_of, chosen_of, if_of, statement_below};

use crate::inside::{group, inside};
use crate::phrases::expression_end;
use hal_base::Place;
use hal_parse_expr::{found, past, read_expression};
use hal_tree::{Basic, Expr, Statement};
use hal_words::{Reserved, Token};
use std::alloc::{AllocError, Global};

/// Behind IF.
#[cycle(statements)]
#[tactic(auto, unfolding(crate::specs::ReadingStatements::if_of, hal_parse_expr::specs::Reading::before, hal_parse_expr::specs::Reading::followed, hal_parse_expr::specs::Reading::made_of, hal_parse_expr::specs::Seen::seen_as, hal_parse_expr::specs::Seen::seen))]
#[inline(never)]
pub(crate) fn conditional(
    alloc: Global,
    place: Place,
    words: &[Token],
    depth: u32,
) -> Result<Option<(Basic, &[Token])>, AllocError>
    ensures { IfOk result (λ found. seen_as seen_basic found ≡ if_of depth (statement_below depth) place words.now) }
{
    let (condition, end) = found!(read_expression(alloc, words, depth));
    let Some((_, rest)) = past(end, Reserved::Then) else {
        return Ok(None);
    };
    chosen(alloc, place, condition, rest, depth)
}

/// Behind IF and its condition and THEN.
#[cycle(statements)]
#[tactic(auto, using(hal_tree::proofs::MadeStatements::made_if), unfolding(crate::specs::ReadingStatements::chosen_of, hal_parse_expr::specs::Reading::followed, hal_parse_expr::specs::Reading::made_of, hal_parse_expr::specs::Seen::seen_as))]
fn chosen(
    alloc: Global,
    place: Place,
    condition: Expr,
    words: &[Token],
    depth: u32,
) -> Result<Option<(Basic, &[Token])>, AllocError>
    ensures { IfOk result (λ found. seen_as seen_basic found ≡ chosen_of (statement_below depth) place (seen_expression condition) words.now) }
{
    let (consequence, behind) = found!(inside(alloc, words, depth));
    let (alternative, rest) = found!(alternative(alloc, behind, depth));
    let consequence = Box::new(alloc, consequence)?;
    let whole = Basic::If {
        place,
        condition,
        consequence,
        alternative,
    };
    Ok(Some((whole, rest)))
}

/// ELSE and a statement inside, or none.
#[cycle(statements)]
#[tactic(auto, unfolding(crate::specs::ReadingStatements::alternative_of, hal_parse_expr::specs::Reading::decided, hal_parse_expr::specs::Reading::made_of, hal_parse_expr::specs::Seen::seen_as, hal_parse_expr::specs::Seen::seen))]
fn alternative(
    alloc: Global,
    words: &[Token],
    depth: u32,
) -> Result<Option<(Option<Box<Statement>>, &[Token])>, AllocError>
    ensures { IfOk result (λ found. seen_as seen_alternative found ≡ alternative_of (statement_below depth) words.now) }
{
    let Some((_, behind)) = past(words, Reserved::Else) else {
        return Ok(Some((None, words)));
    };
    let (statement, rest) = found!(inside(alloc, behind, depth));
    let statement = Box::new(alloc, statement)?;
    Ok(Some((Some(statement), rest)))
}

/// Behind DO and CASE.
#[cycle(statements)]
#[tactic(auto, using(hal_tree::proofs::MadeStatements::made_do_case), unfolding(crate::specs::ReadingStatements::case_of, hal_parse_expr::specs::Reading::followed, hal_parse_expr::specs::Reading::made_of, hal_parse_expr::specs::Seen::seen_as))]
#[inline(never)]
pub(crate) fn case(
    alloc: Global,
    place: Place,
    words: &[Token],
    depth: u32,
) -> Result<Option<(Basic, &[Token])>, AllocError>
    ensures { IfOk result (λ found. seen_as seen_basic found ≡ case_of depth (statement_below depth) place words.now) }
{
    let (selector, second) = found!(expression_end(alloc, words, depth));
    let (alternative, third) = found!(alternative(alloc, second, depth));
    let (group, rest) = found!(group(alloc, third, depth));
    let whole = Basic::DoCase {
        place,
        selector,
        alternative,
        group,
    };
    Ok(Some((whole, rest)))
}
