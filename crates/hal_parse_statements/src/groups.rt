//! DO: groups of statements, and loops.

ghost use Rattle.std.specs.Prelude.{◌≡◌, IfOk};
ghost use Rattle.hal_grammar.specs.Statements.{While, Do, Until};
ghost use Rattle.hal_tree.specs.SeenLeaves.{seen_name};
ghost use Rattle.hal_tree.specs.SeenStatements.{seen_basic};
ghost use Rattle.hal_parse_expr.specs.Reading.{made_of};
ghost use Rattle.hal_parse_expr.specs.Seen.{seen_as};
ghost use Rattle.hal_parse_statements.specs.Beginnings.{grouped_at};
ghost use Rattle.hal_parse_statements.specs.ReadingStatements.{do_of, for_of, group_of, loop_of, range_of, statement_below};

use crate::beginning::{Grouping, grouped_by};
use crate::branches::case;
use crate::conditions::{guard, span, temporary};
use crate::inside::group;
use crate::phrases::expression_end;
use hal_base::Place;
use hal_parse_expr::{found, name, past_symbol};
use hal_tree::{Basic, Guard, Identifier};
use hal_words::{Symbol, Token};
use std::alloc::{AllocError, Global};

/// Behind DO.
#[cycle(statements)]
#[tactic(auto, using(crate::proofs::CodeWords::no_group, crate::proofs::CodeWords::nothing_grouped, crate::proofs::CodeWords::group_read), unfolding(hal_parse_expr::specs::Seen::seen_as))]
pub(crate) fn group_behind(
    alloc: Global,
    place: Place,
    words: &[Token],
    depth: u32,
) -> Result<Option<(Basic, &[Token])>, AllocError>
    ensures { IfOk result (λ found. seen_as seen_basic found ≡ do_of depth (statement_below depth) place words.now) }
{
    let Some((first, rest)) = words.split_first() else {
        return Ok(None);
    };
    let Some(grouping) = grouped_by(&first.word) else {
        return Ok(None);
    };
    grouped(alloc, place, first.place, grouping, rest, depth)
}

/// Behind DO and the word that says what the group is, which stands at this place.
#[cycle(statements)]
#[tactic(auto, unfolding(crate::specs::Beginnings::grouped_at))]
fn grouped(
    alloc: Global,
    place: Place,
    at: Place,
    grouping: Grouping,
    words: &[Token],
    depth: u32,
) -> Result<Option<(Basic, &[Token])>, AllocError>
    ensures { IfOk result (λ found. seen_as seen_basic found ≡ grouped_at depth (statement_below depth) place at grouping words.now) }
{
    match grouping {
        Grouping::Plain => plain_group(alloc, place, words, depth),
        Grouping::Case => case(alloc, place, words, depth),
        Grouping::While => while_loop(alloc, place, at, words, depth),
        Grouping::Until => until_loop(alloc, place, at, words, depth),
        Grouping::For => for_loop(alloc, place, words, depth),
    }
}

/// Behind DO and its semicolon.
#[cycle(statements)]
#[tactic(auto, using(hal_tree::proofs::MadeStatements::made_do), unfolding(hal_parse_expr::specs::Reading::made_of, hal_parse_expr::specs::Seen::seen_as))]
#[inline(never)]
fn plain_group(
    alloc: Global,
    place: Place,
    words: &[Token],
    depth: u32,
) -> Result<Option<(Basic, &[Token])>, AllocError>
    ensures { IfOk result (λ found. seen_as seen_basic found ≡ made_of (λ g. Do place g) (group_of (statement_below depth) words.now)) }
{
    let (group, rest) = found!(group(alloc, words, depth));
    Ok(Some((Basic::Do { place, group }, rest)))
}

/// Behind DO and WHILE, which stands at this place.
#[cycle(statements)]
#[tactic(auto, using(hal_tree::proofs::MadeStatements::made_do_loop, hal_tree::proofs::MadeStatements::made_while), unfolding(crate::specs::ReadingStatements::loop_of, hal_parse_expr::specs::Reading::followed, hal_parse_expr::specs::Reading::made_of, hal_parse_expr::specs::Seen::seen_as))]
#[inline(never)]
fn while_loop(
    alloc: Global,
    place: Place,
    at: Place,
    words: &[Token],
    depth: u32,
) -> Result<Option<(Basic, &[Token])>, AllocError>
    ensures { IfOk result (λ found. seen_as seen_basic found ≡ loop_of depth (statement_below depth) place (λ t. While at t) words.now) }
{
    let (condition, behind) = found!(expression_end(alloc, words, depth));
    let (group, rest) = found!(group(alloc, behind, depth));
    let guard = Guard::While {
        place: at,
        condition,
    };
    let whole = Basic::DoLoop {
        place,
        guard,
        group,
    };
    Ok(Some((whole, rest)))
}

/// Behind DO and UNTIL, which stands at this place.
#[cycle(statements)]
#[tactic(auto, using(hal_tree::proofs::MadeStatements::made_do_loop, hal_tree::proofs::MadeStatements::made_until), unfolding(crate::specs::ReadingStatements::loop_of, hal_parse_expr::specs::Reading::followed, hal_parse_expr::specs::Reading::made_of, hal_parse_expr::specs::Seen::seen_as))]
#[inline(never)]
fn until_loop(
    alloc: Global,
    place: Place,
    at: Place,
    words: &[Token],
    depth: u32,
) -> Result<Option<(Basic, &[Token])>, AllocError>
    ensures { IfOk result (λ found. seen_as seen_basic found ≡ loop_of depth (statement_below depth) place (λ t. Until at t) words.now) }
{
    let (condition, behind) = found!(expression_end(alloc, words, depth));
    let (group, rest) = found!(group(alloc, behind, depth));
    let guard = Guard::Until {
        place: at,
        condition,
    };
    let whole = Basic::DoLoop {
        place,
        guard,
        group,
    };
    Ok(Some((whole, rest)))
}

/// Behind DO and FOR.
#[cycle(statements)]
#[tactic(auto, unfolding(crate::specs::ReadingStatements::for_of, hal_parse_expr::specs::Reading::before_symbol, hal_parse_expr::specs::Reading::followed, hal_parse_expr::specs::Reading::made_of, hal_parse_expr::specs::Seen::seen_as, hal_parse_expr::specs::Seen::seen))]
#[inline(never)]
fn for_loop(
    alloc: Global,
    place: Place,
    words: &[Token],
    depth: u32,
) -> Result<Option<(Basic, &[Token])>, AllocError>
    ensures { IfOk result (λ found. seen_as seen_basic found ≡ for_of depth (statement_below depth) place words.now) }
{
    let (temporary, behind) = temporary(words);
    let Some((variable, end)) = name(behind) else {
        return Ok(None);
    };
    let Some((_, rest)) = past_symbol(end, Symbol::Equals) else {
        return Ok(None);
    };
    range(alloc, place, temporary, variable, rest, depth)
}

/// Behind the variable and `=` of DO FOR.
#[cycle(statements)]
#[tactic(auto, using(hal_tree::proofs::MadeStatements::made_do_for), unfolding(crate::specs::ReadingStatements::range_of, hal_parse_expr::specs::Reading::before_symbol, hal_parse_expr::specs::Reading::followed, hal_parse_expr::specs::Reading::made_of, hal_parse_expr::specs::Seen::seen_as, hal_parse_expr::specs::Seen::seen))]
fn range(
    alloc: Global,
    place: Place,
    temporary: bool,
    variable: Identifier,
    words: &[Token],
    depth: u32,
) -> Result<Option<(Basic, &[Token])>, AllocError>
    ensures { IfOk result (λ found. seen_as seen_basic found ≡ range_of depth (statement_below depth) place temporary (seen_name variable) words.now) }
{
    let (span, second) = found!(span(alloc, words, depth));
    let (guard, end) = found!(guard(alloc, second, depth));
    let Some((_, third)) = past_symbol(end, Symbol::Semicolon) else {
        return Ok(None);
    };
    let (group, rest) = found!(group(alloc, third, depth));
    let whole = Basic::DoFor {
        place,
        temporary,
        variable,
        span,
        guard,
        group,
    };
    Ok(Some((whole, rest)))
}
