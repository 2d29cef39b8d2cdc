//! SCHEDULE: when a process starts, how urgent it is, and when it runs again.

ghost use Rattle.std.specs.Prelude.{◌≡◌, Some, IfOk};
ghost use Rattle.std.specs.Option.{option_map};
ghost use Rattle.hal_tree.specs.SeenExpressions.{seen_expression};
ghost use Rattle.hal_tree.specs.SeenLeaves.{seen_name};
ghost use Rattle.hal_tree.specs.SeenStatements.{seen_cycle, seen_guard, seen_schedule, seen_start};
ghost use Rattle.hal_parse_expr.specs.Seen.{seen_as, seen_pair};
ghost use Rattle.hal_parse_statements.specs.ReadingStatements.{comma_repeat, cycle_after_at, cycle_and_guard, cycle_at, cycle_behind, dependent_at, priority_at, rank_at, repeat_at, schedule_at, schedule_behind, start_at_at, start_in_at, start_on_at};

use crate::conditions::guard;
use hal_base::Place;
use hal_parse_declarations::enclosed_expression;
use hal_parse_expr::{found, name, past, past_symbol, read_expression};
use hal_tree::{Cycle, Expr, Guard, Identifier, Schedule, Start};
use hal_words::{Reserved, Symbol, Token};
use std::alloc::{AllocError, Global};

/// What stands behind SCHEDULE, and a semicolon.
#[tactic(auto, unfolding(crate::specs::ReadingStatements::schedule_at, hal_parse_expr::specs::Reading::before_symbol, hal_parse_expr::specs::Reading::followed, hal_parse_expr::specs::Reading::made_of, hal_parse_expr::specs::Seen::seen_as, hal_parse_expr::specs::Seen::seen))]
pub(crate) fn schedule(
    alloc: Global,
    words: &[Token],
    depth: u32,
) -> Result<Option<(Schedule, &[Token])>, AllocError>
    ensures { IfOk result (λ found. seen_as seen_schedule found ≡ schedule_at depth words.now) }
{
    let Some((name, behind)) = name(words) else {
        return Ok(None);
    };
    let (schedule, end) = found!(schedule_behind(alloc, name, behind, depth));
    let Some((_, rest)) = past_symbol(end, Symbol::Semicolon) else {
        return Ok(None);
    };
    Ok(Some((schedule, rest)))
}

/// What stands behind the name of a schedule.
#[tactic(auto, using(hal_tree::proofs::MadeStatements::made_schedule), unfolding(crate::specs::ReadingStatements::schedule_behind, hal_parse_expr::specs::Reading::followed, hal_parse_expr::specs::Reading::made_of, hal_parse_expr::specs::Seen::seen_as, hal_parse_expr::specs::Seen::seen_pair))]
fn schedule_behind(
    alloc: Global,
    name: Identifier,
    words: &[Token],
    depth: u32,
) -> Result<Option<(Schedule, &[Token])>, AllocError>
    ensures { IfOk result (λ found. seen_as seen_schedule found ≡ schedule_behind depth (seen_name name) words.now) }
{
    let (start, second) = found!(start(alloc, words, depth));
    let (priority, dependent, third) = found!(urgency(alloc, second, depth));
    let (cycle, guard, rest) = found!(cycle_and_guard(alloc, third, depth));
    let schedule = Schedule {
        name,
        start,
        priority,
        dependent,
        cycle,
        guard,
    };
    Ok(Some((schedule, rest)))
}

/// AT, IN or ON and an expression, or none.
#[tactic(auto, using(hal_tree::proofs::MadeStatements::made_start_at), unfolding(crate::specs::ReadingStatements::start_at_at, hal_parse_expr::specs::Reading::decided, hal_parse_expr::specs::Reading::made_of, hal_parse_expr::specs::Seen::seen_as, hal_parse_expr::specs::Seen::seen))]
fn start(
    alloc: Global,
    words: &[Token],
    depth: u32,
) -> Result<Option<(Option<Start>, &[Token])>, AllocError>
    ensures { IfOk result (λ found. seen_as (option_map seen_start) found ≡ start_at_at depth words.now) }
{
    let Some((place, behind)) = past(words, Reserved::At) else {
        return start_in(alloc, words, depth);
    };
    let (time, rest) = found!(read_expression(alloc, behind, depth));
    Ok(Some((Some(Start::At { place, time }), rest)))
}

/// IN or ON and an expression, or none.
#[tactic(auto, using(hal_tree::proofs::MadeStatements::made_start_in), unfolding(crate::specs::ReadingStatements::start_in_at, hal_parse_expr::specs::Reading::decided, hal_parse_expr::specs::Reading::made_of, hal_parse_expr::specs::Seen::seen_as, hal_parse_expr::specs::Seen::seen))]
fn start_in(
    alloc: Global,
    words: &[Token],
    depth: u32,
) -> Result<Option<(Option<Start>, &[Token])>, AllocError>
    ensures { IfOk result (λ found. seen_as (option_map seen_start) found ≡ start_in_at depth words.now) }
{
    let Some((place, behind)) = past(words, Reserved::In) else {
        return start_on(alloc, words, depth);
    };
    let (time, rest) = found!(read_expression(alloc, behind, depth));
    Ok(Some((Some(Start::In { place, time }), rest)))
}

/// ON and an expression, or none.
#[tactic(auto, using(hal_tree::proofs::MadeStatements::made_start_on), unfolding(crate::specs::ReadingStatements::start_on_at, hal_parse_expr::specs::Reading::decided, hal_parse_expr::specs::Reading::made_of, hal_parse_expr::specs::Seen::seen_as, hal_parse_expr::specs::Seen::seen))]
fn start_on(
    alloc: Global,
    words: &[Token],
    depth: u32,
) -> Result<Option<(Option<Start>, &[Token])>, AllocError>
    ensures { IfOk result (λ found. seen_as (option_map seen_start) found ≡ start_on_at depth words.now) }
{
    let Some((place, behind)) = past(words, Reserved::On) else {
        return Ok(Some((None, words)));
    };
    let (event, rest) = found!(read_expression(alloc, behind, depth));
    Ok(Some((Some(Start::On { place, event }), rest)))
}

/// The priority of a process, and whether it is dependent.
#[tactic(auto, unfolding(crate::specs::ReadingStatements::rank_at, hal_parse_expr::specs::Reading::followed, hal_parse_expr::specs::Reading::made_of, hal_parse_expr::specs::Seen::seen_as, hal_parse_expr::specs::Seen::seen_pair))]
fn urgency(
    alloc: Global,
    words: &[Token],
    depth: u32,
) -> Result<Option<(Option<Expr>, bool, &[Token])>, AllocError>
    ensures { IfOk result (λ found. seen_pair (option_map seen_expression) (λ b. b) found ≡ rank_at depth words.now) }
{
    let (priority, behind) = found!(priority(alloc, words, depth));
    let (dependent, rest) = dependent(behind);
    Ok(Some((priority, dependent, rest)))
}

/// PRIORITY and an expression in parentheses, or none.
#[tactic(auto, unfolding(crate::specs::ReadingStatements::priority_at, hal_parse_expr::specs::Reading::decided, hal_parse_expr::specs::Reading::made_of, hal_parse_expr::specs::Seen::seen_as, hal_parse_expr::specs::Seen::seen))]
fn priority(
    alloc: Global,
    words: &[Token],
    depth: u32,
) -> Result<Option<(Option<Expr>, &[Token])>, AllocError>
    ensures { IfOk result (λ found. seen_as (option_map seen_expression) found ≡ priority_at depth words.now) }
{
    let Some((_, behind)) = past(words, Reserved::Priority) else {
        return Ok(Some((None, words)));
    };
    let (priority, rest) = found!(enclosed_expression(alloc, behind, depth));
    Ok(Some((Some(priority), rest)))
}

/// DEPENDENT or not.
#[tactic(auto, unfolding(crate::specs::ReadingStatements::dependent_at, hal_parse_expr::specs::Reading::decided, hal_parse_expr::specs::Seen::seen))]
fn dependent(words: &[Token]) -> (bool, &[Token])
    ensures { Some (result.0, result.1.now) ≡ dependent_at words.now }
{
    match past(words, Reserved::Dependent) {
        Some((_, rest)) => (true, rest),
        None => (false, words),
    }
}

/// The cycle and the condition of a schedule.
#[tactic(auto, unfolding(crate::specs::ReadingStatements::cycle_and_guard, hal_parse_expr::specs::Reading::followed, hal_parse_expr::specs::Reading::made_of, hal_parse_expr::specs::Seen::seen_as, hal_parse_expr::specs::Seen::seen_pair))]
fn cycle_and_guard(
    alloc: Global,
    words: &[Token],
    depth: u32,
) -> Result<Option<(Option<Cycle>, Option<Guard>, &[Token])>, AllocError>
    ensures { IfOk result (λ found. seen_pair (option_map seen_cycle) (option_map seen_guard) found ≡ cycle_and_guard depth words.now) }
{
    let (cycle, behind) = found!(cycle(alloc, words, depth));
    let (guard, rest) = found!(guard(alloc, behind, depth));
    Ok(Some((cycle, guard, rest)))
}

/// REPEAT and what stands behind it, with a comma before it or not, or none.
#[tactic(auto, unfolding(crate::specs::ReadingStatements::cycle_at, hal_parse_expr::specs::Reading::decided, hal_parse_expr::specs::Seen::seen_as, hal_parse_expr::specs::Seen::seen))]
fn cycle(
    alloc: Global,
    words: &[Token],
    depth: u32,
) -> Result<Option<(Option<Cycle>, &[Token])>, AllocError>
    ensures { IfOk result (λ found. seen_as (option_map seen_cycle) found ≡ cycle_at depth words.now) }
{
    let Some((_, rest)) = past_symbol(words, Symbol::Comma) else {
        return cycle_or_none(alloc, words, depth);
    };
    cycle_behind_comma(alloc, rest, depth)
}

/// REPEAT and what stands behind it, or none.
#[tactic(auto, unfolding(crate::specs::ReadingStatements::repeat_at, hal_parse_expr::specs::Reading::decided, hal_parse_expr::specs::Reading::made_of, hal_parse_expr::specs::Seen::seen_as, hal_parse_expr::specs::Seen::seen))]
fn cycle_or_none(
    alloc: Global,
    words: &[Token],
    depth: u32,
) -> Result<Option<(Option<Cycle>, &[Token])>, AllocError>
    ensures { IfOk result (λ found. seen_as (option_map seen_cycle) found ≡ repeat_at depth words.now) }
{
    let Some((place, behind)) = past(words, Reserved::Repeat) else {
        return Ok(Some((None, words)));
    };
    let (cycle, rest) = found!(cycle_behind(alloc, place, behind, depth));
    Ok(Some((Some(cycle), rest)))
}

/// REPEAT and what stands behind it. Behind a comma it may not be missing.
#[tactic(auto, unfolding(crate::specs::ReadingStatements::comma_repeat, hal_parse_expr::specs::Reading::followed, hal_parse_expr::specs::Reading::made_of, hal_parse_expr::specs::Seen::seen_as, hal_parse_expr::specs::Seen::seen))]
fn cycle_behind_comma(
    alloc: Global,
    words: &[Token],
    depth: u32,
) -> Result<Option<(Option<Cycle>, &[Token])>, AllocError>
    ensures { IfOk result (λ found. seen_as (option_map seen_cycle) found ≡ comma_repeat depth words.now) }
{
    let Some((place, behind)) = past(words, Reserved::Repeat) else {
        return Ok(None);
    };
    let (cycle, rest) = found!(cycle_behind(alloc, place, behind, depth));
    Ok(Some((Some(cycle), rest)))
}

/// Behind REPEAT: EVERY or AFTER and an expression, or nothing.
#[tactic(auto, using(hal_tree::proofs::MadeStatements::made_cycle_every), unfolding(crate::specs::ReadingStatements::cycle_behind, hal_parse_expr::specs::Reading::decided, hal_parse_expr::specs::Reading::made_of, hal_parse_expr::specs::Seen::seen_as, hal_parse_expr::specs::Seen::seen))]
fn cycle_behind(
    alloc: Global,
    place: Place,
    words: &[Token],
    depth: u32,
) -> Result<Option<(Cycle, &[Token])>, AllocError>
    ensures { IfOk result (λ found. seen_as seen_cycle found ≡ cycle_behind depth place words.now) }
{
    let Some((_, behind)) = past(words, Reserved::Every) else {
        return cycle_after(alloc, place, words, depth);
    };
    let (time, rest) = found!(read_expression(alloc, behind, depth));
    Ok(Some((Cycle::Every { place, time }, rest)))
}

/// Behind REPEAT: AFTER and an expression, or nothing.
#[tactic(auto, using(hal_tree::proofs::MadeStatements::made_cycle, hal_tree::proofs::MadeStatements::made_cycle_after), unfolding(crate::specs::ReadingStatements::cycle_after_at, hal_parse_expr::specs::Reading::decided, hal_parse_expr::specs::Reading::made_of, hal_parse_expr::specs::Seen::seen_as, hal_parse_expr::specs::Seen::seen))]
fn cycle_after(
    alloc: Global,
    place: Place,
    words: &[Token],
    depth: u32,
) -> Result<Option<(Cycle, &[Token])>, AllocError>
    ensures { IfOk result (λ found. seen_as seen_cycle found ≡ cycle_after_at depth place words.now) }
{
    let Some((_, behind)) = past(words, Reserved::After) else {
        return Ok(Some((Cycle::Repeat { place }, words)));
    };
    let (time, rest) = found!(read_expression(alloc, behind, depth));
    Ok(Some((Cycle::After { place, time }, rest)))
}
