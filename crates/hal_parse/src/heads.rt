//! The heads of units.

ghost use Rattle.std.specs.Prelude.{◌≡◌, IfOk};
ghost use Rattle.hal_grammar.specs.Units.{Compool, Program, Task, holds_elements, stands_inside};
ghost use Rattle.hal_words.specs.declared.word.Symbol.TheVariants as symbol;
ghost use Rattle.hal_tree.specs.SeenUnits.{seen_head};
ghost use Rattle.hal_parse_expr.specs.Reading.{made_of, past_symbol};
ghost use Rattle.hal_parse_expr.specs.Seen.{seen_as};
ghost use Rattle.hal_parse.specs.Headings.{headed_at};
ghost use Rattle.hal_parse.specs.ReadingFiles.{function_behind, head_at, procedure_behind};

use crate::heading::{Heading, headed_by};
use crate::modes::{inputs, mode_end, outputs};
use crate::returns::returns_end;
use hal_base::Place;
use hal_parse_expr::past_symbol;
use hal_tree::Head;
use hal_words::{Symbol, Token};
use std::alloc::{AllocError, Global};

/// The head of a unit.
#[tactic(auto, using(crate::proofs::CodeUnits::head_none, crate::proofs::CodeUnits::nothing_headed, crate::proofs::CodeUnits::head_read), unfolding(hal_parse_expr::specs::Seen::seen_as))]
pub(crate) fn head(
    alloc: Global,
    words: &[Token],
    depth: u32,
) -> Result<Option<(Head, &[Token])>, AllocError>
    ensures { IfOk result (λ found. seen_as seen_head found ≡ head_at depth words.now) }
{
    let Some((first, rest)) = words.split_first() else {
        return Ok(None);
    };
    let Some(heading) = headed_by(&first.word) else {
        return Ok(None);
    };
    headed(alloc, first.place, heading, rest, depth)
}

/// Behind the first word of a head, which says what the unit is.
#[tactic(auto, unfolding(crate::specs::Headings::headed_at))]
fn headed(
    alloc: Global,
    place: Place,
    heading: Heading,
    words: &[Token],
    depth: u32,
) -> Result<Option<(Head, &[Token])>, AllocError>
    ensures { IfOk result (λ found. seen_as seen_head found ≡ headed_at depth place heading words.now) }
{
    match heading {
        Heading::Program => Ok(program(place, words)),
        Heading::Compool => Ok(compool(place, words)),
        Heading::Task => Ok(task(place, words)),
        Heading::Procedure => procedure(alloc, place, words),
        Heading::Function => function(alloc, place, words, depth),
    }
}

/// Behind PROGRAM.
#[tactic(auto, using(hal_tree::proofs::MadeUnits::made_program), unfolding(hal_parse_expr::specs::Reading::made_of, hal_parse_expr::specs::Seen::seen_as, hal_parse_expr::specs::Seen::seen))]
fn program(place: Place, words: &[Token]) -> Option<(Head, &[Token])>
    ensures { seen_as seen_head result ≡ made_of (λ q. Program place) (past_symbol symbol.Semicolon words.now) }
{
    let Some((_, rest)) = past_symbol(words, Symbol::Semicolon) else {
        return None;
    };
    Some((Head::Program { place }, rest))
}

/// Behind COMPOOL.
#[tactic(auto, using(hal_tree::proofs::MadeUnits::made_compool), unfolding(hal_parse_expr::specs::Reading::made_of, hal_parse_expr::specs::Seen::seen_as, hal_parse_expr::specs::Seen::seen))]
fn compool(place: Place, words: &[Token]) -> Option<(Head, &[Token])>
    ensures { seen_as seen_head result ≡ made_of (λ q. Compool place) (past_symbol symbol.Semicolon words.now) }
{
    let Some((_, rest)) = past_symbol(words, Symbol::Semicolon) else {
        return None;
    };
    Some((Head::Compool { place }, rest))
}

/// Behind TASK.
#[tactic(auto, using(hal_tree::proofs::MadeUnits::made_task), unfolding(hal_parse_expr::specs::Reading::made_of, hal_parse_expr::specs::Seen::seen_as, hal_parse_expr::specs::Seen::seen))]
fn task(place: Place, words: &[Token]) -> Option<(Head, &[Token])>
    ensures { seen_as seen_head result ≡ made_of (λ q. Task place) (past_symbol symbol.Semicolon words.now) }
{
    let Some((_, rest)) = past_symbol(words, Symbol::Semicolon) else {
        return None;
    };
    Some((Head::Task { place }, rest))
}

/// Behind PROCEDURE.
#[tactic(auto, using(hal_tree::proofs::MadeUnits::made_procedure), unfolding(crate::specs::ReadingFiles::procedure_behind, hal_parse_expr::specs::Reading::followed, hal_parse_expr::specs::Reading::made_of, hal_parse_expr::specs::Seen::seen_as, hal_parse_expr::specs::Seen::seen_as_list))]
fn procedure(
    alloc: Global,
    place: Place,
    words: &[Token],
) -> Result<Option<(Head, &[Token])>, AllocError>
    ensures { IfOk result (λ found. seen_as seen_head found ≡ procedure_behind place words.now) }
{
    let Some((inputs, behind)) = inputs(alloc, words)? else {
        return Ok(None);
    };
    let Some((outputs, end)) = outputs(alloc, behind)? else {
        return Ok(None);
    };
    let Some((mode, rest)) = mode_end(end) else {
        return Ok(None);
    };
    let whole = Head::Procedure {
        place,
        inputs,
        outputs,
        mode,
    };
    Ok(Some((whole, rest)))
}

/// Behind FUNCTION.
#[tactic(auto, using(hal_tree::proofs::MadeUnits::made_function), unfolding(crate::specs::ReadingFiles::function_behind, hal_parse_expr::specs::Reading::followed, hal_parse_expr::specs::Reading::made_of, hal_parse_expr::specs::Seen::seen_as, hal_parse_expr::specs::Seen::seen_as_list, hal_parse_expr::specs::Seen::seen_pair))]
fn function(
    alloc: Global,
    place: Place,
    words: &[Token],
    depth: u32,
) -> Result<Option<(Head, &[Token])>, AllocError>
    ensures { IfOk result (λ found. seen_as seen_head found ≡ function_behind depth place words.now) }
{
    let Some((inputs, behind)) = inputs(alloc, words)? else {
        return Ok(None);
    };
    let Some((returns, mode, rest)) = returns_end(alloc, behind, depth)? else {
        return Ok(None);
    };
    let whole = Head::Function {
        place,
        inputs,
        returns,
        mode,
    };
    Ok(Some((whole, rest)))
}

/// Whether a unit with this head may stand in another one.
#[tactic(auto, using(hal_tree::proofs::MadeUnits::made_program, hal_tree::proofs::MadeUnits::made_compool, hal_tree::proofs::MadeUnits::made_task, hal_tree::proofs::MadeUnits::made_procedure, hal_tree::proofs::MadeUnits::made_function))]
pub(crate) fn stands_inside(head: &Head) -> bool
    ensures { result ≡ stands_inside (seen_head head.now) }
{
    match head {
        Head::Program { .. } | Head::Compool { .. } => false,
        Head::Task { .. } | Head::Procedure { .. } | Head::Function { .. } => true,
    }
}

/// Whether statements and units may stand in a unit with this head.
#[tactic(auto, using(hal_tree::proofs::MadeUnits::made_program, hal_tree::proofs::MadeUnits::made_compool, hal_tree::proofs::MadeUnits::made_task, hal_tree::proofs::MadeUnits::made_procedure, hal_tree::proofs::MadeUnits::made_function))]
pub(crate) fn holds_elements(head: &Head) -> bool
    ensures { result ≡ holds_elements (seen_head head.now) }
{
    match head {
        Head::Compool { .. } => false,
        Head::Program { .. } | Head::Task { .. } | Head::Procedure { .. } | Head::Function { .. } =>
            true,
    }
}
