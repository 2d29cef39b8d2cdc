//! Statements in which no other statement stands, behind the word that begins them.

ghost use Rattle.std.specs.Prelude.{◌≡◌, IfOk};
ghost use Rattle.hal_grammar.specs.Statements.{Cancel, Exit, Repeat, Scheduled, Terminate};
ghost use Rattle.hal_tree.specs.SeenLeaves.{seen_name};
ghost use Rattle.hal_tree.specs.SeenStatements.{seen_action, seen_basic};
ghost use Rattle.hal_parse_expr.specs.Reading.{made_of};
ghost use Rattle.hal_parse_expr.specs.Seen.{seen_as};
ghost use Rattle.hal_parse_declarations.specs.ReadingDeclarations.{name_end_at};
ghost use Rattle.hal_parse_declarations.specs.ReadingNames.{names_end_at};
ghost use Rattle.hal_parse_statements.specs.ReadingStatements.{acts_at, assigned_at, call_at, call_behind, error_sent, forgets_at, prioritizes_at, read_at, returned_at, schedule_at, sends_at, write_at};

use crate::phrases::{arguments, expression_end, items_end, receivers, references};
use crate::schedules::schedule;
use crate::selectors::selector;
use hal_base::Place;
use hal_parse_declarations::{enclosed_expression, name_end, name_option, names_end};
use hal_parse_expr::{found, integer, name, past, past_symbol};
use hal_tree::{Basic, EventAction, EventChange, Identifier};
use hal_words::{Reserved, Symbol, Token};
use std::alloc::{AllocError, Global};

/// `A, B = value;`, from its first word on.
#[tactic(auto, using(hal_tree::proofs::MadeStatements::made_assignment), unfolding(crate::specs::ReadingStatements::assigned_at, hal_parse_expr::specs::Reading::before_symbol, hal_parse_expr::specs::Reading::followed, hal_parse_expr::specs::Reading::made_of, hal_parse_expr::specs::Seen::seen_as, hal_parse_expr::specs::Seen::seen_as_list, hal_parse_expr::specs::Seen::seen))]
#[inline(never)]
pub(crate) fn assignment(
    alloc: Global,
    place: Place,
    words: &[Token],
    depth: u32,
) -> Result<Option<(Basic, &[Token])>, AllocError>
    ensures { IfOk result (λ found. seen_as seen_basic found ≡ assigned_at depth place words.now) }
{
    let (receivers, end) = found!(references(alloc, words, depth));
    let Some((_, behind)) = past_symbol(end, Symbol::Equals) else {
        return Ok(None);
    };
    let (value, rest) = found!(expression_end(alloc, behind, depth));
    let whole = Basic::Assignment {
        place,
        receivers,
        value,
    };
    Ok(Some((whole, rest)))
}

/// Behind EXIT.
#[tactic(auto, using(hal_tree::proofs::MadeStatements::made_exit), unfolding(hal_parse_expr::specs::Reading::made_of, hal_parse_expr::specs::Seen::seen_as))]
#[inline(never)]
pub(crate) fn exit(place: Place, words: &[Token]) -> Option<(Basic, &[Token])>
    ensures { seen_as seen_basic result ≡ made_of (λ x. Exit place x) (name_end_at words.now) }
{
    let Some((label, rest)) = name_end(words) else {
        return None;
    };
    Some((Basic::Exit { place, label }, rest))
}

/// Behind REPEAT.
#[tactic(auto, using(hal_tree::proofs::MadeStatements::made_repeat), unfolding(hal_parse_expr::specs::Reading::made_of, hal_parse_expr::specs::Seen::seen_as))]
#[inline(never)]
pub(crate) fn repeat(place: Place, words: &[Token]) -> Option<(Basic, &[Token])>
    ensures { seen_as seen_basic result ≡ made_of (λ x. Repeat place x) (name_end_at words.now) }
{
    let Some((label, rest)) = name_end(words) else {
        return None;
    };
    Some((Basic::Repeat { place, label }, rest))
}

/// Behind RETURN.
#[tactic(auto, using(hal_tree::proofs::MadeStatements::made_return), unfolding(crate::specs::ReadingStatements::returned_at, hal_parse_expr::specs::Reading::decided, hal_parse_expr::specs::Reading::made_of, hal_parse_expr::specs::Seen::seen_as, hal_parse_expr::specs::Seen::seen))]
#[inline(never)]
pub(crate) fn return_value(
    alloc: Global,
    place: Place,
    words: &[Token],
    depth: u32,
) -> Result<Option<(Basic, &[Token])>, AllocError>
    ensures { IfOk result (λ found. seen_as seen_basic found ≡ returned_at depth place words.now) }
{
    if let Some((_, rest)) = past_symbol(words, Symbol::Semicolon) {
        return Ok(Some((Basic::Return { place, value: None }, rest)));
    }
    let (value, rest) = found!(expression_end(alloc, words, depth));
    let value = Some(value);
    Ok(Some((Basic::Return { place, value }, rest)))
}

/// Behind CALL.
#[tactic(auto, unfolding(crate::specs::ReadingStatements::call_at, hal_parse_expr::specs::Reading::followed, hal_parse_expr::specs::Seen::seen_as))]
#[inline(never)]
pub(crate) fn call(
    alloc: Global,
    place: Place,
    words: &[Token],
    depth: u32,
) -> Result<Option<(Basic, &[Token])>, AllocError>
    ensures { IfOk result (λ found. seen_as seen_basic found ≡ call_at depth place words.now) }
{
    let Some((name, rest)) = name(words) else {
        return Ok(None);
    };
    call_behind(alloc, place, name, rest, depth)
}

/// Behind CALL and a name.
#[tactic(auto, using(hal_tree::proofs::MadeStatements::made_call_statement), unfolding(crate::specs::ReadingStatements::call_behind, hal_parse_expr::specs::Reading::before_symbol, hal_parse_expr::specs::Reading::followed, hal_parse_expr::specs::Reading::made_of, hal_parse_expr::specs::Seen::seen_as, hal_parse_expr::specs::Seen::seen_as_list, hal_parse_expr::specs::Seen::seen))]
fn call_behind(
    alloc: Global,
    place: Place,
    name: Identifier,
    words: &[Token],
    depth: u32,
) -> Result<Option<(Basic, &[Token])>, AllocError>
    ensures { IfOk result (λ found. seen_as seen_basic found ≡ call_behind depth place (seen_name name) words.now) }
{
    let (arguments, behind) = found!(arguments(alloc, words, depth));
    let (receivers, end) = found!(receivers(alloc, behind, depth));
    let Some((_, rest)) = past_symbol(end, Symbol::Semicolon) else {
        return Ok(None);
    };
    let whole = Basic::Call {
        place,
        name,
        arguments,
        receivers,
    };
    Ok(Some((whole, rest)))
}

/// Behind READ.
#[tactic(auto, using(hal_tree::proofs::MadeStatements::made_read), unfolding(crate::specs::ReadingStatements::read_at, hal_parse_expr::specs::Reading::before_symbol, hal_parse_expr::specs::Reading::followed, hal_parse_expr::specs::Reading::made_of, hal_parse_expr::specs::Seen::seen_as, hal_parse_expr::specs::Seen::seen_as_list, hal_parse_expr::specs::Seen::seen))]
#[inline(never)]
pub(crate) fn read(
    alloc: Global,
    place: Place,
    words: &[Token],
    depth: u32,
) -> Result<Option<(Basic, &[Token])>, AllocError>
    ensures { IfOk result (λ found. seen_as seen_basic found ≡ read_at depth place words.now) }
{
    let (channel, behind) = found!(enclosed_expression(alloc, words, depth));
    let (receivers, end) = found!(references(alloc, behind, depth));
    let Some((_, rest)) = past_symbol(end, Symbol::Semicolon) else {
        return Ok(None);
    };
    let whole = Basic::Read {
        place,
        channel,
        receivers,
    };
    Ok(Some((whole, rest)))
}

/// Behind WRITE.
#[tactic(auto, using(hal_tree::proofs::MadeStatements::made_write), unfolding(crate::specs::ReadingStatements::write_at, hal_parse_expr::specs::Reading::followed, hal_parse_expr::specs::Reading::made_of, hal_parse_expr::specs::Seen::seen_as, hal_parse_expr::specs::Seen::seen_as_list))]
#[inline(never)]
pub(crate) fn write(
    alloc: Global,
    place: Place,
    words: &[Token],
    depth: u32,
) -> Result<Option<(Basic, &[Token])>, AllocError>
    ensures { IfOk result (λ found. seen_as seen_basic found ≡ write_at depth place words.now) }
{
    let (channel, behind) = found!(enclosed_expression(alloc, words, depth));
    let (items, rest) = found!(items_end(alloc, behind, depth));
    let whole = Basic::Write {
        place,
        channel,
        items,
    };
    Ok(Some((whole, rest)))
}

/// Behind SCHEDULE.
#[tactic(auto, using(hal_tree::proofs::MadeStatements::made_schedule_statement), unfolding(hal_parse_expr::specs::Reading::made_of, hal_parse_expr::specs::Seen::seen_as))]
#[inline(never)]
pub(crate) fn scheduled(
    alloc: Global,
    place: Place,
    words: &[Token],
    depth: u32,
) -> Result<Option<(Basic, &[Token])>, AllocError>
    ensures { IfOk result (λ found. seen_as seen_basic found ≡ made_of (λ s. Scheduled place s) (schedule_at depth words.now)) }
{
    let (schedule, rest) = found!(schedule(alloc, words, depth));
    Ok(Some((Basic::Schedule { place, schedule }, rest)))
}

/// Behind CANCEL.
#[tactic(auto, using(hal_tree::proofs::MadeStatements::made_cancel), unfolding(hal_parse_expr::specs::Reading::made_of, hal_parse_expr::specs::Seen::seen_as, hal_parse_expr::specs::Seen::seen_as_list))]
#[inline(never)]
pub(crate) fn cancel(
    alloc: Global,
    place: Place,
    words: &[Token],
) -> Result<Option<(Basic, &[Token])>, AllocError>
    ensures { IfOk result (λ found. seen_as seen_basic found ≡ made_of (λ xs. Cancel place xs) (names_end_at words.now)) }
{
    let (names, rest) = found!(names_end(alloc, words));
    Ok(Some((Basic::Cancel { place, names }, rest)))
}

/// Behind TERMINATE.
#[tactic(auto, using(hal_tree::proofs::MadeStatements::made_terminate), unfolding(hal_parse_expr::specs::Reading::made_of, hal_parse_expr::specs::Seen::seen_as, hal_parse_expr::specs::Seen::seen_as_list))]
#[inline(never)]
pub(crate) fn terminate(
    alloc: Global,
    place: Place,
    words: &[Token],
) -> Result<Option<(Basic, &[Token])>, AllocError>
    ensures { IfOk result (λ found. seen_as seen_basic found ≡ made_of (λ xs. Terminate place xs) (names_end_at words.now)) }
{
    let (names, rest) = found!(names_end(alloc, words));
    Ok(Some((Basic::Terminate { place, names }, rest)))
}

/// Behind SIGNAL, SET or RESET, which does this to the event.
#[tactic(auto, using(hal_tree::proofs::MadeStatements::made_event), unfolding(crate::specs::ReadingStatements::acts_at, hal_parse_expr::specs::Reading::before_symbol, hal_parse_expr::specs::Reading::followed, hal_parse_expr::specs::Reading::made_of, hal_parse_expr::specs::Seen::seen_as, hal_parse_expr::specs::Seen::seen))]
#[inline(never)]
pub(crate) fn change(
    place: Place,
    action: EventAction,
    words: &[Token],
) -> Option<(Basic, &[Token])>
    ensures { seen_as seen_basic result ≡ acts_at place (seen_action action) words.now }
{
    let Some((name, end)) = name(words) else {
        return None;
    };
    let Some((_, rest)) = past_symbol(end, Symbol::Semicolon) else {
        return None;
    };
    let change = EventChange {
        place,
        action,
        name,
    };
    Some((Basic::Event(change), rest))
}

/// Behind UPDATE and PRIORITY.
#[tactic(auto, using(hal_tree::proofs::MadeStatements::made_update_priority), unfolding(crate::specs::ReadingStatements::prioritizes_at, hal_parse_expr::specs::Reading::before, hal_parse_expr::specs::Reading::followed, hal_parse_expr::specs::Reading::made_of, hal_parse_expr::specs::Seen::seen_as, hal_parse_expr::specs::Seen::seen))]
pub(crate) fn update_priority(
    alloc: Global,
    place: Place,
    words: &[Token],
    depth: u32,
) -> Result<Option<(Basic, &[Token])>, AllocError>
    ensures { IfOk result (λ found. seen_as seen_basic found ≡ prioritizes_at depth place words.now) }
{
    let (name, end) = name_option(words);
    let Some((_, behind)) = past(end, Reserved::To) else {
        return Ok(None);
    };
    let (priority, rest) = found!(expression_end(alloc, behind, depth));
    let whole = Basic::UpdatePriority {
        place,
        name,
        priority,
    };
    Ok(Some((whole, rest)))
}

/// Behind OFF.
#[tactic(auto, using(hal_tree::proofs::MadeStatements::made_off_error), unfolding(crate::specs::ReadingStatements::forgets_at, hal_parse_expr::specs::Reading::before_symbol, hal_parse_expr::specs::Reading::followed, hal_parse_expr::specs::Reading::made_of, hal_parse_expr::specs::Seen::seen_as, hal_parse_expr::specs::Seen::seen))]
#[inline(never)]
pub(crate) fn off_error(place: Place, words: &[Token]) -> Option<(Basic, &[Token])>
    ensures { seen_as seen_basic result ≡ forgets_at place words.now }
{
    let Some((_, behind)) = past(words, Reserved::Error) else {
        return None;
    };
    let Some((selector, end)) = selector(behind) else {
        return None;
    };
    let Some((_, rest)) = past_symbol(end, Symbol::Semicolon) else {
        return None;
    };
    Some((Basic::OffError { place, selector }, rest))
}

/// Behind SEND.
#[tactic(auto, unfolding(crate::specs::ReadingStatements::sends_at, hal_parse_expr::specs::Reading::followed, hal_parse_expr::specs::Seen::seen_as, hal_parse_expr::specs::Seen::seen))]
#[inline(never)]
pub(crate) fn send_error(place: Place, words: &[Token]) -> Option<(Basic, &[Token])>
    ensures { seen_as seen_basic result ≡ sends_at place words.now }
{
    let Some((_, behind)) = past(words, Reserved::Error) else {
        return None;
    };
    let Some((_, open)) = past_symbol(behind, Symbol::Dollar) else {
        return None;
    };
    let Some((_, inside)) = past_symbol(open, Symbol::LeftParenthesis) else {
        return None;
    };
    error_sent(place, inside)
}

/// A group of errors, a colon and a number in parentheses, and a semicolon.
#[tactic(auto, using(hal_tree::proofs::MadeStatements::made_send_error), unfolding(crate::specs::ReadingStatements::error_sent, hal_parse_expr::specs::Reading::before_symbol, hal_parse_expr::specs::Reading::followed, hal_parse_expr::specs::Reading::made_of, hal_parse_expr::specs::Seen::seen_as, hal_parse_expr::specs::Seen::seen, hal_parse_expr::specs::Seen::seen_placed))]
fn error_sent(place: Place, words: &[Token]) -> Option<(Basic, &[Token])>
    ensures { seen_as seen_basic result ≡ error_sent place words.now }
{
    let Some((group_at, group, colon)) = integer(words) else {
        return None;
    };
    let Some((_, behind)) = past_symbol(colon, Symbol::Colon) else {
        return None;
    };
    let Some((number_at, number, close)) = integer(behind) else {
        return None;
    };
    let Some((_, end)) = past_symbol(close, Symbol::RightParenthesis) else {
        return None;
    };
    let Some((_, rest)) = past_symbol(end, Symbol::Semicolon) else {
        return None;
    };
    let whole = Basic::SendError {
        place,
        group_at,
        group,
        number_at,
        number,
    };
    Some((whole, rest))
}
