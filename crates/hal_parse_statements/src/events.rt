//! Events, and what answers an error.

ghost use Rattle.std.specs.Prelude.{◌≡◌, Some};
ghost use Rattle.std.specs.Option.{option_map};
ghost use Rattle.hal_words.specs.declared.word.Symbol.TheVariants as symbol;
ghost use Rattle.hal_tree.specs.SeenStatements.{seen_action, seen_event, seen_response};
ghost use Rattle.hal_parse_expr.specs.Reading.{before_symbol, made_of};
ghost use Rattle.hal_parse_expr.specs.Seen.{seen_as};
ghost use Rattle.hal_parse_statements.specs.ReadingStatements.{action_of, event_at, event_end_at, response_at};

use hal_parse_expr::{name, past, past_symbol};
use hal_tree::{EventAction, EventChange, Response};
use hal_words::{Reserved, Symbol, Token, Word};

/// What a word does to an event.
#[tactic(auto, unfolding(crate::specs::ReadingStatements::action_of))]
fn action_of(word: &Word) -> Option<EventAction>
    ensures { option_map seen_action result ≡ action_of word.now }
{
    match word {
        Word::Reserved(Reserved::Signal) => Some(EventAction::Signal),
        Word::Reserved(Reserved::Set) => Some(EventAction::Set),
        Word::Reserved(Reserved::Reset) => Some(EventAction::Reset),
        _ => None,
    }
}

/// SIGNAL, SET or RESET and a name.
#[tactic(auto, unfolding(crate::specs::ReadingStatements::event_at, crate::specs::ReadingStatements::event_behind, hal_parse_expr::specs::Reading::made_of, hal_parse_expr::specs::Seen::seen_as))]
fn event(words: &[Token]) -> Option<(EventChange, &[Token])>
    ensures { seen_as seen_event result ≡ event_at words.now }
{
    let Some((first, behind)) = words.split_first() else {
        return None;
    };
    let Some(action) = action_of(&first.word) else {
        return None;
    };
    let Some((name, rest)) = name(behind) else {
        return None;
    };
    let event = EventChange {
        place: first.place,
        action,
        name,
    };
    Some((event, rest))
}

/// AND and an event, or none, and a semicolon.
#[tactic(auto, unfolding(crate::specs::ReadingStatements::event_end_at, hal_parse_expr::specs::Reading::decided, hal_parse_expr::specs::Reading::made_of, hal_parse_expr::specs::Seen::seen_as, hal_parse_expr::specs::Seen::seen))]
pub(crate) fn event_end(words: &[Token]) -> Option<(Option<EventChange>, &[Token])>
    ensures { seen_as (option_map seen_event) result ≡ event_end_at words.now }
{
    if let Some((_, rest)) = past(words, Reserved::And) {
        return last_event(rest);
    }
    let Some((_, rest)) = past_symbol(words, Symbol::Semicolon) else {
        return None;
    };
    Some((None, rest))
}

/// An event and a semicolon.
#[tactic(auto, unfolding(hal_parse_expr::specs::Reading::before_symbol, hal_parse_expr::specs::Reading::followed, hal_parse_expr::specs::Reading::made_of, hal_parse_expr::specs::Seen::seen_as, hal_parse_expr::specs::Seen::seen))]
fn last_event(words: &[Token]) -> Option<(Option<EventChange>, &[Token])>
    ensures { seen_as (option_map seen_event) result ≡ made_of (λ e. Some e) (before_symbol symbol.Semicolon (event_at words.now)) }
{
    let Some((event, end)) = event(words) else {
        return None;
    };
    let Some((_, rest)) = past_symbol(end, Symbol::Semicolon) else {
        return None;
    };
    Some((Some(event), rest))
}

/// SYSTEM or IGNORE.
#[tactic(auto, unfolding(crate::specs::ReadingStatements::response_at, hal_parse_expr::specs::Reading::decided, hal_parse_expr::specs::Reading::made_of, hal_parse_expr::specs::Seen::seen_as, hal_parse_expr::specs::Seen::seen))]
pub(crate) fn response(words: &[Token]) -> Option<(Response, &[Token])>
    ensures { seen_as seen_response result ≡ response_at words.now }
{
    if let Some((_, rest)) = past(words, Reserved::System) {
        return Some((Response::System, rest));
    }
    let Some((_, rest)) = past(words, Reserved::Ignore) else {
        return None;
    };
    Some((Response::Ignore, rest))
}
