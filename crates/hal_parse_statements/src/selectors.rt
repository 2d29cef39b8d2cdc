//! Which errors a statement means.

ghost use Rattle.std.specs.Prelude.{◌≡◌, Some};
ghost use Rattle.hal_tree.specs.SeenStatements.{seen_selector};
ghost use Rattle.hal_parse_expr.specs.Seen.{seen_as};
ghost use Rattle.hal_parse_declarations.specs.ReadingDeclarations.{in_parentheses};
ghost use Rattle.hal_parse_statements.specs.ReadingStatements.{error_group, error_number, selector_at, selector_behind};

use hal_base::Place;
use hal_parse_expr::{integer, past_symbol};
use hal_tree::Selector;
use hal_words::{Symbol, Token};

/// Which errors are meant.
#[tactic(auto, unfolding(crate::specs::ReadingStatements::selector_at, hal_parse_expr::specs::Reading::decided, hal_parse_expr::specs::Seen::seen_as, hal_parse_expr::specs::Seen::seen))]
pub(crate) fn selector(words: &[Token]) -> Option<(Selector, &[Token])>
    ensures { seen_as seen_selector result ≡ selector_at words.now }
{
    let Some((place, rest)) = past_symbol(words, Symbol::Dollar) else {
        return Some((Selector::Every, words));
    };
    selector_behind(place, rest)
}

/// Behind `$`: a group, or what is in parentheses.
#[tactic(auto, unfolding(crate::specs::ReadingStatements::selector_behind, hal_parse_expr::specs::Reading::decided, hal_parse_expr::specs::Seen::seen_as, hal_parse_expr::specs::Seen::seen_placed))]
fn selector_behind(place: Place, words: &[Token]) -> Option<(Selector, &[Token])>
    ensures { seen_as seen_selector result ≡ selector_behind place words.now }
{
    let Some((group_at, group, rest)) = integer(words) else {
        return enclosed_group(place, words);
    };
    Some((
        Selector::Group {
            place,
            group_at,
            group,
        },
        rest,
    ))
}

/// A group of errors in parentheses, and what follows its colon, if there is one.
#[tactic(auto, unfolding(hal_parse_declarations::specs::ReadingDeclarations::in_parentheses, hal_parse_expr::specs::Reading::before_symbol, hal_parse_expr::specs::Reading::followed, hal_parse_expr::specs::Reading::made_of, hal_parse_expr::specs::Seen::seen_as, hal_parse_expr::specs::Seen::seen))]
fn enclosed_group(place: Place, words: &[Token]) -> Option<(Selector, &[Token])>
    ensures { seen_as seen_selector result ≡ in_parentheses (error_group place) words.now }
{
    let Some((_, inside)) = past_symbol(words, Symbol::LeftParenthesis) else {
        return None;
    };
    let Some((selector, end)) = error_group(place, inside) else {
        return None;
    };
    let Some((_, rest)) = past_symbol(end, Symbol::RightParenthesis) else {
        return None;
    };
    Some((selector, rest))
}

/// A group of errors, and a colon and what follows it, or none.
#[tactic(auto, unfolding(crate::specs::ReadingStatements::error_group, hal_parse_expr::specs::Reading::followed, hal_parse_expr::specs::Reading::decided, hal_parse_expr::specs::Seen::seen_as, hal_parse_expr::specs::Seen::seen, hal_parse_expr::specs::Seen::seen_placed))]
fn error_group(place: Place, words: &[Token]) -> Option<(Selector, &[Token])>
    ensures { seen_as seen_selector result ≡ error_group place words.now }
{
    let Some((group_at, group, behind)) = integer(words) else {
        return None;
    };
    let Some((_, rest)) = past_symbol(behind, Symbol::Colon) else {
        let whole = Selector::Group {
            place,
            group_at,
            group,
        };
        return Some((whole, behind));
    };
    Some(error_number(place, group_at, group, rest))
}

/// Behind the colon of a group of errors: `*`, a number, or nothing.
#[tactic(auto, unfolding(crate::specs::ReadingStatements::error_number, hal_parse_expr::specs::Reading::decided, hal_parse_expr::specs::Seen::seen, hal_parse_expr::specs::Seen::seen_placed))]
fn error_number(place: Place, group_at: Place, group: u32, words: &[Token]) -> (Selector, &[Token])
    ensures { Some (seen_selector result.0, result.1.now) ≡ error_number place group_at group words.now }
{
    let whole = Selector::Group {
        place,
        group_at,
        group,
    };
    if let Some((_, rest)) = past_symbol(words, Symbol::Star) {
        return (whole, rest);
    }
    match integer(words) {
        Some((number_at, number, rest)) => (
            Selector::One {
                place,
                group_at,
                group,
                number_at,
                number,
            },
            rest,
        ),
        None => (whole, words),
    }
}
