//! Initial values, and counts of them.

ghost use Rattle.std.specs.Prelude.{◌≡◌, Some, IfOk};
ghost use Rattle.std.specs.Option.{option_map};
ghost use Rattle.hal_words.specs.declared.word.Symbol.TheVariants as symbol;
ghost use Rattle.hal_grammar.specs.Declarations.{ListTimes};
ghost use Rattle.hal_tree.specs.SeenDeclarations.{seen_initial};
ghost use Rattle.hal_tree.specs.SeenLeaves.{seen_literal, seen_sign};
ghost use Rattle.hal_parse_expr.specs.Reading.{after_comma, before_symbol, followed, made_of};
ghost use Rattle.hal_parse_expr.specs.Seen.{seen_as, seen_as_list, seen_placed};
ghost use Rattle.hal_parse_declarations.specs.ReadingDeclarations.{count_at, counted_value, in_parentheses, initial_of, initials, initials_at, initials_below, literal_at, opening_at, signed_value, where_left};

use hal_base::Place;
use hal_parse_expr::{found, integer, literal_of, name, past_symbol, read_expression, sign};
use hal_tree::{Initial, LiteralValue, Sign};
use hal_words::{Symbol, Token};
use std::alloc::{AllocError, Global};

/// A literal and its place.
#[tactic(auto, unfolding(crate::specs::ReadingDeclarations::literal_at, hal_parse_expr::specs::Seen::seen_placed))]
fn literal(words: &[Token]) -> Option<(Place, LiteralValue, &[Token])>
    ensures { seen_placed seen_literal result ≡ literal_at words.now }
{
    let Some((first, rest)) = words.split_first() else {
        return None;
    };
    let Some(literal) = literal_of(&first.word) else {
        return None;
    };
    Some((first.place, literal, rest))
}

/// A sign or none.
#[tactic(auto, unfolding(crate::specs::ReadingDeclarations::opening_at, hal_parse_expr::specs::Reading::decided, hal_parse_expr::specs::Seen::seen_placed))]
fn opening(words: &[Token]) -> (Option<Sign>, &[Token])
    ensures { Some (option_map seen_sign result.0, result.1.now) ≡ opening_at words.now }
{
    match sign(words) {
        Some((_, sign, rest)) => (Some(sign), rest),
        None => (None, words),
    }
}

/// An integer and `#`.
#[tactic(auto, unfolding(crate::specs::ReadingDeclarations::count_at, hal_parse_expr::specs::Reading::followed, hal_parse_expr::specs::Reading::made_of, hal_parse_expr::specs::Seen::seen_placed, hal_parse_expr::specs::Seen::seen))]
fn count(words: &[Token]) -> Option<(Place, u32, &[Token])>
    ensures { seen_placed (λ n. n) result ≡ count_at words.now }
{
    let Some((place, count, end)) = integer(words) else {
        return None;
    };
    let Some((_, rest)) = past_symbol(end, Symbol::Number) else {
        return None;
    };
    Some((place, count, rest))
}

/// Behind a count and a sign or none: a name, or a literal.
#[tactic(auto, using(hal_tree::proofs::MadeDeclarations::made_name_times, hal_tree::proofs::MadeDeclarations::made_literal_times), unfolding(crate::specs::ReadingDeclarations::signed_value, hal_parse_expr::specs::Reading::decided, hal_parse_expr::specs::Reading::made_of, hal_parse_expr::specs::Seen::seen_as, hal_parse_expr::specs::Seen::seen_placed))]
fn signed(
    place: Place,
    count: u32,
    sign: Option<Sign>,
    words: &[Token],
) -> Option<(Initial, &[Token])>
    ensures { seen_as seen_initial result ≡ signed_value place count (option_map seen_sign sign) words.now }
{
    if let Some((name, rest)) = name(words) {
        let whole = Initial::NameTimes {
            place,
            count,
            sign,
            name,
        };
        return Some((whole, rest));
    }
    let Some((at, literal, rest)) = literal(words) else {
        return None;
    };
    let whole = Initial::LiteralTimes {
        place,
        count,
        sign,
        at,
        literal,
    };
    Some((whole, rest))
}

/// Behind a count: a name or a literal with a sign or without.
#[tactic(auto, unfolding(hal_parse_expr::specs::Reading::followed))]
fn counted_leaf(place: Place, count: u32, words: &[Token]) -> Option<(Initial, &[Token])>
    ensures { seen_as seen_initial result ≡ followed (opening_at words.now) (λ s rest. signed_value place count s rest) }
{
    let (sign, rest) = opening(words);
    signed(place, count, sign, rest)
}

/// Behind a count and a parenthesis: initial values, which are one level deeper, and a parenthesis.
#[cycle(initials)]
#[tactic(auto, using(hal_tree::proofs::MadeDeclarations::made_list_times, crate::proofs::CodeInitials::values_none, crate::proofs::CodeInitials::values_some), unfolding(hal_parse_expr::specs::Reading::before_symbol, hal_parse_expr::specs::Reading::followed, hal_parse_expr::specs::Reading::made_of, hal_parse_expr::specs::Seen::seen_as, hal_parse_expr::specs::Seen::seen_as_list, hal_parse_expr::specs::Seen::seen))]
fn counted_list(
    alloc: Global,
    place: Place,
    count: u32,
    words: &[Token],
    depth: u32,
) -> Result<Option<(Initial, &[Token])>, AllocError>
    ensures { IfOk result (λ found. seen_as seen_initial found ≡ made_of (λ ts. ListTimes place count ts) (before_symbol symbol.RightParenthesis (where_left (initials_below depth) words.now))) }
{
    if depth == 0 {
        return Ok(None);
    }
    let (values, end) = found!(initials(alloc, words, depth - 1));
    let Some((_, rest)) = past_symbol(end, Symbol::RightParenthesis) else {
        return Ok(None);
    };
    let whole = Initial::ListTimes {
        place,
        count,
        values,
    };
    Ok(Some((whole, rest)))
}

/// Behind a count: what it repeats.
#[cycle(initials)]
#[tactic(auto, unfolding(crate::specs::ReadingDeclarations::counted_value, hal_parse_expr::specs::Reading::decided, hal_parse_expr::specs::Seen::seen))]
fn counted(
    alloc: Global,
    place: Place,
    count: u32,
    words: &[Token],
    depth: u32,
) -> Result<Option<(Initial, &[Token])>, AllocError>
    ensures { IfOk result (λ found. seen_as seen_initial found ≡ counted_value (initials_below depth) place count words.now) }
{
    let Some((_, inside)) = past_symbol(words, Symbol::LeftParenthesis) else {
        return Ok(counted_leaf(place, count, words));
    };
    counted_list(alloc, place, count, inside, depth)
}

/// An initial value.
#[cycle(initials)]
#[tactic(auto, using(hal_tree::proofs::MadeDeclarations::made_value), unfolding(crate::specs::ReadingDeclarations::initial_of, hal_parse_expr::specs::Reading::decided, hal_parse_expr::specs::Reading::made_of, hal_parse_expr::specs::Seen::seen_as, hal_parse_expr::specs::Seen::seen_placed))]
fn initial(
    alloc: Global,
    words: &[Token],
    depth: u32,
) -> Result<Option<(Initial, &[Token])>, AllocError>
    ensures { IfOk result (λ found. seen_as seen_initial found ≡ initial_of depth (initials_below depth) words.now) }
{
    if let Some((place, count, rest)) = count(words) {
        return counted(alloc, place, count, rest, depth);
    }
    let (value, rest) = found!(read_expression(alloc, words, depth));
    Ok(Some((Initial::Value { value }, rest)))
}

/// A comma and an initial value.
#[cycle(initials)]
#[tactic(auto, unfolding(hal_parse_expr::specs::Reading::after_comma, hal_parse_expr::specs::Reading::followed, hal_parse_expr::specs::Seen::seen_as, hal_parse_expr::specs::Seen::seen))]
fn further_initial(
    alloc: Global,
    words: &[Token],
    depth: u32,
) -> Result<Option<(Initial, &[Token])>, AllocError>
    ensures { IfOk result (λ found. seen_as seen_initial found ≡ after_comma (initial_of depth (initials_below depth)) words.now) }
{
    let Some((_, rest)) = past_symbol(words, Symbol::Comma) else {
        return Ok(None);
    };
    initial(alloc, rest, depth)
}

/// One initial value or more, parted by commas.
#[cycle(initials)]
#[tactic(auto, using(crate::proofs::CodeInitials::no_initials, crate::proofs::CodeInitials::initials_read), unfolding(hal_parse_expr::specs::Seen::seen_as, hal_parse_expr::specs::Seen::seen_as_list))]
fn initials(
    alloc: Global,
    words: &[Token],
    depth: u32,
) -> Result<Option<(Vec<Initial>, &[Token])>, AllocError>
    ensures { IfOk result (λ found. seen_as_list seen_initial initials found ≡ initials_at depth words.now) }
{
    let Some((first, behind)) = initial(alloc, words, depth)? else {
        return Ok(None);
    };
    let mut list = Vec::new(alloc);
    list.push(first)?;
    let mut rest = behind;
    'list: while let Some((next, after)) = further_initial(alloc, rest, depth)? {
        list.push(next)?;
        rest = after;
    }
    Ok(Some((list, rest)))
}

/// Initial values in parentheses.
#[tactic(auto, unfolding(crate::specs::ReadingDeclarations::in_parentheses, hal_parse_expr::specs::Reading::before_symbol, hal_parse_expr::specs::Reading::followed, hal_parse_expr::specs::Reading::made_of, hal_parse_expr::specs::Seen::seen_as_list, hal_parse_expr::specs::Seen::seen))]
pub(crate) fn enclosed_initials(
    alloc: Global,
    words: &[Token],
    depth: u32,
) -> Result<Option<(Vec<Initial>, &[Token])>, AllocError>
    ensures { IfOk result (λ found. seen_as_list seen_initial initials found ≡ in_parentheses (initials_at depth) words.now) }
{
    let Some((_, inside)) = past_symbol(words, Symbol::LeftParenthesis) else {
        return Ok(None);
    };
    let (values, end) = found!(initials(alloc, inside, depth));
    let Some((_, rest)) = past_symbol(end, Symbol::RightParenthesis) else {
        return Ok(None);
    };
    Ok(Some((values, rest)))
}
