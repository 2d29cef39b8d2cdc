//! The three parts of a list of subscripts.

ghost use Rattle.std.specs.Prelude.{◌≡◌, IfOk, map};
ghost use Rattle.hal_tree.specs.SeenExpressions.{seen_sub};
ghost use Rattle.hal_parse_expr.specs.Reading.{after_comma, made_of};
ghost use Rattle.hal_parse_expr.specs.ReadingExpressions.{arrays_of, arrays_then, components_of, copies_then, parts_of, primary_at, sub_of, subs_of, subscripts};
ghost use Rattle.hal_parse_expr.specs.Seen.{seen_as, seen_as_list};
ghost use Rattle.hal_parse_expr.specs.SeenParts.{seen_parts};

use crate::found;
use crate::leading::past_symbol;
use crate::positions::sub;
use hal_tree::Sub;
use hal_words::{Symbol, Token};
use std::alloc::{AllocError, Global};

/// The subscripts of copies, of array places and of places of the component.
#[derive(Drop)]
pub(crate) struct Parts {
    pub(crate) copies: Vec<Sub>,
    pub(crate) arrays: Vec<Sub>,
    pub(crate) components: Vec<Sub>,
}

/// The three parts and the parenthesis.
#[cycle(expressions)]
#[tactic(auto, unfolding(crate::specs::ReadingExpressions::parts_of, crate::specs::Reading::followed, crate::specs::Seen::seen_as, crate::specs::Seen::seen_as_list))]
pub(crate) fn three_parts(
    alloc: Global,
    words: &[Token],
    depth: u32,
) -> Result<Option<(Parts, &[Token])>, AllocError>
    ensures { IfOk result (λ found. seen_as seen_parts found ≡ parts_of (primary_at depth) words.now) }
{
    let (first, rest) = found!(subs(alloc, words, depth));
    copies_then(alloc, first, rest, depth)
}

/// Behind the first subscripts: a semicolon and the other parts, or they are of a later part.
#[cycle(expressions)]
#[tactic(auto, unfolding(crate::specs::ReadingExpressions::copies_then, crate::specs::ReadingExpressions::subscripts, crate::specs::Reading::decided, crate::specs::Seen::seen))]
fn copies_then(
    alloc: Global,
    first: Vec<Sub>,
    words: &[Token],
    depth: u32,
) -> Result<Option<(Parts, &[Token])>, AllocError>
    ensures { IfOk result (λ found. seen_as seen_parts found ≡ copies_then (primary_at depth) (subscripts (map seen_sub first.items)) words.now) }
{
    let Some((_, rest)) = past_symbol(words, Symbol::Semicolon) else {
        let copies = Vec::new(alloc);
        return arrays_then(alloc, copies, first, words, depth);
    };
    arrays(alloc, first, rest, depth)
}

/// The second and the third part and the parenthesis.
#[cycle(expressions)]
#[tactic(auto, unfolding(crate::specs::ReadingExpressions::arrays_of, crate::specs::ReadingExpressions::subscripts, crate::specs::Reading::followed, crate::specs::Reading::made_of, crate::specs::Reading::or_else, crate::specs::Seen::seen, crate::specs::Seen::seen_as, crate::specs::Seen::seen_as_list, crate::specs::SeenParts::seen_parts))]
fn arrays(
    alloc: Global,
    copies: Vec<Sub>,
    words: &[Token],
    depth: u32,
) -> Result<Option<(Parts, &[Token])>, AllocError>
    ensures { IfOk result (λ found. seen_as seen_parts found ≡ arrays_of (primary_at depth) (subscripts (map seen_sub copies.items)) words.now) }
{
    if let Some((_, rest)) = past_symbol(words, Symbol::RightParenthesis) {
        let whole = Parts {
            copies,
            arrays: Vec::new(alloc),
            components: Vec::new(alloc),
        };
        return Ok(Some((whole, rest)));
    }
    let (list, rest) = found!(subs(alloc, words, depth));
    arrays_then(alloc, copies, list, rest, depth)
}

/// Behind subscripts of the second or the third part: a colon and the third part, or the parenthesis.
#[cycle(expressions)]
#[tactic(auto, unfolding(crate::specs::ReadingExpressions::arrays_then, crate::specs::ReadingExpressions::subscripts, crate::specs::Reading::decided, crate::specs::Reading::made_of, crate::specs::Seen::seen, crate::specs::Seen::seen_as, crate::specs::Seen::seen_as_list, crate::specs::SeenParts::seen_parts))]
fn arrays_then(
    alloc: Global,
    copies: Vec<Sub>,
    list: Vec<Sub>,
    words: &[Token],
    depth: u32,
) -> Result<Option<(Parts, &[Token])>, AllocError>
    ensures { IfOk result (λ found. seen_as seen_parts found ≡ arrays_then (primary_at depth) (subscripts (map seen_sub copies.items)) (subscripts (map seen_sub list.items)) words.now) }
{
    if let Some((_, middle)) = past_symbol(words, Symbol::Colon) {
        return with_components(alloc, copies, list, middle, depth);
    }
    let Some((_, rest)) = past_symbol(words, Symbol::RightParenthesis) else {
        return Ok(None);
    };
    let whole = Parts {
        copies,
        arrays: Vec::new(alloc),
        components: list,
    };
    Ok(Some((whole, rest)))
}

/// The third part behind the two others.
#[cycle(expressions)]
#[tactic(auto, unfolding(crate::specs::Reading::made_of, crate::specs::Seen::seen_as, crate::specs::Seen::seen_as_list, crate::specs::SeenParts::seen_parts))]
fn with_components(
    alloc: Global,
    copies: Vec<Sub>,
    arrays: Vec<Sub>,
    words: &[Token],
    depth: u32,
) -> Result<Option<(Parts, &[Token])>, AllocError>
    ensures { IfOk result (λ found. seen_as seen_parts found
        ≡ made_of (λ ys. (subscripts (map seen_sub copies.items), subscripts (map seen_sub arrays.items), ys)) (components_of (primary_at depth) words.now)) }
{
    let (components, rest) = found!(components(alloc, words, depth));
    let whole = Parts {
        copies,
        arrays,
        components,
    };
    Ok(Some((whole, rest)))
}

/// The third part and the parenthesis, or the parenthesis alone.
#[cycle(expressions)]
#[tactic(auto, unfolding(crate::specs::ReadingExpressions::components_of, crate::specs::ReadingExpressions::subscripts, crate::specs::Reading::or_else, crate::specs::Reading::before_symbol, crate::specs::Reading::followed, crate::specs::Reading::made_of, crate::specs::Seen::seen, crate::specs::Seen::seen_as_list))]
fn components(
    alloc: Global,
    words: &[Token],
    depth: u32,
) -> Result<Option<(Vec<Sub>, &[Token])>, AllocError>
    ensures { IfOk result (λ found. seen_as_list seen_sub subscripts found ≡ components_of (primary_at depth) words.now) }
{
    if let Some((_, rest)) = past_symbol(words, Symbol::RightParenthesis) {
        return Ok(Some((Vec::new(alloc), rest)));
    }
    let (list, end) = found!(subs(alloc, words, depth));
    let Some((_, rest)) = past_symbol(end, Symbol::RightParenthesis) else {
        return Ok(None);
    };
    Ok(Some((list, rest)))
}

/// One subscript or more, parted by commas.
#[cycle(expressions)]
#[tactic(auto, using(crate::proofs::PartedLists::no_subs, crate::proofs::PartedLists::subs_read), unfolding(crate::specs::Seen::seen_as, crate::specs::Seen::seen_as_list))]
fn subs(
    alloc: Global,
    words: &[Token],
    depth: u32,
) -> Result<Option<(Vec<Sub>, &[Token])>, AllocError>
    ensures { IfOk result (λ found. seen_as_list seen_sub subscripts found ≡ subs_of (primary_at depth) words.now) }
{
    let Some((first, behind)) = sub(alloc, words, depth)? else {
        return Ok(None);
    };
    let mut list = Vec::new(alloc);
    list.push(first)?;
    let mut rest = behind;
    'list: while let Some((next, after)) = further_sub(alloc, rest, depth)? {
        list.push(next)?;
        rest = after;
    }
    Ok(Some((list, rest)))
}

/// A comma and a subscript.
#[cycle(expressions)]
#[tactic(auto, unfolding(crate::specs::Reading::after_comma, crate::specs::Reading::followed, crate::specs::Seen::seen_as, crate::specs::Seen::seen))]
fn further_sub(
    alloc: Global,
    words: &[Token],
    depth: u32,
) -> Result<Option<(Sub, &[Token])>, AllocError>
    ensures { IfOk result (λ found. seen_as seen_sub found ≡ after_comma (sub_of (primary_at depth)) words.now) }
{
    let Some((_, rest)) = past_symbol(words, Symbol::Comma) else {
        return Ok(None);
    };
    sub(alloc, rest, depth)
}
