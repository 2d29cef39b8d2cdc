//! References: a name, further names, and a subscript or none.

ghost use Rattle.std.specs.Prelude.{◌≡◌, IfOk};
ghost use Rattle.hal_tree.specs.SeenExpressions.{seen_reference, seen_subscript};
ghost use Rattle.hal_parse_expr.specs.ReadingExpressions.{deeper_than, reference_at, reference_behind, subscript_behind, subscript_of, subscript_or_none, primary_at, enclosed_parts};
ghost use Rattle.hal_parse_expr.specs.Seen.{seen_as};

use crate::found;
use crate::leading::past_symbol;
use crate::leaves::{further_names, integer, name};
use crate::subscripts::{Parts, three_parts};
use hal_base::Place;
use hal_tree::{Reference, Subscript};
use hal_words::{Name, Symbol, Token};
use std::alloc::{AllocError, Global};

/// What stands behind the first name of a reference.
#[cycle(expressions)]
#[tactic(auto, using(hal_tree::proofs::MadeExpressions::made_reference), unfolding(crate::specs::ReadingExpressions::reference_behind, crate::specs::Reading::made_of, crate::specs::Seen::seen_as, crate::specs::Seen::seen_list))]
pub(crate) fn reference_behind(
    alloc: Global,
    place: Place,
    name: Name,
    words: &[Token],
    depth: u32,
) -> Result<Option<(Reference, &[Token])>, AllocError>
    ensures { IfOk result (λ found. seen_as seen_reference found ≡ reference_behind (deeper_than depth) place name words.now) }
{
    let (further, middle) = further_names(alloc, words)?;
    let (subscript, rest) = found!(subscript_or_none(alloc, middle, depth));
    let whole = Reference {
        place,
        name,
        further,
        subscript,
    };
    Ok(Some((whole, rest)))
}

/// A subscript, or none.
#[cycle(expressions)]
#[tactic(auto, using(hal_tree::proofs::MadeExpressions::made_unsubscripted), unfolding(crate::specs::ReadingExpressions::subscript_or_none, crate::specs::Reading::or_else, crate::specs::Seen::seen_as))]
fn subscript_or_none(
    alloc: Global,
    words: &[Token],
    depth: u32,
) -> Result<Option<(Subscript, &[Token])>, AllocError>
    ensures { IfOk result (λ found. seen_as seen_subscript found ≡ subscript_or_none (deeper_than depth) words.now) }
{
    if let Some((subscript, rest)) = subscript(alloc, words, depth)? {
        return Ok(Some((subscript, rest)));
    }
    Ok(Some((Subscript::None, words)))
}

/// A subscript.
#[cycle(expressions)]
#[tactic(auto, using(crate::proofs::Depths::deeper_none, crate::proofs::Depths::deeper_some), unfolding(crate::specs::ReadingExpressions::subscript_of, crate::specs::Reading::followed, crate::specs::Seen::seen_as, crate::specs::Seen::seen))]
fn subscript(
    alloc: Global,
    words: &[Token],
    depth: u32,
) -> Result<Option<(Subscript, &[Token])>, AllocError>
    ensures { IfOk result (λ found. seen_as seen_subscript found ≡ subscript_of (deeper_than depth) words.now) }
{
    if depth == 0 {
        return Ok(None);
    }
    let Some((place, rest)) = past_symbol(words, Symbol::Dollar) else {
        return Ok(None);
    };
    subscript_behind(alloc, place, rest, depth - 1)
}

/// What stands behind `$`.
#[cycle(expressions)]
#[tactic(auto, using(hal_tree::proofs::MadeExpressions::made_by_name, hal_tree::proofs::MadeExpressions::made_by_integer), unfolding(crate::specs::ReadingExpressions::subscript_behind, crate::specs::Reading::made_of, crate::specs::Reading::or_else, crate::specs::Seen::seen_as, crate::specs::Seen::seen_placed))]
fn subscript_behind(
    alloc: Global,
    place: Place,
    words: &[Token],
    depth: u32,
) -> Result<Option<(Subscript, &[Token])>, AllocError>
    ensures { IfOk result (λ found. seen_as seen_subscript found ≡ subscript_behind (primary_at depth) place words.now) }
{
    if let Some((name, rest)) = name(words) {
        return Ok(Some((Subscript::Name { place, name }, rest)));
    }
    if let Some((at, number, rest)) = integer(words) {
        return Ok(Some((Subscript::Integer { place, at, number }, rest)));
    }
    enclosed_parts(alloc, place, words, depth)
}

/// A list of subscripts in parentheses.
#[cycle(expressions)]
#[tactic(auto, using(hal_tree::proofs::MadeExpressions::made_by_parts), unfolding(crate::specs::ReadingExpressions::enclosed_parts, crate::specs::Reading::followed, crate::specs::Reading::made_of, crate::specs::Seen::seen_as, crate::specs::Seen::seen, crate::specs::SeenParts::seen_parts))]
fn enclosed_parts(
    alloc: Global,
    place: Place,
    words: &[Token],
    depth: u32,
) -> Result<Option<(Subscript, &[Token])>, AllocError>
    ensures { IfOk result (λ found. seen_as seen_subscript found ≡ enclosed_parts (primary_at depth) place words.now) }
{
    let Some((_, inside)) = past_symbol(words, Symbol::LeftParenthesis) else {
        return Ok(None);
    };
    let (parts, rest) = found!(three_parts(alloc, inside, depth));
    let Parts {
        copies,
        arrays,
        components,
    } = parts;
    let whole = Subscript::Parts {
        place,
        copies,
        arrays,
        components,
    };
    Ok(Some((whole, rest)))
}
