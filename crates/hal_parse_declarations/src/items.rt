//! What a declaration declares: names with their attributes, and the parts of a structure.

ghost use Rattle.std.specs.Prelude.{◌≡◌, IfOk};
ghost use Rattle.hal_tree.specs.SeenDeclarations.{seen_declared, seen_part};
ghost use Rattle.hal_parse_expr.specs.Reading.{after_comma, made_of, parted};
ghost use Rattle.hal_parse_expr.specs.Seen.{seen_as, seen_as_list};
ghost use Rattle.hal_parse_declarations.specs.ReadingDeclarations.{declared_at, first_and_others, items_at, part_at, parts_at};

use crate::attributes::attributes;
use hal_parse_expr::{found, integer, name, past_symbol};
use hal_tree::{Declared, Part};
use hal_words::{Symbol, Token};
use std::alloc::{AllocError, Global};

/// A name and its attributes.
#[tactic(auto, using(hal_tree::proofs::MadeDeclarations::made_declared), unfolding(crate::specs::ReadingDeclarations::declared_at, hal_parse_expr::specs::Reading::followed, hal_parse_expr::specs::Seen::seen_as, hal_parse_expr::specs::Seen::seen_list))]
fn declared(
    alloc: Global,
    words: &[Token],
    depth: u32,
) -> Result<Option<(Declared, &[Token])>, AllocError>
    ensures { IfOk result (λ found. seen_as seen_declared found ≡ declared_at depth words.now) }
{
    let Some((name, behind)) = name(words) else {
        return Ok(None);
    };
    let (attributes, rest) = attributes(alloc, behind, depth)?;
    Ok(Some((Declared { name, attributes }, rest)))
}

/// A level, a name and its attributes.
#[tactic(auto, using(hal_tree::proofs::MadeDeclarations::made_part), unfolding(crate::specs::ReadingDeclarations::part_at, hal_parse_expr::specs::Reading::followed, hal_parse_expr::specs::Seen::seen_as, hal_parse_expr::specs::Seen::seen_placed, hal_parse_expr::specs::Seen::seen_list))]
fn part(alloc: Global, words: &[Token], depth: u32) -> Result<Option<(Part, &[Token])>, AllocError>
    ensures { IfOk result (λ found. seen_as seen_part found ≡ part_at depth words.now) }
{
    let Some((place, level, second)) = integer(words) else {
        return Ok(None);
    };
    let Some((name, third)) = name(second) else {
        return Ok(None);
    };
    let (attributes, rest) = attributes(alloc, third, depth)?;
    let part = Part {
        place,
        level,
        name,
        attributes,
    };
    Ok(Some((part, rest)))
}

/// A comma, a name and its attributes.
#[tactic(auto, unfolding(hal_parse_expr::specs::Reading::after_comma, hal_parse_expr::specs::Reading::followed, hal_parse_expr::specs::Seen::seen_as, hal_parse_expr::specs::Seen::seen))]
fn further_declared(
    alloc: Global,
    words: &[Token],
    depth: u32,
) -> Result<Option<(Declared, &[Token])>, AllocError>
    ensures { IfOk result (λ found. seen_as seen_declared found ≡ after_comma (declared_at depth) words.now) }
{
    let Some((_, rest)) = past_symbol(words, Symbol::Comma) else {
        return Ok(None);
    };
    declared(alloc, rest, depth)
}

/// A comma and a part.
#[tactic(auto, unfolding(hal_parse_expr::specs::Reading::after_comma, hal_parse_expr::specs::Reading::followed, hal_parse_expr::specs::Seen::seen_as, hal_parse_expr::specs::Seen::seen))]
fn further_part(
    alloc: Global,
    words: &[Token],
    depth: u32,
) -> Result<Option<(Part, &[Token])>, AllocError>
    ensures { IfOk result (λ found. seen_as seen_part found ≡ after_comma (part_at depth) words.now) }
{
    let Some((_, rest)) = past_symbol(words, Symbol::Comma) else {
        return Ok(None);
    };
    part(alloc, rest, depth)
}

/// One name or more with their attributes, parted by commas.
#[tactic(auto, using(crate::proofs::CodeLists::no_list, crate::proofs::CodeLists::list_read), unfolding(hal_parse_expr::specs::Seen::seen_as, hal_parse_expr::specs::Seen::seen_as_list))]
fn item_list(
    alloc: Global,
    words: &[Token],
    depth: u32,
) -> Result<Option<(Vec<Declared>, &[Token])>, AllocError>
    ensures { IfOk result (λ found. seen_as_list seen_declared (λ xs. xs) found ≡ made_of first_and_others (parted (declared_at depth) words.now)) }
{
    let Some((first, behind)) = declared(alloc, words, depth)? else {
        return Ok(None);
    };
    let mut list = Vec::new(alloc);
    list.push(first)?;
    let mut rest = behind;
    'list: while let Some((next, after)) = further_declared(alloc, rest, depth)? {
        list.push(next)?;
        rest = after;
    }
    Ok(Some((list, rest)))
}

/// One part or more, parted by commas.
#[tactic(auto, using(crate::proofs::CodeLists::no_list, crate::proofs::CodeLists::list_read), unfolding(hal_parse_expr::specs::Seen::seen_as, hal_parse_expr::specs::Seen::seen_as_list))]
fn part_list(
    alloc: Global,
    words: &[Token],
    depth: u32,
) -> Result<Option<(Vec<Part>, &[Token])>, AllocError>
    ensures { IfOk result (λ found. seen_as_list seen_part (λ xs. xs) found ≡ made_of first_and_others (parted (part_at depth) words.now)) }
{
    let Some((first, behind)) = part(alloc, words, depth)? else {
        return Ok(None);
    };
    let mut list = Vec::new(alloc);
    list.push(first)?;
    let mut rest = behind;
    'list: while let Some((next, after)) = further_part(alloc, rest, depth)? {
        list.push(next)?;
        rest = after;
    }
    Ok(Some((list, rest)))
}

/// The names of a declaration with their attributes, and its semicolon.
#[tactic(auto, unfolding(crate::specs::ReadingDeclarations::items_at, hal_parse_expr::specs::Reading::before_symbol, hal_parse_expr::specs::Reading::followed, hal_parse_expr::specs::Reading::made_of, hal_parse_expr::specs::Seen::seen_as_list, hal_parse_expr::specs::Seen::seen))]
pub(crate) fn items(
    alloc: Global,
    words: &[Token],
    depth: u32,
) -> Result<Option<(Vec<Declared>, &[Token])>, AllocError>
    ensures { IfOk result (λ found. seen_as_list seen_declared (λ xs. xs) found ≡ items_at depth words.now) }
{
    let (items, end) = found!(item_list(alloc, words, depth));
    let Some((_, rest)) = past_symbol(end, Symbol::Semicolon) else {
        return Ok(None);
    };
    Ok(Some((items, rest)))
}

/// The parts of a structure, and its semicolon.
#[tactic(auto, unfolding(crate::specs::ReadingDeclarations::parts_at, hal_parse_expr::specs::Reading::before_symbol, hal_parse_expr::specs::Reading::followed, hal_parse_expr::specs::Reading::made_of, hal_parse_expr::specs::Seen::seen_as_list, hal_parse_expr::specs::Seen::seen))]
pub(crate) fn parts(
    alloc: Global,
    words: &[Token],
    depth: u32,
) -> Result<Option<(Vec<Part>, &[Token])>, AllocError>
    ensures { IfOk result (λ found. seen_as_list seen_part (λ xs. xs) found ≡ parts_at depth words.now) }
{
    let (parts, end) = found!(part_list(alloc, words, depth));
    let Some((_, rest)) = past_symbol(end, Symbol::Semicolon) else {
        return Ok(None);
    };
    Ok(Some((parts, rest)))
}
