//! Declarations.

ghost use Rattle.std.specs.Prelude.{◌≡◌, map, IfOk};
ghost use Rattle.hal_grammar.specs.Declarations.{Declare};
ghost use Rattle.hal_tree.specs.SeenDeclarations.{seen_attribute, seen_declaration};
ghost use Rattle.hal_parse_expr.specs.Reading.{made_of};
ghost use Rattle.hal_parse_expr.specs.Seen.{seen_as, seen_list};
ghost use Rattle.hal_parse_declarations.specs.ReadingDeclarations.{declaration_at, declarations_at, declare_behind, items_at, items_behind, template_behind};

use crate::attributes::attributes;
use crate::items::{items, parts};
use crate::names::label;
use hal_base::Place;
use hal_parse_expr::{found, past, past_symbol};
use hal_tree::{Attribute, Declaration};
use hal_words::{Reserved, Symbol, Token};
use std::alloc::{AllocError, Global};

/// A declaration.
#[tactic(auto, unfolding(crate::specs::ReadingDeclarations::declaration_at, hal_parse_expr::specs::Reading::decided, hal_parse_expr::specs::Reading::followed, hal_parse_expr::specs::Seen::seen_as, hal_parse_expr::specs::Seen::seen))]
fn declaration(
    alloc: Global,
    words: &[Token],
    depth: u32,
) -> Result<Option<(Declaration, &[Token])>, AllocError>
    ensures { IfOk result (λ found. seen_as seen_declaration found ≡ declaration_at depth words.now) }
{
    if let Some((place, rest)) = past(words, Reserved::Declare) {
        return declare(alloc, place, rest, depth);
    }
    let Some((place, rest)) = past(words, Reserved::Structure) else {
        return Ok(None);
    };
    template(alloc, place, rest, depth)
}

/// Behind DECLARE.
#[tactic(auto, unfolding(crate::specs::ReadingDeclarations::declare_behind, hal_parse_expr::specs::Seen::seen_list))]
fn declare(
    alloc: Global,
    place: Place,
    words: &[Token],
    depth: u32,
) -> Result<Option<(Declaration, &[Token])>, AllocError>
    ensures { IfOk result (λ found. seen_as seen_declaration found ≡ declare_behind depth place words.now) }
{
    let (common, behind) = attributes(alloc, words, depth)?;
    declare_common(alloc, place, common, behind, depth)
}

/// Behind the attributes of all names: a comma and the names, or the names at once where there are no such attributes.
#[tactic(auto, using(crate::proofs::CodeItems::items_none, crate::proofs::CodeItems::items_some), unfolding(hal_parse_expr::specs::Reading::followed, hal_parse_expr::specs::Seen::seen_as, hal_parse_expr::specs::Seen::seen))]
fn declare_common(
    alloc: Global,
    place: Place,
    common: Vec<Attribute>,
    words: &[Token],
    depth: u32,
) -> Result<Option<(Declaration, &[Token])>, AllocError>
    ensures { IfOk result (λ found. seen_as seen_declaration found ≡ items_behind depth place (map seen_attribute common.items) words.now) }
{
    if common.is_empty() {
        return declare_items(alloc, place, common, words, depth);
    }
    let Some((_, rest)) = past_symbol(words, Symbol::Comma) else {
        return Ok(None);
    };
    declare_items(alloc, place, common, rest, depth)
}

/// The names of a declaration with their attributes, and its semicolon.
#[tactic(auto, using(hal_tree::proofs::MadeDeclarations::made_declare), unfolding(hal_parse_expr::specs::Reading::made_of, hal_parse_expr::specs::Seen::seen_as, hal_parse_expr::specs::Seen::seen_as_list))]
fn declare_items(
    alloc: Global,
    place: Place,
    common: Vec<Attribute>,
    words: &[Token],
    depth: u32,
) -> Result<Option<(Declaration, &[Token])>, AllocError>
    ensures { IfOk result (λ found. seen_as seen_declaration found ≡ made_of (λ items. Declare place (map seen_attribute common.items) items) (items_at depth words.now)) }
{
    let (items, rest) = found!(items(alloc, words, depth));
    let whole = Declaration::Declare {
        place,
        common,
        items,
    };
    Ok(Some((whole, rest)))
}

/// Behind STRUCTURE.
#[tactic(auto, using(hal_tree::proofs::MadeDeclarations::made_structure), unfolding(crate::specs::ReadingDeclarations::template_behind, hal_parse_expr::specs::Reading::followed, hal_parse_expr::specs::Reading::made_of, hal_parse_expr::specs::Seen::seen_as, hal_parse_expr::specs::Seen::seen_as_list))]
fn template(
    alloc: Global,
    place: Place,
    words: &[Token],
    depth: u32,
) -> Result<Option<(Declaration, &[Token])>, AllocError>
    ensures { IfOk result (λ found. seen_as seen_declaration found ≡ template_behind depth place words.now) }
{
    let Some((name, behind)) = label(words) else {
        return Ok(None);
    };
    let (parts, rest) = found!(parts(alloc, behind, depth));
    Ok(Some((Declaration::Structure { place, name, parts }, rest)))
}

/// As many declarations as there are.
#[tactic(auto, unfolding(crate::specs::ReadingDeclarations::declarations_at, hal_parse_expr::specs::Seen::seen_list))]
pub fn read_declarations(
    alloc: Global,
    words: &[Token],
    depth: u32,
) -> Result<(Vec<Declaration>, &[Token]), AllocError>
    ensures { IfOk result (λ found. seen_list seen_declaration found ≡ declarations_at depth words.now) }
{
    let mut declarations = Vec::new(alloc);
    let mut rest = words;
    'declarations: while let Some((next, after)) = declaration(alloc, rest, depth)? {
        declarations.push(next)?;
        rest = after;
    }
    Ok((declarations, rest))
}
