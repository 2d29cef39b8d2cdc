//! Names one after another, and names with what ends them.

ghost use Rattle.std.specs.Prelude.{◌≡◌, Some, IfOk};
ghost use Rattle.std.specs.Option.{option_map};
ghost use Rattle.hal_words.specs.declared.word.Symbol.TheVariants as symbol;
ghost use Rattle.hal_tree.specs.SeenLeaves.{seen_name};
ghost use Rattle.hal_parse_expr.specs.Reading.{after_comma, made_of, name_at, past_symbol};
ghost use Rattle.hal_parse_expr.specs.Seen.{seen_as, seen_as_list, seen_list};
ghost use Rattle.hal_parse_declarations.specs.ReadingDeclarations.{label_at, name_end_at, names_at};
ghost use Rattle.hal_parse_declarations.specs.ReadingNames.{labels_at, name_option_at, names_end_at};

use hal_parse_expr::{found, name, past_symbol};
use hal_tree::Identifier;
use hal_words::{Symbol, Token};
use std::alloc::{AllocError, Global};

/// One name or more, parted by commas.
#[tactic(auto, using(crate::proofs::CodeLists::no_list, crate::proofs::CodeLists::list_read), unfolding(crate::specs::ReadingDeclarations::names_at, hal_parse_expr::specs::Seen::seen_as, hal_parse_expr::specs::Seen::seen_as_list))]
pub fn read_names(
    alloc: Global,
    words: &[Token],
) -> Result<Option<(Vec<Identifier>, &[Token])>, AllocError>
    ensures { IfOk result (λ found. seen_as_list seen_name (λ xs. xs) found ≡ names_at words.now) }
{
    let Some((first, behind)) = name(words) else {
        return Ok(None);
    };
    let mut list = Vec::new(alloc);
    list.push(first)?;
    let mut rest = behind;
    'list: while let Some((next, after)) = further_name(rest) {
        list.push(next)?;
        rest = after;
    }
    Ok(Some((list, rest)))
}

/// A comma and a name.
#[tactic(auto, unfolding(hal_parse_expr::specs::Reading::after_comma, hal_parse_expr::specs::Reading::followed, hal_parse_expr::specs::Seen::seen_as, hal_parse_expr::specs::Seen::seen))]
fn further_name(words: &[Token]) -> Option<(Identifier, &[Token])>
    ensures { seen_as seen_name result ≡ after_comma name_at words.now }
{
    let Some((_, rest)) = past_symbol(words, Symbol::Comma) else {
        return None;
    };
    name(rest)
}

/// A name or none, and a semicolon.
#[tactic(auto, unfolding(crate::specs::ReadingDeclarations::name_end_at, hal_parse_expr::specs::Reading::decided, hal_parse_expr::specs::Reading::made_of, hal_parse_expr::specs::Seen::seen_as, hal_parse_expr::specs::Seen::seen))]
pub fn name_end(words: &[Token]) -> Option<(Option<Identifier>, &[Token])>
    ensures { seen_as (option_map seen_name) result ≡ name_end_at words.now }
{
    if let Some((name, end)) = name(words) {
        return closed_name(name, end);
    }
    let Some((_, rest)) = past_symbol(words, Symbol::Semicolon) else {
        return None;
    };
    Some((None, rest))
}

/// The semicolon behind a name.
#[tactic(auto, unfolding(hal_parse_expr::specs::Reading::made_of, hal_parse_expr::specs::Seen::seen_as, hal_parse_expr::specs::Seen::seen))]
fn closed_name(name: Identifier, words: &[Token]) -> Option<(Option<Identifier>, &[Token])>
    ensures { seen_as (option_map seen_name) result ≡ made_of (λ p. Some (seen_name name)) (past_symbol symbol.Semicolon words.now) }
{
    let Some((_, rest)) = past_symbol(words, Symbol::Semicolon) else {
        return None;
    };
    Some((Some(name), rest))
}

/// Names and a semicolon, or a semicolon alone.
#[tactic(auto, unfolding(crate::specs::ReadingNames::names_end_at, hal_parse_expr::specs::Reading::decided, hal_parse_expr::specs::Reading::before_symbol, hal_parse_expr::specs::Reading::followed, hal_parse_expr::specs::Reading::made_of, hal_parse_expr::specs::Seen::seen_as_list, hal_parse_expr::specs::Seen::seen))]
pub fn names_end(
    alloc: Global,
    words: &[Token],
) -> Result<Option<(Vec<Identifier>, &[Token])>, AllocError>
    ensures { IfOk result (λ found. seen_as_list seen_name (λ xs. xs) found ≡ names_end_at words.now) }
{
    if let Some((_, rest)) = past_symbol(words, Symbol::Semicolon) {
        return Ok(Some((Vec::new(alloc), rest)));
    }
    let (names, end) = found!(read_names(alloc, words));
    let Some((_, rest)) = past_symbol(end, Symbol::Semicolon) else {
        return Ok(None);
    };
    Ok(Some((names, rest)))
}

/// A name or none.
#[tactic(auto, unfolding(crate::specs::ReadingNames::name_option_at, hal_parse_expr::specs::Reading::decided, hal_parse_expr::specs::Seen::seen_as))]
pub fn name_option(words: &[Token]) -> (Option<Identifier>, &[Token])
    ensures { Some (option_map seen_name result.0, result.1.now) ≡ name_option_at words.now }
{
    match name(words) {
        Some((name, rest)) => (Some(name), rest),
        None => (None, words),
    }
}

/// A name and a colon.
#[tactic(auto, unfolding(crate::specs::ReadingDeclarations::label_at, hal_parse_expr::specs::Reading::followed, hal_parse_expr::specs::Reading::made_of, hal_parse_expr::specs::Seen::seen_as, hal_parse_expr::specs::Seen::seen))]
pub fn label(words: &[Token]) -> Option<(Identifier, &[Token])>
    ensures { seen_as seen_name result ≡ label_at words.now }
{
    let Some((name, end)) = name(words) else {
        return None;
    };
    let Some((_, rest)) = past_symbol(end, Symbol::Colon) else {
        return None;
    };
    Some((name, rest))
}

/// As many labels as there are.
#[tactic(auto, unfolding(crate::specs::ReadingNames::labels_at, hal_parse_expr::specs::Seen::seen_list))]
pub fn labels(alloc: Global, words: &[Token]) -> Result<(Vec<Identifier>, &[Token]), AllocError>
    ensures { IfOk result (λ found. seen_list seen_name found ≡ labels_at words.now) }
{
    let mut labels = Vec::new(alloc);
    let mut rest = words;
    'labels: while let Some((next, after)) = label(rest) {
        labels.push(next)?;
        rest = after;
    }
    Ok((labels, rest))
}
