//! How a unit is shared, and the parameters of PROCEDURE and FUNCTION.

ghost use Rattle.std.specs.Prelude.{◌≡◌, Some, IfOk};
ghost use Rattle.std.specs.Option.{option_map};
ghost use Rattle.hal_words.specs.declared.word.Symbol.TheVariants as symbol;
ghost use Rattle.hal_tree.specs.SeenLeaves.{seen_name};
ghost use Rattle.hal_tree.specs.SeenUnits.{seen_mode};
ghost use Rattle.hal_parse_expr.specs.Reading.{before_symbol, made_of, past_symbol};
ghost use Rattle.hal_parse_expr.specs.Seen.{seen_as, seen_as_list};
ghost use Rattle.hal_parse_declarations.specs.ReadingDeclarations.{names_at};
ghost use Rattle.hal_parse.specs.ReadingFiles.{inputs_at, mode_at, mode_end_at, outputs_at};

use hal_parse_declarations::read_names;
use hal_parse_expr::{past, past_symbol};
use hal_tree::{Identifier, Mode};
use hal_words::{Reserved, Symbol, Token};
use std::alloc::{AllocError, Global};

/// Names and the parenthesis behind them.
#[tactic(auto, unfolding(hal_parse_expr::specs::Reading::before_symbol, hal_parse_expr::specs::Reading::followed, hal_parse_expr::specs::Reading::made_of, hal_parse_expr::specs::Seen::seen_as_list, hal_parse_expr::specs::Seen::seen))]
fn closed_names(
    alloc: Global,
    words: &[Token],
) -> Result<Option<(Vec<Identifier>, &[Token])>, AllocError>
    ensures { IfOk result (λ found. seen_as_list seen_name (λ xs. xs) found ≡ before_symbol symbol.RightParenthesis (names_at words.now)) }
{
    let Some((names, end)) = read_names(alloc, words)? else {
        return Ok(None);
    };
    let Some((_, rest)) = past_symbol(end, Symbol::RightParenthesis) else {
        return Ok(None);
    };
    Ok(Some((names, rest)))
}

/// Names in parentheses, or none.
#[tactic(auto, unfolding(crate::specs::ReadingFiles::inputs_at, hal_parse_expr::specs::Reading::decided, hal_parse_expr::specs::Seen::seen_as_list, hal_parse_expr::specs::Seen::seen))]
pub(crate) fn inputs(
    alloc: Global,
    words: &[Token],
) -> Result<Option<(Vec<Identifier>, &[Token])>, AllocError>
    ensures { IfOk result (λ found. seen_as_list seen_name (λ xs. xs) found ≡ inputs_at words.now) }
{
    let Some((_, inside)) = past_symbol(words, Symbol::LeftParenthesis) else {
        return Ok(Some((Vec::new(alloc), words)));
    };
    closed_names(alloc, inside)
}

/// ASSIGN and names in parentheses, or none.
#[tactic(auto, unfolding(crate::specs::ReadingFiles::outputs_at, hal_parse_declarations::specs::ReadingDeclarations::in_parentheses, hal_parse_expr::specs::Reading::decided, hal_parse_expr::specs::Reading::followed, hal_parse_expr::specs::Seen::seen_as_list, hal_parse_expr::specs::Seen::seen))]
pub(crate) fn outputs(
    alloc: Global,
    words: &[Token],
) -> Result<Option<(Vec<Identifier>, &[Token])>, AllocError>
    ensures { IfOk result (λ found. seen_as_list seen_name (λ xs. xs) found ≡ outputs_at words.now) }
{
    let Some((_, behind)) = past(words, Reserved::Assign) else {
        return Ok(Some((Vec::new(alloc), words)));
    };
    let Some((_, inside)) = past_symbol(behind, Symbol::LeftParenthesis) else {
        return Ok(None);
    };
    closed_names(alloc, inside)
}

/// REENTRANT or EXCLUSIVE.
#[tactic(auto, unfolding(crate::specs::ReadingFiles::mode_at, hal_parse_expr::specs::Reading::decided, hal_parse_expr::specs::Reading::made_of, hal_parse_expr::specs::Seen::seen_as, hal_parse_expr::specs::Seen::seen))]
fn mode(words: &[Token]) -> Option<(Mode, &[Token])>
    ensures { seen_as seen_mode result ≡ mode_at words.now }
{
    if let Some((place, rest)) = past(words, Reserved::Reentrant) {
        return Some((Mode::Reentrant { place }, rest));
    }
    let Some((place, rest)) = past(words, Reserved::Exclusive) else {
        return None;
    };
    Some((Mode::Exclusive { place }, rest))
}

/// REENTRANT or EXCLUSIVE or none, and a semicolon.
#[tactic(auto, unfolding(crate::specs::ReadingFiles::mode_end_at, hal_parse_expr::specs::Reading::decided, hal_parse_expr::specs::Reading::made_of, hal_parse_expr::specs::Seen::seen_as, hal_parse_expr::specs::Seen::seen))]
pub(crate) fn mode_end(words: &[Token]) -> Option<(Option<Mode>, &[Token])>
    ensures { seen_as (option_map seen_mode) result ≡ mode_end_at words.now }
{
    if let Some((mode, end)) = mode(words) {
        return closed_mode(mode, end);
    }
    let Some((_, rest)) = past_symbol(words, Symbol::Semicolon) else {
        return None;
    };
    Some((None, rest))
}

/// The semicolon behind REENTRANT or EXCLUSIVE.
#[tactic(auto, unfolding(hal_parse_expr::specs::Reading::made_of, hal_parse_expr::specs::Seen::seen_as, hal_parse_expr::specs::Seen::seen))]
fn closed_mode(mode: Mode, words: &[Token]) -> Option<(Option<Mode>, &[Token])>
    ensures { seen_as (option_map seen_mode) result ≡ made_of (λ p. Some (seen_mode mode)) (past_symbol symbol.Semicolon words.now) }
{
    let Some((_, rest)) = past_symbol(words, Symbol::Semicolon) else {
        return None;
    };
    Some((Some(mode), rest))
}
