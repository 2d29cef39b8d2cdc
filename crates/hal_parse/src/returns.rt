//! The type of a FUNCTION's result.

ghost use Rattle.std.specs.Prelude.{◌≡◌, Some, IfOk};
ghost use Rattle.std.specs.Option.{option_map};
ghost use Rattle.hal_tree.specs.SeenUnits.{seen_mode, seen_precision, seen_returns};
ghost use Rattle.hal_parse_expr.specs.Seen.{seen_as, seen_pair};
ghost use Rattle.hal_parse.specs.ReadingFiles.{precision_at, precision_option, returns_at, returns_end_at};

use crate::modes::mode_end;
use hal_parse_declarations::kind;
use hal_parse_expr::past;
use hal_tree::{Mode, Precision, Returns};
use hal_words::{Reserved, Token};
use std::alloc::{AllocError, Global};

/// SINGLE or DOUBLE.
#[tactic(auto, unfolding(crate::specs::ReadingFiles::precision_at, hal_parse_expr::specs::Reading::decided, hal_parse_expr::specs::Reading::made_of, hal_parse_expr::specs::Seen::seen_as, hal_parse_expr::specs::Seen::seen))]
fn precision(words: &[Token]) -> Option<(Precision, &[Token])>
    ensures { seen_as seen_precision result ≡ precision_at words.now }
{
    if let Some((place, rest)) = past(words, Reserved::Single) {
        return Some((Precision::Single { place }, rest));
    }
    let Some((place, rest)) = past(words, Reserved::Double) else {
        return None;
    };
    Some((Precision::Double { place }, rest))
}

/// SINGLE or DOUBLE or none.
#[tactic(auto, unfolding(crate::specs::ReadingFiles::precision_option, hal_parse_expr::specs::Reading::decided, hal_parse_expr::specs::Seen::seen_as))]
fn precision_option(words: &[Token]) -> (Option<Precision>, &[Token])
    ensures { Some (option_map seen_precision result.0, result.1.now) ≡ precision_option words.now }
{
    match precision(words) {
        Some((precision, rest)) => (Some(precision), rest),
        None => (None, words),
    }
}

/// A type and its precision, or none.
#[tactic(auto, using(hal_tree::proofs::MadeUnits::made_untyped, hal_tree::proofs::MadeUnits::made_typed_returns), unfolding(crate::specs::ReadingFiles::returns_at, hal_parse_expr::specs::Reading::decided, hal_parse_expr::specs::Reading::made_of, hal_parse_expr::specs::Seen::seen_as))]
fn returns(alloc: Global, words: &[Token], depth: u32) -> Result<(Returns, &[Token]), AllocError>
    ensures { IfOk result (λ found. Some (seen_returns found.0, found.1.now) ≡ returns_at depth words.now) }
{
    let Some((kind, behind)) = kind(alloc, words, depth)? else {
        return Ok((Returns::Untyped, words));
    };
    let (precision, rest) = precision_option(behind);
    Ok((Returns::Typed { kind, precision }, rest))
}

/// The type of a FUNCTION, its mode and the semicolon.
#[tactic(auto, unfolding(crate::specs::ReadingFiles::returns_end_at, hal_parse_expr::specs::Reading::followed, hal_parse_expr::specs::Reading::made_of, hal_parse_expr::specs::Seen::seen_as, hal_parse_expr::specs::Seen::seen_pair))]
pub(crate) fn returns_end(
    alloc: Global,
    words: &[Token],
    depth: u32,
) -> Result<Option<(Returns, Option<Mode>, &[Token])>, AllocError>
    ensures { IfOk result (λ found. seen_pair seen_returns (option_map seen_mode) found ≡ returns_end_at depth words.now) }
{
    let (returns, end) = returns(alloc, words, depth)?;
    let Some((mode, rest)) = mode_end(end) else {
        return Ok(None);
    };
    Ok(Some((returns, mode, rest)))
}
