//! What other phrases are read by: expressions, lists of them, references and arguments, nested at most so deep.

ghost use Rattle.std.specs.Prelude.{◌≡◌, IfOk};
ghost use Rattle.hal_tree.specs.SeenExpressions.{seen_expression, seen_reference};
ghost use Rattle.hal_parse_expr.specs.ReadingExpressions.{closed, deeper_than, expression_at, expressions, expressions_at, expressions_of, reference_at};
ghost use Rattle.hal_parse_expr.specs.Seen.{seen_as, seen_as_list};

use crate::leaves::name;
use crate::levels::expression;
use crate::lists::expressions;
use crate::primaries::closed_expressions;
use crate::references::reference_behind;
use hal_tree::{Expr, Reference};
use hal_words::Token;
use std::alloc::{AllocError, Global};

/// The longest expression with which the words begin, and the words behind it.
///
/// # Errors
/// `AllocError` where memory is wanting.
#[tactic(auto, unfolding(crate::specs::ReadingExpressions::expression_at))]
pub fn read_expression(
    alloc: Global,
    words: &[Token],
    depth: u32,
) -> Result<Option<(Expr, &[Token])>, AllocError>
    ensures { IfOk result (λ found. seen_as seen_expression found ≡ expression_at depth words.now) }
{
    expression(alloc, words, depth)
}

/// The longest list of expressions parted by commas, one at least, and the words behind it.
///
/// # Errors
/// `AllocError` where memory is wanting.
#[tactic(auto, unfolding(crate::specs::ReadingExpressions::expressions_at))]
pub fn read_expressions(
    alloc: Global,
    words: &[Token],
    depth: u32,
) -> Result<Option<(Vec<Expr>, &[Token])>, AllocError>
    ensures { IfOk result (λ found. seen_as_list seen_expression expressions found ≡ expressions_at depth words.now) }
{
    expressions(alloc, words, depth)
}

/// The longest reference, and the words behind it.
///
/// # Errors
/// `AllocError` where memory is wanting.
#[tactic(auto, unfolding(crate::specs::ReadingExpressions::reference_at, crate::specs::ReadingExpressions::reference_of, crate::specs::Reading::followed, crate::specs::Seen::seen_as))]
pub fn read_reference(
    alloc: Global,
    words: &[Token],
    depth: u32,
) -> Result<Option<(Reference, &[Token])>, AllocError>
    ensures { IfOk result (λ found. seen_as seen_reference found ≡ reference_at depth words.now) }
{
    let Some((first, rest)) = name(words) else {
        return Ok(None);
    };
    reference_behind(alloc, first.place, first.name, rest, depth)
}

/// Expressions parted by commas with a parenthesis behind them, one level deeper than what they stand in.
///
/// # Errors
/// `AllocError` where memory is wanting.
pub fn read_arguments(
    alloc: Global,
    words: &[Token],
    depth: u32,
) -> Result<Option<(Vec<Expr>, &[Token])>, AllocError>
    ensures { IfOk result (λ found. seen_as_list seen_expression expressions found ≡ closed expressions_of (deeper_than depth) words.now) }
{
    closed_expressions(alloc, words, depth)
}
