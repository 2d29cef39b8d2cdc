//! The longest expression, by the grammar alone.

ghost use Rattle.std.specs.Prelude.{◌≡◌, ℕ, IfOk};
ghost use Rattle.hal_base.specs.declared.limits.TheConstants.{NESTING_LIMIT};
ghost use Rattle.hal_grammar.specs.Expressions.{nesting, nesting_of_all, nesting_of_reference};
ghost use Rattle.hal_grammar.specs.Words.{Words};
ghost use Rattle.hal_grammar.specs.SpellsExpressions.{SpellsExpression, SpellsExpressions, SpellsReference};
ghost use Rattle.hal_tree.specs.SeenExpressions.{seen_expression};
ghost use Rattle.hal_parse_expr.specs.Best.{BestOf};
ghost use Rattle.hal_parse_expr.specs.ReadingExpressions.{expression_at, expressions_at, reference_at};
ghost use Rattle.hal_parse_expr.specs.Seen.{seen_as};

use crate::readers::read_expression;
use hal_base::NESTING_LIMIT;
use hal_tree::Expr;
use hal_words::Token;
use std::alloc::{AllocError, Global};

/// The longest expression of nesting at most 64 with which the words begin, and the words behind it; None where no such expression begins there.
/// Every other one that begins there ends sooner, at a word with which an expression goes on.
///
/// # Errors
/// `AllocError` where memory is wanting.
pub fn expression(alloc: Global, words: &[Token]) -> Result<Option<(Expr, &[Token])>, AllocError>
    ensures { IfOk result (λ found. BestOf SpellsExpression nesting NESTING_LIMIT 2 words.now (seen_as seen_expression found)) }
{
    read_expression(alloc, words, NESTING_LIMIT)
}

/// What the readers give is the longest phrase that the grammar allows: of each nesting.
pub fn readings_are_longest()
    ensures expression { (n : ℕ) (words : Words) → BestOf SpellsExpression nesting n 2 words (expression_at n words) }
    ensures expressions { (n : ℕ) (words : Words) → BestOf SpellsExpressions nesting_of_all n 0 words (expressions_at n words) }
    ensures reference { (n : ℕ) (words : Words) → BestOf SpellsReference nesting_of_reference n 9 words (reference_at n words) }
{}
