//! The levels of an expression from the weakest to the strongest: OR, AND, comparisons, CAT, products.

ghost use Rattle.std.specs.Prelude.{◌≡◌, IfOk};
ghost use Rattle.hal_words.specs.declared.reserved.Reserved.TheVariants as reserved;
ghost use Rattle.hal_tree.specs.SeenExpressions.{seen_expression};
ghost use Rattle.hal_tree.specs.SeenLeaves.{seen_relation};
ghost use Rattle.hal_parse_expr.specs.Reading.{all};
ghost use Rattle.hal_parse_expr.specs.ReadingExpressions.{behind, both_of, cat_of, comparison_of, expression_of, primary_at, related, sum_of, term_of};
ghost use Rattle.hal_parse_expr.specs.Joints.{more_of};
ghost use Rattle.hal_parse_expr.specs.Seen.{seen_as, seen_list, seen_pair};

use crate::factors::{factor, further_factor};
use crate::found;
use crate::joint::{Joint, row};
use crate::leading::past;
use crate::leaves::relation;
use crate::sums::sum;
use hal_tree::{Expr, Relation};
use hal_words::{Reserved, Token};
use std::alloc::{AllocError, Global};

/// An expression: conjunctions with OR between them.
#[cycle(expressions)]
#[tactic(auto, using(crate::proofs::Steps::row_read, crate::proofs::Steps::no_row), unfolding(crate::specs::ReadingExpressions::expression_of, crate::specs::Joints::more_of, crate::specs::Joints::make_of, crate::specs::Seen::seen_as, crate::specs::Seen::seen_list))]
pub(crate) fn expression(
    alloc: Global,
    words: &[Token],
    depth: u32,
) -> Result<Option<(Expr, &[Token])>, AllocError>
    ensures { IfOk result (λ found. seen_as seen_expression found ≡ expression_of (primary_at depth) words.now) }
{
    let Some((first, rest)) = conjunction(alloc, words, depth)? else {
        return Ok(None);
    };
    let (others, after) = further(alloc, Joint::Or, rest, depth)?;
    let whole = row(alloc, Joint::Or, first, others)?;
    Ok(Some((whole, after)))
}

/// Comparisons with AND between them.
#[cycle(expressions)]
#[tactic(auto, using(crate::proofs::Steps::row_read, crate::proofs::Steps::no_row), unfolding(crate::specs::ReadingExpressions::both_of, crate::specs::Joints::more_of, crate::specs::Joints::make_of, crate::specs::Seen::seen_as, crate::specs::Seen::seen_list))]
fn conjunction(
    alloc: Global,
    words: &[Token],
    depth: u32,
) -> Result<Option<(Expr, &[Token])>, AllocError>
    ensures { IfOk result (λ found. seen_as seen_expression found ≡ both_of (primary_at depth) words.now) }
{
    let Some((first, rest)) = comparison(alloc, words, depth)? else {
        return Ok(None);
    };
    let (others, after) = further(alloc, Joint::And, rest, depth)?;
    let whole = row(alloc, Joint::And, first, others)?;
    Ok(Some((whole, after)))
}

/// Two chains of CAT with a relation between them, or one alone.
#[cycle(expressions)]
#[tactic(auto, using(hal_tree::proofs::MadeExpressions::made_compare), unfolding(crate::specs::ReadingExpressions::comparison_of, crate::specs::Reading::followed, crate::specs::Reading::with_tail, crate::specs::Seen::seen_as, crate::specs::Seen::seen_pair))]
fn comparison(
    alloc: Global,
    words: &[Token],
    depth: u32,
) -> Result<Option<(Expr, &[Token])>, AllocError>
    ensures { IfOk result (λ found. seen_as seen_expression found ≡ comparison_of (primary_at depth) words.now) }
{
    let (left, rest) = found!(chain(alloc, words, depth));
    let Some((relation, right, after)) = related(alloc, rest, depth)? else {
        return Ok(Some((left, rest)));
    };
    let whole = Expr::Compare {
        place: left.place(),
        left: Box::new(alloc, left)?,
        relation,
        right: Box::new(alloc, right)?,
    };
    Ok(Some((whole, after)))
}

/// A relation and what stands behind it.
#[cycle(expressions)]
#[tactic(auto, unfolding(crate::specs::ReadingExpressions::related, crate::specs::Reading::followed, crate::specs::Reading::made_of, crate::specs::Seen::seen_as, crate::specs::Seen::seen_pair))]
fn related(
    alloc: Global,
    words: &[Token],
    depth: u32,
) -> Result<Option<(Relation, Expr, &[Token])>, AllocError>
    ensures { IfOk result (λ found. seen_pair seen_relation seen_expression found ≡ related (primary_at depth) words.now) }
{
    let Some((relation, rest)) = relation(words) else {
        return Ok(None);
    };
    let (right, after) = found!(chain(alloc, rest, depth));
    Ok(Some((relation, right, after)))
}

/// Sums with CAT between them.
#[cycle(expressions)]
#[tactic(auto, using(crate::proofs::Steps::row_read, crate::proofs::Steps::no_row), unfolding(crate::specs::ReadingExpressions::cat_of, crate::specs::Joints::more_of, crate::specs::Joints::make_of, crate::specs::Seen::seen_as, crate::specs::Seen::seen_list))]
fn chain(alloc: Global, words: &[Token], depth: u32) -> Result<Option<(Expr, &[Token])>, AllocError>
    ensures { IfOk result (λ found. seen_as seen_expression found ≡ cat_of (primary_at depth) words.now) }
{
    let Some((first, rest)) = sum(alloc, words, depth)? else {
        return Ok(None);
    };
    let (others, after) = further(alloc, Joint::Cat, rest, depth)?;
    let whole = row(alloc, Joint::Cat, first, others)?;
    Ok(Some((whole, after)))
}

/// Factors one after another.
#[cycle(expressions)]
#[tactic(auto, using(crate::proofs::Steps::row_read, crate::proofs::Steps::no_row), unfolding(crate::specs::ReadingExpressions::term_of, crate::specs::Joints::more_of, crate::specs::Joints::make_of, crate::specs::Seen::seen_as, crate::specs::Seen::seen_list))]
pub(crate) fn term(
    alloc: Global,
    words: &[Token],
    depth: u32,
) -> Result<Option<(Expr, &[Token])>, AllocError>
    ensures { IfOk result (λ found. seen_as seen_expression found ≡ term_of (primary_at depth) words.now) }
{
    let Some((first, rest)) = factor(alloc, words, depth)? else {
        return Ok(None);
    };
    let (others, after) = further(alloc, Joint::Product, rest, depth)?;
    let whole = row(alloc, Joint::Product, first, others)?;
    Ok(Some((whole, after)))
}

/// As many operands as stand behind the first one.
#[cycle(expressions)]
#[tactic(auto, unfolding(crate::specs::Seen::seen_list))]
fn further(
    alloc: Global,
    joint: Joint,
    words: &[Token],
    depth: u32,
) -> Result<(Vec<Expr>, &[Token]), AllocError>
    ensures { IfOk result (λ found. seen_list seen_expression found ≡ all (more_of joint (primary_at depth)) words.now) }
{
    let mut others = Vec::new(alloc);
    let mut rest = words;
    'others: while let Some((next, after)) = operand(alloc, joint, rest, depth)? {
        others.push(next)?;
        rest = after;
    }
    Ok((others, rest))
}

/// A further operand.
#[cycle(expressions)]
#[tactic(auto, unfolding(crate::specs::Joints::more_of))]
fn operand(
    alloc: Global,
    joint: Joint,
    words: &[Token],
    depth: u32,
) -> Result<Option<(Expr, &[Token])>, AllocError>
    ensures { IfOk result (λ found. seen_as seen_expression found ≡ more_of joint (primary_at depth) words.now) }
{
    match joint {
        Joint::Or => disjunct(alloc, words, depth),
        Joint::And => conjunct(alloc, words, depth),
        Joint::Cat => joined(alloc, words, depth),
        Joint::Product => further_factor(alloc, words, depth),
    }
}

/// OR and a conjunction.
#[cycle(expressions)]
#[tactic(auto, unfolding(crate::specs::ReadingExpressions::behind, crate::specs::Reading::followed, crate::specs::Seen::seen_as, crate::specs::Seen::seen))]
fn disjunct(
    alloc: Global,
    words: &[Token],
    depth: u32,
) -> Result<Option<(Expr, &[Token])>, AllocError>
    ensures { IfOk result (λ found. seen_as seen_expression found ≡ behind reserved.Or (both_of (primary_at depth)) words.now) }
{
    let Some((_, rest)) = past(words, Reserved::Or) else {
        return Ok(None);
    };
    conjunction(alloc, rest, depth)
}

/// AND and a comparison.
#[cycle(expressions)]
#[tactic(auto, unfolding(crate::specs::ReadingExpressions::behind, crate::specs::Reading::followed, crate::specs::Seen::seen_as, crate::specs::Seen::seen))]
fn conjunct(
    alloc: Global,
    words: &[Token],
    depth: u32,
) -> Result<Option<(Expr, &[Token])>, AllocError>
    ensures { IfOk result (λ found. seen_as seen_expression found ≡ behind reserved.And (comparison_of (primary_at depth)) words.now) }
{
    let Some((_, rest)) = past(words, Reserved::And) else {
        return Ok(None);
    };
    comparison(alloc, rest, depth)
}

/// CAT and a sum.
#[cycle(expressions)]
#[tactic(auto, unfolding(crate::specs::ReadingExpressions::behind, crate::specs::Reading::followed, crate::specs::Seen::seen_as, crate::specs::Seen::seen))]
fn joined(
    alloc: Global,
    words: &[Token],
    depth: u32,
) -> Result<Option<(Expr, &[Token])>, AllocError>
    ensures { IfOk result (λ found. seen_as seen_expression found ≡ behind reserved.Cat (sum_of (primary_at depth)) words.now) }
{
    let Some((_, rest)) = past(words, Reserved::Cat) else {
        return Ok(None);
    };
    sum(alloc, rest, depth)
}
