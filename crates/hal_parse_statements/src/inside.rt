//! Statements inside others: they are one level deeper.

ghost use Rattle.std.specs.Prelude.{◌≡◌, IfOk};
ghost use Rattle.hal_tree.specs.SeenStatements.{seen_group, seen_statement};
ghost use Rattle.hal_parse_expr.specs.Seen.{seen_as, seen_list};
ghost use Rattle.hal_parse_declarations.specs.ReadingDeclarations.{where_left};
ghost use Rattle.hal_parse_statements.specs.ReadingStatements.{group_of, statement_below, statements_of};

use crate::statements::read_statement;
use hal_parse_declarations::name_end;
use hal_parse_expr::past;
use hal_tree::{Group, Statement};
use hal_words::{Reserved, Token};
use std::alloc::{AllocError, Global};

/// A statement inside another one, where one level more is left.
#[cycle(statements)]
#[tactic(auto, using(crate::proofs::CodeStatements::inside_none, crate::proofs::CodeStatements::inside_some), unfolding(hal_parse_expr::specs::Seen::seen_as))]
pub(crate) fn inside(
    alloc: Global,
    words: &[Token],
    depth: u32,
) -> Result<Option<(Statement, &[Token])>, AllocError>
    ensures { IfOk result (λ found. seen_as seen_statement found ≡ where_left (statement_below depth) words.now) }
{
    if depth == 0 {
        return Ok(None);
    }
    read_statement(alloc, words, depth - 1)
}

/// As many statements inside another one as there are.
#[cycle(statements)]
#[tactic(auto, unfolding(crate::specs::ReadingStatements::statements_of, hal_parse_expr::specs::Seen::seen_list))]
pub(crate) fn all_inside(
    alloc: Global,
    words: &[Token],
    depth: u32,
) -> Result<(Vec<Statement>, &[Token]), AllocError>
    ensures { IfOk result (λ found. seen_list seen_statement found ≡ statements_of (statement_below depth) words.now) }
{
    let mut statements = Vec::new(alloc);
    let mut rest = words;
    'statements: while let Some((next, after)) = inside(alloc, rest, depth)? {
        statements.push(next)?;
        rest = after;
    }
    Ok((statements, rest))
}

/// The statements of a group, END, a name or none, and a semicolon.
#[cycle(statements)]
#[tactic(auto, using(hal_tree::proofs::MadeStatements::made_group), unfolding(crate::specs::ReadingStatements::group_of, hal_parse_expr::specs::Reading::followed, hal_parse_expr::specs::Reading::made_of, hal_parse_expr::specs::Seen::seen_as, hal_parse_expr::specs::Seen::seen, hal_parse_expr::specs::Seen::seen_list))]
pub(crate) fn group(
    alloc: Global,
    words: &[Token],
    depth: u32,
) -> Result<Option<(Group, &[Token])>, AllocError>
    ensures { IfOk result (λ found. seen_as seen_group found ≡ group_of (statement_below depth) words.now) }
{
    let (statements, close) = all_inside(alloc, words, depth)?;
    let Some((_, behind)) = past(close, Reserved::End) else {
        return Ok(None);
    };
    let Some((end, rest)) = name_end(behind) else {
        return Ok(None);
    };
    Ok(Some((Group { statements, end }, rest)))
}
