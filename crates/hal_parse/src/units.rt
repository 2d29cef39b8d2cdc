//! Units, and what stands in them: a unit is one level deeper than what it stands in.

ghost use Rattle.std.specs.Prelude.{◌≡◌, IfOk, map};
ghost use Rattle.hal_grammar.specs.Units.{stands_inside};
ghost use Rattle.hal_tree.specs.SeenDeclarations.{seen_declaration};
ghost use Rattle.hal_tree.specs.SeenLeaves.{seen_name};
ghost use Rattle.hal_tree.specs.SeenUnits.{seen_element, seen_head, seen_unit};
ghost use Rattle.hal_parse_expr.specs.Reading.{all};
ghost use Rattle.hal_parse_expr.specs.Seen.{seen_as, seen_list};
ghost use Rattle.hal_parse.specs.ReadingFiles.{block_at, block_behind, block_close, block_of, element_of, elements_of, head_of, inner_block};

use crate::heads::{head, holds_elements, stands_inside};
use hal_parse_declarations::{label, name_end, read_declarations};
use hal_parse_expr::past;
use hal_parse_statements::read_statement;
use hal_tree::{Declaration, Element, Head, Identifier, Unit};
use hal_words::{Reserved, Token};
use std::alloc::{AllocError, Global};

/// The unit with which the words begin, nested at most so deep, and the words behind it.
#[cycle(units)]
#[tactic(auto, using(crate::proofs::CodeUnits::unit_none, crate::proofs::CodeUnits::unit_some), unfolding(hal_parse_expr::specs::Seen::seen_as))]
pub(crate) fn read_unit(
    alloc: Global,
    words: &[Token],
    depth: u32,
) -> Result<Option<(Unit, &[Token])>, AllocError>
    ensures { IfOk result (λ found. seen_as seen_unit found ≡ block_at depth words.now) }
{
    if depth == 0 {
        return Ok(None);
    }
    unit_within(alloc, words, depth - 1)
}

/// A unit whose inside is nested at most so deep.
#[cycle(units)]
#[tactic(auto, unfolding(crate::specs::ReadingFiles::block_of, hal_parse_expr::specs::Reading::followed, hal_parse_expr::specs::Seen::seen_as))]
fn unit_within(
    alloc: Global,
    words: &[Token],
    depth: u32,
) -> Result<Option<(Unit, &[Token])>, AllocError>
    ensures { IfOk result (λ found. seen_as seen_unit found ≡ block_of depth (block_at depth) words.now) }
{
    let Some((name, behind)) = label(words) else {
        return Ok(None);
    };
    let Some((head, rest)) = head(alloc, behind, depth)? else {
        return Ok(None);
    };
    unit_behind(alloc, name, head, rest, depth)
}

/// Behind the head of a unit.
#[cycle(units)]
#[tactic(auto, unfolding(crate::specs::ReadingFiles::block_behind, hal_parse_expr::specs::Seen::seen_as, hal_parse_expr::specs::Seen::seen_list))]
fn unit_behind(
    alloc: Global,
    name: Identifier,
    head: Head,
    words: &[Token],
    depth: u32,
) -> Result<Option<(Unit, &[Token])>, AllocError>
    ensures { IfOk result (λ found. seen_as seen_unit found ≡ block_behind depth (block_at depth) (seen_name name) (seen_head head) words.now) }
{
    let (declarations, rest) = read_declarations(alloc, words, depth)?;
    unit_close(alloc, name, head, declarations, rest, depth)
}

/// Behind the declarations of a unit: what it holds, CLOSE, a name or none, and a semicolon.
#[cycle(units)]
#[tactic(auto, using(hal_tree::proofs::MadeUnits::made_unit), unfolding(crate::specs::ReadingFiles::block_close, hal_parse_expr::specs::Reading::followed, hal_parse_expr::specs::Reading::made_of, hal_parse_expr::specs::Seen::seen_as, hal_parse_expr::specs::Seen::seen, hal_parse_expr::specs::Seen::seen_list))]
fn unit_close(
    alloc: Global,
    name: Identifier,
    head: Head,
    declarations: Vec<Declaration>,
    words: &[Token],
    depth: u32,
) -> Result<Option<(Unit, &[Token])>, AllocError>
    ensures { IfOk result (λ found. seen_as seen_unit found ≡ block_close depth (block_at depth) (seen_name name) (seen_head head) (map seen_declaration declarations.items) words.now) }
{
    let held = holds_elements(&head);
    let (elements, end) = elements(alloc, held, words, depth)?;
    let Some((_, behind)) = past(end, Reserved::Close) else {
        return Ok(None);
    };
    let Some((close, rest)) = name_end(behind) else {
        return Ok(None);
    };
    let whole = Unit {
        name,
        head,
        declarations,
        elements,
        close,
    };
    Ok(Some((whole, rest)))
}

/// As many statements and units as there are, where the unit holds any.
#[cycle(units)]
#[tactic(auto, unfolding(crate::specs::ReadingFiles::elements_of, hal_parse_expr::specs::Seen::seen_list))]
fn elements(
    alloc: Global,
    held: bool,
    words: &[Token],
    depth: u32,
) -> Result<(Vec<Element>, &[Token]), AllocError>
    ensures { IfOk result (λ found. seen_list seen_element found ≡ elements_of depth (block_at depth) held words.now) }
{
    if held {
        all_elements(alloc, words, depth)
    } else {
        Ok((Vec::new(alloc), words))
    }
}

/// As many statements and units as there are.
#[cycle(units)]
#[tactic(auto, unfolding(hal_parse_expr::specs::Seen::seen_list))]
fn all_elements(
    alloc: Global,
    words: &[Token],
    depth: u32,
) -> Result<(Vec<Element>, &[Token]), AllocError>
    ensures { IfOk result (λ found. seen_list seen_element found ≡ all (element_of depth (block_at depth)) words.now) }
{
    let mut elements = Vec::new(alloc);
    let mut rest = words;
    'elements: while let Some((next, after)) = element(alloc, rest, depth)? {
        elements.push(next)?;
        rest = after;
    }
    Ok((elements, rest))
}

/// A unit inside, or a statement.
#[cycle(units)]
#[tactic(auto, using(hal_tree::proofs::MadeUnits::made_unit_element, hal_tree::proofs::MadeUnits::made_statement_element), unfolding(crate::specs::ReadingFiles::element_of, hal_parse_expr::specs::Reading::or_else, hal_parse_expr::specs::Reading::made_of, hal_parse_expr::specs::Seen::seen_as))]
fn element(
    alloc: Global,
    words: &[Token],
    depth: u32,
) -> Result<Option<(Element, &[Token])>, AllocError>
    ensures { IfOk result (λ found. seen_as seen_element found ≡ element_of depth (block_at depth) words.now) }
{
    if let Some((unit, rest)) = inner_unit(alloc, words, depth)? {
        return Ok(Some((Element::Unit(unit), rest)));
    }
    let Some((statement, rest)) = read_statement(alloc, words, depth)? else {
        return Ok(None);
    };
    Ok(Some((Element::Statement(statement), rest)))
}

/// A unit, where it may stand inside another one.
#[cycle(units)]
#[tactic(auto, unfolding(crate::specs::ReadingFiles::inner_block, hal_parse_expr::specs::Reading::followed, hal_parse_expr::specs::Reading::where_true, hal_parse_expr::specs::Seen::seen_as))]
fn inner_unit(
    alloc: Global,
    words: &[Token],
    depth: u32,
) -> Result<Option<(Unit, &[Token])>, AllocError>
    ensures { IfOk result (λ found. seen_as seen_unit found ≡ inner_block (block_at depth) words.now) }
{
    let Some((unit, rest)) = read_unit(alloc, words, depth)? else {
        return Ok(None);
    };
    if is_inner(&unit) {
        Ok(Some((unit, rest)))
    } else {
        Ok(None)
    }
}

/// Whether a unit may stand in another one.
#[tactic(auto, using(hal_tree::proofs::MadeUnits::parts_of_unit))]
fn is_inner(unit: &Unit) -> bool
    ensures { result ≡ stands_inside (head_of (seen_unit unit.now)) }
{
    stands_inside(&unit.head)
}
