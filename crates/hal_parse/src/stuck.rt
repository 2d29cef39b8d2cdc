//! Where the reading of words that are no file gets stuck: the units are gone through once more, and each statement is read once.

ghost use Rattle.std.specs.Prelude.{◌≡◌, IfOk, false, true};
ghost use Rattle.hal_tree.specs.SeenUnits.{seen_head};
ghost use Rattle.hal_parse_statements.specs.ReadingStatements.{statement_at};
ghost use Rattle.hal_parse.specs.ReadingFiles.{block_at, element_of, elements_of};
ghost use Rattle.hal_parse.specs.Reaching.{body_reach, close_reach, headed_reach, opened_reach, reach_of_read, reached, seen_reach};
ghost use Rattle.hal_parse.specs.Stuck.{block_stuck, file_stuck, stuck_place, last_place};

use crate::files::prefaces;
use crate::heads::{head, holds_elements, stands_inside};
use hal_base::Place;
use hal_parse_declarations::{label, name_end, read_declarations};
use hal_parse_expr::past;
use hal_parse_statements::read_statement;
use hal_tree::Head;
use hal_words::{Reserved, Token};
use std::alloc::{AllocError, Global};

/// How far the reading of a phrase gets: the words behind it, or those from the one on at which it gets stuck.
#[derive(Clone, Copy)]
pub(crate) enum Reach<'a> {
    Behind(&'a [Token]),
    Stuck(&'a [Token]),
}

/// The words from the one on at which the reading of a file gets stuck.
#[tactic(auto, using(crate::proofs::Reached::block_behind_is, crate::proofs::Reached::block_stuck_is), unfolding(crate::specs::Stuck::file_stuck, hal_parse_expr::specs::Seen::seen_list))]
pub(crate) fn stuck_in_file(
    alloc: Global,
    words: &[Token],
    depth: u32,
) -> Result<&[Token], AllocError>
    ensures { IfOk result (λ rest. rest.now ≡ file_stuck depth words.now) }
{
    let (_, rest) = prefaces(alloc, words, depth)?;
    match unit_reach(alloc, rest, depth, true)? {
        Reach::Behind(behind) => Ok(behind),
        Reach::Stuck(stuck) => Ok(stuck),
    }
}

/// How far a unit is read; only the outermost one may be a PROGRAM or a COMPOOL.
#[cycle(stuck)]
#[tactic(auto, using(crate::proofs::Reached::no_unit, crate::proofs::Reached::some_unit))]
fn unit_reach<'a>(
    alloc: Global,
    words: &'a [Token],
    depth: u32,
    outermost: bool,
) -> Result<Reach<'a>, AllocError>
    ensures { IfOk result (λ reach. seen_reach reach ≡ reached depth outermost words.now) }
{
    if depth == 0 {
        return Ok(Reach::Stuck(words));
    }
    reach_within(alloc, words, depth - 1, outermost)
}

/// The same of a unit whose inside is nested at most so deep.
#[cycle(stuck)]
#[tactic(auto, unfolding(crate::specs::Reaching::opened_reach, crate::specs::Stuck::where_read, hal_parse_expr::specs::Seen::seen_as, hal_parse_expr::specs::Seen::seen))]
fn reach_within<'a>(
    alloc: Global,
    words: &'a [Token],
    depth: u32,
    outermost: bool,
) -> Result<Reach<'a>, AllocError>
    ensures { IfOk result (λ reach. seen_reach reach ≡ opened_reach depth outermost words.now) }
{
    let Some((_, behind)) = label(words) else {
        return Ok(Reach::Stuck(words));
    };
    reach_behind_name(alloc, words, behind, depth, outermost)
}

/// Behind the name of a unit.
#[cycle(stuck)]
#[tactic(auto, unfolding(crate::specs::Reaching::headed_reach, crate::specs::Stuck::where_read, hal_parse_expr::specs::Seen::seen_as, hal_parse_expr::specs::Seen::seen))]
fn reach_behind_name<'a>(
    alloc: Global,
    words: &'a [Token],
    behind: &'a [Token],
    depth: u32,
    outermost: bool,
) -> Result<Reach<'a>, AllocError>
    ensures { IfOk result (λ reach. seen_reach reach ≡ headed_reach depth outermost words.now behind.now) }
{
    let Some((head, rest)) = head(alloc, behind, depth)? else {
        return Ok(Reach::Stuck(words));
    };
    if outermost || stands_inside(&head) {
        reach_behind_head(alloc, head, rest, depth)
    } else {
        Ok(Reach::Stuck(words))
    }
}

/// Behind the head of a unit.
#[cycle(stuck)]
#[tactic(auto, unfolding(hal_parse_expr::specs::Seen::seen_list))]
fn reach_behind_head<'a>(
    alloc: Global,
    head: Head,
    words: &'a [Token],
    depth: u32,
) -> Result<Reach<'a>, AllocError>
    ensures { IfOk result (λ reach. seen_reach reach ≡ body_reach depth (seen_head head) words.now) }
{
    let (_, behind) = read_declarations(alloc, words, depth)?;
    if holds_elements(&head) {
        let (end, stuck) = past_elements(alloc, behind, depth)?;
        Ok(reach_at_close(end, stuck))
    } else {
        Ok(reach_at_close(behind, behind))
    }
}

/// The words behind as many statements and units as there are, and those from the one on at which the reading of a further unit gets stuck.
#[cycle(stuck)]
#[tactic(auto, using(crate::proofs::Reached::elements_smaller, crate::proofs::Reached::elements_behind, crate::proofs::Reached::elements_end, crate::proofs::Reached::elements_stuck))]
fn past_elements<'a>(
    alloc: Global,
    words: &'a [Token],
    depth: u32,
) -> Result<(&'a [Token], &'a [Token]), AllocError>
    ensures end { IfOk result (λ found. found.0.now ≡ (elements_of depth (block_at depth) true words.now).1) }
    ensures stuck { IfOk result (λ found. found.1.now ≡ block_stuck depth false found.0.now) }
{
    let mut rest = words;
    'elements: loop {
        match element_reach(alloc, rest, depth)? {
            Reach::Behind(behind) => rest = behind,
            Reach::Stuck(stuck) => return Ok((rest, stuck)),
        }
    }
}

/// How far a unit inside, or a statement, is read; where it is neither, how far the unit is.
#[cycle(stuck)]
#[tactic(auto, using(crate::proofs::Reached::inner_is, crate::proofs::Reached::inner_lacks))]
fn element_reach<'a>(alloc: Global, words: &'a [Token], depth: u32) -> Result<Reach<'a>, AllocError>
    ensures { IfOk result (λ reach. seen_reach reach ≡ reach_of_read (element_of depth (block_at depth) words.now) (block_stuck depth false words.now)) }
{
    match unit_reach(alloc, words, depth, false)? {
        Reach::Behind(behind) => Ok(Reach::Behind(behind)),
        Reach::Stuck(stuck) => past_statement(alloc, words, depth, stuck),
    }
}

/// How far a statement is read; where there is none, this far.
#[tactic(auto, unfolding(crate::specs::Reaching::reach_of_read, hal_parse_expr::specs::Seen::seen_as))]
fn past_statement<'a>(
    alloc: Global,
    words: &'a [Token],
    depth: u32,
    stuck: &'a [Token],
) -> Result<Reach<'a>, AllocError>
    ensures { IfOk result (λ reach. seen_reach reach ≡ reach_of_read (statement_at depth words.now) stuck.now) }
{
    match read_statement(alloc, words, depth)? {
        Some((_, rest)) => Ok(Reach::Behind(rest)),
        None => Ok(Reach::Stuck(stuck)),
    }
}

/// At the end of a unit, where the reading of a further unit gets stuck there.
#[tactic(auto, unfolding(crate::specs::Reaching::close_reach, crate::specs::Stuck::where_read, hal_parse_expr::specs::Seen::seen_as, hal_parse_expr::specs::Seen::seen))]
fn reach_at_close<'a>(words: &'a [Token], stuck: &'a [Token]) -> Reach<'a>
    ensures { seen_reach result ≡ close_reach words.now stuck.now }
{
    let Some((_, behind)) = past(words, Reserved::Close) else {
        return Reach::Stuck(stuck);
    };
    match name_end(behind) {
        Some((_, rest)) => Reach::Behind(rest),
        None => Reach::Stuck(words),
    }
}

/// The place of the word before so many last ones, or of the last word, or the unit's beginning.
pub(crate) fn place_of(words: &[Token], left: usize, unit: u32) -> Place
    ensures { result ≡ stuck_place unit words.now left }
{
    match words.get(words.len().saturating_sub(left)) {
        Some(token) => token.place,
        None => last_place(words, unit),
    }
}

/// The place of the last word, or the unit's beginning.
fn last_place(words: &[Token], unit: u32) -> Place
    ensures { result ≡ last_place unit words.now }
{
    match words.get(words.len().saturating_sub(1)) {
        Some(token) => token.place,
        None => Place {
            unit,
            line: 1,
            column: 1,
        },
    }
}
