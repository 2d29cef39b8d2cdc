//! Files: what stands before a unit, and the unit.

ghost use Rattle.std.specs.Prelude.{◌≡◌, IfOk};
ghost use Rattle.hal_tree.specs.SeenUnits.{seen_file, seen_preface};
ghost use Rattle.hal_parse_expr.specs.Seen.{seen_as, seen_list};
ghost use Rattle.hal_parse.specs.ReadingFiles.{file_at, preface_at, prefaces_at};

use crate::templates::template;
use crate::units::read_unit;
use hal_parse_expr::{name, past};
use hal_tree::{File, Preface};
use hal_words::{Reserved, Token};
use std::alloc::{AllocError, Global};

/// The file with which the words begin, nested at most so deep, and the words behind it.
#[tactic(auto, using(hal_tree::proofs::MadeUnits::made_file), unfolding(crate::specs::ReadingFiles::file_at, hal_parse_expr::specs::Reading::made_of, hal_parse_expr::specs::Seen::seen_as, hal_parse_expr::specs::Seen::seen_list))]
pub(crate) fn read_file(
    alloc: Global,
    words: &[Token],
    depth: u32,
) -> Result<Option<(File, &[Token])>, AllocError>
    ensures { IfOk result (λ found. seen_as seen_file found ≡ file_at depth words.now) }
{
    let (prefaces, behind) = prefaces(alloc, words, depth)?;
    let Some((unit, rest)) = read_unit(alloc, behind, depth)? else {
        return Ok(None);
    };
    Ok(Some((File { prefaces, unit }, rest)))
}

/// As many includes and templates as there are.
#[tactic(auto, unfolding(crate::specs::ReadingFiles::prefaces_at, hal_parse_expr::specs::Seen::seen_list))]
pub(crate) fn prefaces(
    alloc: Global,
    words: &[Token],
    depth: u32,
) -> Result<(Vec<Preface>, &[Token]), AllocError>
    ensures { IfOk result (λ found. seen_list seen_preface found ≡ prefaces_at depth words.now) }
{
    let mut prefaces = Vec::new(alloc);
    let mut rest = words;
    'prefaces: while let Some((next, after)) = preface(alloc, rest, depth)? {
        prefaces.push(next)?;
        rest = after;
    }
    Ok((prefaces, rest))
}

/// INCLUDE and a name, or a template.
#[tactic(auto, using(hal_tree::proofs::MadeUnits::made_include, hal_tree::proofs::MadeUnits::made_template_preface), unfolding(crate::specs::ReadingFiles::preface_at, hal_parse_expr::specs::Reading::decided, hal_parse_expr::specs::Reading::made_of, hal_parse_expr::specs::Seen::seen_as, hal_parse_expr::specs::Seen::seen))]
fn preface(
    alloc: Global,
    words: &[Token],
    depth: u32,
) -> Result<Option<(Preface, &[Token])>, AllocError>
    ensures { IfOk result (λ found. seen_as seen_preface found ≡ preface_at depth words.now) }
{
    if let Some((place, behind)) = past(words, Reserved::Include) {
        let Some((name, rest)) = name(behind) else {
            return Ok(None);
        };
        return Ok(Some((Preface::Include { place, name }, rest)));
    }
    let Some((template, rest)) = template(alloc, words, depth)? else {
        return Ok(None);
    };
    Ok(Some((Preface::Template(template), rest)))
}
