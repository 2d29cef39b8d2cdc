//! The kinds of the cells to which values behind CONSTANT fall.

ghost use Rattle.std.specs.Prelude.{◌≡◌, ◌++◌, [], ◌∷◌, map, replicate, IfOk, OnOk};
ghost use Rattle.std.specs.Option.{option_map};
ghost use Rattle.hal_tree.specs.Rows.{expressions};
ghost use Rattle.hal_tree.specs.SeenDeclarations.{seen_attribute, seen_part};
ghost use Rattle.hal_tree.specs.SeenExpressions.{seen_expression};
ghost use Rattle.hal_phrases.specs.GatheredDeclarations.{is_bottom};
ghost use Rattle.hal_phrases.specs.SeenPhrases.{seen_phrase};
ghost use Rattle.hal_names.specs.SeenNames.{seen_names};
ghost use Rattle.hal_constants.specs.SeenKnown.{seen_known};
ghost use Rattle.hal_templates.specs.Kinds as plain;

use crate::counts::{add, is_few, times};
use crate::own::template_of;
use crate::reading::{kind_given, sizes_given, type_given};
use crate::sizes::size_in;
use crate::structures::{parts_of, structure_named};
use hal_constants::Known;
use hal_names::Names;
use hal_phrases::Phrase;
use hal_tree::{Attribute, Expr, Part};
use hal_values::Kind;
use std::alloc::{AllocError, Global};

/// So many places for each place of these dimensions.
#[tactic(auto, unfolding(crate::specs::Kinds::places_with, hal_tree::specs::Rows::expressions))]
fn places_with(
    names: &Names<'_>,
    known: &Known,
    phrase: &Phrase<'_>,
    sizes: &[Expr],
) -> Option<u128>
    ensures { result ≡ plain.places_with (seen_names names.now) (seen_known known.now) (seen_phrase phrase.now) 1 (expressions (map seen_expression sizes.now)) }
{
    let mut total: u128 = 1;
    for tree in sizes {
        let Some(size) = size_in(names, known, phrase, tree) else {
            return None;
        };
        total = times(total, u128::from(size));
    }
    Some(total)
}

/// The places of an array; without dimensions there is one.
#[tactic(auto, unfolding(crate::specs::Kinds::places_in))]
fn places_in(
    names: &Names<'_>,
    known: &Known,
    phrase: &Phrase<'_>,
    sizes: Option<&[Expr]>,
) -> Option<u128>
    ensures { result ≡ plain.places_in (seen_names names.now) (seen_known known.now) (seen_phrase phrase.now) (option_map (λ sizes. expressions (map seen_expression sizes.now)) sizes.entry) }
{
    match sizes {
        None => Some(1),
        Some(sizes) => places_with(names, known, phrase, sizes),
    }
}

/// Those of a part, unless there are too many besides so many others.
#[tactic(auto, using(hal_tree::proofs::MadeDeclarations::made_part))]
fn few_places(
    names: &Names<'_>,
    known: &Known,
    structure: &Phrase<'_>,
    count: usize,
    part: &Part,
) -> Option<u128>
    ensures { result ≡ plain.few_places (seen_names names.now) (seen_known known.now) (seen_phrase structure.now) count (seen_part part.now) }
{
    let sizes = sizes_given(&[], &part.attributes);
    let places = places_in(names, known, structure, sizes)?;
    if is_few(add(count as u128, places)) {
        Some(places)
    } else {
        None
    }
}

/// Whether a part of this level has no parts of its own, where these stand behind it.
#[tactic(auto, using(hal_tree::proofs::MadeDeclarations::made_part), unfolding(hal_phrases::specs::GatheredDeclarations::is_bottom))]
fn is_bottom(level: u32, rest: &[Part]) -> bool
    ensures { result ≡ is_bottom level (map seen_part rest.now) }
{
    match rest.split_first() {
        None => true,
        Some((next, _)) => next.level <= level,
    }
}

/// Adds a kind so many times.
#[tactic(auto, using(crate::proofs::Repeated::behind, crate::proofs::Repeated::none_behind))]
fn push_kind(
    into: &mut Vec<Option<Kind>>,
    count: u128,
    kind: Option<Kind>,
) -> Result<(), AllocError>
    ensures { OnOk result (into.new.items ≡ into.old.items ++ replicate count kind) }
{
    let mut left = count;
    while let Some(fewer) = left.checked_sub(1) {
        into.push(kind)?;
        left = fewer;
    }
    Ok(())
}

/// The kinds of the cells of one copy, where there are few.
#[tactic(auto, using(hal_tree::proofs::MadeDeclarations::made_part), unfolding(crate::specs::Kinds::laid))]
fn laid(
    alloc: Global,
    names: &Names<'_>,
    known: &Known,
    structure: &Phrase<'_>,
    parts: &[Part],
) -> Result<Option<Vec<Option<Kind>>>, AllocError>
    ensures { IfOk result (λ kinds. option_map (λ list. list.items) kinds ≡ plain.laid (seen_names names.now) (seen_known known.now) (seen_phrase structure.now) [] (map seen_part parts.now)) }
{
    let mut kinds = Vec::new(alloc);
    let mut rest = parts;
    while let Some((part, later)) = rest.split_first() {
        if is_bottom(part.level, later) {
            let Some(places) = few_places(names, known, structure, kinds.len(), part) else {
                return Ok(None);
            };
            let kind = kind_given(names, known, structure, &[], &part.attributes);
            push_kind(&mut kinds, places, kind)?;
        }
        rest = later;
    }
    Ok(Some(kinds))
}

/// Those of the structure template that a phrase declares.
#[tactic(auto, unfolding(crate::specs::Kinds::kinds_of_structure, crate::specs::Kinds::kinds_of_list))]
fn kinds_of_structure(
    alloc: Global,
    names: &Names<'_>,
    known: &Known,
    structure: Option<Phrase<'_>>,
) -> Result<Option<Vec<Option<Kind>>>, AllocError>
    ensures { IfOk result (λ kinds. option_map (λ list. list.items) kinds ≡ plain.kinds_of_structure (seen_names names.now) (seen_known known.now) (option_map seen_phrase structure.entry)) }
{
    let Some(structure) = structure else {
        return Ok(None);
    };
    match parts_of(structure.node) {
        None => Ok(None),
        Some(parts) => laid(alloc, names, known, &structure, parts),
    }
}

/// The one kind of all cells.
#[tactic(auto, using(crate::proofs::Repeated::behind))]
fn one_kind(alloc: Global, kind: Option<Kind>) -> Result<Vec<Option<Kind>>, AllocError>
    ensures { IfOk result (λ kinds. kinds.items ≡ kind ∷ []) }
{
    let mut kinds = Vec::new(alloc);
    kinds.push(kind)?;
    Ok(kinds)
}

/// The kinds of the cells of data with these attributes, where they are known and few (language document, Templates).
#[tactic(auto, unfolding(crate::specs::Kinds::kinds_by))]
pub(crate) fn kinds_of(
    alloc: Global,
    names: &Names<'_>,
    known: &Known,
    phrase: &Phrase<'_>,
    common: &[Attribute],
    own: &[Attribute],
) -> Result<Option<Vec<Option<Kind>>>, AllocError>
    ensures { IfOk result (λ kinds. option_map (λ list. list.items) kinds ≡ plain.kinds_of (seen_names names.now) (seen_known known.now) (seen_phrase phrase.now) (map seen_attribute common.now) (map seen_attribute own.now)) }
{
    match template_of(type_given(common, own)) {
        None => {
            let kinds = one_kind(alloc, kind_given(names, known, phrase, common, own))?;
            Ok(Some(kinds))
        }
        Some(name) => {
            let structure = structure_named(names, phrase.around.block, &name);
            kinds_of_structure(alloc, names, known, structure)
        }
    }
}
