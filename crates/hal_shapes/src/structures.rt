//! Whether a reference is a structure with the parts and the copies that are wanted.

ghost use Rattle.std.specs.Prelude.{◌≡◌, map};
ghost use Rattle.std.specs.Option.{option_map};
ghost use Rattle.hal_tree.specs.SeenDeclarations.{seen_part};
ghost use Rattle.hal_tree.specs.SeenExpressions.{seen_reference};
ghost use Rattle.hal_tree.specs.SeenLeaves.{seen_name};
ghost use Rattle.hal_phrases.specs.SeenPhrases.{seen_phrase};
ghost use Rattle.hal_names.specs.SeenNames.{seen_names};
ghost use Rattle.hal_constants.specs.SeenKnown.{seen_known};
ghost use Rattle.hal_sizes.specs.Parts.{bottoms};
ghost use Rattle.hal_shapes.specs.Shapes as shapes;

use crate::arrays::{may_equal, may_match};
use crate::selections::{copies_chosen, declared_for, part_reached, structure_of};
use hal_constants::Known;
use hal_names::Names;
use hal_phrases::{Node, Phrase};
use hal_scope::type_of;
use hal_sizes::{bottom, cells_of_parts, extent_of_part, kind_of_part, parts_of};
use hal_tree::{Identifier, Part, Reference};

/// Whether two bottom parts, of two structure templates, have the same kind and dimensions.
fn same_part(
    names: &Names<'_>,
    known: &Known,
    one: &Phrase<'_>,
    part: &Part,
    two: &Phrase<'_>,
    other: &Part,
) -> bool
    ensures { result ≡ shapes.same_part (seen_names names.now) (seen_known known.now) (seen_phrase one.now) (seen_part part.now) (seen_phrase two.now) (seen_part other.now) }
{
    may_equal(
        kind_of_part(names, known, one, part),
        kind_of_part(names, known, two, other),
    ) && may_match(
        extent_of_part(names, known, one, part),
        extent_of_part(names, known, two, other),
    )
}

/// Whether the bottom parts under two parts of these levels are the same in order, names aside.
#[tactic(auto, unfolding(crate::specs::Shapes::same_parts))]
fn same_parts(
    names: &Names<'_>,
    known: &Known,
    one: &Phrase<'_>,
    high: u32,
    parts: &[Part],
    two: &Phrase<'_>,
    low: u32,
    others: &[Part],
) -> bool
    ensures { result ≡ shapes.same_parts (seen_names names.now) (seen_known known.now) (seen_phrase one.now) (bottoms high (map seen_part parts.now)) (seen_phrase two.now) (bottoms low (map seen_part others.now)) }
{
    let mut left = parts;
    let mut right = others;
    while let Some((part, behind)) = bottom(high, left) {
        let Some((other, later)) = bottom(low, right) else {
            return false;
        };
        if !same_part(names, known, one, part, two, other) {
            return false;
        }
        left = behind;
        right = later;
    }
    bottom(low, right).is_none()
}

/// Whether the parts of two structure templates are the same, as far as they are known.
#[tactic(auto, unfolding(crate::specs::Shapes::same_structures))]
fn same_structures(
    names: &Names<'_>,
    known: &Known,
    one: &Phrase<'_>,
    first: Option<(u32, &[Part])>,
    two: &Phrase<'_>,
    second: Option<(u32, &[Part])>,
) -> bool
    ensures { result ≡ shapes.same_structures (seen_names names.now) (seen_known known.now) (seen_phrase one.now) (option_map (λ u. (u.0, map seen_part u.1.now)) first.entry) (seen_phrase two.now) (option_map (λ u. (u.0, map seen_part u.1.now)) second.entry) }
{
    match (first, second) {
        (Some((high, parts)), Some((low, others))) => {
            same_parts(names, known, one, high, parts, two, low, others)
        }
        _ => true,
    }
}

/// All parts of a structure template.
fn all_parts<'a>(structure: &Phrase<'a>) -> Option<(u32, &'a [Part])>
    ensures { option_map (λ u. (u.0, map seen_part u.1.now)) result ≡ shapes.all_parts (seen_phrase structure.now) }
{
    let parts = parts_of(structure.node)?;
    Some((0, parts))
}

/// The parts at the end of a path in a structure template.
#[tactic(auto, using(hal_scope::proofs::Lists::nil_seen, hal_tree::proofs::MadeDeclarations::made_part))]
fn parts_reached<'a>(structure: &Phrase<'a>, path: &[Identifier]) -> Option<(u32, &'a [Part])>
    ensures { option_map (λ u. (u.0, map seen_part u.1.now)) result ≡ shapes.parts_reached (seen_phrase structure.now) (map seen_name path.now) }
{
    if path.is_empty() {
        return all_parts(structure);
    }
    let (part, behind) = part_reached(structure, path)?;
    Some((part.level, behind))
}

/// The cells of parts.
fn cells_under(
    names: &Names<'_>,
    known: &Known,
    structure: &Phrase<'_>,
    parts: Option<(u32, &[Part])>,
) -> Option<u128>
    ensures { result ≡ shapes.cells_under (seen_names names.now) (seen_known known.now) (seen_phrase structure.now) (option_map (λ u. (u.0, map seen_part u.1.now)) parts.entry) }
{
    let (level, parts) = parts?;
    cells_of_parts(names, known, structure, level, parts)
}

/// Whether two counts are the same, as far as both are known.
#[tactic(auto, unfolding(crate::specs::Shapes::may_count))]
fn may_count(one: Option<u128>, other: Option<u128>) -> bool
    ensures { result ≡ shapes.may_count one other }
{
    match (one, other) {
        (Some(one), Some(other)) => one == other,
        _ => true,
    }
}

/// The same of copies.
#[tactic(auto, unfolding(crate::specs::Shapes::may_count))]
fn may_copy(one: Option<u16>, other: Option<u16>) -> bool
    ensures { result ≡ shapes.may_count one other }
{
    match (one, other) {
        (Some(one), Some(other)) => one == other,
        _ => true,
    }
}

/// Whether the parts at the end of a path hold all cells of a copy.
fn fills(names: &Names<'_>, known: &Known, structure: &Phrase<'_>, path: &[Identifier]) -> bool
    ensures { result ≡ shapes.fills (seen_names names.now) (seen_known known.now) (seen_phrase structure.now) (map seen_name path.now) }
{
    may_count(
        cells_under(names, known, structure, parts_reached(structure, path)),
        cells_under(names, known, structure, all_parts(structure)),
    )
}

/// Whether no more than one copy is left.
#[tactic(auto, unfolding(crate::specs::Shapes::is_one_copy))]
fn is_one_copy(copies: Option<u16>) -> bool
    ensures { result ≡ shapes.is_one_copy copies }
{
    match copies {
        Some(count) => count <= 1,
        None => true,
    }
}

/// Whether what is chosen of a structure has the parts and the copies of another one, and cells that follow each other.
fn matches_one(
    names: &Names<'_>,
    known: &Known,
    own: &Phrase<'_>,
    copies: Option<u16>,
    path: &[Identifier],
    template: &Phrase<'_>,
    wanted: Option<u16>,
) -> bool
    ensures { result ≡ shapes.matches (seen_names names.now) (seen_known known.now) (seen_phrase own.now) copies (map seen_name path.now) (seen_phrase template.now) wanted }
{
    let chosen = parts_reached(own, path);
    may_copy(copies, wanted)
        && (same_structures(names, known, own, chosen, template, all_parts(template))
            && (is_one_copy(copies) || fills(names, known, own, path)))
}

/// The same where both structure templates are known.
#[tactic(auto, unfolding(crate::specs::Shapes::matches_any))]
fn matches_any(
    names: &Names<'_>,
    known: &Known,
    own: Option<Phrase<'_>>,
    copies: Option<u16>,
    path: &[Identifier],
    template: Option<Phrase<'_>>,
    wanted: Option<u16>,
) -> bool
    ensures { result ≡ shapes.matches_any (seen_names names.now) (seen_known known.now) (option_map seen_phrase own.entry) copies (map seen_name path.now) (option_map seen_phrase template.entry) wanted }
{
    let Some(own) = own else {
        return true;
    };
    match template {
        None => true,
        Some(template) => matches_one(names, known, &own, copies, path, &template, wanted),
    }
}

/// The structure template of what a phrase declares.
#[tactic(auto, unfolding(crate::specs::Shapes::structure_at))]
fn structure_at<'a>(names: &Names<'a>, declared: &Phrase<'_>) -> Option<Phrase<'a>>
    ensures { option_map seen_phrase result ≡ shapes.structure_at (seen_names names.now) (seen_phrase declared.now) (seen_phrase declared.now).node }
{
    match declared.node {
        Node::Item { common, item } => {
            structure_of(names, declared.around.block, type_of(common, item))
        }
        _ => None,
    }
}

/// Whether a reference is a structure with the parts of a template and so many copies.
#[tactic(auto, using(hal_tree::proofs::MadeExpressions::made_reference), unfolding(crate::specs::Shapes::fits_structure))]
pub(crate) fn fits_structure(
    names: &Names<'_>,
    known: &Known,
    phrase: &Phrase<'_>,
    template: Option<Phrase<'_>>,
    wanted: Option<u16>,
    reference: &Reference,
) -> bool
    ensures { result ≡ shapes.fits_structure (seen_names names.now) (seen_known known.now) (seen_phrase phrase.now) (option_map seen_phrase template.entry) wanted (seen_reference reference.now) }
{
    let Some(declared) = declared_for(names, phrase, &reference.name) else {
        return true;
    };
    let own = structure_at(names, &declared);
    let copies = copies_chosen(names, known, phrase, &reference.subscript, &declared);
    matches_any(
        names,
        known,
        own,
        copies,
        &reference.further,
        template,
        wanted,
    )
}
