//! How many cells data have.

ghost use Rattle.std.specs.Prelude.{◌≡◌, map};
ghost use Rattle.std.specs.Option.{option_map};
ghost use Rattle.hal_tree.specs.Rows.{expressions};
ghost use Rattle.hal_tree.specs.SeenDeclarations.{seen_attribute, seen_declared, seen_part, seen_type};
ghost use Rattle.hal_tree.specs.SeenExpressions.{seen_expression};
ghost use Rattle.hal_phrases.specs.SeenPhrases.{seen_phrase};
ghost use Rattle.hal_names.specs.SeenNames.{seen_names};
ghost use Rattle.hal_constants.specs.SeenKnown.{seen_known};
ghost use Rattle.hal_sizes.specs.Cells as counted;

use crate::counts::{add, times};
use crate::parts::{bottom, extent_of_part, parts_of, structure_named};
use crate::sizes::{copies_of, extent_of, places_in};
use hal_constants::Known;
use hal_kinds::sizes_of;
use hal_names::Names;
use hal_phrases::Phrase;
use hal_scope::type_of;
use hal_tree::{Attribute, Declared, Expr, Part, Type};
use hal_words::Name;

/// The cells of those of these parts that belong to a part of this level, in the structure template of this phrase (language document, Structures).
#[tactic(auto, unfolding(crate::specs::Cells::cells_with))]
pub fn cells_of_parts(
    names: &Names<'_>,
    known: &Known,
    structure: &Phrase<'_>,
    level: u32,
    parts: &[Part],
) -> Option<u128>
    ensures { result ≡ counted.cells_of_parts (seen_names names.now) (seen_known known.now) (seen_phrase structure.now) level (map seen_part parts.now) }
{
    let mut total: u128 = 0;
    let mut rest = parts;
    while let Some((part, later)) = bottom(level, rest) {
        let extent = extent_of_part(names, known, structure, part)?;
        total = add(total, places_in(extent));
        rest = later;
    }
    Some(total)
}

/// The cells of one copy of a structure whose template is this phrase.
fn cells_of_structure(names: &Names<'_>, known: &Known, structure: &Phrase<'_>) -> Option<u128>
    ensures { result ≡ counted.cells_of_structure (seen_names names.now) (seen_known known.now) (seen_phrase structure.now) }
{
    cells_of_parts(names, known, structure, 0, parts_of(structure.node)?)
}

/// The same of the structure template that a name means in a block.
fn cells_named(names: &Names<'_>, known: &Known, block: usize, template: &Name) -> Option<u128>
    ensures { result ≡ counted.cells_named (seen_names names.now) (seen_known known.now) block template.now }
{
    let structure = structure_named(names, block, template)?;
    cells_of_structure(names, known, &structure)
}

/// So many copies of so many cells; data without copies have the cells once.
#[tactic(auto, unfolding(crate::specs::Cells::cells_of_copies))]
fn cells_of_copies(copies: Option<u16>, cells: Option<u128>) -> Option<u128>
    ensures { result ≡ counted.cells_of_copies copies cells }
{
    match (copies, cells) {
        (Some(copies), Some(cells)) => Some(times(u128::from(copies.max(1)), cells)),
        _ => None,
    }
}

/// The cells of an array.
fn cells_of_array(
    names: &Names<'_>,
    known: &Known,
    phrase: &Phrase<'_>,
    sizes: Option<&[Expr]>,
) -> Option<u128>
    ensures { result ≡ counted.cells_of_array (seen_names names.now) (seen_known known.now) (seen_phrase phrase.now) (option_map (λ list. expressions (map seen_expression list.now)) sizes.entry) }
{
    let extent = extent_of(names, known, phrase, sizes)?;
    Some(places_in(extent))
}

/// The cells of data of this type, declared with these sizes.
#[tactic(auto, using(hal_tree::proofs::MadeDeclarations::made_integer_type, hal_tree::proofs::MadeDeclarations::made_boolean_type, hal_tree::proofs::MadeDeclarations::made_event_type, hal_tree::proofs::MadeDeclarations::made_bit_type, hal_tree::proofs::MadeDeclarations::made_character_type, hal_tree::proofs::MadeDeclarations::made_structure_type), unfolding(crate::specs::Cells::cells_of_kind))]
fn cells_of_kind(
    names: &Names<'_>,
    known: &Known,
    phrase: &Phrase<'_>,
    kind: &Type,
    sizes: Option<&[Expr]>,
) -> Option<u128>
    ensures { result ≡ counted.cells_of_kind (seen_names names.now) (seen_known known.now) (seen_phrase phrase.now) (seen_type kind.now) (option_map (λ list. expressions (map seen_expression list.now)) sizes.entry) }
{
    match kind {
        Type::Structure {
            place: _,
            template,
            copies: _,
        } => cells_of_copies(
            copies_of(names, known, phrase, Some(kind)),
            cells_named(names, known, phrase.around.block, template),
        ),
        Type::Integer { place: _ } => cells_of_array(names, known, phrase, sizes),
        Type::Boolean { place: _ } => cells_of_array(names, known, phrase, sizes),
        Type::Event { place: _ } => cells_of_array(names, known, phrase, sizes),
        Type::Bit { .. } => cells_of_array(names, known, phrase, sizes),
        Type::Character { .. } => cells_of_array(names, known, phrase, sizes),
    }
}

/// The cells of what is declared, where their number is known (language document, Sizes).
pub fn cells_of_item(
    names: &Names<'_>,
    known: &Known,
    phrase: &Phrase<'_>,
    common: &[Attribute],
    item: &Declared,
) -> Option<u128>
    ensures { result ≡ counted.cells_of_item (seen_names names.now) (seen_known known.now) (seen_phrase phrase.now) (map seen_attribute common.now) (seen_declared item.now) }
{
    let kind = type_of(common, item)?;
    cells_of_kind(names, known, phrase, kind, sizes_of(common, item))
}
