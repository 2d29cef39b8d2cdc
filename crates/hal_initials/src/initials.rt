//! The initial values of what is declared.

ghost use Rattle.std.specs.Prelude.{◌≡◌, IfOk, map};
ghost use Rattle.std.specs.Option.{option_map};
ghost use Rattle.hal_tree.specs.Rows.{initials};
ghost use Rattle.hal_tree.specs.SeenDeclarations.{seen_attribute, seen_declared, seen_initial, seen_part, seen_type};
ghost use Rattle.hal_phrases.specs.SeenPhrases.{seen_phrase};
ghost use Rattle.hal_names.specs.SeenNames.{seen_names};
ghost use Rattle.hal_constants.specs.SeenKnown.{seen_known};
ghost use Rattle.hal_initials.specs.Initials as begun;

use crate::falling::{fallen_all, filled};
use crate::laying::laid;
use crate::repetition::count_of_all;
use crate::suiting::{initials_fault, missigned_initial};
use hal_base::rules::WRONG_NUMBER_OF_INITIAL_VALUES;
use hal_base::{CELL_LIMIT, Place};
use hal_constants::{Known, kind_of_item};
use hal_kinds::{class_of_type, constant_of, initial_of};
use hal_names::Names;
use hal_phrases::{Node, Phrase};
use hal_scope::{ruled, type_of, unless};
use hal_sizes::{cells_of_item, parts_of, structure_named};
use hal_tree::{Attribute, Declared, Initial, Part, Type};
use hal_words::Name;
use std::alloc::{AllocError, Global};

/// The values with which a name begins.
fn values_of<'a>(common: &'a [Attribute], item: &'a Declared) -> Option<&'a [Initial]>
    ensures { option_map (λ values. initials (map seen_initial values.now)) result ≡ begun.values_of (map seen_attribute common.now) (seen_declared item.now) }
{
    let initial = initial_of(common, item);
    if initial.is_some() {
        return initial;
    }
    constant_of(common, item)
}

/// Another number of values than one or that of the cells.
#[tactic(auto, unfolding(crate::specs::Initials::miscounted))]
fn miscounted(place: Place, count: u128, cells: Option<u128>) -> Option<Place>
    ensures { result ≡ begun.miscounted place count cells }
{
    match cells {
        None => None,
        Some(cells) => unless(count == 1 || count == cells, place),
    }
}

/// Values of which each has its cell. A variable of more cells than a set may have in all is refused as such.
#[tactic(auto, unfolding(crate::specs::Initials::spread))]
fn spread(
    alloc: Global,
    names: &Names<'_>,
    known: &Known,
    phrase: &Phrase<'_>,
    structure: &Phrase<'_>,
    parts: &[Part],
    values: &[Initial],
    cells: Option<u128>,
) -> Result<Option<(u16, Place)>, AllocError>
    ensures { IfOk result (λ found. found ≡ begun.spread (seen_names names.now) (seen_known known.now) (seen_phrase phrase.now) (seen_phrase structure.now) (map seen_part parts.now) (initials (map seen_initial values.now)) cells) }
{
    let Some(cells) = cells else {
        return Ok(None);
    };
    if count_of_all(values) != cells || u128::from(CELL_LIMIT) < cells {
        return Ok(None);
    }
    let laid = laid(alloc, names, known, structure, parts)?;
    Ok(fallen_all(values, names, known, phrase, structure, &laid, 0))
}

/// Values of a structure with these parts, which has so many cells.
fn structured(
    alloc: Global,
    names: &Names<'_>,
    known: &Known,
    phrase: &Phrase<'_>,
    structure: &Phrase<'_>,
    parts: &[Part],
    values: &[Initial],
    cells: Option<u128>,
) -> Result<Option<(u16, Place)>, AllocError>
    ensures { IfOk result (λ found. found ≡ begun.structured (seen_names names.now) (seen_known known.now) (seen_phrase phrase.now) (seen_phrase structure.now) (map seen_part parts.now) (initials (map seen_initial values.now)) cells) }
{
    if count_of_all(values) == 1 {
        return Ok(filled(names, known, phrase, structure, values, parts));
    }
    spread(alloc, names, known, phrase, structure, parts, values, cells)
}

/// The same of the structure template that a name means.
fn structured_as(
    alloc: Global,
    names: &Names<'_>,
    known: &Known,
    phrase: &Phrase<'_>,
    template: &Name,
    values: &[Initial],
    cells: Option<u128>,
) -> Result<Option<(u16, Place)>, AllocError>
    ensures { IfOk result (λ found. found ≡ begun.structured_as (seen_names names.now) (seen_known known.now) (seen_phrase phrase.now) template.now (initials (map seen_initial values.now)) cells) }
{
    let Some(structure) = structure_named(names, phrase.around.block, template) else {
        return Ok(None);
    };
    let Some(parts) = parts_of(structure.node) else {
        return Ok(None);
    };
    structured(
        alloc, names, known, phrase, &structure, parts, values, cells,
    )
}

/// Values of data of this type.
#[tactic(auto, using(hal_tree::proofs::MadeDeclarations::made_integer_type, hal_tree::proofs::MadeDeclarations::made_boolean_type, hal_tree::proofs::MadeDeclarations::made_event_type, hal_tree::proofs::MadeDeclarations::made_bit_type, hal_tree::proofs::MadeDeclarations::made_character_type, hal_tree::proofs::MadeDeclarations::made_structure_type), unfolding(crate::specs::Initials::misvalued))]
fn misvalued(
    alloc: Global,
    names: &Names<'_>,
    known: &Known,
    phrase: &Phrase<'_>,
    common: &[Attribute],
    item: &Declared,
    values: &[Initial],
    kind: &Type,
) -> Result<Option<(u16, Place)>, AllocError>
    ensures { IfOk result (λ found. found ≡ begun.misvalued (seen_names names.now) (seen_known known.now) (seen_phrase phrase.now) (map seen_attribute common.now) (seen_declared item.now) (initials (map seen_initial values.now)) (seen_type kind.now)) }
{
    match kind {
        Type::Structure {
            place: _,
            template,
            copies: _,
        } => {
            let cells = cells_of_item(names, known, phrase, common, item);
            structured_as(alloc, names, known, phrase, template, values, cells)
        }
        Type::Integer { place: _ } => Ok(single(names, known, phrase, common, item, values, kind)),
        Type::Boolean { place: _ } => Ok(single(names, known, phrase, common, item, values, kind)),
        Type::Event { place: _ } => Ok(single(names, known, phrase, common, item, values, kind)),
        Type::Bit { .. } => Ok(single(names, known, phrase, common, item, values, kind)),
        Type::Character { .. } => Ok(single(names, known, phrase, common, item, values, kind)),
    }
}

/// Values of data that are no structure.
fn single(
    names: &Names<'_>,
    known: &Known,
    phrase: &Phrase<'_>,
    common: &[Attribute],
    item: &Declared,
    values: &[Initial],
    kind: &Type,
) -> Option<(u16, Place)>
    ensures { result ≡ begun.single (seen_names names.now) (seen_known known.now) (seen_phrase phrase.now) (map seen_attribute common.now) (seen_declared item.now) (initials (map seen_initial values.now)) (seen_type kind.now) }
{
    let kinds = kind_of_item(names, known, phrase, common, item);
    initials_fault(
        values,
        names,
        known,
        phrase,
        Some(class_of_type(kind)),
        kinds,
    )
}

/// Where the number of values of what is declared is wrong.
#[tactic(auto, using(hal_tree::proofs::MadeDeclarations::made_declared))]
fn counted(
    names: &Names<'_>,
    known: &Known,
    phrase: &Phrase<'_>,
    common: &[Attribute],
    item: &Declared,
    values: &[Initial],
) -> Option<(u16, Place)>
    ensures { result ≡ begun.counted (seen_names names.now) (seen_known known.now) (seen_phrase phrase.now) (map seen_attribute common.now) (seen_declared item.now) (initials (map seen_initial values.now)) }
{
    let cells = cells_of_item(names, known, phrase, common, item);
    ruled(
        WRONG_NUMBER_OF_INITIAL_VALUES,
        miscounted(item.name.place, count_of_all(values), cells),
    )
}

/// The first value of what is declared that its cell doesn't take.
fn valued(
    alloc: Global,
    names: &Names<'_>,
    known: &Known,
    phrase: &Phrase<'_>,
    common: &[Attribute],
    item: &Declared,
    values: &[Initial],
) -> Result<Option<(u16, Place)>, AllocError>
    ensures { IfOk result (λ found. found ≡ begun.valued (seen_names names.now) (seen_known known.now) (seen_phrase phrase.now) (map seen_attribute common.now) (seen_declared item.now) (initials (map seen_initial values.now))) }
{
    match type_of(common, item) {
        None => Ok(None),
        Some(kind) => misvalued(alloc, names, known, phrase, common, item, values, kind),
    }
}

/// The values of what is declared.
fn begun(
    alloc: Global,
    names: &Names<'_>,
    known: &Known,
    phrase: &Phrase<'_>,
    common: &[Attribute],
    item: &Declared,
    values: &[Initial],
) -> Result<Option<(u16, Place)>, AllocError>
    ensures { IfOk result (λ found. found ≡ begun.begun (seen_names names.now) (seen_known known.now) (seen_phrase phrase.now) (map seen_attribute common.now) (seen_declared item.now) (initials (map seen_initial values.now))) }
{
    let found = counted(names, known, phrase, common, item, values);
    if found.is_some() {
        return Ok(found);
    }
    valued(alloc, names, known, phrase, common, item, values)
}

/// The rule of 702, 704 and 706 of initial values that a phrase breaks, and where (language document, Kinds); or memory is wanting.
#[tactic(auto, using(hal_tree::proofs::MadeDeclarations::made_declared), unfolding(crate::specs::Initials::misinitialed))]
pub fn misinitialed(
    alloc: Global,
    names: &Names<'_>,
    known: &Known,
    phrase: &Phrase<'_>,
) -> Result<Option<(u16, Place)>, AllocError>
    ensures { IfOk result (λ found. found ≡ begun.misinitialed (seen_names names.now) (seen_known known.now) (seen_phrase phrase.now) (seen_phrase phrase.now).node) }
{
    match phrase.node {
        Node::Item { common, item } => match values_of(common, item) {
            None => Ok(None),
            Some(values) => begun(alloc, names, known, phrase, common, item, values),
        },
        _ => Ok(None),
    }
}

/// Where a phrase breaks rule 702 by a sign before what is no integer (language document, Kinds).
#[tactic(auto, unfolding(crate::specs::Initials::missigned))]
pub fn missigned(names: &Names<'_>, phrase: &Phrase<'_>) -> Option<Place>
    ensures { result ≡ begun.missigned (seen_names names.now) (seen_phrase phrase.now) (seen_phrase phrase.now).node }
{
    match phrase.node {
        Node::Initial(initial) => missigned_initial(names, phrase, initial),
        _ => None,
    }
}
