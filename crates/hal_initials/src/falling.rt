//! Initial values of structures, and the parts to which they fall.

ghost use Rattle.std.specs.Prelude.{◌≡◌, map};
ghost use Rattle.std.specs.Option.{option_map};
ghost use Rattle.hal_tree.specs.Rows.{initials};
ghost use Rattle.hal_tree.specs.SeenDeclarations.{seen_initial, seen_part, seen_type};
ghost use Rattle.hal_phrases.specs.SeenPhrases.{seen_phrase};
ghost use Rattle.hal_names.specs.SeenNames.{seen_names};
ghost use Rattle.hal_constants.specs.SeenKnown.{seen_known};
ghost use Rattle.hal_sizes.specs.Parts.{bottoms};
ghost use Rattle.hal_initials.specs.Falling as falling;
ghost use Rattle.hal_initials.specs.SeenCells.{seen_cells};

use crate::repetition::{count_of, count_of_all};
use crate::suiting::{initials_fault, single_fault};
use hal_base::Place;
use hal_constants::Known;
use hal_kinds::{Class, class_of_type};
use hal_names::Names;
use hal_phrases::Phrase;
use hal_scope::type_among;
use hal_sizes::{add, bottom, kind_of_part};
use hal_tree::{Initial, Part, Type};

/// The class of a type's cells.
#[tactic(auto, unfolding(crate::specs::Falling::class_of_kind))]
pub(crate) fn class_of_kind(kind: Option<&Type>) -> Option<Class>
    ensures { result ≡ falling.class_of_kind (option_map (λ kind. seen_type kind.now) kind.entry) }
{
    Some(class_of_type(kind?))
}

/// An initial value that falls to this part of a structure template.
#[tactic(auto, using(hal_tree::proofs::MadeDeclarations::made_part))]
fn part_fault(
    names: &Names<'_>,
    known: &Known,
    phrase: &Phrase<'_>,
    structure: &Phrase<'_>,
    initial: &Initial,
    part: &Part,
) -> Option<(u16, Place)>
    ensures { result ≡ falling.part_fault (seen_names names.now) (seen_known known.now) (seen_phrase phrase.now) (seen_phrase structure.now) (seen_initial initial.now) (seen_part part.now) }
{
    let wanted = class_of_kind(type_among(&part.attributes));
    let kind = kind_of_part(names, known, structure, part);
    single_fault(names, known, phrase, wanted, kind, initial)
}

/// An initial value that falls to the `k`-th cell of a variable whose copies have these cells.
#[tactic(auto, using(crate::proofs::Laid::got))]
fn fault_at(
    names: &Names<'_>,
    known: &Known,
    phrase: &Phrase<'_>,
    structure: &Phrase<'_>,
    cells: &[&Part],
    initial: &Initial,
    k: u128,
) -> Option<(u16, Place)>
    ensures { result ≡ falling.fault_at (seen_names names.now) (seen_known known.now) (seen_phrase phrase.now) (seen_phrase structure.now) (seen_cells cells.now) (seen_initial initial.now) k }
{
    if cells.is_empty() {
        return None;
    }
    let place = k % (cells.len() as u128);
    let part = *cells.get(place as usize)?;
    part_fault(names, known, phrase, structure, initial, part)
}

/// The same so many times, from the `k`-th cell on.
#[tactic(auto, unfolding(crate::specs::Falling::fault_from))]
fn fault_from(
    names: &Names<'_>,
    known: &Known,
    phrase: &Phrase<'_>,
    structure: &Phrase<'_>,
    cells: &[&Part],
    value: &Initial,
    times: u32,
    k: u128,
) -> Option<(u16, Place)>
    ensures { result ≡ falling.fault_from (seen_names names.now) (seen_known known.now) (seen_phrase phrase.now) (seen_phrase structure.now) (seen_cells cells.now) (seen_initial value.now) times k }
{
    let mut left = times;
    let mut here = k;
    while let Some(fewer) = left.checked_sub(1) {
        let found = fault_at(names, known, phrase, structure, cells, value, here);
        if found.is_some() {
            return found;
        }
        left = fewer;
        here = add(here, 1);
    }
    None
}

/// An initial value from the `k`-th cell on.
#[cycle(falling)]
#[tactic(auto, using(hal_tree::proofs::MadeDeclarations::made_value, hal_tree::proofs::MadeDeclarations::made_literal_times, hal_tree::proofs::MadeDeclarations::made_name_times, hal_tree::proofs::MadeDeclarations::made_list_times), unfolding(crate::specs::Falling::fallen))]
fn fallen(
    initial: &Initial,
    names: &Names<'_>,
    known: &Known,
    phrase: &Phrase<'_>,
    structure: &Phrase<'_>,
    cells: &[&Part],
    k: u128,
) -> Option<(u16, Place)>
    ensures { result ≡ falling.fallen (seen_names names.now) (seen_known known.now) (seen_phrase phrase.now) (seen_phrase structure.now) (seen_cells cells.now) (seen_initial initial.now) k }
{
    match initial {
        Initial::Value { .. } => fault_at(names, known, phrase, structure, cells, initial, k),
        Initial::LiteralTimes { count, .. } => {
            fault_from(names, known, phrase, structure, cells, initial, *count, k)
        }
        Initial::NameTimes { count, .. } => {
            fault_from(names, known, phrase, structure, cells, initial, *count, k)
        }
        Initial::ListTimes {
            place: _,
            count,
            values,
        } => again(values, names, known, phrase, structure, cells, *count, k),
    }
}

/// A list of initial values so many times, from the `k`-th cell on.
#[cycle(falling)]
#[tactic(auto, unfolding(crate::specs::Falling::again))]
fn again(
    values: &[Initial],
    names: &Names<'_>,
    known: &Known,
    phrase: &Phrase<'_>,
    structure: &Phrase<'_>,
    cells: &[&Part],
    times: u32,
    k: u128,
) -> Option<(u16, Place)>
    ensures { result ≡ falling.repeated_from (seen_names names.now) (seen_known known.now) (seen_phrase phrase.now) (seen_phrase structure.now) (seen_cells cells.now) (initials (map seen_initial values.now)) times k }
{
    let step = count_of_all(values);
    if step == 0 {
        return None;
    }
    let mut left = times;
    let mut here = k;
    while let Some(fewer) = left.checked_sub(1) {
        let found = fallen_all(values, names, known, phrase, structure, cells, here);
        if found.is_some() {
            return found;
        }
        left = fewer;
        here = add(here, step);
    }
    None
}

/// Initial values from the `k`-th cell on.
#[cycle(falling)]
#[tactic(auto, unfolding(crate::specs::Falling::fallen_all, hal_tree::specs::Rows::initials))]
pub(crate) fn fallen_all(
    values: &[Initial],
    names: &Names<'_>,
    known: &Known,
    phrase: &Phrase<'_>,
    structure: &Phrase<'_>,
    cells: &[&Part],
    k: u128,
) -> Option<(u16, Place)>
    ensures { result ≡ falling.fallen_all (seen_names names.now) (seen_known known.now) (seen_phrase phrase.now) (seen_phrase structure.now) (seen_cells cells.now) (initials (map seen_initial values.now)) k }
{
    let mut here = k;
    for initial in values {
        let found = fallen(initial, names, known, phrase, structure, cells, here);
        if found.is_some() {
            return found;
        }
        here = add(here, count_of(initial));
    }
    None
}

/// One value that fills all cells: it has to suit each bottom part.
#[tactic(auto, using(hal_tree::proofs::MadeDeclarations::made_part), unfolding(crate::specs::Falling::filled))]
pub(crate) fn filled(
    names: &Names<'_>,
    known: &Known,
    phrase: &Phrase<'_>,
    structure: &Phrase<'_>,
    values: &[Initial],
    parts: &[Part],
) -> Option<(u16, Place)>
    ensures { result ≡ falling.filled (seen_names names.now) (seen_known known.now) (seen_phrase phrase.now) (seen_phrase structure.now) (initials (map seen_initial values.now)) (bottoms 0 (map seen_part parts.now)) }
{
    let mut rest = parts;
    while let Some((part, later)) = bottom(0, rest) {
        let wanted = class_of_kind(type_among(&part.attributes));
        let kind = kind_of_part(names, known, structure, part);
        let found = initials_fault(values, names, known, phrase, wanted, kind);
        if found.is_some() {
            return found;
        }
        rest = later;
    }
    None
}
